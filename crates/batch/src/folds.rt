// The operations `f` and `g`: a table folded by the fold of version 1 and by that of version 2. The operations `r` and `q`: the same by the folds that take rings.
use crate::body::{BadCase, Body};
use crate::most::{EDGES, VERTICES};
use crate::output::Output;
use crate::store::Store;
use folding::Folded;
use table::{Refusal, Table};

// The folds of version 1 and of version 2, and the two that take rings.
#[derive(Clone, Copy, Debug, PartialEq, Eq)]
pub enum Fold {
    Sum,
    Weakest,
    Rings,
    RingsWeakest,
}

impl Fold {
    // The name of its call.
    fn name(self) -> &'static [u8] {
        match self {
            Fold::Sum => b"fold",
            Fold::Weakest => b"fold_weakest",
            Fold::Rings => b"fold_rings",
            Fold::RingsWeakest => b"fold_rings_weakest",
        }
    }

    // Folds a table into the second set of slices.
    fn call(
        self,
        table: &Table,
        budget: u32,
        starts: &mut [u32],
        targets: &mut [u32],
        counts: &mut [u64],
    ) -> Result<Folded, Refusal> {
        match self {
            Fold::Sum => folding::fold(table, budget, starts, targets, counts),
            Fold::Weakest => folding::fold_weakest(table, budget, starts, targets, counts),
            Fold::Rings => folding::fold_rings(table, budget, starts, targets, counts),
            Fold::RingsWeakest => folding::fold_rings_weakest(
                table, budget, starts, targets, counts,
            ),
        }
    }
}

// The budget, the rooms of the second set of slices, whose numbers are all 7, then a table. Puts the name of the fold, its answer, and the second set as the call left it.
pub fn fold_case(
    fold: Fold,
    mut body: Body<'_>,
    store: &mut Store,
    out: &mut Output,
) -> Result<(), BadCase> {
    let budget = body.number()?;
    let room_starts = body.length()?;
    let room_targets = body.length()?;
    let room_counts = body.length()?;
    let table = store.table(body)?;
    let mut starts = [7u32; VERTICES];
    let mut targets = [7u32; EDGES];
    let mut counts = [7u64; VERTICES];
    let starts = starts.get_mut(..room_starts).ok_or(BadCase)?;
    let targets = targets.get_mut(..room_targets).ok_or(BadCase)?;
    let counts = counts.get_mut(..room_counts).ok_or(BadCase)?;
    let folded = fold.call(&table, budget, starts, targets, counts);
    out.answer(
        fold.name(),
        folded.map(|folded| [
            folded.folded as u64,
            folded.left as u64,
            folded.edges as u64,
        ]),
    );
    out.byte(b'\n');
    out.numbers(starts);
    out.numbers(targets);
    out.numbers(counts);
    out.byte(b'\n');
    Ok(())
}
