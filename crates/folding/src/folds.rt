// The fold of a table: checked, its room asked, where rings are refused its cycles looked for, and then written to the second set of slices.
ghost use Rattle.std.specs.Prelude.{◌≡◌, Ok};
ghost use Rattle.table.specs.Verdict.{Says};
ghost use Rattle.table.specs.Table.{WellFormed, edges};
ghost use Rattle.rule.specs.declared.Choosing.TheVariants.{Sum, Weakest};
ghost use Rattle.rule.specs.Way.{the_fold, plain as refusing, ringed as taking};
ghost use Rattle.folding.specs.Folding.{FoldDone, FoldedAt, outcome_of};
ghost use Rattle.folding.specs.Steps.{Refuses, FoldRoom};

use rule::{Choosing, Mode, Rings};
use table::{Refusal, Rows, Table, VERTEX_LIMIT};

// What a fold leaves: how many were folded, how many candidates remain in the new table, and the new edge count.
#[derive(Clone, Copy)]
pub struct Folded {
    pub folded: usize,
    pub left: usize,
    pub edges: usize,
}

// Whether rings are refused and the table has a directed cycle.
fn refuses(rings: Rings, rows: &Rows) -> bool
    requires { WellFormed rows.now.starts rows.now.targets }
    ensures { Says result (Refuses rings (edges rows.now)) }
{
    match rings {
        Rings::Refused => cycle::has_cycle(rows, &mut [0u8; VERTEX_LIMIT]),
        Rings::Taken => false,
    }
}

// Folds a table, with a slice that has room for the number of every vertex.
fn fold_in(
    mode: Mode,
    table: &Table,
    budget: usize,
    next: &mut [u32],
    starts2: &mut [u32],
    targets2: &mut [u32],
    counts2: &mut [u64],
) -> Folded
    requires { FoldRoom
        (the_fold mode)
        table.now
        next.old
        (record { rows = record { starts = starts2.old; targets = targets2.old }; counts = counts2.old }) }
    ensures { FoldedAt
        (the_fold mode)
        table.now
        budget
        (record { rows = record { starts = starts2.old; targets = targets2.old }; counts = counts2.old })
        (record { rows = record { starts = starts2.new; targets = targets2.new }; counts = counts2.new })
        (outcome_of (Ok result)) }
{
    let n = table.rows.vertices();
    let rows = &mut next[..n];
    let turned = turns::turn(mode, table, budget, rows, &mut counts2[..n]);
    let edges = staying::write_table(&table.rows, rows, starts2, targets2);
    Folded {
        folded: turned.folded,
        left: turned.found - turned.folded,
        edges,
    }
}

// Folds a table by a budget into a second set of slices, each candidate to the path that is chosen: a refusal is 1 to 7, then 8, then, where rings are refused, 9, the first
// of them. The second set is three slices and no struct: of slices that are lent in a struct to be written nothing is known once the loan is over.
pub fn fold_by(
    mode: Mode,
    table: &Table,
    budget: u32,
    starts2: &mut [u32],
    targets2: &mut [u32],
    counts2: &mut [u64],
) -> Result<Folded, Refusal>
    ensures { FoldDone
        (the_fold mode)
        table.now
        budget
        (record { rows = record { starts = starts2.old; targets = targets2.old }; counts = counts2.old })
        (record { rows = record { starts = starts2.new; targets = targets2.new }; counts = counts2.new })
        (outcome_of result) }
{
    table.check()?;
    let n = table.rows.vertices();
    if starts2.len() < n + 1 || targets2.len() < table.rows.targets.len() || counts2.len() < n {
        return Err(Refusal::Room);
    }
    if refuses(mode.rings, &table.rows) {
        return Err(Refusal::Cycle);
    }
    let mut next = [0u32; VERTEX_LIMIT];
    Ok(fold_in(
        mode,
        table,
        budget as usize,
        &mut next,
        starts2,
        targets2,
        counts2,
    ))
}

// A fold that refuses a table with a directed cycle.
fn plain(by: Choosing) -> Mode
    ensures { result ≡ refusing by }
{
    Mode {
        rings: Rings::Refused,
        by,
    }
}

// A fold that takes rings.
fn ringed(by: Choosing) -> Mode
    ensures { result ≡ taking by }
{
    Mode {
        rings: Rings::Taken,
        by,
    }
}

// The folds by name, each `fold_by` in its mode: they are what users call, and a C program with them.

// The fold of version 1: the path with the largest sum of inner counts is kept. A table with a directed cycle is refused.
pub fn fold(
    table: &Table,
    budget: u32,
    starts2: &mut [u32],
    targets2: &mut [u32],
    counts2: &mut [u64],
) -> Result<Folded, Refusal>
    ensures { FoldDone
        (the_fold (refusing Sum))
        table.now
        budget
        (record { rows = record { starts = starts2.old; targets = targets2.old }; counts = counts2.old })
        (record { rows = record { starts = starts2.new; targets = targets2.new }; counts = counts2.new })
        (outcome_of result) }
{
    fold_by(
        plain(Choosing::Sum),
        table,
        budget,
        starts2,
        targets2,
        counts2,
    )
}

// The fold of version 2: the path with the largest least inner count is kept, and never the bare edge. A table with a directed cycle is refused.
pub fn fold_weakest(
    table: &Table,
    budget: u32,
    starts2: &mut [u32],
    targets2: &mut [u32],
    counts2: &mut [u64],
) -> Result<Folded, Refusal>
    ensures { FoldDone
        (the_fold (refusing Weakest))
        table.now
        budget
        (record { rows = record { starts = starts2.old; targets = targets2.old }; counts = counts2.old })
        (record { rows = record { starts = starts2.new; targets = targets2.new }; counts = counts2.new })
        (outcome_of result) }
{
    fold_by(
        plain(Choosing::Weakest),
        table,
        budget,
        starts2,
        targets2,
        counts2,
    )
}

// The fold of version 1 that takes rings: any well-formed table, in which a superbubble with a bare edge whose exit reaches its entrance is skipped.
pub fn fold_rings(
    table: &Table,
    budget: u32,
    starts2: &mut [u32],
    targets2: &mut [u32],
    counts2: &mut [u64],
) -> Result<Folded, Refusal>
    ensures { FoldDone
        (the_fold (taking Sum))
        table.now
        budget
        (record { rows = record { starts = starts2.old; targets = targets2.old }; counts = counts2.old })
        (record { rows = record { starts = starts2.new; targets = targets2.new }; counts = counts2.new })
        (outcome_of result) }
{
    fold_by(
        ringed(Choosing::Sum),
        table,
        budget,
        starts2,
        targets2,
        counts2,
    )
}

// The fold of version 2 that takes rings.
pub fn fold_rings_weakest(
    table: &Table,
    budget: u32,
    starts2: &mut [u32],
    targets2: &mut [u32],
    counts2: &mut [u64],
) -> Result<Folded, Refusal>
    ensures { FoldDone
        (the_fold (taking Weakest))
        table.now
        budget
        (record { rows = record { starts = starts2.old; targets = targets2.old }; counts = counts2.old })
        (record { rows = record { starts = starts2.new; targets = targets2.new }; counts = counts2.new })
        (outcome_of result) }
{
    fold_by(
        ringed(Choosing::Weakest),
        table,
        budget,
        starts2,
        targets2,
        counts2,
    )
}
