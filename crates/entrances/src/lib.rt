// The loop over the entrances: each candidate within the budget is searched again and folded.
#![tactic(auto)]

ghost use Rattle.table.specs.Table.{size};
ghost use Rattle.rule.specs.Way.{the_fold};
ghost use Rattle.entrances.specs.Turns.{Turning};
ghost use Rattle.entrances.specs.Steps.{Room, CandidateAt, EntranceFolded};

use rule::Mode;
use search::search;
use table::Table;

// Folds the candidate with the entrance s.
fn fold_at(
    mode: Mode,
    table: &Table,
    parents: &[u32],
    pending: &mut [u32],
    order: &mut [u32],
    best: &mut [u64],
    next: &mut [u32],
    out: &mut [u64],
    s: usize,
)
    requires room { Room table.now parents.now pending.old order.old best.old next.old out.old }
    requires candidate_at { CandidateAt (the_fold mode).candidates table.now s }
    ensures { EntranceFolded
        (the_fold mode).candidates
        (the_fold mode).rule
        table.now
        s
        parents.now
        best.old
        next.old
        out.old
        pending.new
        order.new
        best.new
        next.new
        out.new }
{
    let found = search(&table.rows, parents, pending, order, s as u32);
    let Some(exit) = found else {
        return;
    };
    kept::keep(
        mode,
        table,
        &order[..exit.visited],
        exit.vertex,
        best,
        next,
        out,
    );
}

// Goes over all entrances; answers how many are folded. A vertex whose exit is n is the entrance of no candidate.
#[tactic(auto, using(crate::proofs::EntranceLaws::turning_spent))]
pub fn fold_all(
    mode: Mode,
    table: &Table,
    parents: &[u32],
    pending: &mut [u32],
    order: &mut [u32],
    exits: &[u32],
    best: &mut [u64],
    next: &mut [u32],
    out: &mut [u64],
    budget: usize,
) -> usize
    requires room { Room table.now parents.now pending.old order.old best.old next.old out.old }
    requires turning { Turning (the_fold mode) table.now exits.now next.old out.old budget 0 0 }
    ensures { Turning
        (the_fold mode)
        table.now
        exits.now
        next.new
        out.new
        budget
        (size table.now.rows)
        result }
{
    let mut folded = 0;
    for (s, exit) in exits.iter().enumerate() {
        if folded >= budget {
            return folded;
        }
        if (*exit as usize) < exits.len() {
            fold_at(mode, table, parents, pending, order, best, next, out, s);
            folded += 1;
        }
    }
    folded
}
