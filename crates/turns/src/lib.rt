// The turns of a fold: over the entrances by rising number, the first candidates, as many as the budget, are folded, each to its kept path. What is left of
// each row says one number a vertex, as `staying` takes it: n, which is no vertex's number, where the whole row stays.
#![tactic(auto)]

ghost use Rattle.std.specs.Prelude.{◌≡◌, length};
ghost use Rattle.rule.specs.Way.{the_fold};
ghost use Rattle.turns.specs.Turns.{FoldReady, TurnDone};

use entrances::fold_all;
use rule::Mode;
use table::{Table, VERTEX_LIMIT};

// How many candidates there are, and how many were folded.
#[derive(Clone, Copy)]
pub struct Turned {
    pub found: usize,
    pub folded: usize,
}

// Copies the counts. They come from the caller's slices, of which `copy_from_slice` needs `memmove` of the C library, and the archive for C programs goes without it.
fn copy_counts(counts: &[u64], out: &mut [u64])
    requires { length out.old ≡ length counts.now }
    ensures { out.new ≡ counts.now }
{
    for v in 0..counts.len() {
        out[v] = counts[v];
    }
}

// Folds the first candidates of a table, as many as the budget or all if fewer: `next` takes one number a vertex that says what stays of its row, `out` its
// new count. Before the first entrance each row is whole and each count as it was.
pub fn turn(mode: Mode, table: &Table, budget: usize, next: &mut [u32], out: &mut [u64]) -> Turned
    requires { FoldReady (the_fold mode) table.now next.old out.old }
    ensures { TurnDone (the_fold mode) table.now budget next.new out.new result }
{
    let n = table.rows.vertices();
    next.fill(n as u32);
    copy_counts(table.counts, out);
    let mut parents = [0u32; VERTEX_LIMIT];
    let parents = &mut parents[..n];
    let mut pending = [0u32; VERTEX_LIMIT];
    let pending = &mut pending[..n];
    let mut exits = [0u32; VERTEX_LIMIT];
    let exits = &mut exits[..n];
    let mut order = [0u32; VERTEX_LIMIT];
    // With the others, and not behind the search: an array that is made between two calls is cleared twice.
    let mut best = [0u64; VERTEX_LIMIT];
    let found = candidates::find(mode.rings, &table.rows, parents, pending, &mut order, exits);
    let folded = fold_all(
        mode, table, parents, pending, &mut order, exits, &mut best, next, out, budget,
    );
    Turned { found, folded }
}
