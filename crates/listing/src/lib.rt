// List: all superbubbles of a table, by rising entrance: one search from each vertex.
#![tactic(auto)]

ghost use Rattle.std.specs.Prelude.{◌+◌, ◌*◌, ◌≤◌, length};
ghost use Rattle.table.specs.Table.{edges};
ghost use Rattle.bubble.specs.Superbubble.{Superbubble};
ghost use Rattle.listing.specs.Listing.{ListedAt, ListDone, found_of};
ghost use Rattle.listing.specs.Steps.{Line, ListReady};

use parents::{copy, count_parents};
use search::{Exit, search};
use table::{Refusal, Rows, VERTEX_LIMIT};

// Writes one line more, entrance and exit, where the search found an exit; answers how many lines there are.
fn write_line(out: &mut [u32], found: usize, s: u32, exit: Option<Exit>) -> usize
    requires { 2 * found + 2 ≤ length out.old }
    ensures { Line out.old out.new found s exit result }
{
    match exit {
        Some(exit) => {
            out[2 * found] = s;
            out[2 * found + 1] = exit.vertex;
            found + 1
        }
        None => found,
    }
}

// Lists the superbubbles of a well-formed table, with slices of n to work on.
fn list_with(
    rows: &Rows,
    parents: &mut [u32],
    pending: &mut [u32],
    order: &mut [u32],
    out: &mut [u32],
) -> usize
    requires { ListReady rows.now parents.old pending.old order.old out.old }
    ensures { ListedAt (Superbubble (edges rows.now)) out.old out.new result }
{
    count_parents(rows.targets, parents);
    copy(parents, pending);
    let mut found = 0;
    for s in 0..rows.vertices() {
        let exit = search(rows, parents, pending, order, s as u32);
        found = write_line(out, found, s as u32, exit);
    }
    found
}

// Lists the superbubbles of a table at the front of a lent slice, and answers how many were found; a refusal is 1 to 5, then 8, the smallest.
pub fn list(rows: &Rows, out: &mut [u32]) -> Result<usize, Refusal>
    ensures { ListDone rows.now out.old out.new (found_of result) }
{
    rows.check()?;
    let n = rows.vertices();
    if out.len() < 2 * n {
        return Err(Refusal::Room);
    }
    let mut parents = [0u32; VERTEX_LIMIT];
    let mut pending = [0u32; VERTEX_LIMIT];
    let mut order = [0u32; VERTEX_LIMIT];
    let found = list_with(
        rows,
        &mut parents[..n],
        &mut pending[..n],
        &mut order[..n],
        out,
    );
    Ok(found)
}
