// A visit of a vertex and, depth first, of what it leads to, each vertex's successors taken from its row alone. The path stands in an array, so that the stack does not
// grow with it.
#![tactic(auto)]

ghost use Rattle.std.specs.Prelude.{ℕ, ◌≤◌, ◌<◌, length, MatchOption};
ghost use Rattle.std.specs.Option.{unwrap_or};
ghost use Rattle.table.specs.Table.{Below};
ghost use Rattle.visiting.specs.Visits.{PassedOver, NextOpen, Visitable, VisitAnswer};

use table::Rows;

// A turn of the path: a vertex, and the place in its row that leads to the next one.
#[derive(Clone, Copy)]
pub struct Turn {
    pub vertex: u16,
    pub place: u16,
}

// The vertex that is passed over in the row of v: `to` in the row of `from`, and none in any other.
fn passed_over(v: usize, from: usize, to: u32) -> Option<u32>
    ensures { (none : ℕ) → PassedOver v from to none (unwrap_or result none) }
{
    if v == from { Some(to) } else { None }
}

// The first place of a row, from `place` on, with a vertex that is neither done nor passed over.
fn next_open(row: &[u32], colours: &[u8], place: usize, over: Option<u32>) -> Option<usize>
    requires below { Below (length colours.now) row.now }
    requires place_in_bounds { place ≤ length row.now }
    ensures { (none : ℕ) → length colours.now ≤ none → MatchOption result
        (NextOpen row.now colours.now place (unwrap_or over none) (length row.now))
        (λ k. (k < length row.now) × NextOpen row.now colours.now place (unwrap_or over none) k) }
{
    for k in place..row.len() {
        let u = row[k];
        if colours[u as usize] < 2 && over != Some(u) {
            return Some(k);
        }
    }
    None
}

// Visits a vertex, and depth first what it leads to; one that is done is left alone. Answers whether a cycle was met: one that closes on a vertex of the path.
// The path leads from the root to v: it holds a turn for each vertex before v, in whose row the walk goes on once it comes back.
pub fn visit(
    rows: &Rows,
    colours: &mut [u8],
    path: &mut [Turn],
    root: usize,
    from: usize,
    to: u32,
) -> bool
    requires { Visitable rows.now.starts rows.now.targets colours.old path.old root }
    ensures { VisitAnswer result rows.now.starts rows.now.targets colours.old from to root colours.new path.new }
{
    if colours[root] != 0 {
        return false;
    }
    colours[root] = 1;
    let mut depth = 0;
    let mut v = root;
    let mut place = 0;
    // a loop: the walk goes down the path and back up it, and a recursion would take stack for each vertex
    loop {
        let row = rows.row(v);
        match next_open(row, colours, place, passed_over(v, from, to)) {
            Some(open) => {
                let next = row[open] as usize;
                if colours[next] == 1 {
                    return true;
                }
                colours[next] = 1;
                path[depth] = Turn {
                    vertex: v as u16,
                    place: open as u16,
                };
                depth += 1;
                v = next;
                place = 0;
            }
            None => {
                colours[v] = 2;
                if depth == 0 {
                    return false;
                }
                depth -= 1;
                let turn = path[depth];
                v = usize::from(turn.vertex);
                place = usize::from(turn.place);
            }
        }
    }
}
