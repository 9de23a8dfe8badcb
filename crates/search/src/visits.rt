// The search itself: a vertex is visited once all its parents are, until one is ready and no other is reached: the exit.
ghost use Rattle.std.specs.Prelude.{◌<◌};
ghost use Rattle.table.specs.Table.{WellFormed};
ghost use Rattle.table.specs.Verdict.{Says};
ghost use Rattle.search.specs.Search.{Searchable, Sought};
ghost use Rattle.search.specs.Steps.{Alone, Lowered, Ran};

use crate::Exit;
use parents::tally;
use table::{Rows, holds};
use walking::{Front, walk};

// What a search found, and how many vertices it visited.
#[derive(Clone, Copy)]
pub struct Run {
    pub exit: Option<Exit>,
    pub visited: usize,
}

// Whether the vertex at the head is not the entrance, and no other is reached but not visited.
fn alone(head: usize, front: Front) -> bool
    requires { head < front.tail }
    ensures { Says result (Alone head front.tail front.waiting) }
{
    head != 0 && front.tail == head + 1 && front.waiting == 0
}

// Visits vertices from s on, until one is the exit or there can be none. The first `head` of the order are visited, those up to the front's tail are ready.
fn visit(rows: &Rows, parents: &[u32], pending: &mut [u32], order: &mut [u32], s: u32) -> Run
    requires { Searchable rows.now.starts rows.now.targets parents.now pending.old order.old s }
    ensures { Ran rows.now.starts rows.now.targets pending.new order.old order.new s
        result.exit result.visited }
{
    // The two slices are taken out of the table once, and not again at each row.
    let starts = rows.starts;
    let targets = rows.targets;
    order[0] = s;
    let mut head = 0;
    let mut front = Front {
        tail: 1,
        waiting: 0,
    };
    // A while, since each row that is walked makes the queue longer.
    while head < front.tail {
        let v = order[head];
        let row = table::row(starts, targets, v as usize);
        if holds(row, s) {
            return Run {
                exit: None,
                visited: head,
            };
        }
        if alone(head, front) {
            let found = Exit {
                vertex: v,
                visited: head,
            };
            return Run {
                exit: Some(found),
                visited: head,
            };
        }
        if row.is_empty() {
            return Run {
                exit: None,
                visited: head,
            };
        }
        front = walk(row, parents, pending, order, front);
        head += 1;
    }
    Run {
        exit: None,
        visited: head,
    }
}

// Gives back what the rows of the visited vertices took, the last first.
fn undo(rows: &Rows, pending: &mut [u32], order: &[u32], visited: usize)
    requires well_formed { WellFormed rows.now.starts rows.now.targets }
    requires lowered { Lowered rows.now.starts rows.now.targets pending.old order.now visited }
    ensures { Lowered rows.now.starts rows.now.targets pending.new order.now 0 }
{
    for k in (0..visited).rev() {
        tally(rows.row(order[k] as usize), pending);
    }
}

// From an entrance to its exit, if it has one. The pending parents are all the parents again at the end.
pub fn search(
    rows: &Rows,
    parents: &[u32],
    pending: &mut [u32],
    order: &mut [u32],
    s: u32,
) -> Option<Exit>
    requires { Searchable rows.now.starts rows.now.targets parents.now pending.old order.old s }
    ensures { Sought rows.now.starts rows.now.targets pending.old order.old pending.new
        order.new s result }
{
    let run = visit(rows, parents, pending, order, s);
    undo(rows, pending, order, run.visited);
    run.exit
}
