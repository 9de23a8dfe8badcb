// Whether one vertex reaches another: a walk from the first, breadth first, that queues each vertex once and ends as soon as it meets the other.
#![tactic(auto)]

ghost use Rattle.table.specs.Verdict.{Says};
ghost use Rattle.table.specs.Table.{edges};
ghost use Rattle.bubble.specs.Superbubble.{Reaches};
ghost use Rattle.reaching.specs.Reaching.{Askable};
ghost use Rattle.reaching.specs.Steps.{Spreadable, Spreads, WalkReady};

use table::{Rows, VERTEX_LIMIT};

// Queues the vertices of a row that are not marked, and marks them. Answers how far the queue reaches, or nothing where the row holds `to`, which is met then.
fn spread(
    row: &[u32],
    marks: &mut [u8; VERTEX_LIMIT],
    queue: &mut [u16; VERTEX_LIMIT],
    tail: usize,
    to: u32,
) -> Option<usize>
    requires { Spreadable row.now marks.old queue.old tail }
    ensures { Spreads row.now queue.old tail to marks.new queue.new result }
{
    let mut end = tail;
    for v in row {
        if *v == to {
            return None;
        }
        let u = *v as usize;
        if marks[u] == 0 {
            marks[u] = 1;
            queue[end] = *v as u16;
            end += 1;
        }
    }
    Some(end)
}

// The walk to another vertex, with nothing marked. The rows of the first `head` of the queue are passed, and those up to `tail` are met.
fn reaches_other(
    rows: &Rows,
    marks: &mut [u8; VERTEX_LIMIT],
    queue: &mut [u16; VERTEX_LIMIT],
    from: u32,
    to: u32,
) -> bool
    requires { WalkReady rows.now.starts rows.now.targets marks.old queue.old from to }
    ensures { Says result (Reaches (edges rows.now) from to) }
{
    marks[from as usize] = 1;
    queue[0] = from as u16;
    let mut head = 0;
    let mut tail = 1;
    // no `for`: the queue grows while it is passed
    while head < tail {
        let v = usize::from(queue[head]);
        let Some(end) = spread(rows.row(v), marks, queue, tail, to) else {
            return true;
        };
        tail = end;
        head += 1;
    }
    false
}

// Whether a path of any number of edges leads from one vertex to another.
pub fn reaches(rows: &Rows, from: u32, to: u32) -> bool
    requires { Askable rows.now.starts rows.now.targets from to }
    ensures { Says result (Reaches (edges rows.now) from to) }
{
    if from == to {
        return true;
    }
    let mut marks = [0u8; VERTEX_LIMIT];
    let mut queue = [0u16; VERTEX_LIMIT];
    reaches_other(rows, &mut marks, &mut queue, from, to)
}
