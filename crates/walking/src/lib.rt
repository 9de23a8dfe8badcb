// The walk over a visited vertex's row: each edge takes one from its target's pending parents, and a target with none pending is queued.
#![tactic(auto)]

ghost use Rattle.std.specs.Prelude.{◌≡◌, length};
ghost use Rattle.walking.specs.Walking.{EdgePassable, EdgePassed, Walkable, Walked};
ghost use Rattle.walking.specs.Walking.{ready as walking_ready, waits as walking_waits};

// How far the queue reaches, and how many vertices wait: some but not all of their parents are visited.
#[derive(Clone, Copy)]
pub struct Front {
    pub tail: usize,
    pub waiting: usize,
}

// 1 for a vertex whose last parent is visited next, else 0.
#[tactic(auto, unfolding(crate::specs::Walking::ready))]
fn ready(pending: u32) -> usize
    ensures { result ≡ walking_ready pending }
{
    usize::from(pending == 1)
}

// 1 for a vertex that waits, else 0.
#[tactic(auto, unfolding(crate::specs::Walking::waits))]
fn waits(pending: u32, parents: u32) -> usize
    ensures { result ≡ walking_waits pending parents }
{
    usize::from(0 < pending && pending < parents)
}

// Passes one edge, to u. The place behind the queue takes u, and the queue grows over it if no parent of u is pending.
fn pass_edge(parents: &[u32], pending: &mut [u32], order: &mut [u32], front: Front, u: u32) -> Front
    requires { EdgePassable parents.now pending.old order.old u front.tail front.waiting }
    ensures { EdgePassed parents.now pending.old order.old pending.new order.new
        u front.tail front.waiting result.tail result.waiting }
{
    let x = u as usize;
    let tail = front.tail;
    let all = parents[x];
    let some = pending[x];
    order[tail] = u;
    pending[x] = some - 1;
    Front {
        tail: tail + ready(some),
        waiting: front.waiting + waits(some - 1, all) - waits(some, all),
    }
}

// Passes a row, edge by edge.
pub fn walk(
    row: &[u32],
    parents: &[u32],
    pending: &mut [u32],
    order: &mut [u32],
    front: Front,
) -> Front
    requires { Walkable row.now parents.now pending.old order.old front.tail front.waiting }
    ensures { Walked row.now parents.now pending.old order.old front.tail
        (length row.now) pending.new order.new result.tail result.waiting }
{
    let mut at = front;
    for u in row {
        at = pass_edge(parents, pending, order, at, *u);
    }
    at
}
