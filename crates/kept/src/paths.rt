// The kept path along the visiting order: backward to find each vertex's best child, once or twice, forward to part the kept vertices from the dropped ones, and along the
// path to share what is dropped. In `next` stands for each vertex of the kept path the vertex after it, and for each dropped one, of n vertices, n + 1,
// which says that it has no row.
ghost use Rattle.std.specs.Prelude.{◌≡◌, length, get_or};
ghost use Rattle.rule.specs.Way.{the_fold};
ghost use Rattle.kept.specs.Steps.{end_at, Settleable, SettledFrom, Led, Partable, Step, Siftable, Sifted};
ghost use Rattle.kept.specs.Keeping.{Keepable, KeptDone};

use children::choose;
use rule::{Choosing, Mode};
use sharing::share;
use table::{READ_LIMIT, Table};

// The next vertex of the kept path, its inner vertices so far, and the sum of the counts dropped so far.
#[derive(Clone, Copy)]
pub struct Along {
    pub kept: u32,
    pub inner: u64,
    pub dropped: u64,
}

// What the exit gains from the visited vertex at place k: the bound, and from the entrance nothing.
fn end_from(k: usize, bound: u64) -> u64
    ensures { result ≡ end_at bound k }
{
    if k == 0 {
        return 0;
    }
    bound
}

// The best that a path gains from each visited vertex on, and the child that leads to it, the last vertex first. The exit gains the bound, and nothing from the entrance.
fn settle(
    by: Choosing,
    table: &Table,
    visited: &[u32],
    t: u32,
    bound: u64,
    best: &mut [u64],
    next: &mut [u32],
)
    requires { Settleable table.now visited.now t bound best.old next.old }
    ensures { SettledFrom by table.now visited.now t bound next.old 0 best.new next.new }
{
    for k in (0..visited.len()).rev() {
        let v = visited[k] as usize;
        let end = end_from(k, bound);
        let choice = choose(by, table.rows.row(v), table.counts, best, t, end);
        best[v] = choice.gain;
        next[v] = choice.child;
    }
}

// Settles the visited vertices so that the children lead from the entrance along the kept path. By the weakest vertex this takes two rounds: the first finds
// how strong the strongest path is, and the second asks no more than that of any vertex, so that all that reach it are equal and the smallest child is taken.
fn lead(by: Choosing, table: &Table, visited: &[u32], t: u32, best: &mut [u64], next: &mut [u32])
    requires { Settleable table.now visited.now t 0 best.old next.old }
    ensures { Led by table.now visited.now t next.old next.new }
{
    match by {
        Choosing::Sum => settle(by, table, visited, t, 0, best, next),
        Choosing::Weakest => {
            settle(by, table, visited, t, READ_LIMIT + 1, best, next);
            let s = visited[0] as usize;
            let strongest = best[s];
            settle(by, table, visited, t, strongest, best, next);
        }
    }
}

// Keeps v, which is the next vertex of the kept path, or drops it: then it has no row and no count any more.
fn keep_or_drop(
    counts: &[u64],
    next: &mut [u32],
    out: &mut [u64],
    rowless: u32,
    v: u32,
    along: Along,
) -> Along
    requires { Partable counts.now next.old out.old v along }
    ensures { Step counts.now next.old out.old rowless v along next.new out.new result }
{
    let x = v as usize;
    if v == along.kept {
        return Along {
            kept: next[x],
            inner: along.inner + 1,
            dropped: along.dropped,
        };
    }
    let own = counts[x];
    next[x] = rowless;
    out[x] = 0;
    Along {
        kept: along.kept,
        inner: along.inner,
        dropped: along.dropped + own,
    }
}

// Keeps or drops the visited vertices after the entrance. The order leads along the kept path.
fn sift(counts: &[u64], visited: &[u32], next: &mut [u32], out: &mut [u64], rowless: u32) -> Along
    requires { Siftable counts.now visited.now next.old out.old }
    ensures { Sifted
        counts.now
        visited.now
        next.old
        out.old
        rowless
        (length visited.now)
        next.new
        out.new
        result }
{
    let s = visited[0] as usize;
    let mut along = Along {
        kept: next[s],
        inner: 0,
        dropped: 0,
    };
    for &v in &visited[1..] {
        along = keep_or_drop(counts, next, out, rowless, v, along);
    }
    along
}

// Keeps the best path of one candidate, whose U less its exit t is visited: `next` takes the vertex after each vertex of the path, and n + 1 for each
// dropped one; `out` takes 0 for each dropped vertex, and for each inner vertex of the path its count and its portion of theirs.
pub fn keep(
    mode: Mode,
    table: &Table,
    visited: &[u32],
    t: u32,
    best: &mut [u64],
    next: &mut [u32],
    out: &mut [u64],
)
    requires { Keepable
        (the_fold mode).candidates
        table.now
        visited.now
        t
        best.old
        next.old
        out.old }
    ensures { KeptDone
        (the_fold mode).candidates
        (the_fold mode).rule
        table.now
        (get_or visited.now 0 0)
        t
        best.old
        next.old
        out.old
        best.new
        next.new
        out.new }
{
    let by = mode.by;
    lead(by, table, visited, t, best, next);
    let rowless = table.rows.vertices() as u32 + 1;
    let along = sift(table.counts, visited, next, out, rowless);
    let inner = along.inner;
    let dropped = along.dropped;
    let s = visited[0];
    share(table.counts, next, out, s, inner, dropped);
}
