// Judge: whether one pair is a superbubble, and the number of vertices in its U.
#![tactic(auto)]

ghost use Rattle.std.specs.Prelude.{◌<◌, ◌≤◌, ◌⊎◌, ◌≡◌};
ghost use Rattle.table.specs.Limits.{vertex_limit};
ghost use Rattle.table.specs.Table.{Below, In, Sound, size as rows_size};
ghost use Rattle.vertices.specs.Vertices.{Words, Numbers};
ghost use Rattle.judging.specs.Judging.{Judged, JudgeDone, answer_of, judgement_of};
ghost use Rattle.judging.specs.Steps.{AllAdded, JudgeReady};

use parents::{copy, count_parents};
use search::search;
use table::{Refusal, Rows, VERTEX_LIMIT};
use vertices::{SET_WORDS, put, size};

// A table of at most so many vertices is worked on in small arrays, which are cleared sooner,
const SMALL: usize = 64;

// and one of at most so many in larger ones.
const MIDDLING: usize = 256;

// Adds each of the vertices to the set.
fn put_all(words: &mut [u64; SET_WORDS], vertices: &[u32])
    requires { Words words.old × Below vertex_limit vertices.now }
    ensures { AllAdded words.old words.new vertices.now }
{
    for v in vertices {
        put(words, *v);
    }
}

// The number of vertices in U: those visited, and the exit.
fn count_vertices(visited: &[u32], exit: u32) -> u32
    requires { Below vertex_limit visited.now × (exit < vertex_limit) }
    ensures { Numbers (λ v. In v visited.now ⊎ (v ≡ exit)) result }
{
    let mut words = [0u64; SET_WORDS];
    put_all(&mut words, visited);
    put(&mut words, exit);
    size(&words)
}

// Judges a pair by one search from s, with slices of n to work on.
fn judge_with(
    rows: &Rows,
    s: u32,
    t: u32,
    parents: &mut [u32],
    pending: &mut [u32],
    order: &mut [u32],
) -> Option<u32>
    requires { JudgeReady rows.now s t parents.old pending.old order.old }
    ensures { Judged rows.now s t (answer_of result) }
{
    count_parents(rows.targets, parents);
    copy(parents, pending);
    let exit = search(rows, parents, pending, order, s)?;
    if exit.vertex != t {
        return None;
    }
    let size = count_vertices(&order[..exit.visited], exit.vertex);
    Some(size)
}

// The same in arrays of N, of which the first n are worked on.
fn judge_in<const N: usize>(rows: &Rows, s: u32, t: u32) -> Option<u32>
    requires sound { Sound rows.now }
    requires inside { (s < rows_size rows.now) × (t < rows_size rows.now) }
    requires room { (rows_size rows.now ≤ N) × (N ≤ vertex_limit) }
    ensures { Judged rows.now s t (answer_of result) }
{
    let n = rows.vertices();
    let mut parents = [0u32; N];
    let mut pending = [0u32; N];
    let mut order = [0u32; N];
    judge_with(
        rows,
        s,
        t,
        &mut parents[..n],
        &mut pending[..n],
        &mut order[..n],
    )
}

// Judges a pair, s = t among them, which is a no: the number of vertices in U for a yes, None for a no. A refusal is 1 to 5, then 13, the smallest.
pub fn judge(rows: &Rows, s: u32, t: u32) -> Result<Option<u32>, Refusal>
    ensures { JudgeDone rows.now s t (judgement_of result) }
{
    rows.check()?;
    let n = rows.vertices();
    if s as usize >= n || t as usize >= n {
        return Err(Refusal::Vertex);
    }
    let answer = if n <= SMALL {
        judge_in::<SMALL>(rows, s, t)
    } else if n <= MIDDLING {
        judge_in::<MIDDLING>(rows, s, t)
    } else {
        judge_in::<VERTEX_LIMIT>(rows, s, t)
    };
    Ok(answer)
}
