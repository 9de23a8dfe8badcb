// One search from each vertex that is not interior to a superbubble taken before. Where it gives a superbubble with an interior, that interior is ruled out:
// no candidate begins in it. Where rings are taken, one that is skipped rules out nothing. In `exits` stands, for each of n vertices, the exit of the candidate that it is
// the entrance of, or n, which is no vertex's number, for none. A vertex that no search has come to has 0 there, which is not n: it is not ruled out.
// It is a plain number and no Option: what is found is promised of these numbers, one a vertex, in a slice that the caller lends.
ghost use Rattle.std.specs.Prelude.{◌+◌, ◌<◌, ◌≡◌, length};
ghost use Rattle.table.specs.Table.{Below, size};
ghost use Rattle.rule.specs.Way.{candidates_of};
ghost use Rattle.candidates.specs.Candidates.{entrances, Findable, FindDone};
ghost use Rattle.candidates.specs.Steps.{RuledOut, ExitSettable, ExitSet, Notable, Noted, Scan};

use parents::{copy, count_parents};
use rule::Rings;
use search::{Exit, search};
use skipping::admit;
use table::Rows;

// Gives each of the vertices the mark for none.
fn rule_out(interior: &[u32], exits: &mut [u32], none: u32)
    requires { Below (length exits.old) interior.now }
    ensures { RuledOut interior.now exits.old exits.new none }
{
    for v in interior {
        exits[*v as usize] = none;
    }
}

// Sets the exit of s that the search came to: where it visited the entrance alone there is no interior and s has none, else the interior is ruled out.
fn set_exit(order: &[u32], exits: &mut [u32], s: usize, exit: Exit)
    requires { ExitSettable order.now exits.old s exit.visited }
    ensures { ExitSet order.now exits.old exits.new s exit.vertex exit.visited }
{
    let none = exits.len() as u32;
    if exit.visited < 2 {
        exits[s] = none;
        return;
    }
    exits[s] = exit.vertex;
    rule_out(&order[1..exit.visited], exits, none);
}

// Notes what is left of what the search from s found.
fn note(order: &[u32], exits: &mut [u32], s: usize, exit: Option<Exit>)
    requires { Notable order.now exits.old s exit }
    ensures { Noted order.now exits.old exits.new s exit }
{
    match exit {
        Some(exit) => set_exit(order, exits, s, exit),
        None => {
            let none = exits.len() as u32;
            exits[s] = none;
        }
    }
}

// Passes one entrance more. One that is ruled out is not searched from: whatever it begins lies in the interior that it lies in.
fn pass_entrance(
    rings: Rings,
    rows: &Rows,
    parents: &[u32],
    pending: &mut [u32],
    order: &mut [u32],
    exits: &mut [u32],
    s: usize,
)
    requires scan { Scan rings rows.now parents.now pending.old order.old exits.old s }
    requires s_bound { s < size rows.now }
    ensures { Scan rings rows.now parents.now pending.new order.new exits.new (s + 1) }
{
    let none = exits.len();
    if exits[s] as usize == none {
        return;
    }
    let found = search(rows, parents, pending, order, s as u32);
    let exit = admit(rings, rows, s as u32, found);
    note(order, exits, s, exit);
}

// How many entrances have an exit.
#[tactic(auto, using(crate::proofs::EntranceLaws::entrances_counted))]
fn count(exits: &[u32]) -> usize
    ensures { result ≡ length (entrances exits.now) }
{
    let none = exits.len();
    exits.iter().filter(|exit| (**exit as usize) < none).count()
}

// Finds the candidates: each entrance's exit, and how many there are. The parents' counts are left as the search takes them.
pub fn find(
    rings: Rings,
    rows: &Rows,
    parents: &mut [u32],
    pending: &mut [u32],
    order: &mut [u32],
    exits: &mut [u32],
) -> usize
    requires { Findable rows.now parents.old pending.old order.old exits.old }
    ensures { FindDone (candidates_of rings) rows.now parents.new pending.new order.new exits.new result }
{
    count_parents(rows.targets, parents);
    copy(parents, pending);
    exits.fill(0);
    for s in 0..rows.vertices() {
        pass_entrance(rings, rows, parents, pending, order, exits, s);
    }
    count(exits)
}
