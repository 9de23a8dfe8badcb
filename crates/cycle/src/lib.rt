// The cycle test: a visit from one vertex after another, over the whole table or a part of it.
#![tactic(auto)]

ghost use Rattle.std.specs.Prelude.{◌≤◌, ◌≡◌, length};
ghost use Rattle.table.specs.Limits.{vertex_limit};
ghost use Rattle.table.specs.Verdict.{Says};
ghost use Rattle.table.specs.Table.{edges};
ghost use Rattle.bubble.specs.Cycle.{Cyclic};
ghost use Rattle.visiting.specs.Visits.{Followed, Prepared};
ghost use Rattle.cycle.specs.Testing.{Testable, Unvisited};

use table::{Rows, VERTEX_LIMIT};
use visiting::{Turn, visit};

// Sets the first n colours to 0.
fn clear(colours: &mut [u8; VERTEX_LIMIT], n: usize)
    requires n_in_bounds { n ≤ length colours.old }
    requires n_le_vertex_limit { n ≤ vertex_limit }
    ensures { Unvisited n colours.old colours.new }
{
    colours[..n].fill(0);
}

// Whether the edges between unvisited vertices have a directed cycle, the edge from>to passed over. So a colour of 2 or more keeps a vertex out, and where `from` is no vertex
// no edge is passed over. The colours and the path are room to work in. A colour stays a byte and is no enum, since any byte is promised something.
pub fn has_cycle_within(
    rows: &Rows,
    colours: &mut [u8],
    path: &mut [Turn],
    from: usize,
    to: u32,
) -> bool
    requires { Prepared rows.now.starts rows.now.targets colours.old path.old }
    ensures { Says result (Cyclic (Followed rows.now.starts rows.now.targets colours.old from to)) }
{
    for v in 0..rows.vertices() {
        if visit(rows, colours, path, v, from, to) {
            return true;
        }
    }
    false
}

// Whether the table has a directed cycle. A self-loop is one.
pub fn has_cycle(rows: &Rows, colours: &mut [u8; VERTEX_LIMIT]) -> bool
    requires { Testable rows.now.starts rows.now.targets colours.old }
    ensures { Says result (Cyclic (edges rows.now)) }
{
    let n = rows.vertices();
    clear(colours, n);
    let mut path = [Turn {
        vertex: 0,
        place: 0,
    }; VERTEX_LIMIT];
    has_cycle_within(rows, colours, &mut path, n, 0)
}
