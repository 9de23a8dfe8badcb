// Which superbubbles are skipped where rings are taken: those with an interior and a bare edge from entrance to exit whose exit also reaches its entrance. Whether it does
// is asked of those alone that have the bare edge and an interior: it takes a walk.
#![tactic(auto)]

ghost use Rattle.table.specs.Verdict.{Says};
ghost use Rattle.table.specs.Table.{edges};
ghost use Rattle.skipping.specs.Skipping.{Pair, LeadsBack, Found, Admitted};

use reaching::reaches;
use rule::Rings;
use search::Exit;
use table::Rows;

// Whether there is a bare edge from s to t, and t reaches s.
#[tactic(auto, using(table::proofs::RowLaws::row_lies))]
fn leads_back(rows: &Rows, s: u32, t: u32) -> bool
    requires { Pair rows.now.starts rows.now.targets s t }
    ensures { Says result (LeadsBack (edges rows.now) s t) }
{
    table::holds(rows.row(s as usize), t) && reaches(rows, t, s)
}

// The exit that the search from s found, or none where its superbubble is skipped. Most that are found have no interior: that is asked first.
pub fn admit(rings: Rings, rows: &Rows, s: u32, exit: Option<Exit>) -> Option<Exit>
    requires { Found rows.now.starts rows.now.targets s exit }
    ensures { Admitted (edges rows.now) s rings exit result }
{
    let Some(found) = exit else {
        return None;
    };
    match rings {
        Rings::Taken if found.visited >= 2 && leads_back(rows, s, found.vertex) => None,
        _ => exit,
    }
}
