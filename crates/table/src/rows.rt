// A table without its counts, and what is asked of it: 1 to 5. A row is a part of the targets, and the work over a row is handed that row alone.
ghost use Rattle.std.specs.Prelude.{◌<◌, ◌≡◌, length};
ghost use Rattle.table.specs.Verdict.{Says, Verdict};
ghost use Rattle.table.specs.Table.{In, Rises, RowLies, size, row as table_row};
ghost use Rattle.table.specs.Numbers.{table_demands};
ghost use Rattle.table.specs.Refusals.{numbered};

use crate::limits::{EDGE_LIMIT, START_LIMIT};
use crate::numbers::{all_below, numbers_rise, rows_rise, starts_fit};
use crate::refusal::Refusal;
use std::marker::Model;

// Starts and targets, as they are lent. A clause sees their lists.
#[derive(Drop)]
pub struct Rows<'a> {
    pub starts: &'a [u32],
    pub targets: &'a [u32],
}

impl<'a> Model for Rows<'a> {
    ghost use Rattle.table.specs.Table.{Rows as Listed};

    ghost Value = { Listed };

    ghost view = { λ lent. record { starts = lent.starts.now; targets = lent.targets.now } };
}

impl<'a> Rows<'a> {
    // n
    pub fn vertices(&self) -> usize
        requires { 0 < length self.now.starts }
        ensures { result ≡ size self.now }
    {
        self.starts.len() - 1
    }

    // The row of v.
    pub fn row(&self, v: usize) -> &'a [u32]
        requires { RowLies self.now.starts self.now.targets v }
        ensures { result.now ≡ table_row self.now.starts self.now.targets v }
    {
        row(self.starts, self.targets, v)
    }

    // 1 to 5, the first that is given: starts and targets are well-formed, or why not.
    pub fn check(&self) -> Result<(), Refusal>
        ensures { Verdict (table_demands self.now) (numbered result) }
    {
        if self.starts.len() == 0 {
            return Err(Refusal::Vertices);
        }
        if self.starts.len() > START_LIMIT {
            return Err(Refusal::Vertices);
        }
        if self.targets.len() > EDGE_LIMIT {
            return Err(Refusal::Edges);
        }
        if !starts_fit(self.starts, self.targets.len()) {
            return Err(Refusal::Starts);
        }
        if !all_below(self.targets, self.vertices()) {
            return Err(Refusal::Target);
        }
        if !rows_rise(self.starts, self.targets) {
            return Err(Refusal::Row);
        }
        Ok(())
    }
}

// The row of v: the targets from start v up to, not including, start v+1. It is lent for as long as the targets are.
pub fn row<'a>(starts: &[u32], targets: &'a [u32], v: usize) -> &'a [u32]
    requires { RowLies starts.now targets.now v }
    ensures { result.now ≡ table_row starts.now targets.now v }
{
    let from = starts[v] as usize;
    let to = starts[v + 1] as usize;
    &targets[from..to]
}

// The row check: whether a row rises strictly.
pub fn rises(row: &[u32]) -> bool
    ensures { Says result (Rises row.now) }
{
    numbers_rise(row)
}

// The membership test: whether v stands in a row. Rows are short, and `contains` costs a call for each: a list of a chain took a seventh longer.
pub fn holds(row: &[u32], v: u32) -> bool
    ensures { Says result (In v row.now) }
{
    row.iter().any(|target| *target == v)
}
