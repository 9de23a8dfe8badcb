// A table with the reads on each vertex, and what is asked of it: 1 to 7.
ghost use Rattle.std.specs.Prelude.{◌≤◌, length};
ghost use Rattle.table.specs.Verdict.{Says, Verdict};
ghost use Rattle.table.specs.Limits.{read_limit};
ghost use Rattle.table.specs.Table.{count_sum};
ghost use Rattle.table.specs.Numbers.{counted_demands};
ghost use Rattle.table.specs.Refusals.{numbered};

use crate::numbers::numbers_sum_fits;
use crate::refusal::Refusal;
use crate::rows::Rows;
use std::marker::Model;

// Starts, targets and counts, as they are lent. A clause sees their lists.
#[derive(Drop)]
pub struct Table<'a> {
    pub rows: Rows<'a>,
    pub counts: &'a [u64],
}

impl<'a> Model for Table<'a> {
    ghost use Rattle.table.specs.Table.{Table as Listed};

    ghost Value = { Listed };

    ghost view = { λ lent. record { rows = lent.rows; counts = lent.counts.now } };
}

impl<'a> Table<'a> {
    // 1 to 7, the first that is given: starts, targets and counts are well-formed, or why not.
    pub fn check(&self) -> Result<(), Refusal>
        ensures { Verdict (counted_demands self.now) (numbered result) }
    {
        self.rows.check()?;
        if self.counts.len() != self.rows.vertices() {
            return Err(Refusal::CountEach);
        }
        if !sum_fits(self.counts) {
            return Err(Refusal::Reads);
        }
        Ok(())
    }
}

// Whether the exact sum of the counts is at most 1,099,511,627,775.
pub fn sum_fits(counts: &[u64]) -> bool
    ensures { Says result (count_sum counts.now ≤ read_limit) }
{
    numbers_sum_fits(counts)
}
