// What an image holds, over lent slices: a table with its counts, and the lengths of its vertices.
ghost use Rattle.table.specs.Verdict.{Says};
ghost use Rattle.layout.specs.Lengths.{Positive};

use std::marker::Model;
use table::{Numbers, Table};

// A table and lengths, as they are lent. A clause sees their lists.
#[derive(Drop)]
pub struct Contents<'a> {
    pub table: Table<'a>,
    pub lengths: &'a [u16],
}

impl<'a> Model for Contents<'a> {
    ghost use Rattle.layout.specs.Image.{Contents as Listed};

    ghost Value = { Listed };

    ghost view = { λ lent. record { table = lent.table; lengths = lent.lengths.now } };
}

// Whether none of the lengths is 0.
pub fn none_zero<N: Numbers>(lengths: N) -> bool
    ensures { Says result (Positive (N.list lengths)) }
{
    for v in 0..lengths.count() {
        if lengths.at(v) == 0 {
            return false;
        }
    }
    true
}
