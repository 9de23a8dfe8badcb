// The slices that a case lends.
use crate::body::{BadCase, Body};
use crate::most::{EDGES, VERTICES};
use layout::Contents;
use table::{Rows, Table};

// Where they are laid, the targets behind the starts.
#[derive(Drop)]
pub struct Store {
    words: [u32; VERTICES + EDGES],
    counts: [u64; VERTICES],
    lengths: [u16; VERTICES],
}

impl Store {
    // One with nothing in it.
    pub fn new() -> Store {
        Store {
            words: [0; VERTICES + EDGES],
            counts: [0; VERTICES],
            lengths: [0; VERTICES],
        }
    }

    // Lays slices of these lengths, one after the other, where the body ends with them.
    fn lay(
        &mut self,
        mut body: Body<'_>,
        starts: usize,
        targets: usize,
        counts: usize,
        lengths: usize,
    ) -> Result<Contents<'_>, BadCase> {
        let Store {
            words,
            counts: all_counts,
            lengths: all_lengths,
        } = self;
        let (starts, rest) = words.split_at_mut_checked(starts).ok_or(BadCase)?;
        let targets = rest.get_mut(..targets).ok_or(BadCase)?;
        let counts = all_counts.get_mut(..counts).ok_or(BadCase)?;
        let lengths = all_lengths.get_mut(..lengths).ok_or(BadCase)?;
        body.fill(starts)?;
        body.fill(targets)?;
        body.fill(counts)?;
        body.fill(lengths)?;
        body.end()?;
        let rows = Rows { starts, targets };
        let table = Table { rows, counts };
        Ok(Contents { table, lengths })
    }

    // Lays a table without its counts: two lengths, then starts and targets.
    pub fn rows(&mut self, mut body: Body<'_>) -> Result<Rows<'_>, BadCase> {
        let starts = body.length()?;
        let targets = body.length()?;
        Ok(self.lay(body, starts, targets, 0, 0)?.table.rows)
    }

    // Lays a table: three lengths, then starts, targets and counts.
    pub fn table(&mut self, mut body: Body<'_>) -> Result<Table<'_>, BadCase> {
        let starts = body.length()?;
        let targets = body.length()?;
        let counts = body.length()?;
        Ok(self.lay(body, starts, targets, counts, 0)?.table)
    }

    // Lays a table and the lengths of its vertices: four lengths, then starts, targets, counts and lengths.
    pub fn contents(&mut self, mut body: Body<'_>) -> Result<Contents<'_>, BadCase> {
        let starts = body.length()?;
        let targets = body.length()?;
        let counts = body.length()?;
        let lengths = body.length()?;
        self.lay(body, starts, targets, counts, lengths)
    }
}
