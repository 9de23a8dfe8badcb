// The new table of a fold, row by row: of each row all edges stay, only one, or none. Which of them says one number a vertex, in `next`: n, which is no
// vertex's number, for the whole row; a vertex for the edge that leads to it; and a number above n, as n + 1, for none.
// It is a plain number and no enum, since the path is settled and its vertices dropped in the same slice, which a caller lends: one number a vertex, in fixed memory.
#![tactic(auto)]

ghost use Rattle.std.specs.Prelude.{◌+◌, ◌≤◌, length};
ghost use Rattle.staying.specs.Staying.{staying, Put, TableReady, TableWritten};

use table::Rows;

// Copies a row to a place of out; answers the place behind it. Rows are short, and `copy_from_slice` costs a call for each: a fold of a chain took a fifth longer.
fn copy_row(row: &[u32], out: &mut [u32], at: usize) -> usize
    requires { at + length row.now ≤ length out.old }
    ensures { Put row.now out.old out.new at result }
{
    for (k, target) in row.iter().enumerate() {
        out[at + k] = *target;
    }
    at + row.len()
}

// Writes what stays of a row to a place of out: all of it where next is n, else the edge to next, or none where next is above n.
fn write_row(row: &[u32], next: u32, n: usize, out: &mut [u32], at: usize) -> usize
    requires { at + length (staying n next row.now) ≤ length out.old }
    ensures { Put (staying n next row.now) out.old out.new at result }
{
    if next as usize > n {
        return at;
    }
    if (next as usize) < n {
        out[at] = next;
        return at + 1;
    }
    copy_row(row, out, at)
}

// Writes the table of the edges that stay at the fronts of two slices; answers how many they are. They are no struct: of slices that
// are lent in a struct to be written nothing is known once the loan is over.
pub fn write_table(rows: &Rows, next: &[u32], starts2: &mut [u32], targets2: &mut [u32]) -> usize
    requires { TableReady rows.now next.now (record { starts = starts2.old; targets = targets2.old }) }
    ensures { TableWritten
        rows.now
        next.now
        (record { starts = starts2.old; targets = targets2.old })
        (record { starts = starts2.new; targets = targets2.new })
        result }
{
    let n = rows.vertices();
    let mut at = 0;
    for v in 0..n {
        starts2[v] = at as u32;
        at = write_row(rows.row(v), next[v], n, targets2, at);
    }
    starts2[n] = at as u32;
    at
}
