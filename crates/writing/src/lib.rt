// Writing a house image: its contents are checked and the room asked first, so that a refusal stores nothing.
#![tactic(auto)]

ghost use Rattle.std.specs.Prelude.{[]};
ghost use Rattle.table.specs.Verdict.{Verdict};
ghost use Rattle.table.specs.Refusals.{numbered};
ghost use Rattle.writing.specs.Writing.{contents_demands, Written, extent_of};

use layout::{Contents, Header, Number, none_zero, write_numbers};
use table::{Refusal, Rows, Table, sum_fits};

// 1 to 7, then 20, the first that is given: what is to be written can stand in an image of this version, or why not.
fn check(version: u32, contents: &Contents) -> Result<(), Refusal>
    ensures { Verdict (contents_demands version contents.now) (numbered result) }
{
    contents.table.rows.check()?;
    let n = contents.table.rows.vertices();
    if contents.table.counts.len() != n {
        return Err(Refusal::CountEach);
    }
    if contents.lengths.len() != Header::lengths(version, n) {
        return Err(Refusal::CountEach);
    }
    if !sum_fits(contents.table.counts) {
        return Err(Refusal::Reads);
    }
    if !none_zero(contents.lengths) {
        return Err(Refusal::ZeroLength);
    }
    Ok(())
}

// Writes an image of a version at the front of a lent slice, and answers its length, or 1 to 7, then 20, then 8, the first that is given.
pub fn write_version(version: u32, contents: &Contents, image: &mut [u8]) -> Result<usize, Refusal>
    ensures { Written version contents.now image.old image.new (extent_of result) }
{
    check(version, contents)?;
    let table = &contents.table;
    let n = table.rows.vertices();
    let m = table.rows.targets.len();
    let length = Header::length(version, n as u32, m as u32);
    if image.len() < length {
        return Err(Refusal::Room);
    }
    let header = Header {
        version,
        vertices: n as u32,
        edges: m as u32,
    };
    let targets_at = Header::SIZE + 4 * (n + 1);
    let counts_at = targets_at + 4 * m;
    let lengths_at = counts_at + 8 * n;
    header.put(image);
    write_numbers(table.rows.starts, image, Header::SIZE);
    write_numbers(table.rows.targets, image, targets_at);
    write_numbers(table.counts, image, counts_at);
    write_numbers(contents.lengths, image, lengths_at);
    Ok(length)
}

// Writes the image of a table, of version 1, at the front of a lent slice, and answers its length, or 1 to 7, then 8, the first that is given.
pub fn write(table: &Table, image: &mut [u8]) -> Result<usize, Refusal>
    ensures { Written 1 (record { table = table.now; lengths = [] }) image.old image.new (extent_of result) }
{
    let contents = Contents {
        table: Table {
            rows: Rows {
                starts: table.rows.starts,
                targets: table.rows.targets,
            },
            counts: table.counts,
        },
        lengths: &[],
    };
    write_version(Header::VERSION_1, &contents, image)
}

// Writes the image of a table with its lengths, of version 2, at the front of a lent slice, and answers its length, or 1 to 7, then 20, then 8, the first that is given.
pub fn write_lengths(contents: &Contents, image: &mut [u8]) -> Result<usize, Refusal>
    ensures { Written 2 contents.now image.old image.new (extent_of result) }
{
    write_version(Header::VERSION_2, contents, image)
}
