// Show, from the bytes of an image to the bytes of the text that is printed.
#![tactic(auto)]

ghost use Rattle.std.specs.Prelude.{◌+◌, ◌≤◌, ◌<◌, map, length};
ghost use Rattle.io.specs.Counts.{IsPrefixLen};
ghost use Rattle.table.specs.Table.{size};
ghost use Rattle.layout.specs.Lengths.{length_count};
ghost use Rattle.layout.specs.Image.{SoundContents};
ghost use Rattle.texts.specs.Text.{decimal, following, line, text, each, length_at, vertex_line, contents_lines};
ghost use Rattle.printing.specs.Put.{AtFront, Put};
ghost use Rattle.printing.specs.Answered.{told_of};
ghost use Rattle.show_bytes.specs.Show.{ShowAnswer};

use layout::{Contents, Header};
use printing::Answer;
use taking::Arrays;

// No text is longer: a line of 24 bytes for the largest n and m, for each vertex 25 with a count of 13 digits and a length of 5, and 5 for each edge.
pub const LONGEST: usize = 92_184;

// Puts the successors of a vertex, a blank before each.
fn put_successors(out: &mut [u8], at: usize, row: &[u32]) -> usize
    requires { at + length (following (map decimal row.now)) ≤ length out.old }
    ensures { Put out.old at (following (map decimal row.now)) out.new result }
{
    let mut place = at;
    for successor in row {
        place = printing::next_number(out, place, u64::from(*successor));
    }
    place
}

// Puts the length of a vertex, a blank before it, which version 2 has.
fn put_length(out: &mut [u8], at: usize, version: u32, lengths: &[u16], v: usize) -> usize
    requires v_in_bounds { length_count version (v + 1) ≤ length lengths.now }
    requires v_in_bounds_2 { at + length (following (map decimal (length_at version lengths.now v))) ≤ length out.old }
    ensures { Put out.old at (following (map decimal (length_at version lengths.now v))) out.new result }
{
    if version == Header::VERSION_2 {
        return printing::next_number(out, at, u64::from(lengths[v]));
    }
    at
}

// Puts the line of a vertex: its number, its count, in version 2 its length, its successors.
#[tactic(auto, using(table::proofs::RowLaws::row_lies, crate::proofs::Long::vertex_line_long))]
fn put_vertex(out: &mut [u8], at: usize, version: u32, contents: &Contents, v: usize) -> usize
    requires sound_contents { SoundContents version contents.now }
    requires v_in_bounds { v < size contents.now.table.rows }
    requires line_in_bounds { at + length (line (vertex_line version contents.now v)) ≤ length out.old }
    ensures { Put out.old at (line (vertex_line version contents.now v)) out.new result }
{
    let counts = contents.table.counts;
    let mut place = printing::number(out, at, v as u64);
    place = printing::next_number(out, place, counts[v]);
    place = put_length(out, place, version, contents.lengths, v);
    place = put_successors(out, place, contents.table.rows.row(v));
    printing::end_line(out, place)
}

// Puts the line of each vertex.
fn put_vertices(out: &mut [u8], at: usize, version: u32, contents: &Contents) -> usize
    requires sound_contents { SoundContents version contents.now }
    requires lines_in_bounds { at
        + length (text (each (vertex_line version contents.now) (size contents.now.table.rows)))
        ≤ length out.old }
    ensures { Put
        out.old
        at
        (text (each (vertex_line version contents.now) (size contents.now.table.rows)))
        out.new
        result }
{
    let mut place = at;
    for v in 0..contents.table.rows.vertices() {
        place = put_vertex(out, place, version, contents, v);
    }
    place
}

// Puts what an image holds at the front: `table N M`, in version 2 `table N M lengths`, and the line of each vertex.
fn put_contents(out: &mut [u8; LONGEST], version: u32, contents: &Contents) -> usize
    requires { SoundContents version contents.now }
    ensures { AtFront (text (contents_lines version contents.now)) out.old out.new result }
{
    let rows = &contents.table.rows;
    let place = printing::sizes(out, version, rows.vertices(), rows.targets.len());
    put_vertices(out, place, version, contents)
}

// Puts the text that show prints of an image at the front of the buffer: what it holds, or `refused N`.
pub fn answer(image: &[u8], out: &mut [u8; LONGEST]) -> Answer
    ensures show_answer { ShowAnswer image.now out.old out.new (told_of result) }
    ensures prefix_len { IsPrefixLen result.length out.new }
{
    let mut arrays = Arrays::new();
    match arrays.take_in(image) {
        Ok(sizes) => Answer {
            refusal: None,
            length: put_contents(out, sizes.version, &arrays.contents(sizes)),
        },
        Err(refusal) => printing::refusal(out, refusal),
    }
}
