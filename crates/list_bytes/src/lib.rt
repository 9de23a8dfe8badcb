// List, from the bytes of an image to the bytes of the text that is printed.
#![tactic(auto)]

ghost use Rattle.std.specs.Prelude.{◌+◌, ◌*◌, ◌/◌, ◌≤◌, length};
ghost use Rattle.io.specs.Counts.{IsPrefixLen};
ghost use Rattle.table.specs.Limits.{vertex_limit};
ghost use Rattle.table.specs.Table.{Below, Sound};
ghost use Rattle.texts.specs.Text.{text, each, pair_line, list_lines};
ghost use Rattle.printing.specs.Put.{AtFront, Printed, Put};
ghost use Rattle.printing.specs.Answered.{told_of};
ghost use Rattle.list_bytes.specs.Lines.{ListText, ListAnswer};

use printing::Answer;
use table::{Rows, VERTEX_LIMIT};
use taking::Arrays;

// The length of the longest text: a line of 18 bytes for the largest number of superbubbles, and 10 for each of them.
pub const LONGEST: usize = 20_498;

// Puts the line of each pair: entrance and exit.
fn put_pairs(out: &mut [u8], at: usize, pairs: &[u32]) -> usize
    requires { at + length (text (each (pair_line pairs.now) (length pairs.now / 2))) ≤ length out.old }
    ensures { Put out.old at (text (each (pair_line pairs.now) (length pairs.now / 2))) out.new result }
{
    let mut place = at;
    for pair in pairs.chunks_exact(2) {
        place = printing::number(out, place, u64::from(pair[0]));
        place = printing::next_number(out, place, u64::from(pair[1]));
        place = printing::end_line(out, place);
    }
    place
}

// Puts a list at the front: `superbubbles K`, and the line of each pair.
fn put_list(out: &mut [u8; LONGEST], pairs: &[u32]) -> usize
    requires { (length pairs.now ≤ 2 * vertex_limit) × Below vertex_limit pairs.now }
    ensures { AtFront (text (list_lines pairs.now (length pairs.now / 2))) out.old out.new result }
{
    let found = pairs.len() / 2;
    let mut place = printing::word(out, 0, b"superbubbles");
    place = printing::next_number(out, place, found as u64);
    place = printing::end_line(out, place);
    put_pairs(out, place, pairs)
}

// Lists a well-formed table, and puts its list. With room for n pairs nothing is refused.
fn list_table(rows: &Rows, pairs: &mut [u32; 2 * VERTEX_LIMIT], out: &mut [u8; LONGEST]) -> usize
    requires { Sound rows.now }
    ensures { Printed (ListText rows.now) out.old out.new result }
{
    let found = listing::list(rows, pairs).unwrap();
    put_list(out, &pairs[..2 * found])
}

// Puts the text that list prints of an image at the front of the buffer: the list of its table, or `refused N`.
pub fn answer(image: &[u8], out: &mut [u8; LONGEST]) -> Answer
    ensures list_answer { ListAnswer image.now out.old out.new (told_of result) }
    ensures prefix_len { IsPrefixLen result.length out.new }
{
    let mut arrays = Arrays::new();
    let mut pairs = [0u32; 2 * VERTEX_LIMIT];
    match arrays.take_in(image) {
        Ok(sizes) => Answer {
            refusal: None,
            length: list_table(&arrays.rows(sizes), &mut pairs, out),
        },
        Err(refusal) => printing::refusal(out, refusal),
    }
}
