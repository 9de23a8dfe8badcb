// The text of an answer: words, and numbers in shortest decimal, put at a place of a buffer that has room for them.
// Buffer and place are handed on side by side, and no struct: of a slice that is lent in a struct to be written nothing is known once the loan is over.
#![tactic(auto)]

ghost use Rattle.std.specs.Prelude.{◌+◌, ◌≤◌, ◌≡◌, [], ◌∷◌, length};
ghost use Rattle.table.specs.Refusals.{number as refusal_number};
ghost use Rattle.texts.specs.Text.{decimal, following, line, text, lengths_word, sizes_line, refusal_lines};
ghost use Rattle.printing.specs.Put.{AtFront, Put};
ghost use Rattle.printing.specs.Answered.{told_of};

use layout::Header;
use table::Refusal;

// What a program answers: why it refuses, if it does, and how many bytes of text stand at the front of the buffer.
#[derive(Clone, Copy)]
pub struct Answer {
    pub refusal: Option<Refusal>,
    pub length: usize,
}

// Puts the bytes of a word. Words are short, so they are put one by one, with no call of `copy_from_slice` for each.
pub fn word(out: &mut [u8], at: usize, bytes: &[u8]) -> usize
    requires { at + length bytes.now ≤ length out.old }
    ensures { Put out.old at bytes.now out.new result }
{
    for (k, byte) in bytes.iter().enumerate() {
        out[at + k] = *byte;
    }
    at + bytes.len()
}

// Puts a number in shortest decimal.
pub fn number(out: &mut [u8], at: usize, x: u64) -> usize
    requires { at + length (decimal x) ≤ length out.old }
    ensures { Put out.old at (decimal x) out.new result }
{
    let mut digits = [0u8; 20];
    let count = io::decimal(x, &mut digits);
    word(out, at, &digits[..count])
}

// Puts a blank and a number.
pub fn next_number(out: &mut [u8], at: usize, x: u64) -> usize
    requires { at + length (32 ∷ decimal x) ≤ length out.old }
    ensures { Put out.old at (32 ∷ decimal x) out.new result }
{
    out[at] = b' ';
    number(out, at + 1, x)
}

// Puts a line feed.
#[tactic(auto, using(crate::proofs::PutLaws::put_byte))]
pub fn end_line(out: &mut [u8], at: usize) -> usize
    requires { at + 1 ≤ length out.old }
    ensures { Put out.old at (10 ∷ []) out.new result }
{
    out[at] = b'\n';
    at + 1
}

// Puts the word that version 2 has behind n and m.
fn lengths_word(out: &mut [u8], at: usize, version: u32) -> usize
    requires { at + length (following (lengths_word version)) ≤ length out.old }
    ensures { Put out.old at (following (lengths_word version)) out.new result }
{
    if version == Header::VERSION_2 {
        return word(out, at, b" lengths");
    }
    at
}

// Puts the line of n and m, `table N M`, in version 2 `table N M lengths`, at the front.
#[tactic(auto, using(texts::proofs::LineLaws::sizes_line_long))]
pub fn sizes(out: &mut [u8], version: u32, n: usize, m: usize) -> usize
    requires { length (line (sizes_line version n m)) ≤ length out.old }
    ensures { Put out.old 0 (line (sizes_line version n m)) out.new result }
{
    let mut place = word(out, 0, b"table");
    place = next_number(out, place, n as u64);
    place = next_number(out, place, m as u64);
    place = lengths_word(out, place, version);
    end_line(out, place)
}

// Puts the line of any number that refuses, `refused N`, at the front.
#[tactic(auto, using(crate::proofs::Digits::ten_digits))]
pub fn refusal_line(out: &mut [u8], number: u32) -> usize
    requires { 19 ≤ length out.old }
    ensures { AtFront (text (refusal_lines number)) out.old out.new result }
{
    let mut place = word(out, 0, b"refused");
    place = next_number(out, place, u64::from(number));
    end_line(out, place)
}

// Puts the line of a refusal at the front.
pub fn refusal(out: &mut [u8], refusal: Refusal) -> Answer
    requires { 19 ≤ length out.old }
    ensures { ((told_of result).number ≡ refusal_number refusal)
        × AtFront (text (refusal_lines (refusal_number refusal))) out.old out.new (told_of result).length }
{
    Answer {
        refusal: Some(refusal),
        length: refusal_line(out, u32::from(refusal)),
    }
}
