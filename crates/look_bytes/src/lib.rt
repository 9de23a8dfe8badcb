// Look, from the bytes of an image to the bytes of the line that is printed.
#![tactic(auto)]

ghost use Rattle.io.specs.Counts.{IsPrefixLen};
ghost use Rattle.printing.specs.Answered.{told_of};
ghost use Rattle.look_bytes.specs.Look.{LookAnswer};

use printing::Answer;

// The length of the longest line: `table` with the largest n and m, and `lengths`. `refused` and a number of 32 bits have 19 bytes.
pub const LONGEST: usize = 24;

// Puts the line that look prints of an image at the front of the buffer: `table N M`, in version 2 `table N M lengths`, or `refused N`.
pub fn answer(image: &[u8], out: &mut [u8; LONGEST]) -> Answer
    ensures look_answer { LookAnswer image.now out.old out.new (told_of result) }
    ensures prefix_len { IsPrefixLen result.length out.new }
{
    match image::look(image) {
        Ok(sizes) => Answer {
            refusal: None,
            length: printing::sizes(out, sizes.version, sizes.vertices, sizes.edges),
        },
        Err(refusal) => printing::refusal(out, refusal),
    }
}
