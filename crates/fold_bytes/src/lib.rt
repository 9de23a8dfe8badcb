// Fold, with rings refused or taken, from the bytes of an image and a budget to the bytes of the line that is printed and of the image that is written.
#![tactic(auto)]

ghost use Rattle.std.specs.Prelude.{◌≡◌};
ghost use Rattle.io.specs.Counts.{IsPrefixLen};
ghost use Rattle.table.specs.Refusals.{number};
ghost use Rattle.layout.specs.Image.{SoundContents, image_of};
ghost use Rattle.texts.specs.Text.{text, refusal_lines, fold_lines};
ghost use Rattle.printing.specs.Put.{AtFront};
ghost use Rattle.fold_bytes.specs.Image.{delivered_of, choosing_of, fold_of, FoldDelivered, TheFoldAnswer};

use layout::{Contents, Header};
use rule::{Choosing, Mode, Rings};
use table::{Refusal, Rows, Table};
use taking::Arrays;

// The length of the longest line: `folded`, `left` and `edges`, and three numbers of 64 bits.
pub const LONGEST: usize = 81;

// What a fold answers: why it refuses, if it does, and how many bytes of the line and of the new image stand at the fronts of their buffers.
#[derive(Clone, Copy)]
pub struct Answers {
    pub refusal: Option<Refusal>,
    pub line: usize,
    pub image: usize,
}

// Puts the line of a fold at the front: `folded F left L edges M`.
#[tactic(auto, using(printing::proofs::Digits::twenty_digits))]
fn put_fold(out: &mut [u8; LONGEST], folded: usize, left: usize, edges: usize) -> usize
    ensures { AtFront (text (fold_lines folded left edges)) out.old out.new result }
{
    let mut place = printing::word(out, 0, b"folded");
    place = printing::next_number(out, place, folded as u64);
    place = printing::word(out, place, b" left");
    place = printing::next_number(out, place, left as u64);
    place = printing::word(out, place, b" edges");
    place = printing::next_number(out, place, edges as u64);
    printing::end_line(out, place)
}

// Puts the line of a refusal. Nothing is to be written.
fn refused(out: &mut [u8; LONGEST], refusal: Refusal) -> Answers
    ensures { ((delivered_of result).number ≡ number refusal)
        × ((delivered_of result).image ≡ 0)
        × AtFront (text (refusal_lines (number refusal))) out.old out.new (delivered_of result).line }
{
    let answer = printing::refusal(out, refusal);
    Answers {
        refusal: answer.refusal,
        line: answer.length,
        image: 0,
    }
}

// By which rule an image of a version is folded.
fn choosing(version: u32) -> Choosing
    ensures { result ≡ choosing_of version }
{
    if version == Header::VERSION_2 {
        return Choosing::Weakest;
    }
    Choosing::Sum
}

// Puts the image of a table with lengths at the front: with room for the largest image, sound contents are written.
fn put_image<'a>(
    new: &mut [u8; Header::LARGEST],
    version: u32,
    table: Table<'a>,
    lengths: &'a [u16],
) -> usize
    requires { SoundContents version (record { table = table; lengths = lengths.now }) }
    ensures { AtFront (image_of version (record { table = table.entry; lengths = lengths.now })) new.old new.new result }
{
    let contents = Contents { table, lengths };
    writing::write_version(version, &contents, new).unwrap()
}

// Folds a table by the rule of its version into the next set of arrays, and puts the line and the image of the new table with its lengths, or the line of a refusal.
fn fold_contents(
    rings: Rings,
    version: u32,
    contents: &Contents,
    budget: u32,
    next: &mut Arrays,
    out: &mut [u8; LONGEST],
    new: &mut [u8; Header::LARGEST],
) -> Answers
    requires { SoundContents version contents.now }
    ensures { FoldDelivered
        (fold_of rings version)
        ((fold_of rings version).asked contents.now.table.rows)
        version
        contents.now
        budget
        out.old
        out.new
        new.old
        new.new
        (delivered_of result) }
{
    let by = choosing(version);
    let mode = Mode { rings, by };
    let table = &contents.table;
    let folded = match folding::fold_by(
        mode,
        table,
        budget,
        &mut next.starts,
        &mut next.targets,
        &mut next.counts,
    ) {
        Ok(folded) => folded,
        Err(refusal) => return refused(out, refusal),
    };
    let n = table.rows.vertices();
    let m = folded.edges;
    let left = Table {
        rows: Rows {
            starts: &next.starts[..n + 1],
            targets: &next.targets[..m],
        },
        counts: &next.counts[..n],
    };
    let written = put_image(new, version, left, contents.lengths);
    Answers {
        refusal: None,
        line: put_fold(out, folded.folded, folded.left, m),
        image: written,
    }
}

// Puts what fold prints and writes of an image and a budget at the fronts of the buffers: the line and the new image, or `refused N` and nothing.
pub fn answer(
    rings: Rings,
    image: &[u8],
    budget: u32,
    out: &mut [u8; LONGEST],
    new: &mut [u8; Header::LARGEST],
) -> Answers
    ensures the_fold_answer { TheFoldAnswer rings image.now budget out.old out.new new.old new.new (delivered_of result) }
    ensures prefix_len { IsPrefixLen result.line out.new × IsPrefixLen result.image new.new }
{
    let mut arrays = Arrays::new();
    let mut next = Arrays::new();
    match arrays.take_in(image) {
        Ok(sizes) => fold_contents(
            rings,
            sizes.version,
            &arrays.contents(sizes),
            budget,
            &mut next,
            out,
            new,
        ),
        Err(refusal) => refused(out, refusal),
    }
}
