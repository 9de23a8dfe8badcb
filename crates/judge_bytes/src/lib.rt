// Judge, from the bytes of an image and a pair to the bytes of the text that is printed.
#![tactic(auto)]

ghost use Rattle.std.specs.Prelude.{[], ◌∷◌};
ghost use Rattle.io.specs.Counts.{IsPrefixLen};
ghost use Rattle.table.specs.Table.{Sound};
ghost use Rattle.judging.specs.Judging.{answer_of, pair_inside};
ghost use Rattle.texts.specs.Text.{text, judgement_lines};
ghost use Rattle.printing.specs.Put.{AtFront};
ghost use Rattle.printing.specs.Answered.{Answered, told_of};
ghost use Rattle.judge_bytes.specs.Line.{JudgementText, JudgeAnswer};

use printing::Answer;
use table::Rows;
use taking::Arrays;

// The length of the longest text: `superbubble` and a number of 32 bits.
pub const LONGEST: usize = 23;

// Puts a judgement at the front: `superbubble N`, or `no`.
#[tactic(auto, using(printing::proofs::Digits::ten_digits))]
fn put_judgement(out: &mut [u8; LONGEST], judged: Option<u32>) -> usize
    ensures { AtFront
        (text (judgement_lines (answer_of judged).yes (answer_of judged).size))
        out.old
        out.new
        result }
{
    match judged {
        Some(vertices) => {
            let mut place = printing::word(out, 0, b"superbubble");
            place = printing::next_number(out, place, u64::from(vertices));
            printing::end_line(out, place)
        }
        None => {
            let place = printing::word(out, 0, b"no");
            printing::end_line(out, place)
        }
    }
}

// Judges a pair of a well-formed table, and puts the judgement, or the line of its refusal.
fn judge_table(rows: &Rows, s: u32, t: u32, out: &mut [u8; LONGEST]) -> Answer
    requires { Sound rows.now }
    ensures { Answered (pair_inside rows.now s t ∷ []) (JudgementText rows.now s t) out.old out.new (told_of result) }
{
    match judging::judge(rows, s, t) {
        Ok(judged) => Answer {
            refusal: None,
            length: put_judgement(out, judged),
        },
        Err(refused) => printing::refusal(out, refused),
    }
}

// Puts the text that judge prints of an image and a pair at the front of the buffer: the judgement, or `refused N`.
pub fn answer(image: &[u8], s: u32, t: u32, out: &mut [u8; LONGEST]) -> Answer
    ensures judge_answer { JudgeAnswer image.now s t out.old out.new (told_of result) }
    ensures prefix_len { IsPrefixLen result.length out.new }
{
    let mut arrays = Arrays::new();
    match arrays.take_in(image) {
        Ok(sizes) => judge_table(&arrays.rows(sizes), s, t, out),
        Err(refusal) => printing::refusal(out, refusal),
    }
}
