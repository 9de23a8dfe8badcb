// Judges one pair of the table that stands in the image on standard input: `judge S T` prints `superbubble N` with N the vertices in U, or `no`, or `refused N`.
#![tactic(auto)]

use layout::Header;
use std::io::Print;
use words::NumeralError;

// The vertex that word i says. A number that is too large for 32 bits is the largest of them, which is no vertex either.
fn vertex(rt: &HostRuntime, i: usize, room: &mut [u8]) -> Option<u32> {
    match words::number(rt, i, room) {
        Ok(v) => Some(v),
        Err(NumeralError::TooLarge) => Some(u32::MAX),
        Err(NumeralError::Wrong) => None,
    }
}

// Says how the program is called.
fn usage(rt: &HostRuntime) {
    let _ = rt.println(
        "usage: judge S T < IMAGE: says whether the vertices S and T, numbers from 0, are a superbubble, and of how many vertices",
    );
}

// Takes the two vertices from the words, reads the image into the room that these stood in, and prints what `judge_bytes::answer` makes of it.
fn main(rt: HostRuntime) {
    if exchange::word_count(&rt) != 3 {
        usage(&rt);
        return;
    }
    let mut room = [0u8; words::LONGEST];
    let (Some(s), Some(t)) = (vertex(&rt, 1, &mut room), vertex(&rt, 2, &mut room)) else {
        usage(&rt);
        return;
    };
    let Some(image) = exchange::read_input(&rt, &mut room, Header::STREAM) else {
        return;
    };
    let mut text = [0u8; judge_bytes::LONGEST];
    let answer = judge_bytes::answer(image, s, t, &mut text);
    exchange::print(&rt, &text[..answer.length], answer.refusal);
}
