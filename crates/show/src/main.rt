// Prints the table that stands in the image on standard input: `table N M`, in version 2 `table N M lengths`, then for each vertex its number, its count, in version 2 its
// length, and its successors; or `refused N`.
#![tactic(auto)]

use layout::Header;
use std::io::Print;

// Says how the program is called.
fn usage(rt: &HostRuntime) {
    let _ = rt.println(
        "usage: show < IMAGE: prints the table in an image, for each vertex its number, its count, its length if it has one, and its successors",
    );
}

// Reads the image, and prints what `show_bytes::answer` makes of it. A word behind the program's name is a mistake: the image comes through `<`.
fn main(rt: HostRuntime) {
    if exchange::word_count(&rt) > 1 {
        usage(&rt);
        return;
    }
    let mut room = [0u8; Header::STREAM];
    let Some(image) = exchange::read_input(&rt, &mut room, Header::STREAM) else {
        return;
    };
    let mut text = [0u8; show_bytes::LONGEST];
    let answer = show_bytes::answer(image, &mut text);
    exchange::print(&rt, &text[..answer.length], answer.refusal);
}
