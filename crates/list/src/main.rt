// Lists the superbubbles of the table that stands in the image on standard input: `superbubbles K`, then a line for each, entrance and exit, by rising entrance; or `refused N`.
#![tactic(auto)]

use layout::Header;
use std::io::Print;

// Says how the program is called.
fn usage(rt: &HostRuntime) {
    let _ = rt.println(
        "usage: list < IMAGE: prints the superbubbles of the table in an image, each as entrance and exit",
    );
}

// Reads the image, and prints what `list_bytes::answer` makes of it. A word behind the program's name is a mistake: the image comes through `<`.
fn main(rt: HostRuntime) {
    if exchange::word_count(&rt) > 1 {
        usage(&rt);
        return;
    }
    let mut room = [0u8; Header::STREAM];
    let Some(image) = exchange::read_input(&rt, &mut room, Header::STREAM) else {
        return;
    };
    let mut text = [0u8; list_bytes::LONGEST];
    let answer = list_bytes::answer(image, &mut text);
    exchange::print(&rt, &text[..answer.length], answer.refusal);
}
