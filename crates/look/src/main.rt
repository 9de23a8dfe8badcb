// Prints whether the image on standard input is sound, and how big its table is: `table N M`, in version 2 `table N M lengths`, or `refused N`.
#![tactic(auto)]

use layout::Header;
use std::io::Print;

// Says how the program is called.
fn usage(rt: &HostRuntime) {
    let _ = rt.println(
        "usage: look < IMAGE: prints how many vertices and edges the table in an image has, and whether it has lengths",
    );
}

// Reads the image, and prints what `look_bytes::answer` makes of it. A word behind the program's name is a mistake: the image comes through `<`.
fn main(rt: HostRuntime) {
    if exchange::word_count(&rt) > 1 {
        usage(&rt);
        return;
    }
    let mut room = [0u8; Header::STREAM];
    let Some(image) = exchange::read_input(&rt, &mut room, Header::STREAM) else {
        return;
    };
    let mut text = [0u8; look_bytes::LONGEST];
    let answer = look_bytes::answer(image, &mut text);
    exchange::print(&rt, &text[..answer.length], answer.refusal);
}
