// Folds the table that stands in the image in the file IN, by the rule of its version: `fold BUDGET IN OUT` writes the image of the new table, of the same version and with
// the lengths as they were, to the file OUT and prints `folded F left L edges M`; or it prints `refused N`, and no file is written. `fold --rings BUDGET IN OUT` takes tables with
// directed cycles, too.
#![tactic(auto)]

ghost use Rattle.std.specs.Prelude.{◌≤◌};

use exchange::Program;
use layout::Header;
use rule::Rings;
use std::io::Print;

// Reads IN into the room, and hands out what `fold_bytes::answer` makes of it: OUT first, then the line.
fn fold_file(
    program: &Program,
    rings: Rings,
    budget: u32,
    from: &[u8],
    to: &[u8],
    room: &mut [u8],
) {
    let Some(image) = program.read_file(from, room, Header::STREAM) else {
        return;
    };
    let mut line = [0u8; fold_bytes::LONGEST];
    let mut new = [0u8; Header::LARGEST];
    let answers = fold_bytes::answer(rings, image, budget, &mut line, &mut new);
    program.deliver(
        to,
        &new[..answers.image],
        &line[..answers.line],
        answers.refusal,
    );
}

// Takes the two names from the words behind the budget, which is word i, and folds, with the room that the budget stood in.
fn fold_named(program: &Program, rings: Rings, i: usize, budget: u32, room: &mut [u8])
    requires { i ≤ 2 }
{
    let mut from_room = io::buffer();
    let Some(from) = program.take_name(b"IN", i + 1, &mut from_room) else {
        return;
    };
    let mut to_room = io::buffer();
    let Some(to) = program.take_name(b"OUT", i + 2, &mut to_room) else {
        return;
    };
    fold_file(program, rings, budget, from, to, room);
}

// Says how the program is called.
fn usage(rt: &HostRuntime) {
    let _ = rt.println(
        "usage: fold [--rings] BUDGET IN OUT: folds the first BUDGET, 0 to 4294967295, outermost superbubbles of the table in the file IN, and writes the file OUT; --rings takes cycles, too",
    );
}

// Takes the budget, which is word i, and folds.
fn fold_from(program: &Program, rings: Rings, i: usize, room: &mut [u8])
    requires { i ≤ 2 }
{
    let Ok(budget) = words::number(program.rt, i, room) else {
        usage(program.rt);
        return;
    };
    fold_named(program, rings, i, budget, room);
}

// Fills closed standard streams before anything is opened, and folds, with rings taken where the first word says so.
fn main(rt: HostRuntime) {
    let program = Program {
        rt: &rt,
        name: b"fold",
    };
    if !program.fill_closed() {
        return;
    }
    let mut room = [0u8; words::LONGEST];
    match exchange::word_count(&rt) {
        4 => fold_from(&program, Rings::Refused, 1, &mut room),
        5 if words::is(&rt, 1, b"--rings", &mut room) => {
            fold_from(&program, Rings::Taken, 2, &mut room);
        }
        _ => usage(&rt),
    }
}
