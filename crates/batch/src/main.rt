// Answers many cases in one run, for the comparison with the second program.
//
// A case is one byte, the operation; 32 bits, the length of the body; and the body. All numbers are little-endian. A case that is cut off, has an unknown operation, or a body
// that does not fit its operation ends the run with the line `bad case`.
#![tactic(auto)]

ghost use Rattle.std.specs.Prelude.{◌≤◌, length, IfOk, IfSome};

mod body;
mod folds;
mod images;
mod most;
mod operation;
mod output;
mod store;
mod tables;

use body::{BadCase, Body};
use folds::fold_case;
use images::{load_case, look_case, show_case, write_case, write_lengths_case};
use most::BODY;
use operation::Operation;
use output::Output;
use store::Store;
use tables::{check_case, judge_case, list_case};

// A case as it was read.
#[derive(Clone, Copy)]
struct Case<'a> {
    operation: Operation,
    body: Body<'a>,
}

// Reads a case, or finds the input at its end.
fn next_case<'a>(rt: &HostRuntime, bytes: &'a mut [u8]) -> Result<Option<Case<'a>>, BadCase>
    ensures { IfOk result (λ found. IfSome found (λ case. length case.body.rest.now ≤ length bytes.old)) }
{
    let mut head = [0u8; 5];
    let came = files::read(&mut rt.stdin(), &mut head, 5)?;
    if came == 0 {
        return Ok(None);
    }
    if came < 5 {
        return Err(BadCase);
    }
    let [operation, a, b, c, d] = head;
    let length = u32::from_le_bytes([a, b, c, d]) as usize;
    let bytes = bytes.get_mut(..length).ok_or(BadCase)?;
    if files::read(&mut rt.stdin(), bytes, length)? < length {
        return Err(BadCase);
    }
    Ok(Some(Case {
        operation: Operation::try_from(operation)?,
        body: Body::new(bytes),
    }))
}

// Answers a case.
fn answer(case: Case<'_>, store: &mut Store, out: &mut Output) -> Result<(), BadCase> {
    let body = case.body;
    match case.operation {
        Operation::Show => show_case(body, out),
        Operation::Check => check_case(body, store, out),
        Operation::Write => write_case(body, store, out),
        Operation::WriteLengths => write_lengths_case(body, store, out),
        Operation::Look => look_case(body, out),
        Operation::Load => load_case(body, out),
        Operation::List => list_case(body, store, out),
        Operation::Judge => judge_case(body, store, out),
        Operation::Fold(fold) => fold_case(fold, body, store, out),
    }
}

// Answers every case up to the end of the input. A proved loop has to end, and nothing says that the input does: so it has as many turns as no run uses up.
fn answer_all(rt: &HostRuntime, out: &mut Output) -> Result<(), BadCase> {
    let mut bytes = [0u8; BODY];
    let mut store = Store::new();
    for _ in 0..u64::MAX {
        let Some(case) = next_case(rt, &mut bytes)? else {
            break;
        };
        answer(case, &mut store, out)?;
    }
    Ok(())
}

fn main(rt: HostRuntime) {
    let mut out = Output::new(rt.stdout());
    if answer_all(&rt, &mut out).is_err() {
        out.bytes(b"bad case\n");
    }
    if out.finish().is_err() {
        messages::unprinted(&rt.stderr());
    }
}
