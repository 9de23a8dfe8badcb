// What went wrong, in words, on the stream that is handed over, which in a program is standard error: why a table is refused; what the system says of a file and what to do,
// then what was done and how the file stands.
#![tactic(auto)]

use attributes::errors;
use files::ReplaceError;
use std::fmt::Display;
use std::io::Print;
use std::{fmt, io};
use table::Refusal;

// An error of the system in words, with what to do where that is plain.
#[derive(Clone, Copy)]
struct Reason(io::Error);

impl Display for Reason {
    fn fmt<W: fmt::Write>(&self, f: &mut fmt::Formatter<W>) -> fmt::Result {
        f.write_str(match errors::number(&self.0) {
            errors::EPERM | errors::EACCES => {
                "the rights do not allow it: look at the rights of the file and of its folder"
            }
            errors::ENOENT => "there is no such file or folder: look at the name",
            errors::EINTR | errors::EAGAIN => "it was interrupted",
            errors::EIO => "its disk or device has a fault",
            errors::EBADF => "it is closed",
            errors::ENOMEM | errors::EMFILE => {
                "the system has no memory, or no open files, left for it"
            }
            errors::EEXIST => "the name is taken",
            errors::ENOTDIR => "a part of the name is a file where a folder must be",
            errors::EISDIR => "it is a folder: give the name of a file",
            errors::EINVAL => "the system does not do this here",
            errors::EFBIG => "files may not become so large here",
            errors::ENOSPC => "no room is left on its disk: make room there",
            errors::EROFS => "its disk can only be read",
            errors::ENAMETOOLONG => "the name is too long: give a shorter one",
            errors::ELOOP => "the name leads through too many links",
            errors::NOT_TEXT => "the name is no text in UTF-8: give one that is",
            number => return write_number(f, number),
        })
    }
}

// Writes an error that has no words here, as the system counts it; the number only where it is above 0, which the cast has the checker prove.
fn write_number<W: fmt::Write>(f: &mut fmt::Formatter<W>, number: i32) -> fmt::Result {
    f.write_str("the system's error ")?;
    if number > 0 {
        write!(f, "{}", number as u64)?;
    }
    Ok(())
}

// Says a line. Where standard error cannot be written there is nowhere left to say it.
fn say(out: &impl Print, line: impl Display + Drop) {
    let _ = out.println(line);
}

// Says a line of a name, which need not be text.
fn say_of(out: &impl Print, name: &[u8], words: impl Display + Drop) {
    let _ = out.write_all(name);
    let _ = println!(out; ": {words}");
}

// Says of a name what error the system answered.
pub fn say_reason(out: &impl Print, name: &[u8], error: io::Error) {
    say_of(out, name, Reason(error));
}

// Says that standard input could not be read.
pub fn unread_input(out: &impl Print, error: io::Error) {
    let reason = Reason(error);
    let _ = println!(out; "standard input could not be read: {reason}\nthere is no answer");
}

// Says that an answer could not be printed.
pub fn unprinted(out: &impl Print) {
    say(
        out,
        "standard output could not be written: the answer there is not whole, and not to be used",
    );
}

// Says that the line of a program could not be printed, and how OUT stands.
pub fn unprinted_line(out: &impl Print, program: &[u8], state: &[u8]) {
    say(out, "standard output could not be written");
    say_state(out, program, state);
}

// Every refusal, which is found by its number.
const REFUSALS: [Refusal; 14] = [
    Refusal::Vertices,
    Refusal::Edges,
    Refusal::Starts,
    Refusal::Target,
    Refusal::Row,
    Refusal::CountEach,
    Refusal::Reads,
    Refusal::Room,
    Refusal::Cycle,
    Refusal::Mark,
    Refusal::Version,
    Refusal::Length,
    Refusal::Vertex,
    Refusal::ZeroLength,
];

// Says why a refusal or any number refuses; nothing where the number is 0.
pub fn say_refusal<N: Into<u32>>(out: &impl Print, number: N) {
    let number = number.into();
    match REFUSALS
        .iter()
        .find(|refusal| u32::from(**refusal) == number)
    {
        Some(refusal) => say(out, *refusal),
        None if number == 0 => {}
        None => say(out, "there are no words for this number"),
    }
}

// Says how the file OUT of a program stands.
pub fn say_state(out: &impl Print, program: &[u8], state: &[u8]) {
    let _ = out.write_all(program);
    let _ = out.write_all(b": ");
    let _ = out.write_all(state);
    let _ = out.write_all(b"\n");
}

// Says why OUT was not replaced, and how it stands.
pub fn say_replaced(out: &impl Print, program: &[u8], name: &[u8], error: ReplaceError) {
    match error {
        ReplaceError::Link => say_of(out, name, "it is a link: give the name of the file itself"),
        ReplaceError::Folder => say_of(out, name, "it is a folder"),
        ReplaceError::Special => say_of(out, name, "it is a pipe, a socket or a device"),
        ReplaceError::Unseen(error)
        | ReplaceError::Protected(error)
        | ReplaceError::FolderUnopened(error)
        | ReplaceError::Unmade(error)
        | ReplaceError::Unwritten(error)
        | ReplaceError::Unrenamed(error)
        | ReplaceError::FolderUnflushed(error) => say_reason(out, name, error),
    }
    say_of(out, program, error);
}
