// What a program takes in and hands out: an input read whole, an answer printed at once, a file put at OUT before the line that says so. What fails is said in words.
#![tactic(auto)]

ghost use Rattle.std.specs.Prelude.{◌≤◌, length, IfSome};

use attributes::errors::{EINVAL, ENAMETOOLONG};
use std::env::{Env, FillError};
use std::io;
use std::io::Print;

// How many words a program was started with, its own name among them.
pub fn word_count(env: &impl Env) -> usize {
    (0..usize::MAX)
        .position(|i| matches!(env.arg(i, &mut []), Err(FillError::NotPresent)))
        .unwrap_or(usize::MAX)
}

// Reads standard input into the room, so many bytes at the most; where it cannot be read, says so.
pub fn read_input<'a>(rt: &HostRuntime, room: &'a mut [u8], most: usize) -> Option<&'a [u8]>
    ensures { IfSome result (λ input. length input.now ≤ length room.old) }
{
    match files::read(&mut rt.stdin(), room, most) {
        Ok(count) => Some(&room[..count]),
        Err(error) => {
            messages::unread_input(&rt.stderr(), error);
            None
        }
    }
}

// Prints an answer, in one call where the system takes it whole, and says the reason of a refusal; where it cannot be printed, says that instead.
pub fn print<N: Into<u32> + Drop>(rt: &HostRuntime, text: &[u8], refusal: Option<N>) {
    if rt.write_all(text).is_err() {
        messages::unprinted(&rt.stderr());
        return;
    }
    if let Some(refusal) = refusal {
        messages::say_refusal(&rt.stderr(), refusal);
    }
}

// A program that writes a file: what it runs on, and the name under which it says how OUT stands.
#[derive(Clone, Copy)]
pub struct Program<'a> {
    pub rt: &'a HostRuntime,
    pub name: &'a [u8],
}

impl<'a> Program<'a> {
    // Says of a name what error the system answered, and how OUT stands.
    fn say_failed(&self, name: &[u8], error: io::Error, state: &[u8]) {
        let out = self.rt.stderr();
        messages::say_reason(&out, name, error);
        messages::say_state(&out, self.name, state);
    }

    // Fills standard streams that are closed, before any file is opened; where that cannot be done, says so and answers false.
    pub fn fill_closed(&self) -> bool {
        match files::fill_closed(self.rt) {
            Ok(()) => true,
            Err(error) => {
                self.say_failed(
                    b"/dev/null",
                    error,
                    b"standard streams that are closed could not be filled; OUT is as it was",
                );
                false
            }
        }
    }

    // Takes word i, the name of IN or OUT, into the room; where it does not fit, says so.
    pub fn take_name<'b>(&self, role: &[u8], i: usize, room: &'b mut [u8]) -> Option<&'b [u8]>
        ensures { IfSome result (λ name. length name.now ≤ length room.old) }
    {
        let error = match self.rt.arg(i, room) {
            Ok(count) => return Some(&room[..count]),
            Err(FillError::NotPresent) => EINVAL,
            Err(FillError::TooLong) => ENAMETOOLONG,
        };
        self.say_failed(
            role,
            io::Error::from_raw_os_error(error),
            b"OUT is as it was",
        );
        None
    }

    // Reads the file IN into the room, so many bytes at the most; where it cannot be read, says so.
    pub fn read_file<'b>(&self, name: &[u8], room: &'b mut [u8], most: usize) -> Option<&'b [u8]>
        ensures { IfSome result (λ input. length input.now ≤ length room.old) }
    {
        match files::read_file(self.rt, name, room, most) {
            Ok(count) => Some(&room[..count]),
            Err(error) => {
                self.say_failed(name, error, b"IN could not be read; OUT is as it was");
                None
            }
        }
    }

    // Prints the line; where it cannot be printed, says how OUT stands and answers false.
    fn print_line(&self, line: &[u8], state: &[u8]) -> bool {
        if self.rt.write_all(line).is_err() {
            messages::unprinted_line(&self.rt.stderr(), self.name, state);
            return false;
        }
        true
    }

    // Puts the new file at OUT, and then prints the line; or says why OUT was not replaced.
    fn replace(&self, to: &[u8], file: &[u8], line: &[u8]) {
        match files::replace(self.rt, to, file) {
            Ok(()) => {
                self.print_line(
                    line,
                    b"it is done all the same; OUT is the new table, whole",
                );
            }
            Err(error) => messages::say_replaced(&self.rt.stderr(), self.name, to, error),
        }
    }

    // Hands out what the program came to: the new file and then its line, or the line of a refusal and its reason.
    pub fn deliver<N: Into<u32> + Drop>(
        &self,
        to: &[u8],
        file: &[u8],
        line: &[u8],
        refusal: Option<N>,
    ) {
        match refusal {
            None => self.replace(to, file, line),
            Some(refusal) => {
                if self.print_line(line, b"the table is refused; OUT is as it was") {
                    messages::say_refusal(&self.rt.stderr(), refusal);
                }
            }
        }
    }
}
