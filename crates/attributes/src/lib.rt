// What the system says of the file at a path.
#![tactic(auto)]

ghost use Rattle.std.specs.Prelude.{◌≤◌, ◌≡◌, length, IfOk, IfErr};
ghost use Rattle.attributes.specs.Paths.{Ended, Numbered};

pub mod errors;

use errors::{NOT_TEXT, number};
use std::fs::{Files, Metadata};
use std::{fs, io};

// How many bytes the system takes for a name with the 0 behind it.
pub const PATH_MAX: usize = 4096;

const LAST: usize = PATH_MAX - 1;

// How many bytes stand before the 0 that ends a path.
fn extent(path: &[u8; PATH_MAX]) -> usize
    ensures { result ≤ length path.now }
{
    path.iter().position(|byte| *byte == 0).unwrap_or(LAST)
}

// A name as the library takes it, which is text in UTF-8. For one that is none the error is NOT_TEXT.
pub fn text(name: &[u8]) -> io::Result<&str>
    ensures { IfOk result (λ text. text.now ≡ name.now) }
{
    std::str::from_utf8(name).map_err(|_| io::Error::from_raw_os_error(NOT_TEXT))
}

// Asks the system; a link is not followed.
fn ask(files: &impl Files, path: &[u8; PATH_MAX]) -> io::Result<Metadata> {
    let end = extent(path);
    fs::symlink_metadata(files, text(&path[..end])?)
}

// The attributes of the file that a path names; a link is not followed. An error has a number, which is never 0.
pub fn of(files: &impl Files, path: &[u8; PATH_MAX]) -> io::Result<Metadata>
    requires { Ended path.now }
    ensures { IfErr result Numbered }
{
    ask(files, path).map_err(|error| io::Error::from_raw_os_error(number(&error)))
}

// A path as the C library takes it: as much of a name as leaves room for a 0, and then zeros. A longer name would be another file's, so a caller tests it first.
pub fn ended(name: &[u8]) -> [u8; PATH_MAX]
    ensures { Ended result }
{
    let mut path = [0u8; PATH_MAX];
    let count = name.len().min(LAST);
    path[..count].copy_from_slice(&name[..count]);
    // It is 0 already, and the check sees it here.
    path[LAST] = 0;
    path
}
