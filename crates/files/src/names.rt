// Names: the folder of a file, and the name of its own that a run writes under.
ghost use Rattle.std.specs.Prelude.{◌≤◌, length, IfOk};
ghost use Rattle.io.specs.Counts.{IsPrefixLen};
ghost use Rattle.files.specs.Names.{path_limit};

use attributes::text;
use std::fs::{File, Files};
use std::io;
use std::io::{Cursor, Write};
use std::random::RandomSource;

// How long a name of its own is: `gohardim-new-`, and 16 hexadecimal digits.
pub const OWN: usize = 29;

// How many bytes of a name say its folder, the last slash among them.
pub fn folder_length(name: &[u8]) -> usize
    ensures { IsPrefixLen result name.now }
{
    match name.iter().rposition(|byte| *byte == b'/') {
        Some(last) => last + 1,
        None => 0,
    }
}

// Opens the folder of a file for reading: by the part of its name up to the last slash, or `.` where it has none.
pub fn open_folder<R: Files>(files: &R, name: &[u8]) -> io::Result<R::File> {
    let end = folder_length(name);
    if end == 0 {
        return File::open(files, ".");
    }
    File::open(files, text(&name[..end])?)
}

// Puts a new name in the folder of a file, and answers its length; or the error, where the system has no random bytes.
// Two runs never write under one name, and no run reads, renames or removes what another one left.
pub fn own_name(source: &impl RandomSource, name: &[u8], path: &mut [u8; 4125]) -> io::Result<usize>
    requires { length name.now ≤ path_limit }
    ensures { IfOk result (λ count. IsPrefixLen count path.new) }
{
    let mut random = [0u8; 8];
    source.fill_bytes(&mut random)?;
    let digits = u64::from_be_bytes(random);
    let mut own = Cursor::new([0u8; OWN]);
    write!(own, "gohardim-new-{digits:016x}")?;
    let end = folder_length(name);
    path[..end].copy_from_slice(&name[..end]);
    path[end..end + OWN].copy_from_slice(own.get_ref());
    Ok(end + OWN)
}
