// The numbers that the system gives to errors. They are no enum: `io::Error` hands out a number, and any may come.
ghost use Rattle.std.specs.Prelude.{◌≢◌, pos};

use std::io;
use std::io::ErrorKind;

// It is not allowed.
pub const EPERM: i32 = 1;

// There is no such file or folder.
pub const ENOENT: i32 = 2;

// A signal interrupted it.
pub const EINTR: i32 = 4;

// The device has a fault.
pub const EIO: i32 = 5;

// The number of the file is not open.
pub const EBADF: i32 = 9;

// It would have to wait.
pub const EAGAIN: i32 = 11;

// There is no memory.
pub const ENOMEM: i32 = 12;

// The rights do not allow it.
pub const EACCES: i32 = 13;

// The name is taken.
pub const EEXIST: i32 = 17;

// A part of the name is no folder.
pub const ENOTDIR: i32 = 20;

// It is a folder.
pub const EISDIR: i32 = 21;

// The system does not do this.
pub const EINVAL: i32 = 22;

// Too many files are open.
pub const EMFILE: i32 = 24;

// The file would be too large.
pub const EFBIG: i32 = 27;

// No room is left.
pub const ENOSPC: i32 = 28;

// The disk can only be read.
pub const EROFS: i32 = 30;

// The name is too long.
pub const ENAMETOOLONG: i32 = 36;

// There are too many links.
pub const ELOOP: i32 = 40;

// A name is no text in UTF-8. The system has no such number: its own end below this one.
pub const NOT_TEXT: i32 = 4_096;

// The number of the error of a call that failed, never 0. One that the library found before the system was called has none: that of a name with a 0 in it is the system's own for such a name.
// Any other without a number counts as a fault of the device.
pub fn number(error: &io::Error) -> i32
    ensures { result ≢ pos 0 }
{
    match error.raw_os_error() {
        Some(number) if number != 0 => number,
        None if error.kind() == ErrorKind::InvalidInput => EINVAL,
        _ => EIO,
    }
}
