// The standard streams.
use attributes::errors::EBADF;
use std::fs::{File, Files};
use std::io;
use std::os::fd::{AsRawFd, IntoRawFd, RawFd};

// The number of standard error, the last of the three.
const STDERR_FILENO: RawFd = 2;

// Opens /dev/null for reading, and answers the descriptor. A number above 2 is closed again: nothing was missing below it.
fn fill_next<R: Files>(files: &R) -> io::Result<RawFd>
where
    R::File: AsRawFd + IntoRawFd,
{
    let file = File::open(files, "/dev/null")?;
    let fd = file.as_raw_fd();
    if fd > STDERR_FILENO {
        return Ok(fd);
    }
    Ok(file.into_raw_fd())
}

// Fills those of standard input, output and error that are closed, so that no file opened later gets their number and is written to by a message.
// A write to one that was filled fails, as to a closed one.
pub fn fill_closed<R: Files>(files: &R) -> io::Result<()>
where
    R::File: AsRawFd + IntoRawFd,
{
    for _ in 0..4 {
        if fill_next(files)? > STDERR_FILENO {
            return Ok(());
        }
    }
    Err(io::Error::from_raw_os_error(EBADF))
}
