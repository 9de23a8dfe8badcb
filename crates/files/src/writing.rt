// Bytes written to an open file.
use attributes::errors::EIO;
use std::io;
use std::io::Write;

// Writes all bytes. A call that takes fewer is gone on from; one that takes none counts as a fault of the device. std's write_all goes on where a signal interrupts a call, and this fails.
pub fn write(output: &mut impl Write, bytes: &[u8]) -> io::Result<()> {
    let mut rest = bytes;
    // no `for`, for the same reason as in `read`
    while !rest.is_empty() {
        let taken = output.write(rest)?;
        if taken == 0 {
            return Err(io::Error::from_raw_os_error(EIO));
        }
        rest = &rest[taken..];
    }
    Ok(())
}
