// An input, read to its end.
ghost use Rattle.std.specs.Prelude.{IfOk};
ghost use Rattle.io.specs.Counts.{IsPrefixLen};

use attributes::text;
use std::fs::{File, Files};
use std::io;
use std::io::Read;

// Reads an open file or stream to its end, or until so many bytes came as are asked for or as the slice holds, and answers how many came.
// A call that fails is an error, whatever came before it: it is not the end. std's read_exact does not say how many came before the end, and goes on where a signal interrupts a call.
pub fn read(input: &mut impl Read, stream: &mut [u8], most: usize) -> io::Result<usize>
    ensures { IfOk result (λ count. IsPrefixLen count stream.new) }
{
    let end = most.min(stream.len());
    let mut done = 0;
    // no `for`: how far a call comes is the system's to say
    while done < end {
        let more = input.read(&mut stream[done..end])?;
        if more == 0 {
            break;
        }
        done += more;
    }
    Ok(done)
}

// Reads the file of a name in the same way, and closes it.
pub fn read_file(
    files: &impl Files,
    name: &[u8],
    stream: &mut [u8],
    most: usize,
) -> io::Result<usize>
    ensures { IfOk result (λ count. IsPrefixLen count stream.new) }
{
    let mut file = File::open(files, text(name)?)?;
    read(&mut file, stream, most)
}
