// The body of a case, read from its front.
ghost use Rattle.std.specs.Prelude.{◌≡◌};

use layout::{Header, Number};
use std::io;

// A case that cannot be answered.
#[derive(Clone, Copy, Debug, PartialEq, Eq)]
pub struct BadCase;

// One that could not be read.
impl From<io::Error> for BadCase {
    fn from(_error: io::Error) -> BadCase {
        BadCase
    }
}

// What is left of a body.
#[derive(Clone, Copy)]
pub struct Body<'a> {
    rest: &'a [u8],
}

impl<'a> Body<'a> {
    // A whole body.
    pub fn new(bytes: &'a [u8]) -> Body<'a>
        ensures { result.rest.now ≡ bytes.now }
    {
        Body { rest: bytes }
    }

    // Takes a number.
    pub fn number<T: Number>(&mut self) -> Result<T, BadCase> {
        let (front, rest) = self.rest.split_at_checked(T::WIDTH).ok_or(BadCase)?;
        self.rest = rest;
        Ok(T::read_at(front, 0))
    }

    // Takes the length of a slice.
    pub fn length(&mut self) -> Result<usize, BadCase> {
        Ok(self.number::<u32>()? as usize)
    }

    // Takes as many numbers as the slice holds.
    pub fn fill<T: Number>(&mut self, numbers: &mut [T]) -> Result<(), BadCase> {
        for number in numbers.iter_mut() {
            *number = self.number()?;
        }
        Ok(())
    }

    // Takes all that is left as a stream, which is no longer than what is read of one.
    pub fn stream(self) -> Result<&'a [u8], BadCase> {
        if self.rest.len() > Header::STREAM {
            return Err(BadCase);
        }
        Ok(self.rest)
    }

    // Finds nothing left.
    pub fn end(self) -> Result<(), BadCase> {
        if !self.rest.is_empty() {
            return Err(BadCase);
        }
        Ok(())
    }
}
