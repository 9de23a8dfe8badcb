// Text for standard output, gathered in a buffer that is written out whenever it is full.
//
// Once a write has failed nothing more is written, so that a program says it once, at its end.
ghost use Rattle.std.specs.Prelude.{◌≤◌, ◌≡◌, length};

use layout::Number;
use std::io::{Print, Stdout};
use table::Refusal;

// How many bytes the buffer has.
const BUFFER: usize = 4_096;

// Where the text is written to, how the writing has gone, the buffer, and how many of its bytes are filled.
#[derive(Drop)]
pub struct Output {
    stdout: Stdout,
    written: std::io::Result<()>,
    buffer: [u8; BUFFER],
    filled: usize,
    ghost in_buffer: { filled ≤ length buffer },
}

impl Output {
    // An empty buffer for standard output.
    pub fn new(stdout: Stdout) -> Output {
        Output {
            stdout,
            written: Ok(()),
            buffer: [0; BUFFER],
            filled: 0,
        }
    }

    // Empties the buffer: what is filled is written out, unless a write has failed before.
    fn flush(&mut self)
        ensures { self.new.filled ≡ 0 }
    {
        if self.written.is_ok() {
            self.written = self.stdout.write_all(&self.buffer[..self.filled]);
        }
        self.filled = 0;
    }

    // Writes out what is left, and answers whether all that was ever put is written.
    pub fn finish(mut self) -> std::io::Result<()> {
        self.flush();
        self.written
    }

    // Puts a byte, after writing the buffer out where it is full.
    pub fn byte(&mut self, byte: u8) {
        if self.filled == BUFFER {
            self.flush();
        }
        self.buffer[self.filled] = byte;
        self.filled += 1;
    }

    // Puts bytes, one after the other.
    pub fn bytes(&mut self, bytes: &[u8]) {
        for byte in bytes {
            self.byte(*byte);
        }
    }

    // Puts numbers, each in as many bytes as in an image.
    pub fn numbers<T: Number>(&mut self, numbers: &[T])
        requires { T.WIDTH ≤ 8 }
    {
        for number in numbers {
            let mut bytes = [0u8; 8];
            number.put_at(&mut bytes, 0);
            self.bytes(&bytes[..T::WIDTH]);
        }
    }

    // Puts a blank and a number in shortest decimal.
    fn next_number(&mut self, number: u64) {
        let mut digits = [0u8; 20];
        let count = io::decimal(number, &mut digits);
        self.byte(b' ');
        self.bytes(&digits[..count]);
    }

    // Puts the name of what was called and what it answered: 0 and its numbers, or the number of the refusal and so many zeros.
    pub fn answer<const N: usize>(&mut self, name: &[u8], answer: Result<[u64; N], Refusal>) {
        let (number, numbers) = match answer {
            Ok(numbers) => (0, numbers),
            Err(refusal) => (u32::from(refusal), [0; N]),
        };
        self.bytes(name);
        self.next_number(u64::from(number));
        for number in numbers.iter() {
            self.next_number(*number);
        }
    }
}
