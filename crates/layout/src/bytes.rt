// Little-endian numbers in a slice of bytes.
ghost use Rattle.std.specs.Prelude.{ℕ, ◌+◌, ◌*◌, ◌≤◌, ◌≡◌, ◌++◌, length, take, drop};
ghost use Rattle.layout.specs.Bytes.{value_of, bytes_of, numbers_of, spelled, over};

use table::Wide;

// The numbers that an image holds, each in so many bytes.
pub trait Number: Wide {
    const WIDTH: usize;

    ghost WIDTH: { ℕ };

    // The number at a place.
    fn read_at(bytes: &[u8], at: usize) -> Self
        requires { at + WIDTH ≤ length bytes.now }
        ensures { Self.value result ≡ value_of (take WIDTH (drop at bytes.now)) };

    // Puts a number at a place.
    fn put_at(self, out: &mut [u8], at: usize)
        requires { at + WIDTH ≤ length out.old }
        ensures { out.new ≡ over out.old at (bytes_of WIDTH (Self.value self)) };
}

impl Number for u16 {
    const WIDTH: usize = 2;

    ghost WIDTH = { 2 };

    fn read_at(bytes: &[u8], at: usize) -> u16 {
        u16::from_le_bytes([bytes[at], bytes[at + 1]])
    }

    fn put_at(self, out: &mut [u8], at: usize) {
        out[at..at + 2].copy_from_slice(&self.to_le_bytes());
    }
}

impl Number for u32 {
    const WIDTH: usize = 4;

    ghost WIDTH = { 4 };

    fn read_at(bytes: &[u8], at: usize) -> u32 {
        u32::from_le_bytes([bytes[at], bytes[at + 1], bytes[at + 2], bytes[at + 3]])
    }

    fn put_at(self, out: &mut [u8], at: usize) {
        out[at..at + 4].copy_from_slice(&self.to_le_bytes());
    }
}

impl Number for u64 {
    const WIDTH: usize = 8;

    ghost WIDTH = { 8 };

    fn read_at(bytes: &[u8], at: usize) -> u64 {
        u64::from_le_bytes([
            bytes[at],
            bytes[at + 1],
            bytes[at + 2],
            bytes[at + 3],
            bytes[at + 4],
            bytes[at + 5],
            bytes[at + 6],
            bytes[at + 7],
        ])
    }

    fn put_at(self, out: &mut [u8], at: usize) {
        out[at..at + 8].copy_from_slice(&self.to_le_bytes());
    }
}

// Puts `count` numbers, which stand from a place on, at the front of out.
pub fn read_numbers<T: Number>(bytes: &[u8], at: usize, count: usize, out: &mut [T])
    requires { (at + T.WIDTH * count ≤ length bytes.now) × (count ≤ length out.old) }
    ensures { T.values out.new ≡ numbers_of T.WIDTH count (drop at bytes.now) ++ drop count (T.values out.old) }
{
    for k in 0..count {
        out[k] = T::read_at(bytes, at + T::WIDTH * k);
    }
}

// Writes the numbers over out from a place on.
pub fn write_numbers<T: Number>(numbers: &[T], out: &mut [u8], at: usize)
    requires { at + T.WIDTH * length numbers.now ≤ length out.old }
    ensures { out.new ≡ over out.old at (spelled T.WIDTH (T.values numbers.now)) }
{
    for (k, number) in numbers.iter().enumerate() {
        number.put_at(out, at + T::WIDTH * k);
    }
}
