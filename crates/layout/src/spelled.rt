// Numbers where they stand in bytes, which the checks of a table read there.
ghost use Rattle.std.specs.Prelude.{◌+◌, ◌*◌, ◌≤◌, ◌≡◌, length, drop, ⊤};
ghost use Rattle.layout.specs.Bytes.{numbers_of};

use crate::bytes::Number;
use std::alloc::AllocError;
use std::marker::PhantomData;
use table::Numbers;

// So many numbers at the front of some bytes.
pub struct Spelled<'a, T: Number> {
    bytes: &'a [u8],
    count: usize,
    of: PhantomData<T>,
    ghost room: { T.WIDTH * count ≤ length bytes.now },
}

// By hand, since none is derived for a struct with a ghost field.
impl<'a, T: Number> Clone for Spelled<'a, T> {
    ghost is_clone = { λ numbers copy. copy ≡ numbers };

    ghost is_infallible = { λ _. ⊤ };

    fn clone(&self) -> Result<Spelled<'a, T>, AllocError> {
        Ok(*self)
    }
}

impl<'a, T: Number> Copy for Spelled<'a, T> {}

impl<'a, T: Number> Spelled<'a, T> {
    // Those that stand from a place on.
    pub fn new(bytes: &'a [u8], at: usize, count: usize) -> Spelled<'a, T>
        requires { at + T.WIDTH * count ≤ length bytes.now }
        ensures { numbers_of T.WIDTH result.count result.bytes.now ≡ numbers_of T.WIDTH count (drop at bytes.now) }
    {
        Spelled {
            bytes: &bytes[at..],
            count,
            of: PhantomData,
        }
    }
}

impl<'a, T: Number> Numbers for Spelled<'a, T> {
    ghost list = { λ numbers. numbers_of T.WIDTH numbers.count numbers.bytes.now };

    #[tactic(auto, using(crate::proofs::ByteLaws::numbers_length))]
    fn count(self) -> usize {
        self.count
    }

    fn at(self, place: usize) -> u64 {
        T::read_at(self.bytes, T::WIDTH * place).wide()
    }

    fn part(self, from: usize, to: usize) -> Spelled<'a, T> {
        Spelled::new(self.bytes, T::WIDTH * from, to - from)
    }
}
