// The words that a program is started with.
#![tactic(auto)]

ghost use Rattle.std.specs.Prelude.{◌+◌, ◌-◌, ◌*◌, ◌≤◌, length, min, ◌≡◌};
ghost use Rattle.table.specs.Verdict.{Says as TableSays};
ghost use Rattle.words.specs.Decimal.{Says};

use std::env::Env;

// The room that any word fits: the longest that the system hands to a program for x86-64, and one byte more.
pub const LONGEST: usize = 131_072;

// Why a word says no number of 32 bits.
#[derive(Clone, Copy, Debug, PartialEq, Eq)]
pub enum NumeralError {
    TooLarge,
    Wrong,
}

// The value with one digit more, or 4,294,967,296 where that is less.
fn appended(value: u64, digit: u8) -> u64
    requires value_bound { value ≤ 4294967296 }
    requires le_digit { (48 ≤ digit) × (digit ≤ 57) }
    ensures { result ≡ min 4294967296 (10 * value + (digit - 48)) }
{
    (10 * value + u64::from(digit - b'0')).min(4_294_967_296)
}

// What a word says, of any length.
pub fn parse(word: &[u8]) -> Result<u32, NumeralError>
    ensures { Says word.now result }
{
    if word.is_empty() {
        return Err(NumeralError::Wrong);
    }
    let mut value = 0;
    for digit in word {
        if !matches!(*digit, b'0'..=b'9') {
            return Err(NumeralError::Wrong);
        }
        value = appended(value, *digit);
    }
    u32::try_from(value).map_err(|_| NumeralError::TooLarge)
}

// Whether a word is a text, byte for byte.
pub fn same(word: &[u8], text: &[u8]) -> bool
    ensures { TableSays result (word.now ≡ text.now) }
{
    word == text
}

// Takes word i into the room; nothing where there is none, or where it is longer.
fn take<'a>(env: &impl Env, i: usize, room: &'a mut [u8]) -> &'a [u8]
    ensures { length result.now ≤ length room.old }
{
    match env.arg(i, room) {
        Ok(count) => &room[..count],
        Err(_) => &[],
    }
}

// What word i says, the program's own name being word 0. It is taken into the room that is lent; a word that is longer says nothing.
pub fn number(env: &impl Env, i: usize, room: &mut [u8]) -> Result<u32, NumeralError> {
    parse(take(env, i, room))
}

// Whether word i is a text. It is taken into the room that is lent; a word that is longer is none.
pub fn is(env: &impl Env, i: usize, text: &[u8], room: &mut [u8]) -> bool {
    same(take(env, i, room), text)
}
