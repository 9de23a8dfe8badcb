// Lists of numbers that can be read at a place, and the checks of such lists: as slices, or where they stand in an image.
ghost use Rattle.std.specs.Prelude.{ℕ, ◌+◌, ◌-◌, ◌≤◌, ◌<◌, ◌≡◌, List, length, get_or, take, drop, map};
ghost use Rattle.std.proofs.Common.{sym};
ghost use Rattle.std.proofs.lemmas.List.{map-id};
ghost use Rattle.table.specs.Limits.{read_limit};
ghost use Rattle.table.specs.Verdict.{Says};
ghost use Rattle.table.specs.Table.{Below, Rises, RowsRise, StartsFit, count_sum};

use crate::limits::READ_LIMIT;

// A list of numbers.
pub trait Numbers: Copy {
    ghost list: { Self → List ℕ };

    // How many there are.
    fn count(self) -> usize
        ensures { result ≡ length (list self) };

    // The number at a place.
    fn at(self, place: usize) -> u64
        requires { place < length (list self) }
        ensures { result ≡ get_or (list self) place 0 };

    // Those from a place up to, not including, another.
    fn part(self, from: usize, to: usize) -> Self
        requires { (from ≤ to) × (to ≤ length (list self)) }
        ensures { list result ≡ take (to - from) (drop from (list self)) };
}

// A number of at most 64 bits.
pub trait Wide: Copy {
    // What a number is in a clause, and what a list of them is.
    ghost value: { Self → ℕ };

    ghost values: { List Self → List ℕ };

    // The number in 64 bits.
    fn wide(self) -> u64
        ensures { result ≡ value self };

    ghost each: { (numbers : List Self) → values numbers ≡ map value numbers };
}

impl Wide for u16 {
    ghost value = { λ number. number };

    ghost values = { λ numbers. numbers };

    ghost each = { λ numbers. sym (map-id numbers) };

    fn wide(self) -> u64 {
        u64::from(self)
    }
}

impl Wide for u32 {
    ghost value = { λ number. number };

    ghost values = { λ numbers. numbers };

    ghost each = { λ numbers. sym (map-id numbers) };

    fn wide(self) -> u64 {
        u64::from(self)
    }
}

impl Wide for u64 {
    ghost value = { λ number. number };

    ghost values = { λ numbers. numbers };

    ghost each = { λ numbers. sym (map-id numbers) };

    fn wide(self) -> u64 {
        self
    }
}

impl<'a, T: Wide> Numbers for &'a [T] {
    ghost list = { λ numbers. T.values numbers.now };

    fn count(self) -> usize {
        self.len()
    }

    fn at(self, place: usize) -> u64 {
        self[place].wide()
    }

    fn part(self, from: usize, to: usize) -> &'a [T] {
        &self[from..to]
    }
}

// Whether the starts begin with 0, never fall, and end with m.
pub fn starts_fit<S: Numbers>(starts: S, m: usize) -> bool
    requires { 0 < length (S.list starts) }
    ensures { Says result (StartsFit (S.list starts) m) }
{
    if starts.at(0) != 0 {
        return false;
    }
    for v in 1..starts.count() {
        if starts.at(v) < starts.at(v - 1) {
            return false;
        }
    }
    starts.at(starts.count() - 1) == m as u64
}

// Whether each number is below n.
pub fn all_below<N: Numbers>(numbers: N, n: usize) -> bool
    ensures { Says result (Below n (N.list numbers)) }
{
    for k in 0..numbers.count() {
        if numbers.at(k) >= n as u64 {
            return false;
        }
    }
    true
}

// The row check wherever a row stands: whether it rises strictly.
pub fn numbers_rise<N: Numbers>(row: N) -> bool
    ensures { Says result (Rises (N.list row)) }
{
    for k in 1..row.count() {
        if row.at(k) <= row.at(k - 1) {
            return false;
        }
    }
    true
}

// Whether each row rises strictly.
#[tactic(auto, using(crate::proofs::RowLaws::row_lies))]
pub fn rows_rise<S: Numbers, T: Numbers>(starts: S, targets: T) -> bool
    requires { StartsFit (S.list starts) (length (T.list targets)) }
    ensures { Says result (RowsRise (S.list starts) (T.list targets)) }
{
    for v in 1..starts.count() {
        let from = starts.at(v - 1) as usize;
        let to = starts.at(v) as usize;
        if !numbers_rise(targets.part(from, to)) {
            return false;
        }
    }
    true
}

// Whether the exact sum of the counts is at most 1,099,511,627,775, wherever they stand. A count may be any 64-bit number.
#[tactic(auto, using(crate::proofs::SumLaws::passed_more, crate::proofs::SumLaws::passed_least))]
pub fn numbers_sum_fits<N: Numbers>(counts: N) -> bool
    ensures { Says result (count_sum (N.list counts) ≤ read_limit) }
{
    let mut spare = READ_LIMIT;
    for v in 0..counts.count() {
        let count = counts.at(v);
        if count > spare {
            return false;
        }
        spare -= count;
    }
    true
}
