// The check of a table and its lengths where they stand in an image, without a copy of them: 3, 4, 5, 7 and 20.
#![tactic(auto)]

ghost use Rattle.std.specs.Prelude.{◌<◌, length};
ghost use Rattle.table.specs.Verdict.{Verdict};
ghost use Rattle.table.specs.Refusals.{numbered};
ghost use Rattle.in_place.specs.InPlace.{Sized, contents_in, placed_demands};

use layout::{Header, Spelled, none_zero};
use table::{Numbers, Refusal, all_below, numbers_sum_fits, rows_rise, starts_fit};

// 3, 4, 5, 7, 20, the first that is given: the numbers are sound contents, or why not.
fn check_numbers<S: Numbers, T: Numbers, C: Numbers, L: Numbers>(
    starts: S,
    targets: T,
    counts: C,
    lengths: L,
) -> Result<(), Refusal>
    requires { 0 < length (S.list starts) }
    ensures { Verdict
        (placed_demands
        (record {
          table = record { rows = record { starts = S.list starts; targets = T.list targets }; counts = C.list counts };
          lengths = L.list lengths;
        }))
        (numbered result) }
{
    if !starts_fit(starts, targets.count()) {
        return Err(Refusal::Starts);
    }
    if !all_below(targets, starts.count() - 1) {
        return Err(Refusal::Target);
    }
    if !rows_rise(starts, targets) {
        return Err(Refusal::Row);
    }
    if !numbers_sum_fits(counts) {
        return Err(Refusal::Reads);
    }
    if !none_zero(lengths) {
        return Err(Refusal::ZeroLength);
    }
    Ok(())
}

// The same of what stands in an image of a version, n and m.
pub fn check(image: &[u8], version: u32, n: usize, m: usize) -> Result<(), Refusal>
    requires { Sized image.now version n m }
    ensures { Verdict (placed_demands (contents_in image.now version n m)) (numbered result) }
{
    let targets_at = Header::SIZE + 4 * (n + 1);
    let counts_at = targets_at + 4 * m;
    let lengths_at = counts_at + 8 * n;
    check_numbers(
        Spelled::<u32>::new(image, Header::SIZE, n + 1),
        Spelled::<u32>::new(image, targets_at, m),
        Spelled::<u64>::new(image, counts_at, n),
        Spelled::<u16>::new(image, lengths_at, Header::lengths(version, n)),
    )
}
