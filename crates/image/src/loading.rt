// Loading an image: judged whole first, whatever an earlier look said of it, so that a refusal stores nothing.
ghost use Rattle.image.specs.Looking.{Loaded, seen_of};

use crate::header::Sizes;
use crate::laying::lay_in_room;
use crate::looking::look;
use table::Refusal;

// Loads the contents of an image into lent slices: 10, 11, 1, 2, 12, 3, 4, 5, 7, 20, 8, the first that is given, or the version, n and m. In version 1 nothing is asked of
// the lengths slice, and nothing is stored there.
pub fn load(
    image: &[u8],
    starts: &mut [u32],
    targets: &mut [u32],
    counts: &mut [u64],
    lengths: &mut [u16],
) -> Result<Sizes, Refusal>
    ensures { Loaded
        image.now
        (record {
          table = record { rows = record { starts = starts.old; targets = targets.old }; counts = counts.old };
          lengths = lengths.old;
        })
        (record {
          table = record { rows = record { starts = starts.new; targets = targets.new }; counts = counts.new };
          lengths = lengths.new;
        })
        (seen_of result) }
{
    let sizes = look(image)?;
    lay_in_room(image, sizes, starts, targets, counts, lengths)?;
    Ok(sizes)
}
