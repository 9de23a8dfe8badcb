// What stands in an image, laid out in slices.
ghost use Rattle.table.specs.Refusals.{numbered};
ghost use Rattle.in_place.specs.InPlace.{Sized};
ghost use Rattle.image.specs.Looking.{LayRoom, Laid, LaidInRoom};

use crate::header::Sizes;
use layout::{Header, read_numbers};
use table::Refusal;

// Lays what stands in an image of a version, n and m at the fronts of four slices. They are no struct: of slices that are lent in a struct to be written nothing is known
// once the loan is over.
pub fn lay(
    image: &[u8],
    sizes: Sizes,
    starts: &mut [u32],
    targets: &mut [u32],
    counts: &mut [u64],
    lengths: &mut [u16],
)
    requires { LayRoom
        image.now
        sizes.version
        sizes.vertices
        sizes.edges
        (record {
          table = record { rows = record { starts = starts.old; targets = targets.old }; counts = counts.old };
          lengths = lengths.old;
        }) }
    ensures { Laid
        image.now
        sizes.version
        sizes.vertices
        sizes.edges
        (record {
          table = record { rows = record { starts = starts.old; targets = targets.old }; counts = counts.old };
          lengths = lengths.old;
        })
        (record {
          table = record { rows = record { starts = starts.new; targets = targets.new }; counts = counts.new };
          lengths = lengths.new;
        }) }
{
    let n = sizes.vertices;
    let m = sizes.edges;
    let targets_at = Header::SIZE + 4 * (n + 1);
    let counts_at = targets_at + 4 * m;
    let lengths_at = counts_at + 8 * n;
    read_numbers(image, Header::SIZE, n + 1, starts);
    read_numbers(image, targets_at, m, targets);
    read_numbers(image, counts_at, n, counts);
    read_numbers(
        image,
        lengths_at,
        Header::lengths(sizes.version, n),
        lengths,
    );
}

// Lays it there where they have room for it, or 8 and nothing is stored.
pub fn lay_in_room(
    image: &[u8],
    sizes: Sizes,
    starts: &mut [u32],
    targets: &mut [u32],
    counts: &mut [u64],
    lengths: &mut [u16],
) -> Result<(), Refusal>
    requires { Sized image.now sizes.version sizes.vertices sizes.edges }
    ensures { LaidInRoom
        image.now
        sizes.version
        sizes.vertices
        sizes.edges
        (record {
          table = record { rows = record { starts = starts.old; targets = targets.old }; counts = counts.old };
          lengths = lengths.old;
        })
        (record {
          table = record { rows = record { starts = starts.new; targets = targets.new }; counts = counts.new };
          lengths = lengths.new;
        })
        (numbered result) }
{
    if starts.len() < sizes.vertices + 1 {
        return Err(Refusal::Room);
    }
    if targets.len() < sizes.edges {
        return Err(Refusal::Room);
    }
    if counts.len() < sizes.vertices {
        return Err(Refusal::Room);
    }
    if lengths.len() < Header::lengths(sizes.version, sizes.vertices) {
        return Err(Refusal::Room);
    }
    lay(image, sizes, starts, targets, counts, lengths);
    Ok(())
}
