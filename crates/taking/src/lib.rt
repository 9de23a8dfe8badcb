// A program's way in: an image is looked at, and then loaded into the fronts of the program's arrays.
#![tactic(auto)]

ghost use Rattle.std.specs.Prelude.{◌≤◌, ◌≡◌, replicate};
ghost use Rattle.table.specs.Limits.{vertex_limit, start_limit, edge_limit};
ghost use Rattle.image.specs.Looking.{contents_room, contents_fronts, seen_of};
ghost use Rattle.taking.specs.Taking.{held_by, TakenIn};

use image::Sizes;
use layout::{Contents, Header};
use table::{EDGE_LIMIT, Refusal, Rows, START_LIMIT, Table, VERTEX_LIMIT};

// Arrays with room for the contents of any image.
#[derive(Clone, Copy)]
pub struct Arrays {
    pub starts: [u32; START_LIMIT],
    pub targets: [u32; EDGE_LIMIT],
    pub counts: [u64; VERTEX_LIMIT],
    pub lengths: [u16; VERTEX_LIMIT],
}

impl Arrays {
    // Arrays of zeros.
    pub fn new() -> Arrays
        ensures { (result.starts ≡ replicate start_limit 0)
            × (result.targets ≡ replicate edge_limit 0)
            × (result.counts ≡ replicate vertex_limit 0)
            × (result.lengths ≡ replicate vertex_limit 0) }
    {
        Arrays {
            starts: [0; START_LIMIT],
            targets: [0; EDGE_LIMIT],
            counts: [0; VERTEX_LIMIT],
            lengths: [0; VERTEX_LIMIT],
        }
    }

    // The rows at the fronts, of an image of such sizes that was taken in.
    pub fn rows(&self, sizes: Sizes) -> Rows<'_>
        requires { (sizes.vertices ≤ vertex_limit) × (sizes.edges ≤ edge_limit) }
        ensures { result ≡ (contents_fronts sizes.version sizes.vertices sizes.edges (held_by self.now)).table.rows }
    {
        Rows {
            starts: &self.starts[..sizes.vertices + 1],
            targets: &self.targets[..sizes.edges],
        }
    }

    // All that stands at the fronts: the table with its counts, and as many lengths as its version has.
    pub fn contents(&self, sizes: Sizes) -> Contents<'_>
        requires { (sizes.vertices ≤ vertex_limit) × (sizes.edges ≤ edge_limit) }
        ensures { result ≡ contents_fronts sizes.version sizes.vertices sizes.edges (held_by self.now) }
    {
        Contents {
            table: Table {
                rows: self.rows(sizes),
                counts: &self.counts[..sizes.vertices],
            },
            lengths: &self.lengths[..Header::lengths(sizes.version, sizes.vertices)],
        }
    }

    // Takes an image in.
    pub fn take_in(&mut self, image: &[u8]) -> Result<Sizes, Refusal>
        ensures taken_in { TakenIn image.now (held_by self.old) (held_by self.new) (seen_of result) }
        ensures vertices_le_vertex_limit { ((seen_of result).vertices ≤ vertex_limit) × ((seen_of result).edges ≤ edge_limit) }
    {
        take_in(
            image,
            &mut self.starts,
            &mut self.targets,
            &mut self.counts,
            &mut self.lengths,
        )
    }
}

// Looks at an image, and loads its contents into the fronts of four slices with room for any: exactly n + 1, m and n numbers of them, and as many lengths as it has.
// The slices are no struct: of slices that are lent in a struct to be written nothing is known once the loan is over.
fn take_with(
    image: &[u8],
    starts: &mut [u32],
    targets: &mut [u32],
    counts: &mut [u64],
    lengths: &mut [u16],
) -> Result<Sizes, Refusal>
    requires { (contents_room
        2
        vertex_limit
        edge_limit
        (record {
          table = record { rows = record { starts = starts.old; targets = targets.old }; counts = counts.old };
          lengths = lengths.old;
        })).met }
    ensures { TakenIn
        image.now
        (record {
          table = record { rows = record { starts = starts.old; targets = targets.old }; counts = counts.old };
          lengths = lengths.old;
        })
        (record {
          table = record { rows = record { starts = starts.new; targets = targets.new }; counts = counts.new };
          lengths = lengths.new;
        })
        (seen_of result) }
{
    let sizes = image::look(image)?;
    let n = sizes.vertices;
    let m = sizes.edges;
    let k = Header::lengths(sizes.version, n);
    image::load(
        image,
        &mut starts[..n + 1],
        &mut targets[..m],
        &mut counts[..n],
        &mut lengths[..k],
    )
    .unwrap();
    Ok(sizes)
}

// The same with four arrays, which have that room, wherever they stand.
pub fn take_in(
    image: &[u8],
    starts: &mut [u32; START_LIMIT],
    targets: &mut [u32; EDGE_LIMIT],
    counts: &mut [u64; VERTEX_LIMIT],
    lengths: &mut [u16; VERTEX_LIMIT],
) -> Result<Sizes, Refusal>
    ensures taken_in { TakenIn
        image.now
        (record {
          table = record { rows = record { starts = starts.old; targets = targets.old }; counts = counts.old };
          lengths = lengths.old;
        })
        (record {
          table = record { rows = record { starts = starts.new; targets = targets.new }; counts = counts.new };
          lengths = lengths.new;
        })
        (seen_of result) }
    ensures vertices_le_vertex_limit { ((seen_of result).vertices ≤ vertex_limit) × ((seen_of result).edges ≤ edge_limit) }
{
    take_with(image, starts, targets, counts, lengths)
}
