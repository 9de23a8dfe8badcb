// Looking at an image: whether it is sound, and how big. Nothing is stored: table and lengths are checked where they stand.
ghost use Rattle.image.specs.Looking.{Looked, seen_of};

use crate::header::{Sizes, judge_header};
use table::Refusal;

// Looks at an image: 10, 11, 1, 2, 12, 3, 4, 5, 7, 20, the first that is given, or the version, n and m.
pub fn look(image: &[u8]) -> Result<Sizes, Refusal>
    ensures { Looked image.now (seen_of result) }
{
    let sizes = judge_header(image)?;
    in_place::check(image, sizes.version, sizes.vertices, sizes.edges)?;
    Ok(sizes)
}
