// Judging the header of an image.
ghost use Rattle.std.specs.Prelude.{◌≤◌, ◌≡◌, length};
ghost use Rattle.table.specs.Verdict.{Says};
ghost use Rattle.layout.specs.Lengths.{Known};
ghost use Rattle.layout.specs.Image.{version_of};
ghost use Rattle.image.specs.Looking.{marked, HeaderJudged, seen_of};

use layout::{Header, Number};
use table::{EDGE_LIMIT, Refusal, VERTEX_LIMIT};

// What look and load answer of an image that they accept: the version, n and m.
#[derive(Clone, Copy)]
pub struct Sizes {
    pub version: u32,
    pub vertices: usize,
    pub edges: usize,
}

// Whether an image has room for a header and begins with the mark.
fn is_marked(image: &[u8]) -> bool
    ensures { Says result (marked image.now).met }
{
    image.len() >= Header::SIZE && image.starts_with(&Header::MARK)
}

// The version that an image has.
fn version(image: &[u8]) -> u32
    requires { 13 ≤ length image.now }
    ensures { result ≡ version_of image.now }
{
    u32::from(u16::read_at(image, 3))
}

// Whether there is such a version.
fn is_known(version: u32) -> bool
    ensures { Says result (Known version) }
{
    version == Header::VERSION_1 || version == Header::VERSION_2
}

// 10, 11, 1, 2, 12, the first that is given, or the version, n and m.
pub fn judge_header(image: &[u8]) -> Result<Sizes, Refusal>
    ensures { HeaderJudged image.now (seen_of result) }
{
    if !is_marked(image) {
        return Err(Refusal::Mark);
    }
    let version = version(image);
    if !is_known(version) {
        return Err(Refusal::Version);
    }
    let n = u32::read_at(image, 5);
    if n as usize > VERTEX_LIMIT {
        return Err(Refusal::Vertices);
    }
    let m = u32::read_at(image, 9);
    if m as usize > EDGE_LIMIT {
        return Err(Refusal::Edges);
    }
    if image.len() != Header::length(version, n, m) {
        return Err(Refusal::Length);
    }
    Ok(Sizes {
        version,
        vertices: n as usize,
        edges: m as usize,
    })
}
