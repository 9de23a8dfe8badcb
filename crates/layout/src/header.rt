// The image header: the bytes S B T; version, 16 bits; n, 32 bits; m, 32 bits.
ghost use Rattle.std.specs.Prelude.{◌≤◌, ◌≡◌, length};
ghost use Rattle.layout.specs.Bytes.{over};
ghost use Rattle.layout.specs.Image.{image_length, largest_image, header_of};
ghost use Rattle.layout.specs.Lengths.{length_count};

use crate::bytes::Number;

// What a header says of its image: version, n and m.
#[derive(Clone, Copy)]
pub struct Header {
    pub version: u32,
    pub vertices: u32,
    pub edges: u32,
}

impl Header {
    // The bytes S B T.
    pub const MARK: [u8; 3] = [83, 66, 84];

    // The versions that are read and written. The second has lengths. They stay numbers and are no enum: `length`, `lengths` and `writing::write_version` promise something of
    // every number.
    pub const VERSION_1: u32 = 1;

    pub const VERSION_2: u32 = 2;

    // How many bytes a header has.
    pub const SIZE: usize = 13;

    // The length of the largest image, of version 2 and as many vertices and edges as a table may have. The contract of `largest` ties it to `length`.
    pub const LARGEST: usize = 61_457;

    // How many bytes of a stream are read: one more than the largest image has, so that a longer stream is given the same number as if it were read whole.
    pub const STREAM: usize = Header::LARGEST + 1;

    // The length of the largest image.
    pub fn largest() -> usize
        ensures { result ≡ largest_image }
    {
        Header::LARGEST
    }

    // How many lengths an image of a version has: one a vertex in version 2, and else none.
    pub fn lengths(version: u32, n: usize) -> usize
        ensures { result ≡ length_count version n }
    {
        if version == Header::VERSION_2 { n } else { 0 }
    }

    // The length of an image by its version, n and m.
    pub fn length(version: u32, n: u32, m: u32) -> usize
        ensures { result ≡ image_length version n m }
    {
        let lengths = Header::lengths(version, n as usize);
        Header::SIZE + 4 * (n as usize + 1) + 4 * (m as usize) + 8 * (n as usize) + 2 * lengths
    }

    // Puts the header at the front of an image.
    pub fn put(self, out: &mut [u8])
        requires { 13 ≤ length out.old }
        ensures { out.new ≡ over out.old 0 (header_of self.version self.vertices self.edges) }
    {
        out[..3].copy_from_slice(&Header::MARK);
        ((self.version % 65_536) as u16).put_at(out, 3);
        self.vertices.put_at(out, 5);
        self.edges.put_at(out, 9);
    }
}
