// A set of vertices kept as one bit a vertex, and its size.
#![tactic(auto)]

ghost use Rattle.std.specs.Prelude.{◌<◌};
ghost use Rattle.table.specs.Limits.{vertex_limit};
ghost use Rattle.vertices.specs.Vertices.{Words, Added, Size};

use table::VERTEX_LIMIT;

// The words of a set: each holds 64 vertices.
pub const SET_WORDS: usize = VERTEX_LIMIT / 64;

// Adds v to the set.
pub fn put(words: &mut [u64; SET_WORDS], v: u32)
    requires { Words words.old × (v < vertex_limit) }
    ensures { Added words.old words.new v }
{
    let i = (v / 64) as usize;
    words[i] |= 1u64 << (v % 64);
}

// The number of vertices in the set: the sum of each word's count of ones.
pub fn size(words: &[u64; SET_WORDS]) -> u32
    requires { Words words.now }
    ensures { Size words.now result }
{
    words.iter().map(|word| word.count_ones()).sum()
}
