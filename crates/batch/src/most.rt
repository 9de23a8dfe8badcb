// The most that a case may lend: more than a table may have, so that each limit is tried from both sides.
use table::{EDGE_LIMIT, VERTEX_LIMIT};

// Starts, counts, or lengths.
pub const VERTICES: usize = 2 * VERTEX_LIMIT;

// Targets.
pub const EDGES: usize = 2 * EDGE_LIMIT;

// Numbers for a list.
pub const LIST: usize = 4 * VERTEX_LIMIT;

// Bytes for an image.
pub const IMAGE: usize = 65_536;

// Bytes of a case's body.
pub const BODY: usize = 131_072;
