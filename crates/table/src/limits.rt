// The limits of a table, by name. Definitions have each once more (`crates/table/specs/Limits.antt`), and the contract of `stated_limits` ties the two.
ghost use Rattle.std.specs.Prelude.{◌≡◌};
ghost use Rattle.table.specs.Limits.{vertex_limit, start_limit, edge_limit, read_limit};

// The most vertices.
pub const VERTEX_LIMIT: usize = 2_048;

// The most starts: one for each vertex, and the end.
pub const START_LIMIT: usize = VERTEX_LIMIT + 1;

// The most edges.
pub const EDGE_LIMIT: usize = 8_192;

// The most reads on all vertices together.
pub const READ_LIMIT: u64 = 1_099_511_627_775;

// All of them.
#[derive(Clone, Copy)]
pub struct Limits {
    pub vertices: usize,
    pub starts: usize,
    pub edges: usize,
    pub reads: u64,
}

// The limits that the code goes by are those of the definitions.
pub fn stated_limits() -> Limits
    ensures { (result.vertices ≡ vertex_limit) × (result.starts ≡ start_limit) × (result.edges ≡ edge_limit) × (result.reads ≡ read_limit) }
{
    Limits {
        vertices: VERTEX_LIMIT,
        starts: START_LIMIT,
        edges: EDGE_LIMIT,
        reads: READ_LIMIT,
    }
}
