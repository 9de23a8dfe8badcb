// How many parents each vertex has: how often it stands among the targets.
#![tactic(auto)]

ghost use Rattle.std.specs.Prelude.{◌≤◌, ◌≡◌, length};
ghost use Rattle.table.specs.Limits.{edge_limit};
ghost use Rattle.table.specs.Table.{Below};
ghost use Rattle.parents.specs.Parents.{Parents, Tallying, Tallied};

// Adds to each vertex's count how often it stands among the vertices.
pub fn tally(vertices: &[u32], counts: &mut [u32])
    requires { Tallying vertices.now counts.old }
    ensures { Tallied vertices.now counts.old counts.new }
{
    for v in vertices {
        counts[*v as usize] += 1;
    }
}

// How many edges lead to each vertex.
pub fn count_parents(targets: &[u32], parents: &mut [u32])
    requires below { Below (length parents.old) targets.now }
    requires targets_len_bound { length targets.now ≤ edge_limit }
    ensures { Parents (length parents.old) targets.now parents.new }
{
    parents.fill(0);
    tally(targets, parents);
}

// Copies the counts, so that one copy is read and the other worked on.
pub fn copy(counts: &[u32], out: &mut [u32])
    requires { length out.old ≡ length counts.now }
    ensures { out.new ≡ counts.now }
{
    for v in 0..counts.len() {
        out[v] = counts[v];
    }
}
