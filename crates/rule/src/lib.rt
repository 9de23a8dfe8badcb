// The fold rule of docs/RULES.md stands in specs/, and what follows from it, demand 3 among it, in proofs/. The code has the name of each fold.
#![tactic(auto)]

// How the kept path of a candidate is chosen: by the largest sum of the counts of its inner vertices, or by the largest least one.
#[derive(Clone, Copy)]
pub enum Choosing {
    Sum,
    Weakest,
}

// What a fold does with a table that has a directed cycle: it is refused, or taken, and superbubbles that cannot be folded in it are skipped.
#[derive(Clone, Copy)]
pub enum Rings {
    Refused,
    Taken,
}

// Which fold is asked for.
#[derive(Clone, Copy)]
pub struct Mode {
    pub rings: Rings,
    pub by: Choosing,
}
