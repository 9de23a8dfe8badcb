// The kept path of one candidate, the vertices dropped beside it, and where their counts go.
#![tactic(auto)]

mod paths;

pub use paths::keep;
