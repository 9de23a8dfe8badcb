// The candidates of a fold: the outermost superbubbles with an interior, and where rings are taken the outermost of those that are not skipped.
#![tactic(auto)]

mod finding;

pub use finding::find;
