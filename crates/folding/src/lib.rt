// The fold: the first candidates by rising entrance, as many as the budget, each to its kept path; the result goes to a second set of slices.
#![tactic(auto)]

mod folds;

pub use folds::{Folded, fold, fold_by, fold_rings, fold_rings_weakest, fold_weakest};
