// The search from an entrance to its exit, which list, judge and fold share.
#![tactic(auto)]

mod visits;

pub use visits::search;

// The exit that a search finds, and how many vertices were visited on the way to it.
#[derive(Clone, Copy)]
pub struct Exit {
    pub vertex: u32,
    pub visited: usize,
}
