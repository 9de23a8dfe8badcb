// A graph table over lent slices: its rows, and the check that gives the numbers 1 to 7 (docs/RULES.md, Numbers).
#![tactic(auto)]

mod counted;
mod limits;
mod numbers;
mod refusal;
mod rows;

pub use counted::{Table, sum_fits};
pub use limits::{EDGE_LIMIT, Limits, READ_LIMIT, START_LIMIT, VERTEX_LIMIT, stated_limits};
pub use numbers::{
    Numbers, Wide, all_below, numbers_rise, numbers_sum_fits, rows_rise, starts_fit,
};
pub use refusal::Refusal;
pub use rows::{Rows, holds, rises, row};
