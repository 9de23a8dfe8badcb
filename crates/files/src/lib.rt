// Files, for every program that reads or writes one: an input read whole, and a file replaced so that it is whole at any moment.
//
// Nothing here prints: a program prints once these functions have answered, and no file is open then.
#![tactic(auto)]

mod errors;
mod kind;
mod names;
mod reading;
mod replacing;
mod streams;
mod writing;

pub use errors::ReplaceError;
pub use reading::{read, read_file};
pub use replacing::replace;
pub use streams::fill_closed;
