// A house image judged, its contents loaded into lent slices, and written.
#![tactic(auto)]

mod header;
mod laying;
mod loading;
mod looking;

pub use header::Sizes;
pub use loading::load;
pub use looking::look;
pub use writing::{write, write_lengths};
