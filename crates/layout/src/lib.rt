// The layout of a house image: its header, and numbers as little-endian bytes.
#![tactic(auto)]

mod bytes;
mod contents;
mod header;
mod spelled;

pub use bytes::{Number, read_numbers, write_numbers};
pub use contents::{Contents, none_zero};
pub use header::Header;
pub use spelled::Spelled;
