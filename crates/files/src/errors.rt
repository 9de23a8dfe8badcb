// Why a file was not replaced.
use std::error::Error;
use std::{fmt, io};

// What stands at the name is not replaced, or a step failed with this error.
#[derive(Clone, Copy, Debug)]
pub enum ReplaceError {
    Link,
    Folder,
    Special,
    Unseen(io::Error),
    Protected(io::Error),
    FolderUnopened(io::Error),
    Unmade(io::Error),
    Unwritten(io::Error),
    Unrenamed(io::Error),
    FolderUnflushed(io::Error),
}

// What was done, and how the file stands, which the programs call OUT.
impl fmt::Display for ReplaceError {
    fn fmt<W: fmt::Write>(&self, f: &mut fmt::Formatter<W>) -> fmt::Result {
        f.write_str(match self {
            ReplaceError::Link | ReplaceError::Folder | ReplaceError::Special => {
                "OUT must be a plain file or a free name; OUT is as it was"
            }
            ReplaceError::Unseen(_) => "OUT could not be looked at; OUT is as it was",
            ReplaceError::Protected(_) => "OUT may not be written; OUT is as it was",
            ReplaceError::FolderUnopened(_) => {
                "the folder of OUT could not be opened for reading; OUT is as it was"
            }
            ReplaceError::Unmade(_) => {
                "a new file could not be made in the folder of OUT; OUT is as it was"
            }
            ReplaceError::Unwritten(_) => {
                "the new file could not be written to the disk whole; OUT is as it was"
            }
            ReplaceError::Unrenamed(_) => {
                "the new file could not be renamed to OUT, or the system does not say that it was; OUT is the old table or the new one, whole"
            }
            ReplaceError::FolderUnflushed(_) => {
                "the folder of OUT could not be flushed to the disk; OUT is the new table, whole, but a power loss could bring the old one back"
            }
        })
    }
}

impl Error for ReplaceError {}
