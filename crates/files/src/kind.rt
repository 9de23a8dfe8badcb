// What stands at a name: only a plain file, or nothing, may be replaced.
ghost use Rattle.std.specs.Prelude.{◌<◌, length};
ghost use Rattle.files.specs.Names.{path_limit};

use crate::errors::ReplaceError;
use attributes::errors::ENOENT;
use attributes::text;
use std::fs::{Files, Metadata, OpenOptions};
use std::io;

// Whether a plain file may be written. The library asks for rights in no other way than by opening the file; nothing is written, and it is closed at once.
fn ask_rights(files: &impl Files, name: &[u8]) -> io::Result<()> {
    let _file = OpenOptions::new().append(true).open(files, text(name)?)?;
    Ok(())
}

// Whether this, which the system says of a name, may be replaced: only a plain file that may be written.
fn check(files: &impl Files, name: &[u8], seen: &Metadata) -> Result<(), ReplaceError> {
    let kind = seen.file_type();
    if kind.is_symlink() {
        return Err(ReplaceError::Link);
    }
    if kind.is_dir() {
        return Err(ReplaceError::Folder);
    }
    if !kind.is_file() {
        return Err(ReplaceError::Special);
    }
    ask_rights(files, name).map_err(ReplaceError::Protected)
}

// Looks at what stands at a name, a link not being followed: the attributes of the plain file that may be replaced, or None where the name is free.
// Only what was seen to be a plain file is opened: a pipe is not waited for and a device does nothing, unless one is put there in between.
pub fn find(files: &impl Files, name: &[u8]) -> Result<Option<Metadata>, ReplaceError>
    requires { length name.now < path_limit }
{
    if name.is_empty() {
        return Err(ReplaceError::Unseen(io::Error::from_raw_os_error(ENOENT)));
    }
    match attributes::of(files, &attributes::ended(name)) {
        Ok(seen) => {
            check(files, name, &seen)?;
            Ok(Some(seen))
        }
        Err(error) if error.raw_os_error() == Some(ENOENT) => Ok(None),
        Err(error) => Err(ReplaceError::Unseen(error)),
    }
}
