// A file replaced by another, so that its name leads to the old one or to the new one, whole, at any moment.
//
// The steps, and why each stands where it does:
//  1. look at what stands at the name: only a plain file that may be written, or nothing, is replaced. Only what was seen to be a plain file is opened for it, and it is left as it is;
//  2. open the folder: where it cannot be opened it cannot be flushed at the end, so this fails before anything is made;
//  3. make a file under a name of its own in the same folder, only if that name is free: two runs never share it, and a rename within a folder is one step;
//  4. give it the old one's owner and rights, before there is anything in it to read; write it, flush it to the disk and close it:
//     a rename before the flush could lead to a file that a power loss leaves empty;
//  5. rename it to the name: this is the moment at which the old one is replaced;
//  6. flush the folder: only now is the new name on the disk, and only now may a program say that it is done.
// Where a step up to 4 fails the file of its own is removed, and the old one is as it was. Nothing is printed meanwhile: a program prints once all is closed.
ghost use Rattle.std.specs.Prelude.{◌≤◌, length};
ghost use Rattle.files.specs.Names.{path_limit};

use crate::errors::ReplaceError;
use crate::kind::find;
use crate::names::{OWN, open_folder, own_name};
use crate::writing::write;
use attributes::errors::ENAMETOOLONG;
use attributes::{PATH_MAX, text};
use std::fs::{Files, Metadata, OpenFile, OpenOptions, Permissions};
use std::io::Write;
use std::os::fd::AsFd;
use std::os::unix::fs::{MetadataExt, PermissionsExt, fchown};
use std::random::RandomSource;
use std::{fs, io};

// Gives an open file the owner and the nine rights of an old one. The owner is kept where the system lets it: whoever may not give a file away leaves a file of their own.
fn keep_rights<F: OpenFile + AsFd>(file: &F, old: &Metadata) -> io::Result<()> {
    let _ = fchown(file, None, Some(old.gid()));
    let _ = fchown(file, Some(old.uid()), None);
    file.set_permissions(Permissions::from_mode(old.mode() % 512))
}

// Sets the rights of an open file after those of the old one, writes all bytes to it, flushes it to the disk, and closes it.
// A file at a free name keeps the rights that the system gives to any new file. All is on the disk then, and the library says nothing of how the close went.
fn store<F: Write + OpenFile + AsFd + Drop>(
    mut file: F,
    old: Option<Metadata>,
    bytes: &[u8],
) -> io::Result<()> {
    if let Some(old) = old {
        keep_rights(&file, &old)?;
    }
    write(&mut file, bytes)?;
    file.sync_all()
}

// Steps 4 and 5, for the file that was made under this name of its own.
fn store_and_rename<R: Files>(
    files: &R,
    file: R::File,
    own: &str,
    old: Option<Metadata>,
    name: &str,
    bytes: &[u8],
) -> Result<(), ReplaceError>
where
    R::File: AsFd,
{
    store(file, old, bytes).map_err(ReplaceError::Unwritten)?;
    fs::rename(files, own, name).map_err(ReplaceError::Unrenamed)
}

// Steps 3 to 6, under this name of its own.
fn replace_by<R: Files>(
    files: &R,
    own: &str,
    folder: &R::File,
    old: Option<Metadata>,
    name: &str,
    bytes: &[u8],
) -> Result<(), ReplaceError>
where
    R::File: AsFd,
{
    let file = OpenOptions::new()
        .write(true)
        .create_new(true)
        .open(files, own)
        .map_err(ReplaceError::Unmade)?;
    let renamed = store_and_rename(files, file, own, old, name, bytes);
    if renamed.is_err() {
        let _ = fs::remove_file(files, own);
    }
    renamed?;
    folder.sync_all().map_err(ReplaceError::FolderUnflushed)
}

// Steps 2 to 6, for what may be replaced.
fn replace_found<R: Files + RandomSource>(
    rt: &R,
    old: Option<Metadata>,
    name: &[u8],
    bytes: &[u8],
) -> Result<(), ReplaceError>
where
    R::File: AsFd,
    requires { length name.now ≤ path_limit }
{
    let folder = open_folder(rt, name).map_err(ReplaceError::FolderUnopened)?;
    let mut room = [0u8; PATH_MAX + OWN];
    let count = own_name(rt, name, &mut room).map_err(ReplaceError::Unmade)?;
    let own = text(&room[..count]).map_err(ReplaceError::Unmade)?;
    let name = text(name).map_err(ReplaceError::Unrenamed)?;
    replace_by(rt, own, &folder, old, name, bytes)
}

// Puts a file with these bytes at a name.
pub fn replace<R: Files + RandomSource>(
    rt: &R,
    name: &[u8],
    bytes: &[u8],
) -> Result<(), ReplaceError>
where
    R::File: AsFd,
{
    if name.len() >= PATH_MAX {
        return Err(ReplaceError::Unseen(io::Error::from_raw_os_error(ENAMETOOLONG)));
    }
    let old = find(rt, name)?;
    replace_found(rt, old, name, bytes)
}
