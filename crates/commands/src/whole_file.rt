//! A file that is written whole: what is new takes the place of what was there at once, or what was there stays.

use std::alloc::Global;
use std::fs::{File, Metadata, OpenFile};
use std::io::{ErrorKind, Write};
use std::os::unix::fs::MetadataExt;
use std::{fs, io, rt};

/// How many names are tried for the new file, beside the old one.
const NAMES: u32 = 100;

/// How the bytes come to a place.
#[derive(Debug, Drop)]
enum Way {
    /// A new file takes the place of the one of this path, or of none.
    Whole(String),
    /// They are written over what is there: a device, a pipe, a file of two names, a link that leads nowhere.
    InPlace,
}

/// Writes these bytes to the file of this name. If they cannot be written, a file that was there is as it was, and one
/// that was not there is none. A link stays, and the file to which it leads is exchanged. A device, a pipe, a file of
/// several names or of another owner, and one in a folder that may not be written are written in place.
///
/// # Errors
///
/// What the system refused, or that memory was refused. A file that may not be written is refused before anything is
/// done.
pub fn write_whole<R: rt::Files>(
    rt: &R,
    alloc: Global,
    name: &str,
    bytes: &[u8],
) -> io::Result<()> {
    let old = match fs::metadata(rt, name) {
        Ok(old) => Some(old),
        Err(refused) if refused.kind() == ErrorKind::NotFound => None,
        Err(refused) => return Err(refused),
    };
    match way_to(rt, alloc, name, old.as_ref())? {
        Way::Whole(path) => exchange(rt, alloc, path.as_str(), old.as_ref(), bytes),
        Way::InPlace => fs::write(rt, name, bytes),
    }
}

/// How the file of this name is written, of which the system says this if it is there.
fn way_to<R: rt::Files>(
    rt: &R,
    alloc: Global,
    name: &str,
    old: Option<&Metadata>,
) -> io::Result<Way> {
    let Some(old) = old else {
        // A link that leads nowhere is there, though no file is.
        return match fs::symlink_metadata(rt, name) {
            Ok(_) => Ok(Way::InPlace),
            Err(_) => Ok(Way::Whole(String::from_str(alloc, name)?)),
        };
    };
    if !old.is_file() || old.nlink() != 1 {
        return Ok(Way::InPlace);
    }
    // Who may not write the file is refused, even if the folder may be written.
    File::options().write(true).open(rt, name)?;
    Ok(Way::Whole(rt.canonicalize(alloc, name)?.into_string()))
}

/// Writes a new file beside that of this path, and puts it in its place.
fn exchange<R: rt::Files>(
    rt: &R,
    alloc: Global,
    path: &str,
    old: Option<&Metadata>,
    bytes: &[u8],
) -> io::Result<()> {
    for number in 0..NAMES {
        let beside = format!(in alloc; "{path}.{number}")?;
        match File::create_new(rt, beside.as_str()) {
            Ok(file) => return fill(rt, file, beside.as_str(), path, old, bytes),
            Err(refused) => match refused.kind() {
                ErrorKind::AlreadyExists => {}
                ErrorKind::PermissionDenied
                | ErrorKind::ReadOnlyFilesystem
                | ErrorKind::InvalidFilename => break,
                _ => return Err(refused),
            },
        }
    }
    fs::write(rt, path, bytes)
}

/// Fills the file that was begun beside that of this path, and puts it there. If that fails, it is removed.
fn fill<R: rt::Files>(
    rt: &R,
    file: R::File,
    beside: &str,
    path: &str,
    old: Option<&Metadata>,
    bytes: &[u8],
) -> io::Result<()> {
    let done = match is_of_another(&file, old) {
        Ok(false) => finish(rt, file, beside, path, old, bytes),
        Ok(true) => {
            fs::remove_file(rt, beside)?;
            return fs::write(rt, path, bytes);
        }
        Err(refused) => Err(refused),
    };
    if done.is_err() {
        let _ = fs::remove_file(rt, beside);
    }
    done
}

/// Whether the old file has another owner or group than the new one, which an exchange would lose.
fn is_of_another<F: OpenFile>(file: &F, old: Option<&Metadata>) -> io::Result<bool> {
    let Some(old) = old else {
        return Ok(false);
    };
    let new = file.metadata()?;
    Ok(new.uid() != old.uid() || new.gid() != old.gid())
}

/// Writes the new file with the mode of the old one, down to the device, and gives it its name.
fn finish<R: rt::Files>(
    rt: &R,
    mut file: R::File,
    beside: &str,
    path: &str,
    old: Option<&Metadata>,
    bytes: &[u8],
) -> io::Result<()> {
    file.write_all(bytes)?;
    if let Some(old) = old {
        file.set_permissions(old.permissions())?;
    }
    file.sync_all()?;
    fs::rename(rt, beside, path)
}
