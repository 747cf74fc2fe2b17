//! Folders of files, and what `judge` prints, for tests.

use crate::jobs::{job_named, perform_in};
use commands::{Cannot, Files};
use folders::Folder;
use std::alloc::Global;
use std::sync::Wait;
use std::test::Fail;
use std::thread::Threads;

/// The name of a file that cannot be written.
pub const LOCKED: &str = "locked";

/// A folder of these files.
///
/// # Errors
///
/// `Cannot` if memory is refused, or if one of the names is [`LOCKED`].
pub fn folder_of(alloc: Global, files: &[(&str, &[u8])]) -> Result<Folder<'static>, Cannot> {
    let mut folder = Folder::new(alloc, LOCKED);
    for (name, bytes) in files {
        folder.write(name, bytes)?;
    }
    Ok(folder)
}

/// What `judge` prints of these lines by the factory program, and the exit status.
///
/// # Errors
///
/// A failure if memory is refused, or if the output is not UTF-8.
pub fn judged<R: Threads + Wait + Sync>(
    rt: &R,
    alloc: Global,
    lines: &str,
) -> Result<(String, u8), Fail> {
    let job = job_named(alloc, &["judge", "lines"])?;
    let files = [("lines", lines.as_bytes())];
    let mut folder = folder_of(alloc, &files).map_err(|_| "no folder")?;
    let (out, status) = perform_in(rt, alloc, &job, &mut folder)?;
    Ok((String::from_utf8(out)?, status))
}

/// What the job of these words prints over these files.
///
/// # Errors
///
/// A failure if the words name no job over files, the exit status is not 0, the output is not UTF-8, or memory is
/// refused.
pub fn printed<R: Threads + Wait + Sync>(
    rt: &R,
    alloc: Global,
    named: &[&str],
    folder: &mut Folder<'_>,
) -> Result<String, Fail> {
    let job = job_named(alloc, named)?;
    let (out, status) = perform_in(rt, alloc, &job, folder)?;
    if status != 0 {
        return Err("a fault".into());
    }
    Ok(String::from_utf8(out)?)
}
