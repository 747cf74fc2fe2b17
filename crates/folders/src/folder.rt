//! A folder in memory.

ghost use Rattle.std.specs.Prelude.{◌≡◌, ◌∷◌, [], IfOk, MatchOption, MatchResult, None, Some, string_bytes};
ghost use Rattle.folders.specs.Folders.{FolderReads, FolderWrites, content_of, sheets_value};

use job_parts::storage::{Cannot, Files};
use std::alloc::{AllocError, Global};
use std::marker::Model;

/// A file of a folder.
#[derive(Drop)]
pub struct Sheet {
    name: String,
    bytes: Vec<u8>,
}

impl Sheet {
    /// Its name.
    pub fn name(&self) -> &str
        ensures { result.now ≡ string_bytes self.now.name }
    {
        self.name.as_str()
    }

    /// Its bytes.
    pub fn bytes(&self) -> &[u8]
        ensures { result.now ≡ self.now.bytes.items }
    {
        self.bytes.as_slice()
    }
}

/// Files that are kept in memory: all that was written, the newest first. The file of one name cannot be written.
#[derive(Drop)]
pub struct Folder<'a> {
    alloc: Global,
    held: &'a str,
    sheets: Vec<Sheet>,
}

impl<'a> Model for Folder<'a> {
    ghost use Rattle.std.specs.Prelude.{ℕ, List, map};

    ghost Value = { List (List ℕ × List ℕ) };

    ghost use Rattle.folders.specs.Sheets.{sheet_pair_of};

    ghost view = { λ a. map sheet_pair_of a.sheets.items };
}

/// The newest sheet of this name.
fn newest<'a>(sheets: &'a [Sheet], name: &str) -> Option<&'a Vec<u8>>
    ensures { MatchOption result (content_of (sheets_value sheets.now) name.now ≡ None)
        (λ bytes. content_of (sheets_value sheets.now) name.now ≡ Some bytes.now.items) }
{
    for sheet in sheets {
        if sheet.name.as_str() == name {
            return Some(&sheet.bytes);
        }
    }
    None
}

/// Puts a sheet before all others.
fn put(alloc: Global, sheets: &mut Vec<Sheet>, name: &str, bytes: &[u8]) -> Result<(), AllocError>
    ensures { MatchResult result
        (λ _. sheets_value sheets.new.items ≡ (name.now, bytes.now) ∷ sheets_value sheets.old.items)
        (λ _. sheets_value sheets.new.items ≡ sheets_value sheets.old.items) }
{
    let name = String::from_str(alloc, name)?;
    let bytes = Vec::from_slice(alloc, bytes)?;
    sheets.insert(0, Sheet { name, bytes })?;
    Ok(())
}

impl<'a> Folder<'a> {
    /// A folder without files, in which the file `held` cannot be written.
    pub fn new(alloc: Global, held: &'a str) -> Folder<'a>
        ensures { result ≡ [] }
    {
        Folder {
            alloc,
            held,
            sheets: Vec::new(alloc),
        }
    }

    /// Puts a file into the folder, whatever its name is.
    ///
    /// # Errors
    ///
    /// An error if memory is refused. The folder then stays as it was.
    pub fn put(&mut self, name: &str, bytes: &[u8]) -> Result<(), AllocError>
        ensures { MatchResult result
            (λ _. self.new ≡ (name.now, bytes.now) ∷ self.old)
            (λ _. self.new ≡ self.old) }
    {
        put(self.alloc, &mut self.sheets, name, bytes)
    }

    /// The bytes of the file of this name, if there is one.
    pub fn content(&self, name: &str) -> Option<&[u8]>
        ensures { MatchOption result (content_of self.now name.now ≡ None)
            (λ bytes. content_of self.now name.now ≡ Some bytes.now) }
    {
        match newest(self.sheets.as_slice(), name) {
            Some(bytes) => Some(bytes.as_slice()),
            None => None,
        }
    }

    /// All files, the newest first; of two of one name the newer is the file.
    pub fn sheets(&self) -> &[Sheet]
        ensures { sheets_value result.now ≡ self.now }
    {
        self.sheets.as_slice()
    }
}

impl Files for Folder<'_> {
    ghost reads = { FolderReads };

    ghost writes = { FolderWrites };

    fn read(&mut self, alloc: Global, name: &str) -> Result<Vec<u8>, Cannot> {
        match newest(self.sheets.as_slice(), name) {
            Some(bytes) => Vec::from_slice(alloc, bytes.as_slice()).map_err(|_| Cannot),
            None => Err(Cannot),
        }
    }

    #[tactic(auto, using(crate::proofs::NewestSheet::newest_sets))]
    fn write(&mut self, name: &str, bytes: &[u8]) -> Result<(), Cannot> {
        if name == self.held {
            return Err(Cannot);
        }
        put(self.alloc, &mut self.sheets, name, bytes).map_err(|_| Cannot)
    }
}
