//! What is noted of the files that a job reads: why one could not be read or written, and what was read last.

ghost use Rattle.std.specs.Prelude.{◌≡◌, ◌≤◌, IfOk, IfSome, None, Some, false, is_some, option_copied, option_map, string_bytes, true};
ghost use Rattle.commands.specs.Jobs.{is_dump, maps_of_job, maps_of_node};
ghost use Rattle.commands.specs.Notes.{GivesPlaced, maps_for, may_be_text, most_of, next_content, ports_of, reads_dump};
ghost use Rattle.node_parts.specs.Nodes.{are_within, windows_of};

use crate::dumps::dump_lines;
use crate::in_place::bytes_in_place;
use crate::jobs::{Job, maps_of_node};
use job_config::configuration::Configuration;
use job_config::sources::NodeSource;
use job_parts::inputs::{Content, Inputs};
use job_parts::storage::Cannot;
use machine::MapSizes;
use rmap::Windows;
use simdutf8::{from_utf8_baseline, is_utf8_baseline};
use spw::PORTS;
use std::alloc::{AllocError, Global};
use std::io;

/// The bytes with which an image begins.
const MAGIC: &[u8] = b"BPFA";

/// The most bytes of a text or of a table.
pub const MAX_TEXT: u64 = 1_048_576;

/// Why a file could not be read or written.
#[derive(Debug, Drop)]
pub enum FileCause {
    /// What the system says.
    System(io::Error),
    /// It is no text.
    NoText,
    /// It is an image, but a text is wanted.
    Image,
    /// It is standard input, which cannot be written.
    Input,
    /// It has more bytes than a text may have.
    TooLong,
}

/// What a node's file says of the node of a job, besides its maps.
#[derive(Drop)]
pub struct FileNode {
    /// How many ports it has.
    pub ports: u8,
    /// Its address, and where its banks are.
    pub windows: Windows,
}

impl FileNode {
    /// The node of this configuration. The condition is banks that a node may have.
    pub fn of(own: &Configuration) -> FileNode
        requires { are_within own.now.banks.items ≡ true }
        ensures ports { result.ports ≡ own.now.ports }
        ensures windows { result.windows ≡ windows_of own.now.address own.now.banks.items }
    {
        FileNode {
            ports: own.ports,
            windows: own.windows(),
        }
    }
}

/// What is noted of the files that a job reads, in the order in which it reads them.
#[derive(Drop)]
pub struct FileNotes<'a> {
    inputs: Inputs<'a>,
    is_dump: bool,
    node: Option<FileNode>,
    maps: Option<MapSizes>,
    cause: Option<FileCause>,
    lines: Option<String>,
    last: Option<Vec<u8>>,
}

/// Whether bytes begin as those of an image do.
fn is_image(bytes: &[u8]) -> bool {
    bytes.starts_with(MAGIC)
}

/// How many bytes are read of a file at most. A file that has more is longer than its content may be.
pub fn most_of(content: Content) -> u64
    ensures { result ≡ most_of content }
{
    match content {
        Content::Lines => u64::MAX,
        Content::Text | Content::Table | Content::ImageOrText | Content::Image | Content::Node =>
            MAX_TEXT + 1,
        Content::Bytes(enough) => enough,
    }
}

/// Why bytes are not what a file must be, if they are not: no text, or one that is too long. The job says what is wrong
/// with an image.
fn no_content(content: Content, bytes: &[u8]) -> Option<FileCause> {
    match content {
        Content::Lines => no_text(bytes),
        Content::Text | Content::Table | Content::Node => match too_long(bytes) {
            Some(cause) => Some(cause),
            None => no_text(bytes),
        },
        Content::ImageOrText => too_long(bytes),
        Content::Image | Content::Bytes(_) => None,
    }
}

/// Whether a file that must be that may be the text of a program or a table in the place of an image.
fn may_be_text(content: Content) -> bool
    ensures { result ≡ may_be_text content }
{
    match content {
        Content::Image | Content::ImageOrText => true,
        Content::Lines | Content::Text | Content::Table | Content::Node | Content::Bytes(_) =>
            false,
    }
}

/// Why bytes are no text, if they are none.
fn no_text(bytes: &[u8]) -> Option<FileCause> {
    if is_utf8_baseline(bytes) {
        return None;
    }
    Some(if is_image(bytes) {
        FileCause::Image
    } else {
        FileCause::NoText
    })
}

/// That bytes are more than a text has, if they are.
fn too_long(bytes: &[u8]) -> Option<FileCause> {
    if bytes.len() as u64 > MAX_TEXT {
        Some(FileCause::TooLong)
    } else {
        None
    }
}

/// The packet lines of a dump, which is a text.
fn packet_lines(alloc: Global, bytes: &[u8]) -> Result<Vec<u8>, AllocError> {
    let dump = str::from_utf8(bytes).unwrap_or("");
    let lines = dump_lines(alloc, dump)?;
    Ok(lines.into_bytes())
}

impl<'a> FileNotes<'a> {
    /// Nothing yet, of files that are read in the order of these.
    pub fn new(inputs: Inputs<'a>) -> FileNotes<'a>
        ensures dump { reads_dump result ≡ false }
        ensures maps { maps_for result ≡ None }
    {
        FileNotes {
            inputs,
            is_dump: false,
            node: None,
            maps: None,
            cause: None,
            lines: None,
            last: None,
        }
    }

    /// Nothing yet, of the files that the job reads. `node` is the node whose file says the job's maps, if one says
    /// them. The lines of a dump are given as its packet lines. Of the text of a program or a table in the place of an
    /// image the image is given.
    pub fn of_job(job: &'a Job, node: Option<FileNode>) -> FileNotes<'a>
        ensures dump { reads_dump result ≡ is_dump job.now }
        ensures maps { maps_for result ≡ maps_of_job job.now }
    {
        let facts = job.facts();
        let mut noted = FileNotes::new(job.inputs());
        noted.is_dump = facts.is_dump;
        noted.node = node;
        noted.maps = facts.maps;
        noted
    }

    /// Nothing yet, of the files that a talk on this node reads. Of the text of a program or a table in the
    /// place of its image the image is given.
    pub fn of_node(node: &'a NodeSource) -> FileNotes<'a>
        ensures dump { reads_dump result ≡ false }
        ensures maps { maps_for result ≡ Some (maps_of_node node.now) }
    {
        let mut noted = FileNotes::new(node.inputs());
        noted.maps = Some(maps_of_node(node));
        noted
    }

    /// Whether a node's file says the maps of the job.
    pub fn is_on_node(&self) -> bool
        ensures { result ≡ is_some self.now.node }
    {
        self.node.is_some()
    }

    /// The node whose file says the maps of the job, if one says them.
    pub fn node(&self) -> Option<&FileNode>
        ensures { option_copied result ≡ self.now.node }
    {
        self.node.as_ref()
    }

    /// How many ports the node of the job has: those of its file, which has no more than 32, or 32.
    pub fn ports(&self) -> u8
        ensures value { result ≡ ports_of self.now.node }
        ensures few { result ≤ 32 }
    {
        match &self.node {
            Some(node) => node.ports.min(PORTS),
            None => PORTS,
        }
    }

    /// Why the last file could not be read or written, if it could not.
    pub fn cause(&self) -> Option<&FileCause>
        ensures { option_copied result ≡ self.now.cause }
    {
        self.cause.as_ref()
    }

    /// The lines that were read, if they are not more than a text has.
    pub fn lines(&self) -> Option<&str>
        ensures { option_map (λ text. text.now) result ≡ option_map string_bytes self.now.lines }
    {
        self.lines.as_deref()
    }

    /// The bytes of the file that was read last, if it is none of lines.
    pub fn last(&self) -> Option<&[u8]>
        ensures { option_map (λ bytes. bytes.now) result
            ≡ option_map (λ bytes. bytes.items) self.now.last }
    {
        self.last.as_deref()
    }

    /// The text that was read last, if it is one.
    pub fn text(&self) -> Option<&str>
        ensures { IfSome result
            (λ text. option_map (λ bytes. bytes.items) self.now.last ≡ Some text.now) }
    {
        match self.last() {
            Some(bytes) if !is_image(bytes) => str::from_utf8(bytes).ok(),
            _ => None,
        }
    }

    /// The text in the place of an image that was read last, and the maps for which it is one, if it is one.
    pub fn source(&self) -> Option<(&str, &MapSizes)> {
        match (self.text(), &self.maps) {
            (Some(text), Some(maps)) => Some((text, maps)),
            _ => None,
        }
    }

    /// What the file must be that is read next.
    pub fn next(&mut self) -> Content
        ensures content { result ≡ next_content self.old }
        ensures dump { reads_dump self.new ≡ reads_dump self.old }
        ensures maps { maps_for self.new ≡ maps_for self.old }
    {
        match self.inputs.next() {
            Some(input) => input.content,
            // A file that the node's own names: no bank has more bytes.
            None => Content::Bytes(MAX_TEXT + 1),
        }
    }

    /// Notes why a file could not be read or written.
    pub fn refuse(&mut self, cause: FileCause) -> Cannot
        ensures dump { reads_dump self.new ≡ reads_dump self.old }
        ensures maps { maps_for self.new ≡ maps_for self.old }
    {
        self.cause = Some(cause);
        Cannot
    }

    /// Notes that memory was refused to a file.
    fn refuse_memory(&mut self) -> Cannot
        ensures dump { reads_dump self.new ≡ reads_dump self.old }
        ensures maps { maps_for self.new ≡ maps_for self.old }
    {
        self.refuse(FileCause::System(io::Error::from(io::ErrorKind::OutOfMemory)))
    }

    /// Keeps bytes that were read, if there is memory.
    fn keep(&mut self, alloc: Global, content: Content, bytes: &[u8])
        ensures dump { reads_dump self.new ≡ reads_dump self.old }
        ensures maps { maps_for self.new ≡ maps_for self.old }
    {
        match content {
            Content::Lines if bytes.len() as u64 <= MAX_TEXT => {
                if let Ok(text) = from_utf8_baseline(bytes) {
                    self.lines = String::from_str(alloc, text).ok();
                }
            }
            Content::Lines => {}
            _ => self.last = Vec::from_slice(alloc, bytes).ok(),
        }
    }

    /// The bytes that a job gets of those of a file. Of the text of a program or a table in the place of an image they
    /// are those of the image.
    ///
    /// # Errors
    ///
    /// `Cannot` if memory is refused. Then the cause is noted.
    fn placed(&mut self, alloc: Global, content: Content, bytes: Vec<u8>) -> Result<Vec<u8>, Cannot>
        ensures given { IfOk result (λ given. GivesPlaced self.old content bytes.items given.items) }
        ensures dump { reads_dump self.new ≡ reads_dump self.old }
        ensures maps { maps_for self.new ≡ maps_for self.old }
    {
        let Some(maps) = self.maps else {
            return Ok(bytes);
        };
        if !may_be_text(content) {
            return Ok(bytes);
        }
        match bytes_in_place(alloc, bytes, &maps) {
            Ok(given) => Ok(given),
            Err(_) => Err(self.refuse_memory()),
        }
    }

    /// Keeps the bytes of a file that was read again, as those that were read last.
    pub fn keep_last(&mut self, bytes: Vec<u8>)
        ensures dump { reads_dump self.new ≡ reads_dump self.old }
        ensures maps { maps_for self.new ≡ maps_for self.old }
    {
        self.last = Some(bytes);
    }

    /// The bytes of a text, of which nothing is kept.
    ///
    /// # Errors
    ///
    /// `Cannot` if they are no text, or one that is too long. Then the cause is noted.
    pub fn lent(&mut self, bytes: Vec<u8>) -> Result<Vec<u8>, Cannot>
        ensures given { IfOk result (λ given. given.items ≡ bytes.items) }
        ensures dump { reads_dump self.new ≡ reads_dump self.old }
        ensures maps { maps_for self.new ≡ maps_for self.old }
    {
        match no_content(Content::Text, bytes.as_slice()) {
            Some(cause) => Err(self.refuse(cause)),
            None => Ok(bytes),
        }
    }

    /// The bytes that a job gets of those that were read of a file, which must be that.
    ///
    /// # Errors
    ///
    /// `Cannot` if the file is not that. Then the cause is noted.
    pub fn given(
        &mut self,
        alloc: Global,
        content: Content,
        bytes: Vec<u8>,
    ) -> Result<Vec<u8>, Cannot>
        ensures given { IfOk result
            (λ given. reads_dump self.old ≡ false → GivesPlaced self.old content bytes.items given.items) }
        ensures dump { reads_dump self.new ≡ reads_dump self.old }
        ensures maps { maps_for self.new ≡ maps_for self.old }
    {
        if let Some(cause) = no_content(content, bytes.as_slice()) {
            return Err(self.refuse(cause));
        }
        if !self.is_dump {
            self.keep(alloc, content, bytes.as_slice());
            return self.placed(alloc, content, bytes);
        }
        let Ok(lines) = packet_lines(alloc, bytes.as_slice()) else {
            return Err(self.refuse_memory());
        };
        self.keep(alloc, content, lines.as_slice());
        Ok(lines)
    }
}
