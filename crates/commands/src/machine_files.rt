//! The files of a desk, with why one could not be read or written.

ghost use Rattle.std.specs.Prelude.{◌≡◌, [], None, OnOk, Some, false};
ghost use Rattle.commands.specs.Desks.{LooksAgain, ToldReads, ToldWrites};
ghost use Rattle.commands.specs.Jobs.{is_dump, maps_of_job, maps_of_node};
ghost use Rattle.commands.specs.Notes.{maps_for, reads_dump};

use crate::desk::Desk;
use crate::ends::end_report;
use crate::jobs::{Job, JobEnd};
use crate::noted::{FileNode, FileNotes, MAX_TEXT, most_of};
use job_config::sources::NodeSource;
use job_parts::inputs::{Content, Inputs};
use job_parts::status::ExitStatus;
use job_parts::storage::{Cannot, Files};
use std::alloc::{AllocError, Global};
use std::io;

/// The name of standard input.
const STANDARD_INPUT: &str = "-";

/// The files of a desk, as a job reads them. Of a file that has a limit, the desk needs to read only as much as shows
/// that it is longer.
#[derive(Drop)]
pub struct MachineFiles<'a, D> {
    desk: D,
    noted: FileNotes<'a>,
}

impl<'a, D: Desk + Drop> MachineFiles<'a, D> {
    /// The files that are read of these.
    pub fn new(desk: D, inputs: Inputs<'a>) -> MachineFiles<'a, D>
        ensures desk { result.desk ≡ desk }
        ensures dump { reads_dump result.noted ≡ false }
        ensures maps { maps_for result.noted ≡ None }
    {
        MachineFiles {
            desk,
            noted: FileNotes::new(inputs),
        }
    }

    /// The files that the job reads. `node` is the node whose file says the job's maps, if one says them. The lines of
    /// a dump are given as its packet lines. Of the text of a program or a table in the place of an image the image is
    /// given.
    pub fn of_job(desk: D, job: &'a Job, node: Option<FileNode>) -> MachineFiles<'a, D>
        ensures desk { result.desk ≡ desk }
        ensures dump { reads_dump result.noted ≡ is_dump job.now }
        ensures maps { maps_for result.noted ≡ maps_of_job job.now }
    {
        MachineFiles {
            desk,
            noted: FileNotes::of_job(job, node),
        }
    }

    /// The files that a talk on this node reads. Of the text of a program or a table in the place of its image
    /// the image is given.
    pub fn of_node(desk: D, node: &'a NodeSource) -> MachineFiles<'a, D>
        ensures desk { result.desk ≡ desk }
        ensures dump { reads_dump result.noted ≡ false }
        ensures maps { maps_for result.noted ≡ Some (maps_of_node node.now) }
    {
        MachineFiles {
            desk,
            noted: FileNotes::of_node(node),
        }
    }

    /// What was noted of them.
    pub fn noted(&self) -> &FileNotes<'a>
        ensures { result.now ≡ self.now.noted }
    {
        &self.noted
    }

    /// The desk.
    pub fn desk(&self) -> &D
        ensures { result.now ≡ self.now.desk }
    {
        &self.desk
    }

    /// Ends standard output of the job.
    ///
    /// # Errors
    ///
    /// What the desk says if it cannot write or end standard output.
    pub fn close(&mut self, out: &mut D::Output) -> io::Result<()>
        ensures closed { OnOk result (D.words.closes self.old.desk (D.Output.contents out.old) self.new.desk) }
        ensures written { OnOk result (D.held out.new ≡ []) }
    {
        self.desk.close(out)
    }

    /// The desk, and what was noted of the files.
    pub fn into_parts(self) -> (D, FileNotes<'a>)
        ensures { result.0 ≡ self.entry.desk }
    {
        (self.desk, self.noted)
    }

    /// The desk itself.
    pub fn into_desk(self) -> D
        ensures { result ≡ self.entry.desk }
    {
        self.desk
    }

    /// What is printed of the job that ended so ([`end_report`]). If the text of a program has a fault, it is read again
    /// for this, because no copy is kept of a text.
    ///
    /// # Errors
    ///
    /// An error if memory is refused.
    pub fn end_report(
        &mut self,
        alloc: Global,
        job: &Job,
        end: &JobEnd<'_>,
    ) -> Result<String, AllocError>
        ensures { LooksAgain D.words self.old.desk self.new.desk }
    {
        if let (Job::Assemble(words), ExitStatus::Failed) = (job, end.status) {
            self.recall(alloc, words.text.as_str());
        }
        end_report(alloc, job, end, &self.noted)
    }

    /// Reads a text again and keeps it, if it was not kept and can be read.
    fn recall(&mut self, alloc: Global, name: &str)
        ensures { LooksAgain D.words self.old.desk self.new.desk }
    {
        if self.noted.cause().is_some() || name == STANDARD_INPUT {
            return;
        }
        if let Ok(bytes) = self.desk.read(alloc, name, MAX_TEXT + 1) {
            self.noted.keep_last(bytes);
        }
    }
}

impl<D: Desk> Files for MachineFiles<'_, D> {
    ghost use Rattle.commands.specs.Desks.{ToldReads, ToldWrites};

    ghost reads = { ToldReads D.words };

    ghost writes = { ToldWrites D.words };

    fn read(&mut self, alloc: Global, name: &str) -> Result<Vec<u8>, Cannot> {
        let content = self.noted.next();
        match self.desk.read(alloc, name, most_of(content)) {
            Ok(bytes) if content == Content::Text && name != STANDARD_INPUT => {
                self.noted.lent(bytes)
            }
            Ok(bytes) => self.noted.given(alloc, content, bytes),
            Err(cause) => Err(self.noted.refuse(cause)),
        }
    }

    fn write(&mut self, name: &str, bytes: &[u8]) -> Result<(), Cannot> {
        match self.desk.write(name, bytes) {
            Ok(()) => Ok(()),
            Err(cause) => Err(self.noted.refuse(cause)),
        }
    }
}
