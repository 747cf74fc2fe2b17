//! Jobs over files in memory.

ghost use Rattle.std.specs.Prelude.{IfOk};
ghost use Rattle.test_kit_jobs.specs.Jobs.{Leaves};

use commands::{Job, UsageFault, Work, WriteFault, perform, words};
use folders::Folder;
use std::alloc::Global;
use std::sync::Wait;
use std::thread::Threads;

/// The job over files that the words name.
///
/// # Errors
///
/// Those of [`words`]; `BadOption` also if the words name a job for the node of a file, or a talk.
pub fn job_named(alloc: Global, named: &[&str]) -> Result<Job, UsageFault> {
    match words(alloc, named)? {
        Work::Once(job) => Ok(job),
        Work::OnNode(_) | Work::Live(_) | Work::Printed(_) => Err(UsageFault::BadOption),
    }
}

/// Does a job over the files of a folder, and gives what it printed and the exit status.
///
/// # Errors
///
/// The error of [`perform`].
#[tactic(auto, using(crate::proofs::Left::performed_leaves))]
pub fn perform_in<R: Threads + Wait + Sync>(
    rt: &R,
    alloc: Global,
    job: &Job,
    folder: &mut Folder<'_>,
) -> Result<(Vec<u8>, u8), WriteFault>
    ensures { IfOk result (λ done. Leaves job.now folder.old folder.new done.1) }
{
    let mut out = Vec::new(alloc);
    let status = perform(rt, alloc, job, folder, &mut out)?;
    Ok((out, status.code()))
}
