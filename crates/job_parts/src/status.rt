//! The exit status of a job.

ghost use Rattle.std.specs.Prelude.{◌≡◌};
ghost use Rattle.job_parts.specs.Statuses.{exit_code};

/// The exit status of a job that came to its end.
#[derive(Clone, Copy, Debug, PartialEq, Eq)]
pub enum ExitStatus {
    /// 0: the job was done.
    Done,
    /// 1: the job printed a fault of what it was given.
    Failed,
    /// 2: the words ask for what does not exist.
    Misused,
}

impl ExitStatus {
    /// The number that the program ends with.
    pub fn code(self) -> u8
        ensures { result ≡ exit_code self }
    {
        match self {
            ExitStatus::Done => 0,
            ExitStatus::Failed => 1,
            ExitStatus::Misused => 2,
        }
    }
}
