//! Whether numbers on the stack keep their ranges.

ghost use Rattle.std.specs.Prelude.{◌≡◌};
ghost use Rattle.absdom_stack.specs.Spill.{spill_of};

use bpf::Version;

/// Whether a number that a program puts on the stack keeps its range there.
#[derive(Clone, Copy, Debug, PartialEq, Eq)]
pub enum Spill {
    /// It does not: a load from the stack gives any number of its size.
    Forgets,
    /// It does, if it fills a word of the stack: a load from the word gives its range.
    Keeps,
}

impl Spill {
    /// What a version of the format says: numbers keep their ranges in version 2.
    pub fn of_version(version: Version) -> Spill
        ensures { result ≡ spill_of version }
    {
        match version {
            Version::One => Spill::Forgets,
            Version::Two => Spill::Keeps,
        }
    }
}
