//! What an application says of a command.

ghost use Rattle.std.specs.Prelude.{◌≡◌};
ghost use Rattle.rmap.specs.Verdict.{verdict_number, verdict_of, verdict_status};

use crate::status::Status;

/// What an application says of a command that asks for authorisation (ECSS-E-ST-50-52C, write action, read action
/// and read-modify-write action).
#[derive(Clone, Copy, Debug, PartialEq, Eq)]
pub enum Verdict {
    /// The application authorises the command.
    Authorised,
    /// The key is not the one that the application wants.
    InvalidKey,
    /// The application does not authorise the command.
    NotAuthorised,
    /// The target logical address is not one that the application takes.
    InvalidLogicalAddress,
}

impl Verdict {
    /// The verdict of an application's word: 0 is authorised, 3 an invalid key, 12 an invalid logical address. Every
    /// other word is not authorised.
    pub fn of_word(word: u64) -> Verdict
        ensures { result ≡ verdict_of word }
    {
        match word {
            0 => Verdict::Authorised,
            3 => Verdict::InvalidKey,
            12 => Verdict::InvalidLogicalAddress,
            _ => Verdict::NotAuthorised,
        }
    }

    /// The number of the verdict, which is that of its status: 0, 3, 10 or 12. As a word it gives the verdict again.
    pub fn number(self) -> u8
        ensures value { result ≡ verdict_number self }
        ensures back { verdict_of result ≡ self }
    {
        self.status().code()
    }

    /// The status of a command with that verdict. It is success if nothing else stops the command (ECSS-E-ST-50-52C,
    /// error and status codes).
    pub fn status(self) -> Status
        ensures { result ≡ verdict_status self }
    {
        match self {
            Verdict::Authorised => Status::Success,
            Verdict::InvalidKey => Status::InvalidKey,
            Verdict::NotAuthorised => Status::NotAuthorised,
            Verdict::InvalidLogicalAddress => Status::InvalidLogicalAddress,
        }
    }
}
