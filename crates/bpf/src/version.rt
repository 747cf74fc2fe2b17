//! The versions of the format.

ghost use Rattle.std.specs.Prelude.{◌≡◌, IfSome, Some};
ghost use Rattle.bpf.specs.Version.{version_number, version_of};

/// A version of the format of images. It says which helpers a program may call, and whether a number that is stored
/// keeps its range.
#[derive(Clone, Copy, Debug, PartialEq, Eq)]
pub enum Version {
    One,
    Two,
}

impl Version {
    /// The number of the version, as the fifth byte of an image and a line `.version N` have it.
    pub fn number(self) -> u8
        ensures value { result ≡ version_number self }
        ensures known { version_of result ≡ Some self }
    {
        match self {
            Version::One => 1,
            Version::Two => 2,
        }
    }

    /// The version of a number, as [`Version::number`] gives it, or `None` if no version has it.
    pub fn from_number(number: u8) -> Option<Version>
        ensures value { result ≡ version_of number }
        ensures number { IfSome result (λ version. version_number version ≡ number) }
    {
        match number {
            1 => Some(Version::One),
            2 => Some(Version::Two),
            _ => None,
        }
    }
}
