//! What calls call.

ghost use Rattle.std.specs.Prelude.{◌≡◌, ◌<◌};
ghost use Rattle.bpf_parts.specs.Codes.{callee_code};
ghost use Rattle.bpf_parts.specs.Kinds.{callee_of};

/// The callee of a call (RFC 9669, sections 4.3.1 and 4.3.2). It is a helper by its number, a function of the
/// program, or a helper by its BTF ID.
#[derive(Clone, Copy, Debug, PartialEq, Eq)]
pub enum Callee {
    Helper,
    Local,
    ByTypeId,
}

impl Callee {
    /// The code, in the source register field.
    pub fn code(self) -> u8
        ensures value { result ≡ callee_code self }
        ensures small { result < 16 }
    {
        match self {
            Callee::Helper => 0,
            Callee::Local => 1,
            Callee::ByTypeId => 2,
        }
    }

    /// The callee of this code, in the source register field, or `None` for a code above 2.
    pub fn from_code(code: u8) -> Option<Callee>
        ensures { result ≡ callee_of code }
    {
        match code {
            0 => Some(Callee::Helper),
            1 => Some(Callee::Local),
            2 => Some(Callee::ByTypeId),
            _ => None,
        }
    }
}
