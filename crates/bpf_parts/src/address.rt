//! What two-slot loads name.

ghost use Rattle.std.specs.Prelude.{◌≡◌, ◌<◌};
ghost use Rattle.bpf_parts.specs.Codes.{address_subtype, address_first, address_second};
ghost use Rattle.bpf_parts.specs.Kinds.{wide_address};

/// What a two-slot load names if it is not a constant or a map's index, with its immediates. These are the subtypes
/// 1, 2, 3, 4 and 6 (RFC 9669, section 5.4).
#[derive(Clone, Copy, Debug, PartialEq, Eq)]
pub enum Address {
    MapByFile(i32),
    MapValueByFile(i32, i32),
    Variable(i32),
    Code(i32),
    MapValueByIndex(i32, i32),
}

impl Address {
    /// The subtype, in the source register field.
    pub fn subtype(self) -> u8
        ensures value { result ≡ address_subtype self }
        ensures small { result < 16 }
    {
        match self {
            Address::MapByFile(_) => 1,
            Address::MapValueByFile(_, _) => 2,
            Address::Variable(_) => 3,
            Address::Code(_) => 4,
            Address::MapValueByIndex(_, _) => 6,
        }
    }

    /// The first immediate.
    pub fn first(self) -> i32
        ensures { result ≡ address_first self }
    {
        match self {
            Address::MapByFile(first)
            | Address::MapValueByFile(first, _)
            | Address::Variable(first)
            | Address::Code(first)
            | Address::MapValueByIndex(first, _) => first,
        }
    }

    /// The second immediate, or 0 if the subtype has none.
    pub fn second(self) -> i32
        ensures { result ≡ address_second self }
    {
        match self {
            Address::MapValueByFile(_, second) | Address::MapValueByIndex(_, second) => second,
            Address::MapByFile(_) | Address::Variable(_) | Address::Code(_) => 0,
        }
    }

    /// The address of this subtype with these immediates, or `None` if the subtype is none of an address. A second
    /// immediate that the subtype does not use is left out.
    pub fn from_parts(subtype: u8, first: i32, second: i32) -> Option<Address>
        ensures { result ≡ wide_address subtype first second }
    {
        match subtype {
            1 => Some(Address::MapByFile(first)),
            2 => Some(Address::MapValueByFile(first, second)),
            3 => Some(Address::Variable(first)),
            4 => Some(Address::Code(first)),
            6 => Some(Address::MapValueByIndex(first, second)),
            _ => None,
        }
    }
}
