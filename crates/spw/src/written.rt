//! The line of a packet, as it is written.

ghost use Rattle.spw.specs.Written.{WrittenLineIsRead};

/// A law and no work: the line `PORT HEX EOP` or `PORT HEX EEP` of a packet, with its bytes as upper case digits,
/// writes it at that port. It writes no other, by [`line_is_unambiguous`](crate::line_is_unambiguous). So
/// [`read_line`](crate::read_line) gives that packet if it has at most 4,200 bytes.
pub fn written_line_is_read()
    ensures { WrittenLineIsRead }
{}
