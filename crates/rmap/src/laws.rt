//! Laws about commands and replies. Each function does nothing: its contract is the law.

ghost use Rattle.rmap.specs.Laws.{CommandsAreKept, KeptAreCommands, CommandIsUnique, CommandsAreLaidOut, LongPacketIsCut, MasksGiveKinds, RepliesAreShort};

/// A law and no work: bytes are discarded if and only if they are no command.
pub fn discard_is_exact()
    ensures commands { CommandsAreKept }
    ensures others { KeptAreCommands }
{}

/// A law and no work: bytes and an end marker are at most one command.
pub fn command_is_unique()
    ensures { CommandIsUnique }
{}

/// A law and no work: a reply with at most 4,096 bytes of data has at most 4,121 bytes.
pub fn replies_are_short()
    ensures { RepliesAreShort }
{}

/// A law and no work: the bytes of a command are its fields in the order of the standard, and then its body. Each
/// field has its most significant byte first (ECSS-E-ST-50-52C, write command format, read command format,
/// read-modify-write command format).
pub fn commands_are_laid_out()
    ensures { CommandsAreLaidOut }
{}

/// A law and no work: an instruction byte is of a kind if and only if, under the kind's mask, it is the kind's bits.
/// It has no increment if and only if it is 0 under the increment bit (ECSS-E-ST-50-52C, instruction field).
pub fn masks_give_kinds()
    ensures { MasksGiveKinds }
{}

/// A law and no work: a packet with 4,200 bytes or more passes and fails the same checks as its first 4,200 bytes.
/// Both are discarded for the same reason, or have the same header. The same check of the header stops both; if none
/// does, the same check of the body stops both. So a target that keeps only [`MAX_PACKET`](spw::MAX_PACKET) bytes of
/// a packet answers as if it kept all.
pub fn long_packet_is_cut()
    ensures { LongPacketIsCut }
{}
