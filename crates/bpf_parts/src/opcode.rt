//! The parts of an opcode (RFC 9669, section 3). The lowest is a class. Above it are source and code of arithmetic
//! and jumps, or size and mode of loads and stores.

/// The class of loads that are no plain loads: here that of a 64-bit immediate.
pub const LD: u8 = 0;

/// The class of loads from memory into a register.
pub const LDX: u8 = 1;

/// The class of stores of an immediate.
pub const ST: u8 = 2;

/// The class of stores of a register.
pub const STX: u8 = 3;

/// The class of arithmetic at 32 bits.
pub const ALU: u8 = 4;

/// The class of jumps that compare at 64 bits.
pub const JMP: u8 = 5;

/// The class of jumps that compare at 32 bits.
pub const JMP32: u8 = 6;

/// The class of arithmetic at 64 bits.
pub const ALU64: u8 = 7;

/// The source of arithmetic and jumps is the immediate (section 4).
pub const K: u8 = 0x00;

/// The source of arithmetic and jumps is the source register (section 4).
pub const X: u8 = 0x08;

// The codes of arithmetic that have an instruction of their own. All others are those of `AluOp`.

/// The code of a negation (section 4.1).
pub const NEG: u8 = 8;

/// The code of a move, sign-extending too (section 4.1).
pub const MOV: u8 = 11;

/// The code of a byte swap (section 4.2).
pub const END: u8 = 13;

// The sizes of loads and stores (section 5): 4, 2, 1 and 8 bytes.
const W: u8 = 0x00;

const H: u8 = 0x08;

const B: u8 = 0x10;

const DW: u8 = 0x18;

// The modes of loads and stores (section 5): a 64-bit immediate, memory, and memory whose sign is extended.
const IMM: u8 = 0x00;

const MEM: u8 = 0x60;

const MEMSX: u8 = 0x80;

/// Mode and size of 4 bytes in memory.
pub const MEM_W: u8 = W + MEM;

/// Mode and size of 2 bytes in memory.
pub const MEM_H: u8 = H + MEM;

/// Mode and size of 1 byte in memory.
pub const MEM_B: u8 = B + MEM;

/// Mode and size of 8 bytes in memory.
pub const MEM_DW: u8 = DW + MEM;

/// Mode and size of 4 bytes in memory whose sign is extended.
pub const MEMSX_W: u8 = W + MEMSX;

/// Mode and size of 2 bytes in memory whose sign is extended.
pub const MEMSX_H: u8 = H + MEMSX;

/// Mode and size of 1 byte in memory whose sign is extended.
pub const MEMSX_B: u8 = B + MEMSX;

/// The opcode of a jump that is always taken, by the offset field (section 4.3).
pub const GOTO_SHORT: u8 = JMP + K;

/// The opcode of a jump that is always taken, by the immediate (section 4.3).
pub const GOTO_LONG: u8 = JMP32 + K;

/// The opcode of a call (section 4.3).
pub const CALL: u8 = JMP + K + 8 * 16;

/// The opcode of the end of a program (section 4.3).
pub const EXIT: u8 = JMP + K + 9 * 16;

/// The opcode of an instruction of two slots (section 5.4).
pub const LOAD_WIDE: u8 = LD + DW + IMM;

// The subtypes of the 64-bit immediate that are no `Address` (section 5.4).

/// The subtype of a constant.
pub const CONSTANT: u8 = 0;

/// The subtype of a map by its index.
pub const MAP_BY_INDEX: u8 = 5;
