//! The fields of a slot.

ghost use Rattle.std.specs.Prelude.{◌≡◌, ◌<◌};
ghost use Rattle.bpf_insn.specs.Spelling.{RegistersFit, fields, slot_bytes_of};
ghost use Rattle.bpf_insn.specs.Reading.{fields_in};

/// The fields of a slot of 8 bytes (RFC 9669, section 3.1).
#[derive(Clone, Copy, Debug, PartialEq, Eq)]
pub struct Fields {
    pub opcode: u8,
    /// The destination register's field, 0 to 15.
    pub dst: u8,
    /// The source register's field, 0 to 15.
    pub src: u8,
    pub offset: i16,
    pub immediate: i32,
}

impl Fields {
    /// The fields of a slot.
    pub fn new(opcode: u8, dst: u8, src: u8, offset: i16, immediate: i32) -> Fields
        ensures { result ≡ fields opcode dst src offset immediate }
    {
        Fields {
            opcode,
            dst,
            src,
            offset,
            immediate,
        }
    }

    /// The fields that the bytes hold. The destination is in the low half of the second byte. Numbers of several
    /// bytes have the lowest byte first.
    pub fn read(bytes: &[u8; 8]) -> Fields
        ensures value { result ≡ fields_in bytes.now }
        ensures bytes { slot_bytes_of result ≡ bytes.now }
    {
        let [opcode, registers, o0, o1, i0, i1, i2, i3] = *bytes;
        Fields {
            opcode,
            dst: registers % 16,
            src: registers / 16,
            offset: i16::from_le_bytes([o0, o1]),
            immediate: i32::from_le_bytes([i0, i1, i2, i3]),
        }
    }

    /// The bytes of these fields.
    #[tactic(auto, unfolding(crate::specs::Spelling::slot_bytes_of))]
    pub fn bytes(&self) -> [u8; 8]
        requires { RegistersFit self.now }
        ensures { result ≡ slot_bytes_of self.now }
    {
        let [o0, o1] = self.offset.to_le_bytes();
        let [i0, i1, i2, i3] = self.immediate.to_le_bytes();
        [
            self.opcode,
            self.dst + self.src * 16,
            o0,
            o1,
            i0,
            i1,
            i2,
            i3,
        ]
    }
}
