//! The text of an instruction: one line without its end.

ghost use Rattle.std.specs.Prelude.{◌≡◌, Some, IfOk};
ghost use Rattle.std.specs.String.{string_bytes};
ghost use Rattle.bpf_insn.specs.Text.{bits_text, insn_text};

use crate::insn::Insn;
use bpf_parts::words::{ADDRESS_LOAD, EXIT, GOTO, LOAD, LONG_GOTO, MAP_LOAD, NEGATION, WIDE_LOAD};
use bpf_parts::{Address, Comparison, Distance, Register};
use std::alloc::{AllocError, Global};
use std::fmt;

/// A constant that is printed as 16 hexadecimal digits.
#[derive(Drop)]
struct Bits(u64);

impl fmt::Display for Bits {
    ghost output = { λ bits. Some (bits_text bits.0) };

    fn fmt<W: fmt::Write>(&self, f: &mut fmt::Formatter<W>) -> fmt::Result {
        let value = self.0;
        write!(f, "0x{value:016x}")
    }
}

/// A jump that is always taken.
#[derive(Drop)]
struct Goto(Distance);

impl fmt::Display for Goto {
    ghost use Rattle.bpf_insn.specs.declared.insn.Insn.{Insn};

    ghost output = { λ goto. Some (insn_text (Insn.Goto goto.0)) };

    #[tactic(auto, unfolding(crate::specs::Text::insn_text))]
    fn fmt<W: fmt::Write>(&self, f: &mut fmt::Formatter<W>) -> fmt::Result {
        match self.0 {
            Distance::Short(_) => write!(f, "{GOTO} {}", self.0),
            Distance::Long(_) => write!(f, "{LONG_GOTO} {}", self.0),
        }
    }
}

/// A load of an address, which is printed by its subtype and both immediates.
#[derive(Drop)]
struct AddressLoad {
    dst: Register,
    address: Address,
}

impl fmt::Display for AddressLoad {
    ghost use Rattle.bpf_insn.specs.declared.insn.Insn.{Insn};

    ghost output = { λ load. Some (insn_text (Insn.LoadAddress load.dst load.address)) };

    #[tactic(auto, unfolding(crate::specs::Text::insn_text))]
    fn fmt<W: fmt::Write>(&self, f: &mut fmt::Formatter<W>) -> fmt::Result {
        let dst = self.dst;
        let subtype = self.address.subtype();
        let first = self.address.first();
        let second = self.address.second();
        write!(f, "{ADDRESS_LOAD} {subtype}, {dst}, {first}, {second}")
    }
}

impl fmt::Display for Insn {
    ghost output = { λ insn. Some (insn_text insn) };

    #[tactic(auto, unfolding(crate::specs::Text::insn_text))]
    fn fmt<W: fmt::Write>(&self, f: &mut fmt::Formatter<W>) -> fmt::Result {
        match *self {
            Insn::Alu {
                op,
                width,
                dst,
                src,
            } => write!(f, "{op}{} {dst}, {src}", width.suffix()),
            Insn::Negate { width, dst } => write!(f, "{NEGATION}{} {dst}", width.suffix()),
            Insn::MoveSigned {
                extension,
                dst,
                src,
            } => write!(f, "{extension} {dst}, {src}"),
            Insn::ByteSwap { swap, bits, dst } => write!(f, "{swap}{bits} {dst}"),
            Insn::Load { size, dst, place } => write!(f, "{LOAD}{size} {dst}, {place}"),
            Insn::Store { size, place, src } => {
                write!(f, "{}{size} {place}, {src}", src.store_prefix())
            }
            Insn::Jump { comparison, offset } => {
                let Comparison {
                    condition,
                    width,
                    dst,
                    src,
                } = comparison;
                let distance = Distance::Short(offset);
                write!(f, "{condition}{} {dst}, {src}, {distance}", width.suffix())
            }
            Insn::Goto { distance } => write!(f, "{}", Goto(distance)),
            Insn::Wide { dst, value } => write!(f, "{WIDE_LOAD} {dst}, {}", Bits(value)),
            Insn::LoadMap { dst, index } => write!(f, "{MAP_LOAD} {dst}, {index}"),
            Insn::LoadAddress { dst, address } => write!(f, "{}", AddressLoad { dst, address }),
            Insn::Call { callee, number } => write!(f, "{callee} {number}"),
            Insn::Exit => f.write_str(EXIT),
        }
    }
}

/// The instruction as a line of assembler text: its mnemonic, and its operands with `, ` between them. Numbers are
/// decimal, except the constant of `lddw`, which has 16 hexadecimal digits. Targets and offsets have their sign.
///
/// # Errors
///
/// Memory is refused.
pub fn text(alloc: Global, insn: &Insn) -> Result<String, AllocError>
    ensures { IfOk result (λ text. string_bytes text ≡ insn_text insn.now) }
{
    format!(in alloc; "{insn}")
}
