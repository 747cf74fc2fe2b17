//! The factory program, and the program that judges.

ghost use Rattle.std.specs.Prelude.{◌≡◌, IfErr, IfOk};
ghost use Rattle.bver.specs.Justified.{IsJustified};
ghost use Rattle.machine.specs.Runs.{IsSafe};
ghost use Rattle.job_parts.specs.Arguments.{name_in};
ghost use Rattle.job_parts.specs.Factory.{IsNoFactory, factory, factory_insns};
ghost use Rattle.job_parts.specs.Given.{HoldsNoProgram, HoldsProgram};

use crate::faults::Fault;
use crate::programs::program_in;
use crate::storage::Files;
use bpf::{Image, Version};
use bpf_insn::{AluOp, Insn, Operand, Register, Width};
use bver::{Accepted, MapSizes, verify};
use std::alloc::Global;

/// The version of the factory program's image.
const FACTORY_VERSION: Version = Version::One;

/// The budget of the factory program, which has two steps.
const FACTORY_BUDGET: u32 = 2;

/// The instructions of the factory program, `mov r0, 0; exit`: yes to every command.
fn factory_insns() -> [Insn; 2]
    ensures { result ≡ factory_insns }
{
    let r0 = Register::new(0).unwrap();
    let yes = Insn::Alu {
        op: AluOp::Mov,
        width: Width::Bits64,
        dst: r0,
        src: Operand::Immediate(0),
    };
    [yes, Insn::Exit]
}

/// The factory program, which judges if no image is named.
///
/// # Errors
///
/// `BadImage` or `Refused`, each with its `Memory`, if memory was refused. There is no other error.
pub fn factory_program<'a>(alloc: Global, sizes: MapSizes) -> Result<Accepted, Fault<'a>>
    ensures program { IfOk result (λ program. program.program ≡ factory) }
    ensures sizes { IfOk result (λ program. program.sizes ≡ sizes) }
    ensures justified { IfOk result (λ program. IsJustified program.program sizes) }
    ensures safe { IfOk result (λ program. IsSafe program.program sizes) }
    ensures refused { IfErr result IsNoFactory }
{
    let image = Image::new(
        alloc,
        FACTORY_VERSION,
        &factory_insns(),
        &[],
        FACTORY_BUDGET,
    )?;
    Ok(verify(alloc, image, &sizes)?)
}

/// The program of the image file of this name, or the factory program if there is no name.
///
/// # Errors
///
/// Those of [`program_in`] if there is a name, else those of [`factory_program`].
pub fn judging_program<'a, F: Files>(
    alloc: Global,
    files: &mut F,
    image: Option<&'a str>,
    sizes: MapSizes,
) -> Result<Accepted, Fault<'a>>
    ensures program { IfOk result (λ program.
        HoldsProgram F.reads files.old (name_in image.entry) program.program files.new) }
    ensures sizes { IfOk result (λ program. program.sizes ≡ sizes) }
    ensures justified { IfOk result (λ program. IsJustified program.program sizes) }
    ensures safe { IfOk result (λ program. IsSafe program.program sizes) }
    ensures refused { IfErr result
        (HoldsNoProgram F.reads files.old (name_in image.entry) sizes files.new) }
{
    match image {
        Some(name) => program_in(alloc, files, name, sizes),
        None => factory_program(alloc, sizes),
    }
}
