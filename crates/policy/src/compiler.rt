//! From a policy table to a program.

ghost use Rattle.std.specs.Prelude.{◌≡◌, ◌≤◌, All, length, IfErr, IfOk};
ghost use Rattle.std.specs.List.{flat_map};
ghost use Rattle.bpf.specs.Parts.{placed_slots};
ghost use Rattle.bpf.specs.Program.{IsProgram};
ghost use Rattle.bver.specs.Justified.{IsJustified};
ghost use Rattle.policy.specs.Code.{table_code};
ghost use Rattle.policy.specs.Compiled.{IsCompiled, IsCompileFault, IsPortCompiled, IsPortFault};
ghost use Rattle.policy.specs.Meant.{CodeHasMeaning, CodeIsJustified, IsMadeOf};
ghost use Rattle.policy_table.specs.FirstFault.{compile_fault};
ghost use Rattle.policy_table.specs.Policies.{policy_fault};
ghost use Rattle.policy_table.specs.Ports.{FitsPort};
ghost use Rattle.policy_table.specs.Slots.{table_slots};

use crate::code::table_insns;
use absdom::{order_of_states, refine_shrinks};
use bpf::{Image, ImageFault, Version};
use bpf_insn::Insn;
use machine::{MapSizes, runs_from_the_front, steps_perform};
use policy_table::{Policy, PolicyFault, PortRule, Table, TextFault, decisions, on_lines};
use std::alloc::{AllocError, Global};

/// The program of a table has its meaning, whatever its budget.
fn code_has_meaning()
    ensures { CodeHasMeaning }
{
    steps_perform();
    runs_from_the_front();
    decisions();
}

/// The program of a table without a fault is justified: a state for each of its instructions permits it.
fn code_is_justified()
    ensures { CodeIsJustified }
{
    order_of_states();
    refine_shrinks();
}

/// The image of these instructions, which have room in an image, without a loop. A run performs each at most once, so
/// their number is its weight, and its budget.
fn image_of(alloc: Global, insns: &[Insn]) -> Result<Image, AllocError>
    requires some { 1 ≤ length insns.now }
    requires few { length (flat_map placed_slots insns.now) ≤ 512 }
    ensures image { IfOk result (IsMadeOf insns.now) }
    ensures limits { IfOk result IsProgram }
{
    match Image::new(alloc, Version::One, insns, &[], insns.len() as u32) {
        Ok(image) => Ok(image),
        Err(fault) => match fault {
            ImageFault::Memory => Err(AllocError),
            _ => unreachable!(),
        },
    }
}

/// The image of a table of these rules, which has room.
fn image_of_rules(alloc: Global, rules: &[PortRule]) -> Result<Image, AllocError>
    requires room { table_slots rules.now ≤ 512 }
    requires fit { All FitsPort rules.now }
    ensures image { IfOk result (IsMadeOf (table_code rules.now)) }
    ensures limits { IfOk result IsProgram }
{
    let insns = table_insns(alloc, rules)?;
    image_of(alloc, insns.as_slice())
}

/// The image of a table: on any header, and whatever the cells answer, a run makes exactly the table's draws and
/// gives its verdict. It is of version 1 and has no loop, and its budget is its weight. A node with these maps
/// accepts it, whatever the table.
///
/// # Errors
///
/// The first of these, the last two rule by rule:
///
/// - `TooLong`: the table has more than 12 rules.
/// - `BadRange`: the range of addresses ends before it begins.
/// - `NoCell`: the maps do not have the cell of the quota, or it is in a peak map.
///
/// `Memory` if there is none of these and memory is refused.
pub fn compile(alloc: Global, table: &Table, sizes: &MapSizes) -> Result<Image, PolicyFault>
    ensures compiled { IfOk result (IsCompiled sizes.now table.now) }
    ensures justified { IfOk result (λ image. IsJustified image sizes.now) }
    ensures fault { IfErr result (IsCompileFault (compile_fault sizes.now table.now)) }
{
    code_has_meaning();
    code_is_justified();
    if let Some(fault) = table.fault_for(sizes) {
        return Err(fault);
    }
    let rules = on_lines(alloc, table.rules())?;
    let image = image_of_rules(alloc, rules.as_slice())?;
    Ok(image)
}

/// The image of a table of either version: a run on any header at a port makes exactly the draws of its rules there.
/// It gives their verdict, whatever the cells answer. All else is as [`compile`] says. If a table asks no port, the
/// image is the same as there.
///
/// # Errors
///
/// The first fault of the table, with its place ([`Policy::fault_for`]). `Memory` if there is none and memory is
/// refused.
pub fn compile_policy(alloc: Global, policy: &Policy, sizes: &MapSizes) -> Result<Image, TextFault>
    ensures compiled { IfOk result (IsPortCompiled sizes.now policy.now) }
    ensures justified { IfOk result (λ image. IsJustified image sizes.now) }
    ensures fault { IfErr result (IsPortFault (policy_fault sizes.now policy.now)) }
{
    code_has_meaning();
    code_is_justified();
    if let Some(fault) = policy.fault_for(sizes) {
        return Err(fault);
    }
    let image = image_of_rules(alloc, policy.rules())?;
    Ok(image)
}
