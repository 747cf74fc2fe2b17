//! The steps of a run.

ghost use Rattle.std.specs.Prelude.{◌≡◌, ◌+◌, ◌^◌, ◌<◌, IfOk, IfSome, OnOk};
ghost use Rattle.stepper.specs.Machine.{IsSameRun, state_of, step_of};
ghost use Rattle.job_parts.specs.Printed.{Prints};
ghost use Rattle.job_trace.specs.Runs.{IsStride, Strides, lines_within, stride_of};

use crate::changes::{StepChange, step_change_of};
use crate::lines::print_step;
use bpf_insn::Insn;
use machine::{Call, questions_go_on};
use std::alloc::Global;
use std::io::{self, Write};
use stepper::{Machine, StepOutcome};

/// Makes the step of an instruction. Returns what it changed, and the answers that are left, or `None` in their place
/// if the run has its verdict. Returns `None` if it is a trap, or a question without an answer.
fn stride<'b>(
    machine: &mut Machine<'_>,
    insn: &Insn,
    answers: &'b [u64],
    budget: u32,
) -> Option<(StepChange, Option<&'b [u64]>)>
    requires few { machine.old.steps + 1 < 2 ^ 32 }
    ensures stride { IsStride (stride_of (machine.old.steps + 1) budget machine.old.slot insn.now
        answers.now (step_of machine.old)) result (state_of machine.new) }
    ensures run { IsSameRun machine.old machine.new }
    ensures steps { machine.new.steps ≡ machine.old.steps + 1 }
{
    questions_go_on();
    let slot = machine.slot();
    match machine.step() {
        StepOutcome::Next => Some((step_change_of(insn, slot, machine), Some(answers))),
        StepOutcome::Ask(question) => {
            let (answer, left) = answers.split_first()?;
            let answer = *answer;
            machine.answer(answer);
            Some((StepChange::Answered(Call { question, answer }), Some(left)))
        }
        StepOutcome::Verdict(verdict) => Some((
            StepChange::Ended(verdict, machine.steps(), budget),
            None,
        )),
        StepOutcome::Trap => None,
    }
}

/// Makes a step, and prints its line. Returns the answers that are left, or `None` if the run goes no further.
fn trace_step<'b, W: Write>(
    alloc: Global,
    machine: &mut Machine<'_>,
    answers: &'b [u64],
    budget: u32,
    out: &mut W,
) -> io::Result<Option<&'b [u64]>>
    requires few { machine.old.steps + 1 < 2 ^ 32 }
    ensures printed { IfOk result (Strides budget machine.old machine.new answers.now
        (W.contents out.old) (W.contents out.new)) }
    ensures run { IsSameRun machine.old machine.new }
    ensures steps { IfOk result (λ left. IfSome left (λ _. machine.new.steps ≡ machine.old.steps + 1)) }
{
    let slot = machine.slot();
    let Some(insn) = machine.insn() else {
        return Ok(None);
    };
    let Some((change, left)) = stride(machine, &insn, answers, budget) else {
        return Ok(None);
    };
    print_step(alloc, out, slot, &insn, change)?;
    Ok(left)
}

/// Prints the steps of a run from its entry on, with the answers to its helpers in order.
///
/// # Errors
///
/// The error of `out`, if it does not take all of the lines, or an error if memory is refused.
pub fn trace_run<W: Write>(
    alloc: Global,
    mut machine: Machine<'_>,
    answers: &[u64],
    budget: u32,
    out: &mut W,
) -> io::Result<()>
    requires { machine.steps ≡ 0 }
    ensures { OnOk result (Prints W.contents out.old out.new
        (lines_within machine.entry.program machine.entry.header machine.entry.sizes
        budget budget 0 (state_of machine.entry) answers.now)) }
{
    let mut left = answers;
    for _step in 0..budget {
        let Some(rest) = trace_step(alloc, &mut machine, left, budget, out)? else {
            return Ok(());
        };
        left = rest;
    }
    Ok(())
}
