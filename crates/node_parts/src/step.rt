//! The verdict on a command.

ghost use Rattle.std.specs.Prelude.{◌≡◌};
ghost use Rattle.node_parts.specs.Steps.{HasRun, IsJudgedOnce};

use crate::run_context::RunContext;
use bank::{Admitted, Judged};
use brun::{Counters, run};
use bver::Accepted;
use rmap::Command;

/// The verdict of the program on the header of the command: one run.
fn verdict<C: Counters + Drop>(
    context: &mut RunContext<C>,
    program: &Accepted,
    command: &Command,
) -> u64
    requires { context.old.seat.sizes ≡ program.now.sizes }
    ensures { HasRun program.now context.old context.new command.now result }
{
    run(
        program,
        command.front(),
        command.tail(),
        context.port,
        &mut context.stack,
        &mut context.seat,
    )
}

/// Judges an admitted command by the program of that generation: one run on its header, for the context's port. The
/// condition is a program that was accepted for the maps at which the context has its seat.
pub fn judge_by<C: Counters + Drop>(
    context: &mut RunContext<C>,
    program: &Accepted,
    generation: u32,
    admitted: Admitted,
) -> Judged
    requires { context.old.seat.sizes ≡ program.now.sizes }
    ensures { IsJudgedOnce program.now generation context.old context.new admitted result }
{
    let verdict = verdict(context, program, &admitted.command());
    Judged::of(admitted, context.port, generation, verdict)
}
