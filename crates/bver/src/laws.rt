//! What holds of justified programs. Each function does nothing: its contract is the law.

ghost use Rattle.bver.specs.Laws.{JudgedIsResolved, JustifiedIsSafe, JustifiedIsSafeForCosts, SomethingIsClosed, ReportedIsUnjustified};

use absdom::{
    after_call_fits, after_call_grows, apply_fits, apply_grows, apply_leaves, entry_fits,
    forgets_all, order_of_states, refine_fits, refine_grows, refine_shrinks,
};
use bver_form::loops_are_counted;
use machine::{steps_leave, steps_perform};

/// A law and no work: a justified program is safe, and its regions are those of its accesses. No run of it costs more
/// than its weight, whatever each instruction costs.
pub fn justified_programs()
    ensures safe { JustifiedIsSafe }
    ensures costs { JustifiedIsSafeForCosts }
    ensures resolved { JudgedIsResolved }
{
    order_of_states();
    entry_fits();
    apply_fits();
    after_call_fits();
    refine_fits();
    steps_perform();
    steps_leave();
    loops_are_counted();
}

/// A law and no work: if a refusal gives a state that refutes a program, the program is not justified.
pub(crate) fn reported_programs()
    ensures { ReportedIsUnjustified }
{
    order_of_states();
    apply_grows();
    refine_grows();
    after_call_grows();
    forgets_all();
}

/// A law and no work: something is closed of each program that has its form. So what a refusal gives (`ReportsKnown`)
/// must be assumed of something.
pub fn something_is_closed()
    ensures { SomethingIsClosed }
{
    order_of_states();
    apply_leaves();
    refine_shrinks();
}
