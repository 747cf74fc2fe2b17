//! The calls of a run. They exist only in proofs: they have no bytes, and the functions on them do nothing.

ghost use Rattle.std.specs.Prelude.{◌≡◌, ◌++◌, ◌∷◌, List, [], drop, length};
ghost use base.Fml.{ftrue};
ghost use Rattle.machine.specs.declared.calls.Call.{Call};

use machine::Call;
use std::marker::Model;

/// Calls, in order, for proofs.
#[derive(Drop)]
pub struct CallLog {
    pub ghost calls: { List Call },
}

impl Model for CallLog {
    ghost also_owns = { λ _. ftrue };
}

impl CallLog {
    /// No calls.
    pub fn none() -> CallLog
        ensures { result.calls ≡ [] }
    {
        CallLog {}
    }

    /// One call more.
    pub fn with(&self, _call: &Call) -> CallLog
        ensures { result.calls ≡ self.now.calls ++ _call.now ∷ [] }
    {
        CallLog {}
    }

    /// These calls, and after them those that `_after` has and `_before` has not.
    pub fn joined(&self, _before: &CallLog, _after: &CallLog) -> CallLog
        ensures { result.calls
            ≡ self.now.calls ++ drop (length _before.now.calls) _after.now.calls }
    {
        CallLog {}
    }

    /// The same.
    pub fn again(&self) -> CallLog
        ensures { result.calls ≡ self.now.calls }
    {
        let none = CallLog::none();
        none.joined(&none, self)
    }
}
