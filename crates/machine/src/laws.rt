//! Laws of the machine: what follows from its definition. Each function does nothing: its contract is the law.

ghost use Rattle.machine.specs.Laws.{AnswersDecide, RunsAgree, RunsFromTheFront, HaltsAgree, SizesOnlyTrap, StepPerforms, InstructionsLeave, StepsLeave, InstructionsAsk, StepsAsk, QuestionsAreAnswerable, InstructionsGoOn, QuestionsGoOn, BytesAreRead, SameBytes, ResultsFit, NumbersFit, ArgumentsFit, VerdictsFit, SafeComesToVerdict};

/// A run has one verdict, and one number of steps, for a header, a port and a list of helper calls.
pub fn runs_agree()
    ensures { RunsAgree }
{}

/// With the same helper calls a run comes to one halt, at a question or with its verdict. For given calls there is
/// one question or one verdict, and never both.
pub fn halts_agree()
    ensures { HaltsAgree }
{}

/// A run from its front: its first step, and then what ends from the state after it.
pub fn runs_from_the_front()
    ensures front { RunsFromTheFront }
    ensures answers { AnswersDecide }
{}

/// The sizes of the maps matter only to traps.
pub fn sizes_only_trap()
    ensures { SizesOnlyTrap }
{}

/// The step of an instruction that the program's version knows is what the instruction does. An instruction that the
/// version does not know is a trap.
pub fn steps_perform()
    ensures { StepPerforms }
{}

/// An instruction changes only the registers that it writes, also across a helper's answer. Only a store changes the
/// stack. The header is no part of the state, so nothing changes it.
pub fn steps_leave()
    ensures instructions { InstructionsLeave }
    ensures steps { StepsLeave }
{}

/// A step that asks calls the helper that asks: of the map in r1, for the key in r2. If the helper takes an argument,
/// that is the number in r3. So the argument is a word.
pub fn steps_ask()
    ensures instructions { InstructionsAsk }
    ensures steps { StepsAsk }
    ensures arguments { ArgumentsFit }
{}

/// Whoever has the maps can answer what a step asks. If a step is no trap with them, it asks for a cell of theirs.
/// The map is of a kind of which the helper may be asked.
pub fn questions_are_answerable()
    ensures { QuestionsAreAnswerable }
{}

/// After a question the program goes on at the next slot, with the answer in r0, r1 to r5 unset, and all else as
/// before.
pub fn questions_go_on()
    ensures instructions { InstructionsGoOn }
    ensures steps { QuestionsGoOn }
{}

/// A load gives what was stored: the low bytes of the number, little-endian (RFC 9669, section 5).
pub fn stored_bytes_are_read()
    ensures { BytesAreRead }
{}

/// A number is read only from its own bytes: if those are the same, it is the same.
pub fn same_bytes()
    ensures { SameBytes }
{}

/// On words, each operation gives a word, and at 32 bits one whose upper half is zero.
pub fn results_fit()
    ensures { ResultsFit }
{}

/// On every path of a program each register that is a number is a word. Each byte of the stack that is set is a byte.
/// So the verdict of a run is a word.
pub fn numbers_fit()
    ensures numbers { NumbersFit }
    ensures verdicts { VerdictsFit }
{}

/// A safe program comes to a verdict within its budget, on every header, at every port, and whatever its helpers
/// answer.
pub fn safe_comes_to_verdict()
    ensures { SafeComesToVerdict }
{}
