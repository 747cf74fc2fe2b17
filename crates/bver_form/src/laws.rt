//! What holds of the form of a program. Each function does nothing: its contract is the law.

ghost use Rattle.bver_form.specs.Laws.{BeginsWithinWeight, EachStepTakesItsCost, FaultIsKnown, FaultRefutesForm, FirstFaultIsOne, ItsCostIsLeft, LoopsAreEntered, WeightIsOfOnes};

/// A law and no work: a program that [`check`] refuses does not have its form, and no other fault comes first. The
/// first one is a refusal of the form, at a slot of the program.
///
/// [`check`]: crate::check
pub fn first_faults()
    ensures refutes { FaultRefutesForm }
    ensures one { FirstFaultIsOne }
    ensures known { FaultIsKnown }
{}

/// A law and no work, in plain arithmetic: no run of a program that has its form costs more than the weight, whatever
/// instructions cost. The condition is that its loops begin with their counters from 1 to the bound. What is left of
/// a run is a function of its slot and of the loops' counters. Each step takes at least its cost from it. If each
/// instruction costs one, the cost is how many instructions a run takes, and the weight by it is the program's
/// weight.
pub fn loops_are_counted()
    ensures begins { BeginsWithinWeight }
    ensures steps { EachStepTakesItsCost }
    ensures left { ItsCostIsLeft }
    ensures ones { WeightIsOfOnes }
    ensures entered { LoopsAreEntered }
{}
