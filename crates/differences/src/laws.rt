//! Laws, which do nothing.

ghost use Rattle.differences.specs.Steps.{StepsAreNumbered, StepsDecide};

/// The numbers of the rules that a table asks at a point are its course there, and they decide as the table does.
pub fn steps()
    ensures numbered { StepsAreNumbered }
    ensures decide { StepsDecide }
{}
