//! Laws of ranges. Each is a function that does nothing and ensures the law.

ghost use Rattle.absdom_num.specs.Laws.{AluFits, NegateFits, MoveSignedFits, ByteSwapFits, RefineFits, AluGrows, NegateGrows, MoveSignedGrows, ByteSwapGrows, RefineGrows, RefineShrinks, IsOrder, IsSound, IsJoin, IsLeastOnes};

/// Every result of numbers that fit the operands fits the result.
pub fn results_fit()
    ensures alu { AluFits }
    ensures negate { NegateFits }
    ensures move_signed { MoveSignedFits }
    ensures byte_swap { ByteSwapFits }
{}

/// Numbers that fit the operands of a comparison fit the operands on the edge that they take. So no numbers take an
/// edge that is not followed.
pub fn edges_fit()
    ensures { RefineFits }
{}

/// Larger operands give results that are at least as large.
pub fn results_grow()
    ensures alu { AluGrows }
    ensures negate { NegateGrows }
    ensures move_signed { MoveSignedGrows }
    ensures byte_swap { ByteSwapGrows }
{}

/// If smaller operands follow an edge, larger ones follow it too, to ranges that are at least as large.
pub fn edges_grow()
    ensures { RefineGrows }
{}

/// The ranges on an edge lie inside the operands': a comparison only refines.
pub fn edges_shrink()
    ensures { RefineShrinks }
{}

/// Containment is an order. In it what fits a range fits every larger one, and the join is the least range above
/// both.
pub fn ranges_are_ordered()
    ensures order { IsOrder }
    ensures fits { IsSound }
    ensures join { IsJoin }
{}

/// The upper end of OR and XOR is the least number of only ones that is not below any operand.
pub fn ones_are_least()
    ensures { IsLeastOnes }
{}
