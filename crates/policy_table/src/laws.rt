//! Laws of policy tables. These functions do nothing; their contracts are the laws.

ghost use Rattle.policy_table.specs.Laws.{DrawsAreAnswered, DrawsAreFew, FirstRuleDecides, HeadersHaveFields, NoRuleRefuses};
ghost use Rattle.policy_table.specs.Lines.{TableIsUnambiguous};
ghost use Rattle.policy_table.specs.Matching.{FirstMatches, MatchDecides};

/// A table draws at most once a rule, and the given answers answer its draws, in order. If the first rule whose
/// conditions hold has no quota, nothing is drawn, and the verdict is that rule's. If the conditions of no rule hold,
/// nothing is drawn, and the command is not authorised.
pub fn decisions()
    ensures few { DrawsAreFew }
    ensures answered { DrawsAreAnswered }
    ensures first { FirstRuleDecides }
    ensures none { NoRuleRefuses }
{}

/// A rule says of a header what it says of the command whose header it is: the fields are the command's.
pub fn headers_have_fields()
    ensures { HeadersHaveFields }
{}

/// A text is one table at most.
pub fn table_is_unambiguous()
    ensures { TableIsUnambiguous }
{}

/// The rule by which a table decides is the first that matches, and its verdict is the decision.
pub fn first_rule_matches()
    ensures first { FirstMatches }
    ensures verdict { MatchDecides }
{}
