//! The words of a rule.

ghost use Rattle.std.specs.Prelude.{◌≡◌};
ghost use Rattle.policy_table.specs.Words.{word_form, word_number};

/// A word of a rule, in the order of a line.
#[derive(Clone, Copy, Debug, PartialEq, Eq)]
pub enum RuleWord {
    /// What the command asks for.
    Kind,
    /// The key.
    Key,
    /// The initiator logical address.
    Initiator,
    /// The extended address.
    Extended,
    /// The first address of the range.
    Low,
    /// The last address of the range.
    High,
    /// The quota.
    Quota,
    /// The verdict.
    Verdict,
}

impl RuleWord {
    /// The number of the word in its line, 1 to 8.
    pub fn number(self) -> u8
        ensures { result ≡ word_number self }
    {
        match self {
            RuleWord::Kind => 1,
            RuleWord::Key => 2,
            RuleWord::Initiator => 3,
            RuleWord::Extended => 4,
            RuleWord::Low => 5,
            RuleWord::High => 6,
            RuleWord::Quota => 7,
            RuleWord::Verdict => 8,
        }
    }

    /// The form of the word, with its name in the usage of tables before it.
    pub fn form(self) -> &'static str
        ensures { result.now ≡ word_form self }
    {
        match self {
            RuleWord::Kind => "KIND is read, write, rmw or any, in lower case",
            RuleWord::Key => "KEY is two hexadecimal digits, or *",
            RuleWord::Initiator => "INIT is two hexadecimal digits, or *",
            RuleWord::Extended => "EXT is two hexadecimal digits, or *",
            RuleWord::Low => "LOW is eight hexadecimal digits",
            RuleWord::High => "HIGH is eight hexadecimal digits",
            RuleWord::Quota => {
                "QUOTA is - or MAP:CELL:LIMIT in decimal, with LIMIT at most 2147483647"
            }
            RuleWord::Verdict => "VERDICT is 0, 3, 10 or 12",
        }
    }
}
