//! What is wrong with a line of a table.

ghost use Rattle.std.specs.Prelude.{◌≡◌, Some};
ghost use Rattle.policy_table.specs.StatementFaults.{policy_fault_in, port_place, rule_form, statement_fault_text, word_place};

use crate::faults::PolicyFault;
use crate::words::RuleWord;
use std::fmt;

/// What is wrong with a line of a table: it is none of its version, its rule is not compiled, or there is no room.
#[derive(Clone, Copy, Debug, PartialEq, Eq)]
pub enum StatementFault {
    /// The first word is `.version`, and the line is not the first, or not `.version 2`.
    Version,
    /// The line begins as a comment does elsewhere, or as one of version 2 in a table of version 1.
    Comment,
    /// The first word begins with a point, and is neither `.range` nor `.version`.
    Directive,
    /// `.range` has this many words after it, and not three.
    RangeCount(usize),
    /// Both addresses of a range are one word.
    RangeJoined,
    /// The name of a range is no name, or reads as an address.
    RangeName,
    /// A range above has the name.
    RangeTwice,
    /// The first address of a range is no address.
    RangeLow,
    /// The last address of a range is no address.
    RangeHigh,
    /// A line of a table of version 1 has this many words, and not eight.
    LineCount(usize),
    /// A rule of version 2 ends before its verdict: it has this many words.
    RuleCount(usize),
    /// Both addresses of a rule are one word.
    RuleJoined,
    /// A word of a rule is none of its field. A name that no range above has is no first address.
    Word {
        /// The first such word.
        word: RuleWord,
        /// Whether the line has a name for the range.
        named: bool,
    },
    /// After the verdict comes something that is not `port P`.
    Port {
        /// Whether the line has a name for the range.
        named: bool,
    },
    /// In a range the last address is before the first.
    RangeOrder,
    /// In a rule the last address is before the first.
    RuleOrder,
    /// The maps do not have the cell of the quota, or it is in a peak map.
    NoCell {
        /// Whether the line has a name for the range.
        named: bool,
    },
    /// The rule is the thirteenth of a table of version 1.
    TooManyRules,
    /// The rule is the first of a table of version 2 for which an image has no room.
    TooManySlots {
        /// How many slots the rule takes.
        slots: u16,
        /// How many are left for it.
        left: u16,
    },
}

impl StatementFault {
    /// The fault without its place.
    pub fn fault(self) -> PolicyFault
        ensures { result ≡ policy_fault_in self }
    {
        match self {
            StatementFault::Version
            | StatementFault::Comment
            | StatementFault::Directive
            | StatementFault::RangeCount(_)
            | StatementFault::RangeJoined
            | StatementFault::RangeName
            | StatementFault::RangeTwice
            | StatementFault::RangeLow
            | StatementFault::RangeHigh
            | StatementFault::LineCount(_)
            | StatementFault::RuleCount(_)
            | StatementFault::RuleJoined
            | StatementFault::Word { .. }
            | StatementFault::Port { .. } => PolicyFault::BadLine,
            StatementFault::RangeOrder | StatementFault::RuleOrder => PolicyFault::BadRange,
            StatementFault::NoCell { .. } => PolicyFault::NoCell,
            StatementFault::TooManyRules | StatementFault::TooManySlots { .. } =>
                PolicyFault::TooLong,
        }
    }
}

/// The number of a word of a rule in its line.
fn word_place(word: RuleWord, named: bool) -> u8
    ensures { result ≡ word_place word named }
{
    let number = word.number();
    if named && number > 5 {
        number - 1
    } else {
        number
    }
}

/// The number of the word after the verdict.
fn port_place(named: bool) -> u8
    ensures { result ≡ port_place named }
{
    if named { 8 } else { 9 }
}

/// The form of a word of a rule.
fn rule_form(word: RuleWord, named: bool) -> &'static str
    ensures { result.now ≡ rule_form word named }
{
    if word != RuleWord::Low {
        return word.form();
    }
    if named {
        "NAME is of no range above"
    } else {
        "LOW is eight hexadecimal digits, or in version 2 the NAME of a range above"
    }
}

impl fmt::Display for StatementFault {
    ghost output = { λ fault. Some (statement_fault_text fault) };

    fn fmt<W: fmt::Write>(&self, f: &mut fmt::Formatter<W>) -> fmt::Result {
        match self {
            StatementFault::Version => write!(
                f,
                "word 1: .version 2 must be line 1, before all else, and 2 is the only number"
            ),
            StatementFault::Comment => write!(
                f,
                "word 1: a comment begins with ; and is of version 2, whose line 1 is .version 2"
            ),
            StatementFault::Directive => write!(
                f,
                "word 1: the directives are .range NAME LOW HIGH and, in line 1, .version 2"
            ),
            StatementFault::RangeCount(words) => {
                write!(
                    f,
                    "has {words} words after .range, and a range has 3: NAME LOW HIGH"
                )
            }
            StatementFault::RangeJoined => {
                write!(
                    f,
                    "word 3: LOW and HIGH are two words, with a space between them"
                )
            }
            StatementFault::RangeName => write!(
                f,
                "word 2: NAME is a letter, then letters, digits and underscores, and not eight hexadecimal digits"
            ),
            StatementFault::RangeTwice => write!(f, "word 2: NAME is of a range above"),
            StatementFault::RangeLow => write!(f, "word 3: LOW is eight hexadecimal digits"),
            StatementFault::RangeHigh => write!(f, "word 4: HIGH is eight hexadecimal digits"),
            StatementFault::LineCount(0) => write!(
                f,
                "has no words, and empty lines are of version 2, whose line 1 is .version 2"
            ),
            StatementFault::LineCount(words) => write!(
                f,
                "ends after word {words}, and a rule has 8: KIND KEY INIT EXT LOW HIGH QUOTA VERDICT"
            ),
            StatementFault::RuleCount(words) => write!(
                f,
                "ends after word {words}, and a rule has 8: KIND KEY INIT EXT LOW HIGH QUOTA VERDICT, or NAME for LOW HIGH"
            ),
            StatementFault::RuleJoined => {
                write!(
                    f,
                    "word 5: LOW and HIGH are two words, with a space between them"
                )
            }
            StatementFault::Word { word, named } => {
                let number = word_place(*word, *named);
                let form = rule_form(*word, *named);
                write!(f, "word {number}: {form}")
            }
            StatementFault::Port { named } => {
                let number = port_place(*named);
                write!(
                    f,
                    "word {number}: after VERDICT only port P may come, with P from 0 to 31"
                )
            }
            StatementFault::RangeOrder => write!(f, "word 3: LOW is above HIGH"),
            StatementFault::RuleOrder => write!(f, "word 5: LOW is above HIGH"),
            StatementFault::NoCell { named } => {
                let number = word_place(RuleWord::Quota, *named);
                write!(f, "word {number}: QUOTA is of no cell of a counter map")
            }
            StatementFault::TooManyRules => {
                write!(f, "is rule 13, and a table of version 1 has at most 12")
            }
            StatementFault::TooManySlots { slots, .. } => write!(
                f,
                "does not fit: its rule takes {slots} slots, more than are left of the 512 of an image"
            ),
        }
    }
}
