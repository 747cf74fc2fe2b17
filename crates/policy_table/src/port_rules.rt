//! Rules that are asked at one port, or at each.

use crate::rules::Rule;

/// A rule of a table, the port at which it is asked, and the line that writes it.
#[derive(Clone, Copy, Debug, PartialEq, Eq)]
pub struct PortRule {
    /// The rule.
    pub rule: Rule,
    /// The port, 0 to 31, of the commands of which the rule is asked; `None` if it is asked at every port.
    pub port: Option<u8>,
    /// The number of its line, from 1.
    pub line: usize,
    /// Whether the line has a name for the range, which is one word in place of two.
    pub named: bool,
}
