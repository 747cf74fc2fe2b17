//! What a line has that was written on another system.

/// The mark that some editors put before the first line of a file.
const BYTE_ORDER_MARK: char = '\u{feff}';

/// What is printed of a first line after such a mark.
const MARKED: &str = "    the file begins with a BOM: save it as UTF-8 without one\n";

/// What is printed of a line that has a carriage return before its line feed.
const RETURNED: &str = "    the line ends in \\r: lines end in only a line feed\n";

/// What a line has of another system.
#[derive(Clone, Copy, Debug, PartialEq, Eq)]
pub enum Foreign {
    /// Nothing.
    Nothing,
    /// A mark before the first line.
    Mark,
    /// A carriage return before its line feed.
    Return,
}

impl Foreign {
    /// What this line has, which is the first of its file or a later one.
    pub fn of(line: &str, is_first: bool) -> Foreign {
        if is_first && line.starts_with(BYTE_ORDER_MARK) {
            Foreign::Mark
        } else if line.ends_with('\r') {
            Foreign::Return
        } else {
            Foreign::Nothing
        }
    }

    /// What is printed of it; nothing if it is nothing.
    pub fn words(self) -> &'static str {
        match self {
            Foreign::Nothing => "",
            Foreign::Mark => MARKED,
            Foreign::Return => RETURNED,
        }
    }
}
