//! Which journals of a node were found full.

use rmap::MAX_BANKS;

/// For each bank of a node the first packet line whose command found the journal of the bank full.
#[derive(Clone, Copy, Debug, PartialEq, Eq)]
pub struct FullJournals {
    banks: u8,
    lines: [Option<usize>; MAX_BANKS],
}

impl FullJournals {
    /// No journal of a node was found full. `banks` is how many banks it has.
    pub fn none(banks: u8) -> FullJournals {
        FullJournals {
            banks,
            lines: [None; MAX_BANKS],
        }
    }

    /// Notes that the command of this line found the journal of that bank full, if it is the first. Lines count from 1.
    pub fn note(&mut self, bank: u8, line: usize) {
        let place = usize::from(bank);
        if place < MAX_BANKS && self.lines[place].is_none() {
            self.lines[place] = Some(line);
        }
    }

    /// The first line whose command found the journal of that bank full. Lines count from 1.
    pub fn line(&self, bank: u8) -> Option<usize> {
        self.lines.get(usize::from(bank)).copied().flatten()
    }

    /// How many banks the node has.
    pub fn banks(&self) -> u8 {
        self.banks
    }
}
