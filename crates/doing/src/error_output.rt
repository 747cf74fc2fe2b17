//! Standard error in memory.

use std::alloc::Global;
use std::cell::RefCell;
use std::fmt::Display;
use std::io::{self, Eprint};

/// What was printed on standard error, in that order.
#[derive(Drop)]
pub struct ErrorOutput {
    reported: RefCell<String>,
}

impl ErrorOutput {
    /// Nothing yet.
    pub fn new(alloc: Global) -> ErrorOutput {
        ErrorOutput {
            reported: RefCell::new(String::new(alloc)),
        }
    }

    /// What was printed.
    pub fn into_reported(self) -> String {
        self.reported.into_inner()
    }
}

impl Eprint for ErrorOutput {
    fn eprint<D: Display + Drop>(&self, value: D) -> io::Result<()> {
        let mut reported = self.reported.try_borrow_mut()?;
        write!(reported, "{value}")?;
        Ok(())
    }

    fn eprintln<D: Display + Drop>(&self, value: D) -> io::Result<()> {
        let mut reported = self.reported.try_borrow_mut()?;
        write!(reported, "{value}\n")?;
        Ok(())
    }
}
