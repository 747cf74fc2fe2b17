//! Banks that locks guard.

ghost use Rattle.std.specs.Prelude.{◌≡◌};

use annals::{Family, Kept};
use crossbeam_utils::CachePadded;
use std::marker::Model;
use std::ops::Deref;
use std::sync::Mutex;

/// The lock of a bank, with the bank's number beside it. No more can be said of a lock that another thread may hold.
/// What is known of its bank is what is known of every bank with its chain. The lock and the bank share no cache line
/// with another bank's, so ports at two banks do not hold each other up.
#[derive(Drop)]
pub struct BankLock<J: Family> {
    number: u8,
    bank: CachePadded<Mutex<Kept<J>>>,
}

impl<J: Family> Model for BankLock<J> {
    ghost use Rattle.std.specs.Prelude.{ℕ};

    ghost Value = { ℕ };

    ghost view = { λ l. l.number };
}

impl<J: Family> BankLock<J> {
    /// The bank of that number, in a lock that is free.
    pub(crate) fn new(number: u8, bank: Kept<J>) -> BankLock<J>
        ensures { result ≡ number }
    {
        BankLock {
            number,
            bank: CachePadded::new(Mutex::new(bank)),
        }
    }

    /// The number of the bank.
    pub fn number(&self) -> u8
        ensures { result ≡ self.now }
    {
        self.number
    }
}

impl<J: Family> Deref for BankLock<J> {
    type Target = Mutex<Kept<J>>;

    fn deref(&self) -> &Mutex<Kept<J>> {
        &self.bank
    }
}
