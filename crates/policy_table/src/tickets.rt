//! What tickets are drawn of.

ghost use Rattle.std.specs.Prelude.{◌≡◌};
ghost use Rattle.policy_table.specs.Meaning.{draw};
ghost use Rattle.policy_table.specs.Tickets.{answers_after, next_answer};

use crate::rules::Quota;
use machine::{Call, Helper, Question};
use std::marker::Model;

/// What tickets are drawn of.
pub(crate) trait Tickets {
    ghost use Rattle.std.specs.Prelude.{◌≡◌, ℕ};
    ghost use Rattle.policy_table.specs.Meaning.{draw};

    /// The ticket of a cell that is drawn next.
    ghost next: { Self → ℕ → ℕ → ℕ };

    /// What is left after that draw.
    ghost after: { Self → ℕ → ℕ → Self };

    /// Draws a ticket of a quota's cell.
    fn draw_ticket(&mut self, quota: &Quota) -> Call
        ensures drawn { result ≡ draw quota.now (next self.old quota.now.map quota.now.cell) }
        ensures left { self.new ≡ after self.old quota.now.map quota.now.cell };
}

impl Quota {
    /// The draw of a ticket of this number.
    pub(crate) fn draw(&self, answer: u64) -> Call
        ensures { result ≡ draw self.now answer }
    {
        Call {
            question: Question {
                helper: Helper::Ticket,
                map: self.map,
                key: self.cell,
                argument: 0,
            },
            answer,
        }
    }
}

/// Answers that are given in order, whatever the cell; 0 if none is left.
#[derive(Debug, Drop)]
pub(crate) struct Answers<'a> {
    left: &'a [u64],
}

impl<'a> Model for Answers<'a> {
    ghost use Rattle.std.specs.Prelude.{ℕ, List};

    ghost Value = { List ℕ };

    ghost view = { λ a. a.left.now };
}

impl<'a> Answers<'a> {
    /// These answers.
    pub(crate) fn new(answers: &'a [u64]) -> Answers<'a>
        ensures { result ≡ answers.now }
    {
        Answers { left: answers }
    }
}

impl<'a> Tickets for Answers<'a> {
    ghost next = { next_answer };

    ghost after = { answers_after };

    fn draw_ticket(&mut self, quota: &Quota) -> Call {
        let Some((answer, left)) = self.left.split_first() else {
            return quota.draw(0);
        };
        self.left = left;
        quota.draw(*answer)
    }
}
