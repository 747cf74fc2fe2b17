//! How many tickets were drawn.

ghost use Rattle.std.specs.Prelude.{◌≡◌, IfOk, replicate};
ghost use Rattle.policy_table.specs.Counts.{after_draw, cell_place, drawn_of};
ghost use Rattle.policy_table.specs.Meaning.{draw};

use crate::rules::Quota;
use crate::tickets::Tickets;
use machine::{Call, MAX_CELLS, MAX_MAPS};
use std::alloc::{AllocError, Global};
use std::marker::Model;

/// How many counts there are: as many cells as all maps have together, for each map.
const COUNTS: usize = MAX_MAPS * MAX_CELLS as usize;

/// How many tickets were drawn of each cell of the maps of a node, modulo 2^64. Contracts see the counts by the place of
/// the cell.
#[derive(Debug, Drop)]
pub struct Counts {
    counts: Vec<u64>,
}

impl Model for Counts {
    ghost use Rattle.std.specs.Prelude.{ℕ, List};

    ghost Value = { List ℕ };

    ghost view = { λ c. c.counts.items };
}

/// The place of a cell among the counts, if a map may have the cell.
fn cell_place(quota: &Quota) -> Option<usize>
    ensures { result ≡ cell_place quota.now.map quota.now.cell }
{
    if quota.cell < MAX_CELLS {
        Some(usize::from(quota.map) * usize::from(MAX_CELLS) + usize::from(quota.cell))
    } else {
        None
    }
}

impl Counts {
    /// No ticket of any cell.
    ///
    /// # Errors
    ///
    /// An error if memory is refused.
    pub fn new(alloc: Global) -> Result<Counts, AllocError>
        ensures { IfOk result (λ counts. counts ≡ replicate 2048 0) }
    {
        let mut counts = Vec::with_capacity(alloc, COUNTS)?;
        for _cell in 0..COUNTS {
            counts.push(0)?;
        }
        Ok(Counts { counts })
    }

    /// Draws a ticket of a quota's cell. Its number is how many were drawn before. If no node has the cell, the number
    /// is 0, and none is counted.
    pub fn draw(&mut self, quota: &Quota) -> Call
        ensures drawn { result ≡ draw quota.now (drawn_of self.old quota.now.map quota.now.cell) }
        ensures counts { self.new ≡ after_draw self.old quota.now.map quota.now.cell }
    {
        let mut answer = 0;
        if let Some(place) = cell_place(quota) {
            if let Some(count) = self.counts.get_mut(place) {
                answer = *count;
                *count = count.wrapping_add(1);
            }
        }
        quota.draw(answer)
    }
}

impl Tickets for Counts {
    ghost next = { drawn_of };

    ghost after = { after_draw };

    fn draw_ticket(&mut self, quota: &Quota) -> Call {
        self.draw(quota)
    }
}
