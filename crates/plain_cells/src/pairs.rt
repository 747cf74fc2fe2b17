//! The words of a node's cells, each beside its complement.

ghost use Rattle.std.specs.Prelude.{◌≡◌, IfOk};
ghost use Rattle.plain_cells.specs.Pairs.{IsPair, pairs_after_question, answer_by_pairs, whole_pairs};
ghost use Rattle.plain_cells.specs.Words.{word_in, zero_words};

use crate::answers::answered_pair;
use crate::words::CellWords;
use machine::{MapSizes, Question};
use std::alloc::{AllocError, Global};
use std::marker::Model;

/// The words of cells, each beside its complement. No invariant says that they agree: memory may change in one of them.
#[derive(Debug, Drop)]
pub(crate) struct CellPairs {
    words: CellWords,
    kept: CellWords,
}

impl Model for CellPairs {
    ghost use Rattle.plain_cells.specs.Pairs.{PairsValue};

    ghost Value = { PairsValue };

    ghost view = { λ p. record { words = p.words; kept = p.kept } };
}

impl CellPairs {
    /// A word of 0 for each cell of maps of those sizes, beside its complement.
    ///
    /// # Errors
    ///
    /// `AllocError` if memory was refused.
    #[tactic(auto, using(crate::proofs::Agreeing::kept_zeros))]
    pub fn new(alloc: Global, sizes: &MapSizes) -> Result<CellPairs, AllocError>
        ensures { IfOk result (λ pairs. pairs ≡ whole_pairs (zero_words sizes.now)) }
    {
        Ok(CellPairs {
            words: CellWords::new(alloc, sizes)?,
            kept: CellWords::same(alloc, sizes, u64::MAX)?,
        })
    }

    /// The word of a cell, if there is one.
    pub fn word(&self, map: u8, key: u16) -> Option<u64>
        ensures { result ≡ word_in self.now.words map key }
    {
        self.words.get(map, key)
    }

    /// Answers a question by the pair of its cell, which then is what the helper makes of it. The condition is a pair that is there.
    pub fn ask(&mut self, asked: Question) -> u64
        requires { IsPair self.old asked.map asked.key }
        ensures reported { result ≡ answer_by_pairs self.old asked }
        ensures following { self.new ≡ pairs_after_question self.old asked }
    {
        let word = self.words.word(asked.map, asked.key);
        let kept = self.kept.word(asked.map, asked.key);
        let answer = answered_pair(asked.helper, word, kept, asked.argument);
        self.words.set(asked.map, asked.key, answer.word);
        self.kept.set(asked.map, asked.key, answer.kept);
        answer.reported
    }
}
