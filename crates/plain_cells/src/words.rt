//! The words of a node's cells.

ghost use Rattle.std.specs.Prelude.{◌≡◌, ◌<◌, IfOk, ℕ, List, [], length, replicate, slice_get, slice_index, slice_index_or, slice_set};
ghost use Rattle.plain_cells.specs.Words.{AreCells, AreZeros, same_words, with_word, key_word_at, word_in, zero_words};

use machine::MapSizes;
use std::alloc::{AllocError, Global};
use std::marker::Model;

/// The words of one map, by key.
#[derive(Debug, Drop)]
struct Words {
    words: Vec<u64>,
}

impl Model for Words {
    ghost use Rattle.std.specs.Prelude.{List, ℕ};

    ghost Value = { List ℕ };

    ghost view = { λ w. w.words.items };
}

impl Words {
    /// That word that many times.
    fn same(alloc: Global, count: u16, word: u64) -> Result<Words, AllocError>
        ensures { IfOk result (λ made. made ≡ replicate count word) }
    {
        Ok(Words {
            words: vec![in alloc; word; usize::from(count)]?,
        })
    }

    /// The word of a key, if there is one.
    fn get(&self, key: u16) -> Option<u64>
        ensures { result ≡ slice_get self.now key }
    {
        self.words.get(usize::from(key)).copied()
    }

    /// The word of a key. The condition is a key that is there.
    fn word(&self, key: u16) -> u64
        requires { key < length self.now }
        ensures { result ≡ slice_index self.now key }
    {
        self.words[usize::from(key)]
    }

    /// Sets the word of a key. The condition is a key that is there.
    fn set(&mut self, key: u16, word: u64)
        requires { key < length self.old }
        ensures { self.new ≡ slice_set self.old key word }
    {
        self.words[usize::from(key)] = word;
    }
}

/// The words of a node's cells, by map and key: plain values.
#[derive(Debug, Drop)]
pub struct CellWords {
    maps: Vec<Words>,
}

impl Model for CellWords {
    ghost use Rattle.std.specs.Prelude.{List, ℕ};

    ghost Value = { List (List ℕ) };

    ghost view = { λ c. c.maps.items };
}

impl CellWords {
    /// That word for each cell of maps of those sizes.
    pub(crate) fn same(alloc: Global, sizes: &MapSizes, word: u64) -> Result<CellWords, AllocError>
        ensures { IfOk result (λ words. words ≡ same_words sizes.now word) }
    {
        let mut maps = Vec::with_capacity(alloc, usize::from(sizes.maps()))?;
        for map in 0..sizes.maps() {
            let count = sizes.cells(map).unwrap();
            maps.push(Words::same(alloc, count, word)?)?;
        }
        Ok(CellWords { maps })
    }

    /// A word of 0 for each cell of maps of those sizes.
    ///
    /// # Errors
    ///
    /// `AllocError` if memory was refused.
    pub fn new(alloc: Global, sizes: &MapSizes) -> Result<CellWords, AllocError>
        ensures words { IfOk result (λ words. words ≡ zero_words sizes.now) }
        ensures cells { IfOk result (AreCells sizes.now) }
        ensures zeros { IfOk result AreZeros }
    {
        CellWords::same(alloc, sizes, 0)
    }

    /// The word of a cell, if there is one.
    pub fn get(&self, map: u8, key: u16) -> Option<u64>
        ensures { result ≡ word_in self.now map key }
    {
        match self.maps.get(usize::from(map)) {
            Some(words) => words.get(key),
            None => None,
        }
    }

    /// The word of a cell. The conditions are a map and a key that are there.
    pub fn word(&self, map: u8, key: u16) -> u64
        requires map { map < length self.now }
        requires key { key < length (slice_index_or self.now map []) }
        ensures { result ≡ key_word_at self.now map key }
    {
        self.maps[usize::from(map)].word(key)
    }

    /// Sets the word of a cell. The conditions are a map and a key that are there.
    pub fn set(&mut self, map: u8, key: u16, word: u64)
        requires map { map < length self.old }
        requires key { key < length (slice_index_or self.old map []) }
        ensures { self.new ≡ with_word self.old map key word }
    {
        self.maps[usize::from(map)].set(key, word);
    }
}
