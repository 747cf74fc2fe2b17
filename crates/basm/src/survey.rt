//! What the whole text says before its lines are read one by one.

ghost use Rattle.std.specs.Prelude.{◌≡◌, ◌==◌, ◌++◌, ◌∷◌, [], ℕ, List, IfOk};
ghost use Rattle.basm.specs.Labels.{AddsName, IsSurvey, word_slots};
ghost use Rattle.basm.specs.Relation.{pieces_of};

use crate::names::Names;
use crate::pieces::pieces_of;
use basm_lex::{read_head, read_mnemonic};
use std::alloc::{AllocError, Global};

/// What the whole text says before its lines are read one by one.
#[derive(Drop)]
pub struct Survey<'a> {
    /// The slots of the labels' names.
    pub names: Names<'a>,
    /// The first line that defines a name again.
    pub repeated: Option<u32>,
    /// How many slots the instructions take.
    pub slots: u32,
    /// Whether there is a `.budget`.
    pub has_budget: bool,
}

impl<'a> Survey<'a> {
    /// What the text says.
    ///
    /// # Errors
    ///
    /// Memory is refused.
    pub fn of(alloc: Global, text: &'a str) -> Result<Survey<'a>, AllocError>
        ensures { IfOk result (IsSurvey (pieces_of text.now)) }
    {
        let mut survey = Survey {
            names: Names::new(alloc),
            repeated: None,
            slots: 0,
            has_budget: false,
        };
        let mut number: u32 = 0;
        for line in pieces_of(text) {
            number = number.saturating_add(1);
            survey.add_line(number, line)?;
        }
        Ok(survey)
    }

    fn add_line(&mut self, number: u32, line: &'a str) -> Result<(), AllocError>
        ensures { IfOk result
            (λ _. (lines : List (List ℕ)) → IsSurvey lines self.old
            → IsSurvey (lines ++ line.now ∷ []) self.new) }
    {
        let head = read_head(line);
        match head.label {
            Some(name) => self.add_name(number, name),
            None => {
                let word = head.word;
                self.has_budget = self.has_budget || word == ".budget";
                self.slots = self.slots.saturating_add(slots_of(word));
                Ok(())
            }
        }
    }

    fn add_name(&mut self, number: u32, name: &'a str) -> Result<(), AllocError>
        ensures { IfOk result (λ _. AddsName name.now self.old self.new) }
    {
        if !self.names.define(name, self.slots)? {
            self.repeated = self.repeated.or(Some(number));
        }
        Ok(())
    }
}

/// How many slots a line with this first word takes, if it is no label. An unknown word counts as an instruction. If
/// it begins with a full stop, it counts as none.
#[tactic(auto, unfolding(crate::specs::Labels::word_slots))]
fn slots_of(word: &str) -> u32
    ensures { result ≡ word_slots word.now }
{
    if word.is_empty() || word.starts_with('.') {
        return 0;
    }
    match read_mnemonic(word) {
        Some(found) => u32::from(found.slots()),
        None => 1,
    }
}
