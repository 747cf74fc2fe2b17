//! The parts of an image, line by line.

ghost use Rattle.std.specs.Prelude.{◌≡◌, ◌+◌, ◌≤◌, ◌<◌, [], ℕ, List, length, None, IfOk};
ghost use Rattle.std.specs.Option.{option_to_list};
ghost use Rattle.bpf.specs.declared.header.TheConstants.{MAX_LOOPS, MAX_SLOTS};
ghost use Rattle.bpf.specs.declared.loops.Loop.{Loop as ALoop};
ghost use Rattle.bpf.specs.declared.version.Version.{Version as AVersion};
ghost use Rattle.bpf.specs.Program.{IsBudget, Program};
ghost use Rattle.bpf_insn.specs.declared.insn.Insn.{Insn as AnInsn};
ghost use Rattle.bpf_insn.specs.Spelling.{slots_of};
ghost use Rattle.basm_lex.specs.Names.{DefinesName};
ghost use Rattle.basm.specs.PartialImage.{AddsLine, ArePartsOf, HasRoom, IsImageOf, WritesLoop, has_head, names_in};
ghost use Rattle.basm_lex.specs.Mnemonics.{mnemonic_word};
ghost use Rattle.basm.specs.Outcomes.{Makes};
ghost use Rattle.basm.specs.Relation.{Budget, Code, IsLine, IsVersionOf, Item, OneLoop, OneVersion, WritesInsn, texts};
ghost use Rattle.basm.specs.Readers.{WritesBudget, WritesVersion};
ghost use Rattle.basm.specs.Additions.{AddsBudget, AddsInsn, AddsLoop, AddsVersion, IsAdded};

use crate::directives::{read_budget, read_loop, read_version};
use crate::faults::{AsmCode, AsmFault, both};
use crate::instructions::add_insn;
use crate::survey::Survey;
use basm_lex::{Mnemonic, label_name, read_mnemonic, read_statement};
use bpf::{Image, Loop, MAX_LOOPS, Version};
use bpf_insn::Insn;
use std::alloc::Global;

/// The parts of an image that the lines so far declare.
#[derive(Drop)]
pub struct PartialImage {
    version: Option<Version>,
    budget: Option<u32>,
    /// In the order of their lines.
    loops: Vec<Loop>,
    insns: Vec<Insn>,
    /// How many slots the instructions take.
    slots: u32,
}

impl PartialImage {
    /// The parts of no lines.
    pub fn new(alloc: Global) -> PartialImage
        ensures { ArePartsOf [] result }
    {
        PartialImage {
            version: None,
            budget: None,
            loops: Vec::new(alloc),
            insns: Vec::new(alloc),
            slots: 0,
        }
    }

    /// Adds what a line says.
    ///
    /// # Errors
    ///
    /// The fault of the line: `BadWord` for an unknown word, or the fault of its operands. `BadVersion` and
    /// `BadBudget` also for a second such line. `TooMany` for too many slots or loops, `BadLoop` for a second loop
    /// with one head. `Memory` if memory is refused.
    pub fn add_line(&mut self, alloc: Global, survey: &Survey, line: &str) -> Result<(), AsmCode>
        ensures adds { IfOk result
            (λ _. AddsLine (names_in survey.now) line.now self.old self.new) }
        ensures exact { (item : Item)
            → IsLine (names_in survey.now) self.old.slots line.now item
            → HasRoom survey.now.slots item self.old
            → IsAdded item self.old self.new result }
    {
        let statement = read_statement(alloc, line)?;
        let operands = statement.operands.as_slice();
        match read_mnemonic(statement.word) {
            Some(found) => self.add_insn(found, operands, survey),
            None => match statement.word {
                "" => Ok(()),
                ".budget" => self.add_budget(operands),
                ".loop" => self.add_loop(operands, survey),
                ".version" => self.add_version(operands),
                word => read_label(word, operands),
            },
        }
    }

    fn add_version(&mut self, operands: &[&str]) -> Result<(), AsmCode>
        ensures adds { IfOk result (λ _. AddsVersion operands.now self.old self.new) }
        ensures exact { (version : AVersion) → WritesVersion operands.now version
            → self.old.version ≡ None → IsAdded (OneVersion version) self.old self.new result }
    {
        let version = read_version(operands)?;
        if self.version.is_some() {
            return Err(AsmCode::BadVersion);
        }
        self.version = Some(version);
        Ok(())
    }

    fn add_budget(&mut self, operands: &[&str]) -> Result<(), AsmCode>
        ensures adds { IfOk result (λ _. AddsBudget operands.now self.old self.new) }
        ensures exact { (n : ℕ) → WritesBudget operands.now n
            → IsBudget n → self.old.budget ≡ None
            → IsAdded (Budget n) self.old self.new result }
    {
        let budget = read_budget(operands)?;
        if self.budget.is_some() {
            return Err(AsmCode::BadBudget);
        }
        self.budget = Some(budget);
        Ok(())
    }

    fn add_loop(&mut self, operands: &[&str], survey: &Survey) -> Result<(), AsmCode>
        ensures adds { IfOk result
            (λ _. AddsLoop (names_in survey.now) operands.now self.old self.new) }
        ensures exact { (l : ALoop)
            → WritesLoop (names_in survey.now) (texts operands.now) l
            → HasRoom survey.now.slots (OneLoop l) self.old
            → IsAdded (OneLoop l) self.old self.new result }
    {
        let (found, _) = both(read_loop(operands, survey), self.loop_room())?;
        if self.has_head(found.head) {
            return Err(AsmCode::BadLoop);
        }
        self.loops.push(found)?;
        Ok(())
    }

    fn has_head(&self, head: u16) -> bool
        ensures { result ≡ has_head head self.now.loops.items }
    {
        self.loops.iter().any(|found| found.head == head)
    }

    fn loop_room(&self) -> Result<(), AsmCode>
        ensures { length self.now.loops.items < MAX_LOOPS → result ≡ Ok tt }
    {
        if self.loops.len() < MAX_LOOPS {
            Ok(())
        } else {
            Err(AsmCode::TooMany)
        }
    }

    fn add_insn(
        &mut self,
        found: Mnemonic,
        operands: &[&str],
        survey: &Survey,
    ) -> Result<(), AsmCode>
        ensures adds { IfOk result
            (λ _. AddsInsn (names_in survey.now) found operands.now self.old self.new) }
        ensures exact { (insn : AnInsn)
            → WritesInsn (names_in survey.now) self.old.slots (mnemonic_word found)
            (texts operands.now) insn → self.old.slots + slots_of insn ≤ MAX_SLOTS
            → IsAdded (Code insn) self.old self.new result }
    {
        self.slots = add_insn(&mut self.insns, found, operands, &survey.names, self.slots)?;
        Ok(())
    }

    /// The version that the lines declare, or the first if they declare none.
    fn version(&self) -> Version
        ensures { IsVersionOf (option_to_list self.now.version) result }
    {
        match self.version {
            Some(version) => version,
            None => Version::One,
        }
    }

    /// The image of these parts, its loops by rising head.
    ///
    /// # Errors
    ///
    /// At line 0: `BadBudget` if the lines declare no budget, the fault of the image's parts, or `Memory`.
    pub fn into_image(mut self, alloc: Global) -> Result<Image, AsmFault>
        // The result is the image of the parts. If they have one, the function makes it, unless memory is refused.
        ensures image { IfOk result (IsImageOf self) }
        ensures exact { (p : Program) → IsImageOf self p → Makes p result }
    {
        let version = self.version();
        let budget = self.budget.ok_or(AsmFault::of_text(AsmCode::BadBudget))?;
        self.loops.sort_unstable_by_key(|found| found.head);
        Ok(Image::new(alloc, version, &self.insns, &self.loops, budget)?)
    }
}

/// A label says nothing more here; any other line is unknown.
fn read_label(word: &str, operands: &[&str]) -> Result<(), AsmCode>
    ensures reads { IfOk result
        (λ _. (name : List ℕ) × DefinesName word.now name × (texts operands.now ≡ [])) }
    ensures exact { (name : List ℕ) → DefinesName word.now name → texts operands.now ≡ []
        → result ≡ Ok tt }
{
    match label_name(word) {
        Some(_) if operands.is_empty() => Ok(()),
        _ => Err(AsmCode::BadWord),
    }
}
