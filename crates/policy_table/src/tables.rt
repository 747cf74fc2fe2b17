//! Policy tables.

ghost use Rattle.std.specs.Prelude.{◌≡◌, ◌+◌, ◌≤◌, ◌++◌, All, length, vec_len, IfErr, IfOk, OnErr, OnOk};
ghost use Rattle.std.specs.Vec.{vec_capacity};
ghost use Rattle.machine.specs.Memory.{header};
ghost use Rattle.spw.specs.Line.{lines_of};
ghost use Rattle.policy_table.specs.FirstFault.{compile_fault};
ghost use Rattle.policy_table.specs.Counts.{after_draws, reported_on};
ghost use Rattle.policy_table.specs.Limits.{FitsFields};
ghost use Rattle.policy_table.specs.Lines.{IsReadFault, IsTable};
ghost use Rattle.policy_table.specs.Matching.{matched};
ghost use Rattle.policy_table.specs.Meaning.{decision, answers_in_turn};
ghost use Rattle.policy_table.specs.Passing.{passed_rules};

use crate::checks::compile_fault;
use crate::counts::Counts;
use crate::faults::PolicyFault;
use crate::laws::first_rule_matches;
use crate::lines::read_rules;
use crate::matching::{Match, match_of};
use crate::mismatches::Passed;
use crate::passing::passed_rules;
use crate::rules::Rule;
use crate::tickets::Answers;
use machine::{Call, MapSizes};
use std::alloc::{AllocError, Global};
use std::marker::Model;

/// A policy table: rules in order, of which the first that matches gives the verdict.
#[derive(Debug, Drop)]
pub struct Table {
    rules: Vec<Rule>,
}

impl Model for Table {
    ghost use Rattle.std.specs.Prelude.{List};
    ghost use Rattle.policy_table.specs.declared.rules.Rule.{Rule};

    ghost Value = { List Rule };

    ghost use Rattle.std.specs.Prelude.{All};
    ghost use Rattle.policy_table.specs.Limits.{FitsFields};

    ghost view = { λ t. t.rules.items };

    ghost invariant = { λ t. All FitsFields t.rules.items };
}

/// What rules say of a header. Each draw is appended to the calls, which must have room for one draw a rule.
fn decide_by(
    rules: &[Rule],
    front: &[u8; 4],
    tail: &[u8; 12],
    answers: &[u64],
    calls: &mut Vec<Call>,
) -> u64
    requires { vec_len calls.old + length rules.now ≤ vec_capacity calls.old }
    ensures draws { calls.new.items ≡ calls.old.items
        ++ (decision rules.now (header front.now tail.now) (answers_in_turn answers.now)).0 }
    ensures verdict { result
        ≡ (decision rules.now (header front.now tail.now) (answers_in_turn answers.now)).1 }
{
    first_rule_matches();
    let mut answers = Answers::new(answers);
    let found = match_of(rules, front, tail, &mut answers, calls);
    u64::from(found.verdict.number())
}

impl Table {
    /// The table of these rules.
    pub(crate) fn of_rules(rules: Vec<Rule>) -> Table
        requires { All FitsFields rules.items }
        ensures { result ≡ rules.items }
    {
        Table { rules }
    }

    /// The table that a text writes, one rule a line.
    ///
    /// A line is ended by a line feed, which the last may lack. It has eight words, with spaces between them:
    ///
    /// - kind: `read`, `write`, `rmw` or `any`
    /// - key, initiator logical address and extended address: two hexadecimal digits, or `*` for any
    /// - first and last address: eight hexadecimal digits
    /// - quota: `-` for none, or `MAP:CELL:LIMIT` in decimal, with a limit of at most 2,147,483,647
    /// - verdict: `0`, `3`, `10` or `12`
    ///
    /// The empty text is the table without rules.
    ///
    /// # Errors
    ///
    /// `BadLine` if a line is none of these, a blank one too; `Memory` if memory is refused.
    pub fn read(alloc: Global, text: &str) -> Result<Table, PolicyFault>
        ensures read { IfOk result (IsTable text.now) }
        ensures fault { IfErr result (IsReadFault (lines_of text.now)) }
    {
        let rules = read_rules(alloc, text)?;
        Ok(Table { rules })
    }

    /// The first fault of the table for a node with maps of these sizes: that for which it is not compiled.
    pub fn fault_for(&self, sizes: &MapSizes) -> Option<PolicyFault>
        ensures { result ≡ compile_fault sizes.now self.now }
    {
        compile_fault(self.rules.as_slice(), sizes)
    }

    /// The rules, in order.
    pub fn rules(&self) -> &[Rule]
        ensures rules { result.now ≡ self.now }
        ensures fit { All FitsFields self.now }
    {
        self.rules.as_slice()
    }

    /// What the table says of a header, without being compiled. `front` is the first four bytes of the header, target
    /// logical address to key. `tail` is its last twelve, initiator logical address to header CRC. The answers of the
    /// draws are taken in order, and 0 if none is left. Each draw is appended to the calls.
    ///
    /// # Errors
    ///
    /// An error if memory is refused. The calls are then as they were.
    pub fn decide(
        &self,
        front: &[u8; 4],
        tail: &[u8; 12],
        answers: &[u64],
        calls: &mut Vec<Call>,
    ) -> Result<u64, AllocError>
        ensures draws { OnOk result (calls.new.items ≡ calls.old.items
            ++ (decision self.now (header front.now tail.now) (answers_in_turn answers.now)).0) }
        ensures verdict { IfOk result (λ verdict. verdict
            ≡ (decision self.now (header front.now tail.now) (answers_in_turn answers.now)).1) }
        ensures kept { OnErr result (calls.new.items ≡ calls.old.items) }
    {
        calls.reserve(self.rules.len())?;
        Ok(decide_by(self.rules.as_slice(), front, tail, answers, calls))
    }

    /// By which rule the table decides on a header, if counts answer its draws. The parts of the header are those of
    /// [`Table::decide`]. Each draw is appended to the calls, and counted.
    ///
    /// # Errors
    ///
    /// An error if memory is refused. Calls and counts are then as they were.
    pub fn matched(
        &self,
        front: &[u8; 4],
        tail: &[u8; 12],
        counts: &mut Counts,
        calls: &mut Vec<Call>,
    ) -> Result<Match, AllocError>
        ensures found { IfOk result (λ found. found ≡ matched self.now (header front.now tail.now)
            (reported_on counts.old self.now (header front.now tail.now))) }
        ensures draws { OnOk result (calls.new.items ≡ calls.old.items
            ++ (decision self.now (header front.now tail.now)
            (reported_on counts.old self.now (header front.now tail.now))).0) }
        ensures counts { OnOk result (counts.new ≡ after_draws counts.old
            (decision self.now (header front.now tail.now)
            (reported_on counts.old self.now (header front.now tail.now))).0) }
        ensures kept { OnErr result ((calls.new.items ≡ calls.old.items)
            × (counts.new ≡ counts.old)) }
    {
        calls.reserve(self.rules.len())?;
        Ok(match_of(self.rules.as_slice(), front, tail, counts, calls))
    }

    /// Why the rules before the one that decides on a header do not match, if these are the draws of the table, in
    /// order.
    ///
    /// # Errors
    ///
    /// An error if memory is refused.
    pub fn passed(
        &self,
        alloc: Global,
        front: &[u8; 4],
        tail: &[u8; 12],
        draws: &[Call],
    ) -> Result<Vec<Passed>, AllocError>
        ensures { IfOk result (λ all. all.items
            ≡ passed_rules self.now (header front.now tail.now) draws.now) }
    {
        passed_rules(alloc, self.rules.as_slice(), front, tail, draws)
    }
}
