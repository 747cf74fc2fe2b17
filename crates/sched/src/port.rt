//! What a port has.

ghost use Rattle.std.specs.Prelude.{◌≡◌, ◌<◌, ℕ, Option, None, Some, IfSome, IsTrue, is_none, length, true};
ghost use Rattle.std.specs.Arc.{arc_value};
ghost use Rattle.rmap.specs.Command.{discard_of};
ghost use Rattle.rmap.specs.Windows.{WindowsValue};
ghost use Rattle.machine.specs.Helpers.{takes_kind};
ghost use Rattle.machine.specs.Sizes.{IsInside, Maps, kind_of_map};
ghost use Rattle.bank.specs.Records.{after_command, answer_of, fits, memory_of, next_share};
ghost use Rattle.node_parts.specs.Stagings.{IsStaged, IsStagingPlace};
ghost use Rattle.sched.specs.BeginsHistory.{BeginsAt};
ghost use Rattle.sched.specs.Ends.{CanEnd, CanFinish, EndsAt, HasPortFinished, IsReplyTo, IsWriteUnder, after_control_write, load_result_kept, share_in, with_share_in};
ghost use Rattle.sched.specs.History.{Open, open_after_answer};
ghost use Rattle.sched.specs.Standing.{IsLent};
ghost use Rattle.sched.specs.Looking.{Node, argument_asked, cell_asked};
ghost use Rattle.sched.specs.Worlds.{AsksHelper, IsJudging, IsRunUnderIfAny, IsSameRunIfAny, effect_due, publish_due, turn_in};

use crate::run::{Opening, Run};
use crate::standing::Standing;
use bank::{Bank, Judged, Share};
use machine::{Helper, STACK_SIZE};
use node_parts::{Banks, answer_staged};
use node_programs::Staging;
use rmap::{Place, ReplyBuf, Status, Windows};
use std::marker::Model;

/// What a port has: a share of each bank, its staging, the command that is judged, and the stack of its program.
#[derive(Drop)]
pub(crate) struct Port {
    pub shares: Vec<Share>,
    pub staging: Staging,
    pub run: Option<Run>,
    stack: [u8; STACK_SIZE],
}

impl Model for Port {
    ghost use Rattle.sched.specs.Worlds.{PortValue, StandsIfAny, at_stack_if_any};

    ghost Value = { PortValue };

    ghost invariant = { λ p. StandsIfAny (at_stack_if_any p.run p.stack) };

    ghost view = { λ p. record { shares = p.shares.items; staging = p.staging; run = at_stack_if_any p.run p.stack } };
}

impl Port {
    /// A port with those shares and that staging, which judges no command.
    pub fn free(shares: Vec<Share>, staging: Staging) -> Port
        ensures { result ≡ record { shares = shares.items; staging = staging; run = None } }
    {
        Port {
            shares,
            staging,
            run: None,
            stack: [0; STACK_SIZE],
        }
    }

    /// The staging, with the result of the last load.
    pub fn staging(&self) -> &Staging
        ensures { result.now ≡ self.now.staging }
    {
        &self.staging
    }

    /// Whether the port judges no command.
    pub fn is_free(&self) -> bool
        ensures { result ≡ is_none self.now.run }
    {
        self.run.is_none()
    }

    /// The command that is judged, as it is now.
    pub fn standing(&self) -> Option<Standing<'_>>
        ensures { (n : Node) (port : ℕ) (last : Option Open)
            → IsJudging n port last self.now.run → IsLent n port last result }
    {
        match &self.run {
            Some(run) => Some(run.standing()),
            None => None,
        }
    }

    /// Begins to judge a command, at a port below 32.
    pub fn begin(&mut self, opening: Opening, port: u8)
        requires port { port < 32 }
        requires command { discard_of opening.packet.bytes ≡ None }
        ensures { BeginsAt port opening.packet opening.place (arc_value opening.program)
            opening.generation self.old self.new }
    {
        self.run = Some(Run::begin(opening, port, &mut self.stack));
    }

    /// The cell for which the program asks that helper, if it asks it.
    pub fn asked(&self, helper: Helper) -> Option<(u8, u16)>
        ensures value { result ≡ cell_asked helper (turn_in self.now.run) }
        ensures inside { (windows : WindowsValue) (sizes : Maps)
            → IsRunUnderIfAny windows sizes self.now.run
            → IfSome result (λ cell. IsInside sizes cell.0 cell.1) }
        ensures kind { (windows : WindowsValue) (sizes : Maps)
            → IsRunUnderIfAny windows sizes self.now.run
            → IfSome result (λ cell. IsTrue (takes_kind helper (kind_of_map sizes cell.0))) }
        ensures asks { IfSome result (λ _. AsksHelper self.now.run) }
    {
        match &self.run {
            Some(run) => run.asked(helper),
            None => None,
        }
    }

    /// The number to which the program raises a cell, if it asks for that. Otherwise the number means nothing.
    pub fn argument(&self) -> u64
        ensures { result ≡ argument_asked (turn_in self.now.run) }
    {
        match &self.run {
            Some(run) => run.argument(),
            None => 0,
        }
    }

    /// Answers the question at which the program is, and goes on.
    pub fn answer_question(&mut self, reported: u64)
        requires { AsksHelper self.old.run }
        ensures rest { self.new ≡ record self.old { run = self.new.run } }
        ensures same { IsSameRunIfAny self.old.run self.new.run }
        ensures run { (n : Node) (port : ℕ) (last : Option Open) → port < 32
            → IsJudging n port last self.old.run
            → IsJudging n port (open_after_answer reported last) self.new.run }
    {
        match &mut self.run {
            Some(run) => run.answer_question(reported, &mut self.stack),
            None => unreachable!(),
        }
    }

    /// The verdict of the command, if it has one and an Effect is due: the command is no control write.
    pub fn effect_due(&self) -> Option<u64>
        ensures { result ≡ effect_due self.now.run }
    {
        match &self.run {
            Some(run) => match run.place() {
                Place::Bank(_) | Place::Staging | Place::LoadResult => run.verdict(),
                Place::Control => None,
            },
            None => None,
        }
    }

    /// The verdict of the command, if it has one and a Publish is due: the command is a control write.
    pub fn publish_due(&self) -> Option<u64>
        ensures { result ≡ publish_due self.now.run }
    {
        match &self.run {
            Some(run) => match run.place() {
                Place::Control => run.verdict(),
                Place::Bank(_) | Place::Staging | Place::LoadResult => None,
            },
            None => None,
        }
    }

    /// Applies a judged command to bank k, with the port's share of it, and leaves the reply. The status is that of the
    /// reply.
    fn apply(&mut self, bank: &mut Bank, k: u8, judged: Judged, reply: &mut ReplyBuf) -> Status
        requires shared { k < length self.old.shares }
        requires fits { fits bank.old (share_in self.old k judged.port) judged ≡ true }
        ensures status { result ≡ (answer_of bank.old judged).status }
        ensures memory { memory_of bank.new ≡ (answer_of bank.old judged).memory }
        ensures reply { reply.new ≡ (answer_of bank.old judged).reply }
        ensures bank { bank.new ≡ after_command bank.old (share_in self.old k judged.port) judged }
        ensures share { self.new ≡ with_share_in self.old k
            (next_share bank.old (share_in self.old k judged.port) judged) }
    {
        bank.apply(&mut self.shares[usize::from(k)], judged, reply)
            .status
    }

    /// Answers a judged command to the staging or to the load result, and leaves the reply. The status is that of the
    /// reply.
    fn answer(&mut self, judged: Judged, reply: &mut ReplyBuf) -> Status
        requires { IsStagingPlace judged.place }
        ensures staged { IsStaged self.old.staging self.new.staging judged result reply.new }
        ensures rest { self.new ≡ record self.old { staging = self.new.staging } }
    {
        answer_staged(&mut self.staging, judged, reply)
    }

    /// Ends a judged command of the port where its bytes lie, and leaves the reply. The status is that of the reply.
    /// The condition is that it can end there, which a control write cannot.
    fn conclude(&mut self, banks: &mut Banks, judged: Judged, reply: &mut ReplyBuf) -> Status
        requires { CanEnd judged.place banks.old self.old judged }
        ensures { EndsAt judged.place banks.old banks.new self.old self.new judged result reply.new }
    {
        match judged.place() {
            Place::Bank(k) => self.apply(banks.bank_mut(k), k, judged, reply),
            Place::Staging | Place::LoadResult => self.answer(judged, reply),
            Place::Control => unreachable!(),
        }
    }

    /// Ends the command that is judged, with that verdict, where its bytes lie, and leaves the reply. After it the port
    /// judges no command. The status is that of the reply. The windows are those under which the command was taken.
    pub fn finish(
        &mut self,
        windows: &Windows,
        banks: &mut Banks,
        port: u8,
        verdict: u64,
        reply: &mut ReplyBuf,
    ) -> Status
        requires { CanFinish windows.now banks.old port verdict self.old self.old.run }
        ensures { HasPortFinished banks.old banks.new port verdict
            self.old self.new self.old.run result reply.new }
    {
        match self.run.take() {
            Some(run) => {
                let judged = run.end(windows, port, verdict);
                self.conclude(banks, judged, reply)
            }
            None => unreachable!(),
        }
    }

    /// Ends the control write that is judged with that status, and leaves the reply. After it the port judges no
    /// command, and the staging keeps the load result if a load was decided. The windows are those under which the
    /// command was taken.
    pub fn end_write(
        &mut self,
        windows: &Windows,
        port: u8,
        verdict: u64,
        reported: (Status, Option<[u8; 8]>),
        reply: &mut ReplyBuf,
    )
        requires { IsWriteUnder windows.now self.old.run }
        ensures port { self.new ≡ after_control_write reported.1 self.old }
        ensures reply { IsReplyTo self.old.run reported.0 reply.new }
    {
        let (status, loaded) = reported;
        match self.run.take() {
            Some(run) => run.end(windows, port, verdict).end(status, reply),
            None => unreachable!(),
        }
        self.keep(loaded);
    }

    /// Keeps the load result, if a load was decided.
    fn keep(&mut self, loaded: Option<[u8; 8]>)
        ensures { self.new ≡ record self.old { staging = load_result_kept loaded self.old.staging } }
    {
        if let Some(loaded) = loaded {
            self.staging.set_load_result(loaded);
        }
    }
}
