//! The event Publish: a judged control write loads what its port staged.

ghost use Rattle.std.specs.Prelude.{◌≡◌, ◌<◌, length, false, IfOk, OnErr, IsSome};
ghost use Rattle.node_parts.specs.Loads.{wants_memory};
ghost use Rattle.rmap.specs.BootRecords.{control_of};
ghost use Rattle.sched.specs.Ends.{IsDecisionOf, IsLoadDecision, ShowsInSlot, count_shown, load_result_of_decision, programs_shown, status_of_decision};
ghost use Rattle.sched.specs.Worlds.{GoesOnLawfully};
ghost use Rattle.sched.specs.declared.event.Event.TheVariants.{Publish as PublishEvent};
ghost use Rattle.sched.specs.declared.event.Outcome.TheVariants.{Refused as RefusedOutcome};

use crate::event::Outcome;
use crate::port::Port;
use crate::reply::{ReplyBytes, reply_room};
use crate::shown::SlotVersion;
use crate::world::World;
use bank::judged_fault;
use bpf::image_laws;
use machine::MapSizes;
use node_parts::{LoadRefusal, prepare};
use node_programs::Staging;
use rmap::{ControlData, LoadResult, Status};
use std::alloc::{AllocError, Global};
use std::sync::Arc;

/// What a judged control write comes to.
#[derive(Drop)]
pub(crate) enum Decision {
    /// Its verdict or its body stops it, with that status.
    Stopped(Status),
    /// The load is refused.
    NotLoaded(LoadRefusal),
    /// The program is shown in that slot, with its generation.
    Loaded(u8, SlotVersion),
}

/// The decision of a load that is refused. If the refusal is a lack of memory, nothing is decided.
fn not_loaded(refusal: LoadRefusal) -> Result<Decision, AllocError>
    ensures refused { IfOk result (λ decision. decision ≡ Decision.NotLoaded refusal) }
    ensures reported { IfOk result (λ _. wants_memory refusal ≡ false) }
{
    if refusal.wants_memory() {
        return Err(AllocError);
    }
    Ok(Decision::NotLoaded(refusal))
}

/// Decides a load with those control data, after that number of publishes. It reads, verifies and holds the image, and
/// changes nothing yet.
fn load(
    alloc: Global,
    staging: &Staging,
    body: &[u8],
    sizes: &MapSizes,
    count: u32,
) -> Result<Decision, AllocError>
    ensures load { IfOk result
        (IsLoadDecision (control_of body.now) staging.now.bytes sizes.now count) }
{
    let (slot, accepted) = match prepare(alloc, staging, ControlData::read(body), sizes) {
        Ok(prepared) => prepared,
        Err(refusal) => return not_loaded(refusal),
    };
    if count == u32::MAX {
        return Ok(Decision::NotLoaded(LoadRefusal::GenerationsFull));
    }
    let shown = SlotVersion {
        program: Arc::new(alloc, accepted)?,
        generation: count + 1,
    };
    Ok(Decision::Loaded(slot, shown))
}

impl Decision {
    /// The status of the control write, and the load result if a load was decided.
    fn reported(&self) -> (Status, Option<[u8; 8]>)
        ensures status { result.0 ≡ status_of_decision self.now }
        ensures loaded { result.1 ≡ load_result_of_decision self.now }
    {
        match self {
            Decision::Stopped(status) => (*status, None),
            Decision::NotLoaded(refusal) => {
                (Status::GeneralError, Some(refusal.load_result().bytes()))
            }
            Decision::Loaded(_, shown) => {
                let result = LoadResult::published(shown.generation);
                (Status::Success, Some(result.bytes()))
            }
        }
    }

    /// Shows the program of a load that succeeded.
    fn show(self, programs: &mut [SlotVersion; 4], count: &mut u32)
        requires { ShowsInSlot self }
        ensures programs { programs.new ≡ programs_shown programs.old self }
        ensures count { count.new ≡ count_shown count.old self }
    {
        match self {
            Decision::Loaded(slot, shown) => {
                *count = shown.generation;
                programs[usize::from(slot)] = shown;
            }
            Decision::Stopped(_) | Decision::NotLoaded(_) => {}
        }
    }
}

impl Port {
    /// Decides what the judged control write of the port comes to, with that verdict. The node has maps of those sizes,
    /// and that many programs were published before.
    fn decide(
        &self,
        alloc: Global,
        verdict: u64,
        sizes: &MapSizes,
        count: u32,
    ) -> Result<Decision, AllocError>
        requires { IsSome self.now.run }
        ensures decides { IfOk result
            (IsDecisionOf self.now.run self.now.staging.bytes verdict sizes.now count) }
    {
        let Some(run) = &self.run else {
            unreachable!();
        };
        let command = run.command();
        match judged_fault(&command, verdict) {
            Some(status) => Ok(Decision::Stopped(status)),
            None => load(alloc, &self.staging, command.body(), sizes, count),
        }
    }
}

impl World {
    /// The judged control write of a port of the world loads what the port staged.
    pub(crate) fn publish(&mut self, alloc: Global, port: u8) -> Result<Outcome, AllocError>
        requires { port < length self.old.ports }
        ensures goes_on { IfOk result
            (λ outcome. GoesOnLawfully (PublishEvent port) outcome self.old self.new) }
        ensures same { OnErr result (self.new ≡ self.old) }
        ensures refused { IfOk result
            (λ outcome. outcome ≡ RefusedOutcome → self.new ≡ self.old) }
    {
        image_laws();
        let at = usize::from(port);
        let Some(verdict) = self.ports[at].publish_due() else {
            return Ok(Outcome::Refused);
        };
        let room = reply_room(alloc)?;
        let decision = self.ports[at].decide(alloc, verdict, &self.sizes, self.count)?;
        let reported = decision.reported();
        self.ports[at].end_write(&self.windows, port, verdict, reported, &mut self.reply);
        decision.show(&mut self.programs, &mut self.count);
        let (status, loaded) = reported;
        Ok(Outcome::Done(status, ReplyBytes::of(room, &self.reply), loaded))
    }
}
