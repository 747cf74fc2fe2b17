//! The packets of a suite: those drafts that meet their rows, and that may be printed.

ghost use Rattle.std.specs.Prelude.{◌≡◌, IfOk, IfSome, IsTrue, OnOk, Some, true};
ghost use Rattle.job_suite.specs.Reach.{is_printed};
ghost use Rattle.job_suite.specs.Rows.{wanted_of};
ghost use Rattle.job_suite.specs.Checks.{PassesHeader};
ghost use Rattle.job_suite.specs.Trials.{AreTrials, HasCome, IsMet, IsTrial};

use crate::candidates::{Candidate, Shape, SuiteInitiator};
use crate::checks::placed;
use crate::comings::{PacketOutcome, fits};
use crate::judges::Judges;
use crate::ranges::MemoryRange;
use crate::reach::is_printed;
use crate::rows::{SuiteRow, Wanted};
use rmap::{Command, Place, Windows, body_fault};
use spw::Packet;
use std::alloc::{AllocError, Global};

/// A packet of a suite.
#[derive(Debug, Drop)]
pub struct Trial {
    /// Its row.
    pub row: SuiteRow,
    /// Its fields.
    pub shape: Shape,
    /// The packet.
    pub packet: Packet,
}

/// What a suite is for: the node, its programs, and the places at which memory may change.
#[derive(Debug, Drop)]
pub struct Bench {
    /// The address of the node, and where its banks are.
    pub windows: Windows,
    /// The programs.
    pub judges: Judges,
    /// Where memory may change.
    pub ranges: Vec<MemoryRange>,
    /// Whether the boot window may be written.
    pub loads: bool,
}

impl Bench {
    /// What the command of a packet with this place comes to.
    #[tactic(auto, using(crate::proofs::Meeting::verdict_of))]
    fn judged(
        &self,
        alloc: Global,
        packet: &Packet,
        place: Place,
    ) -> Result<PacketOutcome, AllocError>
        requires { PassesHeader self.now.windows packet.now place }
        ensures { IfOk result (HasCome self.now packet.now) }
    {
        let command = Command::again(packet);
        let verdict = self.judges.verdict(alloc, &command, place)?;
        Ok(PacketOutcome::Judged(verdict, body_fault(&command)))
    }

    /// What a packet comes to.
    ///
    /// # Errors
    ///
    /// An error if memory is refused.
    pub fn come(&self, alloc: Global, packet: &Packet) -> Result<PacketOutcome, AllocError>
        ensures { IfOk result (HasCome self.now packet.now) }
    {
        match placed(packet, &self.windows) {
            Ok(place) => self.judged(alloc, packet, place),
            Err(check) => Ok(PacketOutcome::Stopped(check)),
        }
    }

    /// Whether a packet meets what is wanted.
    ///
    /// # Errors
    ///
    /// An error if memory is refused.
    #[tactic(auto, using(crate::proofs::Meeting::meets_wanted))]
    pub fn is_met(&self, alloc: Global, packet: &Packet, wanted: Wanted) -> Result<bool, AllocError>
        ensures { IfOk result (λ met. IsTrue met → IsMet self.now packet.now wanted) }
    {
        let received = self.come(alloc, packet)?;
        Ok(fits(received, wanted))
    }

    /// Whether a packet meets its row, and may be printed.
    fn is_trial(&self, alloc: Global, packet: &Packet, row: SuiteRow) -> Result<bool, AllocError>
        ensures met { IfOk result (λ is. IsTrue is → IsMet self.now packet.now (wanted_of row)) }
        ensures harmless { IfOk result (λ is. IsTrue is
            → is_printed self.now.ranges.items self.now.loads packet.now.bytes ≡ true) }
    {
        if !is_printed(self.ranges.as_slice(), self.loads, packet.bytes()) {
            return Ok(false);
        }
        self.is_met(alloc, packet, row.wanted())
    }

    /// The packet of a draft as this one asks, if it meets its row and may be printed.
    fn trial(
        &self,
        alloc: Global,
        candidate: &Candidate,
        asker: SuiteInitiator,
    ) -> Result<Option<Trial>, AllocError>
        ensures { IfOk result (λ received. IfSome received (IsTrial self.now)) }
    {
        let shape = candidate.shape.asked_by(asker);
        let bytes = shape.bytes(alloc, &candidate.data)?;
        let Ok(packet) = Packet::new(bytes, shape.end) else {
            return Ok(None);
        };
        if !self.is_trial(alloc, &packet, candidate.row)? {
            return Ok(None);
        }
        Ok(Some(Trial {
            row: candidate.row,
            shape,
            packet,
        }))
    }

    /// The packet of a draft, if it may be printed: as the first of these asks for whom it meets its row.
    fn asked_trial(
        &self,
        alloc: Global,
        candidate: &Candidate,
        askers: &[SuiteInitiator],
    ) -> Result<Option<Trial>, AllocError>
        ensures { IfOk result (λ received. IfSome received (IsTrial self.now)) }
    {
        for asker in askers {
            let received = self.trial(alloc, candidate, *asker)?;
            if received.is_some() {
                return Ok(received);
            }
        }
        Ok(None)
    }

    /// The packet of a draft, if it may be printed: as it asks itself, or as the first of these asks for whom it meets
    /// its row.
    fn any_trial(
        &self,
        alloc: Global,
        candidate: &Candidate,
        askers: &[SuiteInitiator],
    ) -> Result<Option<Trial>, AllocError>
        ensures { IfOk result (λ received. IfSome received (IsTrial self.now)) }
    {
        let received = self.trial(alloc, candidate, candidate.shape.asker())?;
        if received.is_some() {
            return Ok(received);
        }
        self.asked_trial(alloc, candidate, askers)
    }

    /// Adds a packet.
    #[tactic(auto, using(crate::proofs::TrialLists::one_more_trial))]
    fn add(&self, trials: &mut Vec<Trial>, trial: Trial) -> Result<(), AllocError>
        requires trials { AreTrials self.now trials.old.items }
        requires is { IsTrial self.now trial }
        ensures { OnOk result (AreTrials self.now trials.new.items) }
    {
        trials.push(trial)?;
        Ok(())
    }

    /// Adds a packet, if there is one.
    fn add_any(&self, trials: &mut Vec<Trial>, received: Option<Trial>) -> Result<(), AllocError>
        requires trials { AreTrials self.now trials.old.items }
        requires received { IfSome received (IsTrial self.now) }
        ensures { OnOk result (AreTrials self.now trials.new.items) }
    {
        match received {
            Some(trial) => self.add(trials, trial),
            None => Ok(()),
        }
    }

    /// The packets of these drafts that meet their rows and may be printed, in this order.
    ///
    /// # Errors
    ///
    /// An error if memory is refused.
    pub fn trials(
        &self,
        alloc: Global,
        candidates: &[Candidate],
        askers: &[SuiteInitiator],
    ) -> Result<Vec<Trial>, AllocError>
        ensures { IfOk result (λ trials. AreTrials self.now trials.items) }
    {
        let mut trials = Vec::new(alloc);
        for candidate in candidates {
            let received = self.any_trial(alloc, candidate, askers)?;
            self.add_any(&mut trials, received)?;
        }
        Ok(trials)
    }
}
