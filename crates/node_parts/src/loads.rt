//! Loads: the node verifies a program that was staged, and publishes it.

ghost use Rattle.std.specs.Prelude.{◌≡◌, ◌⊎◌, None, IfErr, IfOk, List, OnErr, OnOk, length};
ghost use mathlib.Core.List.{IsPrefix};
ghost use Rattle.bank.specs.Records.{ShareValue};
ghost use Rattle.bpf.specs.Program.{IsProgram, image_bytes};
ghost use Rattle.bver.specs.Justified.{IsJustified};
ghost use Rattle.node_programs.specs.Published.{sizes_of};
ghost use Rattle.node_parts.specs.Loaded.{HasNoted, IsLoadEnd, IsPublished, NotesPublish};
ghost use Rattle.node_parts.specs.Outcomes.{IsLoadRefusal};
ghost use Rattle.node_parts.specs.Passes.{RunContextValue, pass_of};
ghost use Rattle.node_parts.specs.Loads.{IsFirstFault, IsPrepared, IsUnprepared, IsUnpreparedBy, IsUnspelled, WantsToPrepare, WantsToVerify, control_fault, loaded_bytes};

use crate::refusal::LoadRefusal;
use bank::{Judged, judged_fault};
use bpf::{Image, ImageFault};
use bver::{Accepted, MapSizes, verify};
use bver_form::first_faults;
use node_programs::{ProgramStore, Staging};
use rmap::{ControlData, LAST_SLOT, LoadResult, Place, ReplyBuf, STAGING_SIZE, Status};
use std::alloc::Global;

/// What is wrong with control data.
fn control_fault(control: ControlData) -> Option<LoadRefusal>
    ensures { result ≡ control_fault control }
{
    if control.zero != 0 || u32::from(control.length) > STAGING_SIZE {
        return Some(LoadRefusal::Control);
    }
    if control.slot > LAST_SLOT {
        return Some(LoadRefusal::Slot);
    }
    None
}

/// The image that the bytes spell.
#[tactic(auto, using(crate::proofs::Refusals::unspelled, crate::proofs::Refusals::first_fault))]
fn image_of(alloc: Global, bytes: &[u8]) -> Result<Image, LoadRefusal>
    ensures spelled { IfOk result (λ image. IsProgram image × (bytes.now ≡ image_bytes image)) }
    ensures unspelled { IfErr result (λ refusal.
        IsUnspelled bytes.now refusal ⊎ (refusal ≡ LoadRefusal.Image ImageFault.Memory)) }
    ensures first { IfErr result (IsFirstFault bytes.now) }
{
    let image = Image::read(alloc, bytes)?;
    Ok(image)
}

/// The program that the bytes spell, accepted for those maps.
#[tactic(auto, using(crate::proofs::Refusals::unread, crate::proofs::Refusals::unverified, crate::proofs::Refusals::no_fault))]
fn program_of(alloc: Global, bytes: &[u8], maps: &MapSizes) -> Result<Accepted, LoadRefusal>
    ensures spelled { IfOk result (λ a. IsProgram a.program × (bytes.now ≡ image_bytes a.program)) }
    ensures justified { IfOk result (λ a. IsJustified a.program maps.now × (a.sizes ≡ maps.now)) }
    ensures refused { IfErr result (λ refusal.
        IsUnpreparedBy None bytes.now maps.now refusal ⊎ WantsToVerify bytes.now refusal) }
    ensures first { IfErr result (IsFirstFault bytes.now) }
{
    first_faults();
    let image = image_of(alloc, bytes)?;
    Ok(verify(alloc, image, maps)?)
}

/// Reads and verifies the program that control data ask to publish: everything of a load that comes before publishing.
/// It gives the program, accepted for those maps, and its slot.
///
/// # Errors
///
/// In this order:
///
/// - `Control` for a second byte that is not zero or a length over 16,384.
/// - `Slot` for a slot over 3.
/// - `Image` for bytes that spell no image, with its first fault.
/// - `Program` for a refusal of the verifier.
///
/// The last two come also if memory was refused ([`LoadRefusal::wants_memory`]).
#[tactic(auto, using(crate::proofs::Refusals::misdirected, crate::proofs::Refusals::unprepared, crate::proofs::Refusals::no_control_fault))]
pub fn prepare(
    alloc: Global,
    staging: &Staging,
    control: ControlData,
    maps: &MapSizes,
) -> Result<(u8, Accepted), LoadRefusal>
    ensures prepared { IfOk result
        (λ made. IsPrepared control staging.now.bytes maps.now made.0 made.1) }
    ensures refused { IfErr result (λ refusal. IsUnprepared control staging.now.bytes maps.now refusal
        ⊎ WantsToPrepare control staging.now.bytes refusal) }
    ensures first { IfErr result (IsFirstFault (loaded_bytes control staging.now.bytes)) }
{
    if let Some(fault) = control_fault(control) {
        return Err(fault);
    }
    let bytes = &staging.bytes()[..usize::from(control.length)];
    let accepted = program_of(alloc, bytes, maps)?;
    Ok((control.slot, accepted))
}

/// Publishes the staged program that control data ask for, of which the port then knows, and gives its generation.
fn publish_staged<K, S: ProgramStore<K>>(
    alloc: Global,
    reader: &mut K,
    store: &mut S,
    staging: &Staging,
    control: ControlData,
) -> Result<u32, LoadRefusal>
    requires { IsPrefix (S.known reader.old) (S.published store.old) }
    ensures published { IfOk result (λ n. IsPublished control staging.now.bytes
        (S.published store.old) (S.published store.new) (S.known reader.old) (S.known reader.new) n) }
    ensures refused { IfErr result (IsLoadRefusal control staging.now.bytes
        (sizes_of (S.published store.old)) (length (S.published store.old))) }
    ensures noted { OnOk result (HasNoted S.notes reader.old reader.new
        (S.published store.old) (S.published store.new)) }
    ensures same { OnErr result ((S.published store.new ≡ S.published store.old)
        × (reader.new ≡ reader.old)) }
{
    let (slot, program) = prepare(alloc, staging, control, &store.sizes())?;
    let generation = store.publish(alloc, reader, slot, program)?;
    Ok(generation)
}

/// Loads what the port staged, if the verdict on the control write is yes and its body is right, and leaves the reply.
/// The program is verified for the maps of the node and published for the slot that the control data name. The port
/// knows of it and notes it. The load result has its generation, or why the load was refused. Nothing else changes,
/// whatever context and shares the port has. The conditions are a control write, and a port that knows a beginning of
/// the list.
pub fn load<K, S: ProgramStore<K>>(
    alloc: Global,
    reader: &mut K,
    store: &mut S,
    staging: &mut Staging,
    judged: Judged,
    reply: &mut ReplyBuf,
) -> Status
    requires place { judged.place ≡ Place.Control }
    requires begins { IsPrefix (S.known reader.old) (S.published store.old) }
    ensures noted { NotesPublish S.notes reader.old reader.new
        (S.published store.old) (S.published store.new) }
    ensures ended { (b : RunContextValue) (shares : List ShareValue)
        → IsLoadEnd (pass_of b (S.known reader.old) shares staging.old)
        (pass_of b (S.known reader.new) shares staging.new)
        (S.published store.old) (S.published store.new) judged result reply.new }
{
    if let Some(status) = judged_fault(&judged.command(), judged.verdict()) {
        judged.end(status, reply);
        return status;
    }
    let control = ControlData::read(judged.command().body());
    let (status, loaded) = match publish_staged(alloc, reader, store, staging, control) {
        Ok(generation) => (Status::Success, LoadResult::published(generation).bytes()),
        Err(refusal) => (Status::GeneralError, refusal.load_result().bytes()),
    };
    staging.set_load_result(loaded);
    judged.end(status, reply);
    status
}
