//! Scrubbing of a node.

ghost use Rattle.std.specs.Prelude.{◌≡◌, ◌≢◌, ◌≤◌};
ghost use Rattle.scrub.specs.Guarded.{SetsEach};
ghost use Rattle.single_node_c.specs.Held.{BecomesGuarded, code_on};
ghost use Rattle.single_node_c.specs.Scrubbing.{Restores, RestoresIf, ScrubsAllSlots, ScrubsIf, ScrubsPart, asks, broken_if, is_slot_short, is_unmended, is_window_short, mended_bit, mended_bits, place_number, restored_number, scrub_test, short_code, sizes_if, withdrawn_bit, withdrawn_bits};
ghost use Rattle.single_node_c.specs.declared.codes.TheConstants.{OK};

use crate::codes::{NO_MEMORY, NO_NODE, NO_PART, OK};
use crate::handle::Handle;
use crate::held::{put, take};
use crate::numbers::ScrubbedNumbers;
use crate::opening::program_of;
use crate::unfit::Unfit;
use node_programs::PublishFault;
use scrub::{BrokenBits, GuardedNode, Health, Scrubbed};
use std::alloc::Global;

/// The slot of the program that judges commands to the boot window.
const WINDOW: u8 = 3;

/// The programs of the slots.
pub const PROGRAMS: u8 = 0;

/// How many ports and banks there are, where the banks lie, and how many cells the maps have.
pub const SIZES: u8 = 1;

/// The entries of the journals.
pub const JOURNALS: u8 = 2;

/// All of these.
pub const ALL: u8 = 3;

/// The bit of a slot whose program was mended, else 0.
fn mended_bit(health: Health, bit: u8) -> u8
    ensures value { result ≡ mended_bit health bit }
    ensures few { result ≤ bit }
{
    match health {
        Health::Mended => bit,
        Health::Whole | Health::Withdrawn | Health::Unmended => 0,
    }
}

/// The bit of a slot that is withdrawn, else 0.
fn withdrawn_bit(health: Health, bit: u8) -> u8
    ensures value { result ≡ withdrawn_bit health bit }
    ensures few { result ≤ bit }
{
    match health {
        Health::Withdrawn | Health::Unmended => bit,
        Health::Whole | Health::Mended => 0,
    }
}

/// Whether a slot is withdrawn because memory to mend its program was refused.
fn is_unmended(health: Health) -> bool
    ensures { result ≡ is_unmended health }
{
    match health {
        Health::Unmended => true,
        Health::Whole | Health::Mended | Health::Withdrawn => false,
    }
}

/// The bits of the slots whose programs were mended.
fn mended_bits(reported: Scrubbed) -> u8
    ensures { result ≡ mended_bits reported }
{
    let banks = mended_bit(reported.reads, 1)
        + mended_bit(reported.writes, 2)
        + mended_bit(reported.rmws, 4);
    banks + mended_bit(reported.window, 8)
}

/// The bits of the slots that are withdrawn.
fn withdrawn_bits(reported: Scrubbed) -> u8
    ensures { result ≡ withdrawn_bits reported }
{
    let banks = withdrawn_bit(reported.reads, 1)
        + withdrawn_bit(reported.writes, 2)
        + withdrawn_bit(reported.rmws, 4);
    banks + withdrawn_bit(reported.window, 8)
}

/// What became of the image that is lent for the slot of the boot window.
#[derive(Clone, Copy, Debug, PartialEq, Eq)]
pub enum Restored {
    /// Its program is published for that slot.
    Done,
    /// The slot was not withdrawn, or its program may not judge, or no more programs can be published. Nothing changed.
    Nothing,
    /// Memory was refused. Nothing changed.
    Short,
}

/// Publishes the program of an image for the slot of the boot window.
fn restore(alloc: Global, guarded: &mut GuardedNode, image: &[u8]) -> Restored
    ensures { Restores image.now result guarded.old guarded.new }
{
    let sizes = guarded.node.sizes();
    let program = match program_of(alloc, image, &sizes) {
        Ok(program) => program,
        Err(Unfit::Memory) => return Restored::Short,
        Err(_unfit) => return Restored::Nothing,
    };
    match guarded.install(WINDOW, program) {
        Ok(_generation) => Restored::Done,
        Err(PublishFault::Memory) => Restored::Short,
        Err(PublishFault::Slot | PublishFault::GenerationsFull) => Restored::Nothing,
    }
}

/// The same if a scrub left that slot withdrawn.
fn restore_if(alloc: Global, guarded: &mut GuardedNode, health: Health, image: &[u8]) -> Restored
    ensures { RestoresIf health image.now result guarded.old guarded.new }
{
    match health {
        Health::Withdrawn | Health::Unmended => restore(alloc, guarded, image),
        Health::Whole | Health::Mended => Restored::Nothing,
    }
}

/// 1 if the image that was lent is published, else 0.
fn restored_number(restored: Restored) -> u8
    ensures { result ≡ restored_number restored }
{
    match restored {
        Restored::Done => 1,
        Restored::Nothing | Restored::Short => 0,
    }
}

/// Whether the slot of the boot window is withdrawn because memory was refused.
fn is_window_short(window: Health, restored: Restored) -> bool
    ensures { result ≡ is_window_short window restored }
{
    match restored {
        Restored::Done => false,
        Restored::Nothing => is_unmended(window),
        Restored::Short => true,
    }
}

/// Whether a slot is withdrawn because memory was refused.
fn is_slot_short(reported: Scrubbed, restored: Restored) -> bool
    ensures { result ≡ is_slot_short reported restored }
{
    is_unmended(reported.reads)
        || is_unmended(reported.writes)
        || is_unmended(reported.rmws)
        || is_window_short(reported.window, restored)
}

/// What a scrub found of the programs of a node. It has a bit a slot, and whether the slot of the boot window was given
/// the program that was lent. It also has whether a slot is withdrawn because memory was refused.
#[derive(Clone, Copy)]
pub struct ProgramBits {
    mended: u8,
    withdrawn: u8,
    restored: u8,
    is_slot_short: bool,
}

/// Scrubs the programs of a node, and publishes the program of an image for the slot of the boot window if that is withdrawn.
fn scrub_programs(alloc: Global, guarded: &mut GuardedNode, image: &[u8]) -> ProgramBits
    ensures { ScrubsAllSlots image.now result guarded.old guarded.new }
{
    let reported = guarded.scrub(alloc, image);
    let restored = restore_if(alloc, guarded, reported.window, image);
    ProgramBits {
        mended: mended_bits(reported),
        withdrawn: withdrawn_bits(reported),
        restored: restored_number(restored),
        is_slot_short: is_slot_short(reported, restored),
    }
}

/// The same if programs are asked for.
fn scrub_if(alloc: Global, guarded: &mut GuardedNode, asked: bool, image: &[u8]) -> ProgramBits
    ensures { ScrubsIf asked image.now result guarded.old guarded.new }
{
    if asked {
        return scrub_programs(alloc, guarded, image);
    }
    ProgramBits {
        mended: 0,
        withdrawn: 0,
        restored: 0,
        is_slot_short: false,
    }
}

/// The sizes of a node are others than they were.
pub const SIZES_DIFFER: u8 = 1;

/// The sizes are as they were, and a number of scrubs before packets is not.
pub const COUNT_DIFFERS: u8 = 2;

/// If sizes are asked for: 1 if they are others than they were, 2 if only the numbers of scrubs before packets are.
/// Else 0.
fn sizes_if(guarded: &GuardedNode, asked: bool) -> u8
    ensures { result ≡ sizes_if asked guarded.now }
{
    if !asked {
        return 0;
    }
    if !guarded.has_sizes() {
        return SIZES_DIFFER;
    }
    if !guarded.has_counting() {
        return COUNT_DIFFERS;
    }
    0
}

/// Which entries are not whole, if journals are asked for.
fn broken_if(guarded: &GuardedNode, asked: bool) -> BrokenBits
    ensures { result ≡ broken_if asked guarded.now }
{
    if asked {
        return guarded.broken();
    }
    BrokenBits {
        banks: 0,
        first: None,
    }
}

/// The number of a place, or 0 if there is none.
fn place_number(place: Option<usize>) -> u64
    ensures { result ≡ place_number place }
{
    match place {
        Some(place) => place as u64,
        None => 0,
    }
}

/// Whether that part is asked for.
fn asks(what: u8, part: u8) -> bool
    ensures { result ≡ asks what part }
{
    what == part || what == ALL
}

/// The code of a scrub, by whether a slot is withdrawn because memory was refused.
fn short_code(is_slot_short: bool) -> u32
    ensures { result ≡ short_code is_slot_short }
{
    if is_slot_short { NO_MEMORY } else { OK }
}

/// Scrubs a part of a node, reports what it found, and gives a code.
fn scrub(
    alloc: Global,
    guarded: &mut GuardedNode,
    what: u8,
    image: &[u8],
    scrubbed: &mut ScrubbedNumbers,
) -> u32
    ensures { ScrubsPart what image.now scrubbed.new result guarded.old guarded.new }
{
    let programs = scrub_if(alloc, guarded, asks(what, PROGRAMS), image);
    let sizes = sizes_if(guarded, asks(what, SIZES));
    let broken = broken_if(guarded, asks(what, JOURNALS));
    *scrubbed = ScrubbedNumbers {
        first: place_number(broken.first),
        mended: programs.mended,
        withdrawn: programs.withdrawn,
        restored: programs.restored,
        sizes,
        journals: broken.banks,
        unused: 0,
        unused_half: 0,
    };
    short_code(programs.is_slot_short)
}

/// Compares a part of a node with what was kept of it, or all of these parts.
///
/// - Of programs, it compares the operations of that of each slot with the sums that were kept of them. If a program
///   differs, it is made again from its image, or its slot is withdrawn. If the slot of the boot window is withdrawn,
///   the program of the image that is lent is published for it, if it may judge.
/// - Of sizes and of journals, it reports what differs.
///
/// It asks for memory only for a program that it makes. If a slot is withdrawn because memory was refused, the code
/// says so, and the rest was done.
#[unsafe(no_mangle)]
pub extern "C" fn sandbar_scrub(
    alloc: Global,
    handle: &mut Handle,
    what: u8,
    image: &[u8],
    scrubbed: &mut ScrubbedNumbers,
) -> u32
    ensures scrubbed { scrub_test handle.old.kept what ≡ OK
        → BecomesGuarded (ScrubsPart what image.now scrubbed.new result) handle.old.kept handle.new.kept }
    ensures code { scrub_test handle.old.kept what ≢ OK → result ≡ scrub_test handle.old.kept what }
    ensures node { scrub_test handle.old.kept what ≢ OK → handle.new.kept ≡ handle.old.kept }
    ensures numbers { scrub_test handle.old.kept what ≢ OK → scrubbed.new ≡ scrubbed.old }
{
    let Some(mut guarded) = take(alloc, handle) else {
        return NO_NODE;
    };
    if what > ALL {
        put(alloc, handle, guarded);
        return NO_PART;
    }
    let code = scrub(alloc, &mut guarded, what, image, scrubbed);
    put(alloc, handle, guarded);
    code
}

/// From now on scrubs the program that judges a packet, before each `each`-th packet. If `each` is 0, as in a
/// node that was opened, it scrubs before none.
#[unsafe(no_mangle)]
pub extern "C" fn sandbar_scrub_each(alloc: Global, handle: &mut Handle, each: u32) -> u32
    ensures code { result ≡ code_on handle.old.kept (λ _. OK) }
    ensures set { result ≡ OK
        → BecomesGuarded (SetsEach each) handle.old.kept handle.new.kept }
    ensures node { result ≢ OK → handle.new.kept ≡ handle.old.kept }
{
    let Some(mut guarded) = take(alloc, handle) else {
        return NO_NODE;
    };
    guarded.scrub_each(each);
    put(alloc, handle, guarded);
    OK
}
