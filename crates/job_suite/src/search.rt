//! Which verdicts the programs of a node give, and to whom: a search over the fields that a program reads.

use crate::candidates::{Shape, SuiteInitiator};
use crate::charted::Chart;
use crate::comings::PacketOutcome;
use crate::maker::{Area, Maker, READ, READ_ONE, RMW, WRITE, WRITE_ONE, WRITE_VERIFIED};
use crate::rows::SuiteRow;
use crate::seen::{HeaderReads, numbers_in};
use crate::trials::Bench;
use rmap::{BOOT_WINDOW, LOAD_REGISTER, STAGING_SIZE};
use spw::{End, Packet};
use std::alloc::{AllocError, Global};

/// The most packets that are tried, at each bank for each slot. For eight banks and the boot window they are fewer than
/// 2²⁰.
const TRIES: usize = 32_768;

/// The most of these that are tried for who asks, before places and lengths.
const ASKED: usize = 8192;

/// How many places of the space are between a packet and the next.
const STEP: usize = 2_654_435_761;

/// The most values of a field that are tried.
const VALUES: usize = 256;

/// The most that are kept of those who pass, at each bank for each slot.
const ASKERS: usize = 2;

/// A verdict that was found, and the command that has it.
#[derive(Clone, Copy, Debug)]
pub struct FoundVerdict {
    /// The slot.
    pub slot: u8,
    /// The verdict.
    pub verdict: u64,
    /// The command.
    pub shape: Shape,
}

/// Who passes, and at which extended address.
#[derive(Clone, Copy, Debug)]
pub struct Passer {
    /// The slot.
    pub slot: u8,
    /// The extended address.
    pub extended: u8,
    /// Who asks.
    pub asker: SuiteInitiator,
}

/// What is found.
#[derive(Debug, Drop)]
pub struct Findings {
    /// A command for each verdict of each slot.
    pub found: Vec<FoundVerdict>,
    /// Who passes somewhere.
    pub passers: Vec<Passer>,
}

/// The values that are tried of each field that a program reads; of any other one.
#[derive(Debug, Drop)]
struct Space {
    seen: HeaderReads,
    slot: u8,
    extended: u8,
    codes: Vec<u32>,
    keys: Vec<u32>,
    initiators: Vec<u32>,
    addresses: Vec<u32>,
    lengths: Vec<u32>,
}

/// Adds a value, if it is not there and there is room.
fn note(values: &mut Vec<u32>, value: u32) -> Result<(), AllocError> {
    if values.len() < VALUES && !values.contains(&value) {
        values.push(value)?;
    }
    Ok(())
}

/// Adds a value, if it is from `low` to `high`.
fn note_within(values: &mut Vec<u32>, value: u32, low: u32, high: u32) -> Result<(), AllocError> {
    if low <= value && value <= high {
        note(values, value)?;
    }
    Ok(())
}

impl Space {
    /// Adds a byte that a field may have.
    fn note_byte(&mut self, byte: u32) -> Result<(), AllocError> {
        if self.seen.key() {
            note(&mut self.keys, byte)?;
        }
        if self.seen.initiator() {
            note(&mut self.initiators, byte)?;
        }
        Ok(())
    }

    /// Adds an address or a length.
    fn note_word(&mut self, word: u32, low: u32, high: u32) -> Result<(), AllocError> {
        if self.seen.address() {
            note_within(&mut self.addresses, word, low, high)?;
        }
        if self.seen.length() {
            note_within(&mut self.lengths, word, 0, 4096)?;
        }
        Ok(())
    }

    /// Adds a word, and those beside it.
    fn note_near(&mut self, word: u32, low: u32, high: u32) -> Result<(), AllocError> {
        for value in [word, word.wrapping_add(1), word.wrapping_sub(1)] {
            if value < 256 {
                self.note_byte(value)?;
            }
            self.note_word(value, low, high)?;
        }
        Ok(())
    }

    /// Adds what a word of a program may be compared with: as it is, with its bytes in the other order, and each byte of it.
    fn note(&mut self, word: u32, low: u32, high: u32) -> Result<(), AllocError> {
        self.note_near(word, low, high)?;
        self.note_near(word.swap_bytes(), low, high)?;
        for byte in word.to_le_bytes() {
            self.note_byte(u32::from(byte))?;
        }
        Ok(())
    }

    /// Adds what the numbers of a program may be compared with.
    fn note_numbers(&mut self, numbers: &[u64], low: u32, high: u32) -> Result<(), AllocError> {
        for number in numbers {
            self.note((*number % 4_294_967_296) as u32, low, high)?;
            if *number > 4_294_967_295 {
                self.note((*number / 4_294_967_296) as u32, low, high)?;
            }
        }
        Ok(())
    }

    /// How many who ask the values make.
    fn askers(&self) -> usize {
        self.keys.len().saturating_mul(self.initiators.len())
    }

    /// How many commands the values make.
    fn count(&self) -> usize {
        let fields = self.codes.len().saturating_mul(self.keys.len());
        let fields = fields.saturating_mul(self.initiators.len());
        let fields = fields.saturating_mul(self.addresses.len());
        fields.saturating_mul(self.lengths.len())
    }

    /// The command of that number.
    fn command(&self, maker: &Maker, number: usize) -> Shape {
        let mut rest = number;
        let key = pick(self.keys.as_slice(), &mut rest);
        let initiator = pick(self.initiators.as_slice(), &mut rest);
        let code = pick(self.codes.as_slice(), &mut rest);
        let address = pick(self.addresses.as_slice(), &mut rest);
        let length = pick(self.lengths.as_slice(), &mut rest);
        let mut shape = maker.shape(byte_of(code), self.extended, address, length);
        shape.key = byte_of(key);
        shape.initiator = byte_of(initiator);
        shape
    }
}

/// The last byte of a number.
fn byte_of(number: u32) -> u8 {
    (number % 256) as u8
}

/// The value of a list at a number. What is left of the number then takes its place.
fn pick(values: &[u32], number: &mut usize) -> u32 {
    let count = values.len();
    if count == 0 {
        return 0;
    }
    let place = *number % count;
    *number /= count;
    values[place]
}

/// The place of the packet of that number in a space of `count` packets, of which `plain` come first. If all are tried,
/// the place is the number.
fn place_of(number: usize, plain: usize, count: usize) -> usize {
    if number < plain || count <= TRIES {
        return number;
    }
    number.wrapping_mul(STEP) % count
}

impl Findings {
    /// Nothing.
    pub fn none(alloc: Global) -> Findings {
        Findings {
            found: Vec::new(alloc),
            passers: Vec::new(alloc),
        }
    }

    /// Whether a command with that verdict is known.
    pub fn has(&self, slot: u8, verdict: u64) -> bool {
        for found in self.found.as_slice() {
            if found.slot == slot && found.verdict == verdict {
                return true;
            }
        }
        false
    }

    /// Whether it is known that this one passes somewhere.
    fn knows(&self, asker: SuiteInitiator) -> bool {
        for known in self.passers.as_slice() {
            if known.asker.initiator == asker.initiator && known.asker.key == asker.key {
                return true;
            }
        }
        false
    }

    /// How many are known to pass in a slot at an extended address.
    fn count_at(&self, slot: u8, extended: u8) -> usize {
        let mut count: usize = 0;
        for known in self.passers.as_slice() {
            if known.slot == slot && known.extended == extended {
                count = count.saturating_add(1);
            }
        }
        count
    }

    /// Notes who passes.
    fn note_passer(&mut self, passer: Passer) -> Result<(), AllocError> {
        let count = self.count_at(passer.slot, passer.extended);
        if count < ASKERS && !self.knows(passer.asker) {
            self.passers.push(passer)?;
        }
        Ok(())
    }

    /// Who passes somewhere.
    ///
    /// # Errors
    ///
    /// An error if memory is refused.
    pub fn askers(&self, alloc: Global) -> Result<Vec<SuiteInitiator>, AllocError> {
        let mut askers = Vec::new(alloc);
        for known in self.passers.as_slice() {
            askers.push(known.asker)?;
        }
        Ok(askers)
    }

    /// Notes the verdict on a command.
    fn note(&mut self, slot: u8, verdict: u64, shape: Shape) -> Result<(), AllocError> {
        if verdict == 0 {
            let (extended, asker) = (shape.extended, shape.asker());
            self.note_passer(Passer {
                slot,
                extended,
                asker,
            })?;
        }
        if !self.has(slot, verdict) {
            self.found.push(FoundVerdict {
                slot,
                verdict,
                shape,
            })?;
        }
        Ok(())
    }

    /// Tries the commands of a space.
    fn search(
        &mut self,
        alloc: Global,
        bench: &Bench,
        maker: &Maker,
        space: &Space,
    ) -> Result<(), AllocError> {
        let (plain, count) = (space.askers().min(ASKED), space.count());
        for number in 0..count.min(TRIES) {
            let shape = space.command(maker, place_of(number, plain, count));
            self.judge(alloc, bench, space.slot, shape)?;
        }
        Ok(())
    }

    /// Tries a command, if it is a packet.
    ///
    /// # Errors
    ///
    /// An error if memory is refused.
    pub fn judge(
        &mut self,
        alloc: Global,
        bench: &Bench,
        slot: u8,
        shape: Shape,
    ) -> Result<(), AllocError> {
        let header = shape.header(alloc)?;
        let Ok(packet) = Packet::new(header, End::Eop) else {
            return Ok(());
        };
        match bench.come(alloc, &packet)? {
            PacketOutcome::Judged(verdict, _) => self.note(slot, verdict, shape),
            PacketOutcome::Stopped(_) => Ok(()),
        }
    }
}

/// The value that is plain, and the other too if the field is read.
fn list(alloc: Global, read: bool, plain: u32, other: u32) -> Result<Vec<u32>, AllocError> {
    let mut values = Vec::new(alloc);
    values.push(plain)?;
    if read {
        note(&mut values, other)?;
    }
    Ok(values)
}

/// The space of a slot at a bank or at the boot window, for commands of these codes. The program reads what is in
/// `seen`.
fn space_of(
    alloc: Global,
    maker: &Maker,
    slot: u8,
    codes: &[u32],
    area: Area,
    seen: HeaderReads,
) -> Result<Space, AllocError> {
    let (key, initiator) = (u32::from(maker.asker.key), u32::from(maker.asker.initiator));
    Ok(Space {
        seen,
        slot,
        extended: area.extended,
        codes: Vec::from_slice(alloc, codes)?,
        keys: list(alloc, seen.key(), key, 0)?,
        initiators: list(alloc, seen.initiator(), initiator, 0x67)?,
        addresses: list(alloc, seen.address(), area.base, area.last(8))?,
        lengths: list(alloc, true, 4, 8)?,
    })
}

/// Searches a slot at a bank or at the boot window, at the addresses of `area`.
fn search_slot(
    alloc: Global,
    bench: &Bench,
    maker: &Maker,
    findings: &mut Findings,
    slot: u8,
    codes: &[u32],
    area: Area,
) -> Result<(), AllocError> {
    let program = bench.judges.judge(slot);
    let mut space = space_of(alloc, maker, slot, codes, area, HeaderReads::of(program))?;
    let numbers = numbers_in(alloc, program.image())?;
    space.note_numbers(numbers.as_slice(), area.base, area.last(1))?;
    if slot == 3 {
        note(&mut space.addresses, LOAD_REGISTER)?;
    }
    findings.search(alloc, bench, maker, &space)
}

/// The codes of the commands of a slot that are tried.
fn codes_of(alloc: Global, slot: u8) -> Result<Vec<u32>, AllocError> {
    let (read, write, rmw) = (u32::from(READ), u32::from(WRITE), u32::from(RMW));
    match slot {
        0 => Vec::from_slice(alloc, &[read, u32::from(READ_ONE)]),
        1 => Vec::from_slice(
            alloc,
            &[write, u32::from(WRITE_ONE), u32::from(WRITE_VERIFIED)],
        ),
        2 => Vec::from_slice(alloc, &[rmw]),
        _ => Vec::from_slice(alloc, &[read, write, rmw]),
    }
}

/// Looks for verdicts of a slot at a bank: by the chart, if there is one of the slot, else by a search.
fn look_in_bank(
    alloc: Global,
    bench: &Bench,
    maker: &Maker,
    findings: &mut Findings,
    chart: &Option<Chart>,
    slot: u8,
    area: Area,
) -> Result<(), AllocError> {
    if let Some(chart) = chart {
        if chart.has(slot) {
            return chart.search_bank(alloc, bench, maker, findings, slot, area);
        }
    }
    let codes = codes_of(alloc, slot)?;
    search_slot(alloc, bench, maker, findings, slot, codes.as_slice(), area)
}

/// Looks for verdicts of the slots of banks at a bank.
///
/// # Errors
///
/// An error if memory is refused.
pub fn look_at_bank(
    alloc: Global,
    bench: &Bench,
    maker: &Maker,
    findings: &mut Findings,
    chart: &Option<Chart>,
    area: Area,
) -> Result<(), AllocError> {
    for slot in [0_u8, 1, 2] {
        look_in_bank(alloc, bench, maker, findings, chart, slot, area)?;
    }
    Ok(())
}

/// Looks for verdicts of the slot of the boot window.
///
/// # Errors
///
/// An error if memory is refused.
pub fn look_at_window(
    alloc: Global,
    bench: &Bench,
    maker: &Maker,
    findings: &mut Findings,
    chart: &Option<Chart>,
) -> Result<(), AllocError> {
    if let Some(chart) = chart {
        if chart.has(3) {
            return chart.search_window(alloc, bench, maker, findings);
        }
    }
    let area = Area {
        extended: BOOT_WINDOW,
        base: 0,
        size: STAGING_SIZE,
    };
    let codes = codes_of(alloc, 3)?;
    search_slot(alloc, bench, maker, findings, 3, codes.as_slice(), area)
}

/// The rows of the program: for each verdict that was found, a command that is whole. If the verdict is not 0, the
/// command with an error end comes after it.
///
/// # Errors
///
/// An error if memory is refused.
pub fn program_rows(
    alloc: Global,
    maker: &mut Maker,
    findings: &Findings,
) -> Result<(), AllocError> {
    for found in findings.found.as_slice() {
        maker.put(alloc, SuiteRow::Program(found.verdict), found.shape)?;
        let mut shape = found.shape;
        shape.end = End::Eep;
        if found.verdict != 0 {
            maker.put(alloc, SuiteRow::ProgramBeforeEep(found.verdict), shape)?;
        }
    }
    Ok(())
}
