//! The job `why`.

ghost use Rattle.std.specs.Prelude.{◌≡◌, [], IfErr, IfOk, OnOk, false, string_bytes};
ghost use Rattle.job_parts.specs.Matched.{app_of, fields_of};
ghost use Rattle.bpf.specs.Program.{insn_at};
ghost use Rattle.bpf.specs.Reading.{FailsReading, image_reading};
ghost use Rattle.job_parts.specs.Printed.{Prints};
ghost use Rattle.job_parts.specs.Reading.{IsFileUnread};
ghost use Rattle.job_parts.specs.Stops.{StopsBy};
ghost use Rattle.job_codes.specs.Explained.{ExplainsBytes, ExplainsFile, ExplainsProgram, PrintsNoImage, PrintsRefusal, cause_line, insn_line, weight_line};
ghost use Rattle.job_codes.specs.WhyJob.{why_app};
ghost use Rattle.job_texts.specs.Needed.{IsMapsLine};

use crate::topics::Topic;
use absdom::{AbsKind, Offsets};
use absdom_num::Range;
use bpf::{Image, ImageFault, Version};
use bpf_insn::{Insn, REGISTERS, Register};
use bver::{MapSizes, Refusal, Refused, Region, State};
use clap::Command;
use job_parts::faults::Fault;
use job_parts::forms::form_line;
use job_parts::printing::{print_indented, print_text};
use job_parts::programs::bytes_in;
use job_parts::status::ExitStatus;
use job_parts::stops::JobStop;
use job_parts::storage::Files;
use job_texts::checking::checked;
use job_texts::images::{ImageArgs, verifying_command};
use job_texts::needed::needed_line;
use job_texts::verify::print_accepted;
use machine::STACK_SIZE;
use std::alloc::{AllocError, Global};
use std::io::{self, Write};

/// How many bytes a word of the stack has, of which a range is known.
const WORD_BYTES: usize = 8;

/// Adds a number: one below 4,096 in decimal digits, others in hexadecimal digits.
fn add_number(text: &mut String, number: u64) -> Result<(), AllocError> {
    if number < 4096 {
        write!(text, "{number}")
    } else {
        write!(text, "0x{number:x}")
    }
}

/// Adds the numbers of a range: `5`, `0 to 31`, or `any number`.
fn add_range(text: &mut String, range: Range) -> Result<(), AllocError> {
    let (low, high) = (range.low(), range.high());
    if (low, high) == (0, u64::MAX) {
        return text.push_str("any number");
    }
    add_number(text, low)?;
    if low == high {
        return Ok(());
    }
    text.push_str(" to ")?;
    add_number(text, high)
}

/// The name of a region in front of an offset.
fn name_of(region: Region) -> &'static str {
    match region {
        Region::Front => "front",
        Region::Tail => "tail",
        Region::Stack => "stack",
    }
}

/// Adds the place of an offset in a region: `tail+4`, `stack-8`.
fn add_place(text: &mut String, region: Region, offset: i32) -> Result<(), AllocError> {
    let name = name_of(region);
    let sign = if offset < 0 { "" } else { "+" };
    write!(text, "{name}{sign}{offset}")
}

/// Adds the places of a pointer: `front+0`, or `tail+0 to tail+255`.
fn add_pointer(text: &mut String, region: Region, offsets: Offsets) -> Result<(), AllocError> {
    let (low, high) = (offsets.low(), offsets.high());
    add_place(text, region, low)?;
    if low == high {
        return Ok(());
    }
    text.push_str(" to ")?;
    add_place(text, region, high)
}

/// Adds what is known of a register.
fn add_kind(text: &mut String, kind: AbsKind) -> Result<(), AllocError> {
    match kind {
        AbsKind::Unset => text.push_str("unset"),
        AbsKind::Num(range) => add_range(text, range),
        AbsKind::Ptr(region, offsets) => add_pointer(text, region, offsets),
        AbsKind::Map(index) => write!(text, "map {index}"),
    }
}

/// Adds a line with what is known of each register that is set: `r1 front+0, r3 0 to 31`.
fn add_registers(text: &mut String, state: &State) -> Result<(), AllocError> {
    let mut before = "";
    for number in 0..REGISTERS as u8 {
        let Some(register) = Register::new(number) else {
            continue;
        };
        let kind = state.kind(register);
        if kind == AbsKind::Unset {
            continue;
        }
        write!(text, "{before}{register} ")?;
        add_kind(text, kind)?;
        before = ", ";
    }
    text.push_str("\n")
}

/// Adds a line for each loop that has its head at the slot: what is known of its counter, and its bound.
fn add_counters(
    text: &mut String,
    image: &Image,
    slot: u16,
    state: &State,
) -> Result<(), AllocError> {
    for declared in image.loops() {
        if declared.head != slot {
            continue;
        }
        let (register, bound) = (declared.register, declared.bound);
        write!(text, "the counter {register} is ")?;
        add_kind(text, state.kind(register))?;
        writeln!(text, ", its bound {bound}")?;
    }
    Ok(())
}

/// The one offset of a pointer, if it points into the stack, at one.
fn stack_offset(region: Region, offsets: Offsets) -> Option<i32> {
    let (low, high) = (offsets.low(), offsets.high());
    match region {
        Region::Stack => (low == high).then_some(low),
        Region::Front | Region::Tail => None,
    }
}

/// The offset in the stack to which a register points, if it is known.
fn pointed_offset(state: &State, base: Register) -> Option<i32> {
    match state.kind(base) {
        AbsKind::Ptr(region, offsets) => stack_offset(region, offsets),
        AbsKind::Unset | AbsKind::Num(_) | AbsKind::Map(_) => None,
    }
}

/// The byte of the stack at an offset, -512 to -1, counted from the lowest.
fn stack_byte(offset: i64) -> Option<usize> {
    let size = STACK_SIZE as i64;
    if offset < -size || offset >= 0 {
        return None;
    }
    Some((offset + size) as usize)
}

/// Adds the line of bytes of the stack, from `first` to before `end`, of which not all are set.
fn add_unset(text: &mut String, first: usize, end: usize) -> Result<(), AllocError> {
    let low = STACK_SIZE.saturating_sub(first);
    let high = (STACK_SIZE + 1).saturating_sub(end);
    if low == high {
        writeln!(text, "stack-{low} not set")
    } else {
        writeln!(text, "stack-{low}..-{high} not all set")
    }
}

/// Adds the line of a word of the stack, with the numbers that it may be.
fn add_word(text: &mut String, state: &State, word: usize) -> Result<(), AllocError> {
    let low = STACK_SIZE.saturating_sub(word.saturating_mul(WORD_BYTES));
    let high = low.saturating_sub(WORD_BYTES - 1);
    write!(text, "stack-{low}..-{high} ")?;
    add_range(text, state.word(word))?;
    text.push_str("\n")
}

/// Adds a line for each word of the stack from which a load reads bytes, from that byte on. The line has the numbers
/// that the word may be, or which of its bytes are read and not all set.
fn add_read_words(
    text: &mut String,
    state: &State,
    first: usize,
    bytes: usize,
) -> Result<(), AllocError> {
    let end = first.saturating_add(bytes).min(STACK_SIZE);
    for word in first / WORD_BYTES..end.div_ceil(WORD_BYTES) {
        let start = word.saturating_mul(WORD_BYTES);
        let read = start.max(first);
        let read_end = start.saturating_add(WORD_BYTES).min(end);
        if state.are_set(read, read_end) {
            add_word(text, state, word)?;
        } else {
            add_unset(text, read, read_end)?;
        }
    }
    Ok(())
}

/// The same for the instruction at a slot, if it is a load of the stack in a program of version 2.
fn add_read_stack(
    text: &mut String,
    image: &Image,
    slot: u16,
    state: &State,
) -> Result<(), AllocError> {
    let Some(Insn::Load { size, place, .. }) = image.insn(slot) else {
        return Ok(());
    };
    if image.version() != Version::Two {
        return Ok(());
    }
    let Some(pointed) = pointed_offset(state, place.base) else {
        return Ok(());
    };
    match stack_byte(i64::from(pointed) + i64::from(place.offset)) {
        Some(first) => add_read_words(text, state, first, size.bytes()),
        None => Ok(()),
    }
}

/// `why FILE [--maps LIST]`.
///
/// # Errors
///
/// An error if memory is refused.
pub fn why_command<'a>(alloc: Global) -> Result<Command<'a>, AllocError>
    ensures shape { IfOk result (λ c. app_of c ≡ why_app) }
    ensures local { IfOk result (λ c. (fields_of c).has_globals ≡ false) }
{
    let about = "Prints what verify prints of a BPF image, and explains why it is refused";
    verifying_command(alloc, "why", about)
}

/// What is said of bytes that are no image: when such a fault comes, and what to do.
fn reason_of_fault(alloc: Global, fault: ImageFault) -> Result<String, AllocError> {
    let mut reason = String::new(alloc);
    let advice = fault.advice();
    writeln!(reason, "{advice}")?;
    if let ImageFault::Insn { fault, .. } = fault {
        let title = Topic::Insn(fault).title(alloc)?;
        let advice = fault.advice();
        writeln!(reason, "{title}")?;
        writeln!(reason, "{advice}")?;
    }
    Ok(reason)
}

/// Whether a refusal is for what values may do wrong, so that what was known at its slot is printed.
fn is_of_values(code: Refusal) -> bool {
    match code {
        Refusal::LoopEntry
        | Refusal::Unset
        | Refusal::KindMismatch
        | Refusal::OutOfRegion
        | Refusal::UnsetStack
        | Refusal::HeaderWrite
        | Refusal::PointerRange
        | Refusal::MapKey
        | Refusal::MapKind => true,
        Refusal::Target
        | Refusal::BackJump
        | Refusal::LoopShape
        | Refusal::FrameWrite
        | Refusal::Helper
        | Refusal::FallOff
        | Refusal::Budget
        | Refusal::Unsupported
        | Refusal::Memory => false,
    }
}

/// Adds what was known at the slot at which a program is refused for its values.
fn add_known(
    reason: &mut String,
    image: &Image,
    refused: Refused,
    known: &State,
) -> Result<(), AllocError> {
    if !is_of_values(refused.code) {
        return Ok(());
    }
    add_registers(reason, known)?;
    if refused.code == Refusal::LoopEntry {
        return add_counters(reason, image, refused.slot, known);
    }
    add_read_stack(reason, image, refused.slot, known)
}

/// What is said of a program that is refused: what was known at the slot, and then when such a refusal comes and what to
/// do.
fn reason_of_refusal(
    alloc: Global,
    image: &Image,
    refused: Refused,
    known: &State,
) -> Result<String, AllocError> {
    let mut reason = String::new(alloc);
    add_known(&mut reason, image, refused, known)?;
    let advice = refused.code.advice();
    writeln!(reason, "{advice}")?;
    Ok(reason)
}

/// The reason that was made, or none if memory was refused to it.
fn reason_or_none(alloc: Global, reason: Result<String, AllocError>) -> String {
    match reason {
        Ok(reason) => reason,
        Err(_) => String::new(alloc),
    }
}

/// Prints the instruction at a slot: `slot S: INSN`.
fn print_insn<W: Write>(out: &mut W, image: &Image, slot: u16) -> io::Result<()>
    ensures { OnOk result
        (Prints W.contents out.old out.new (insn_line slot (insn_at image.now slot))) }
{
    match image.insn(slot) {
        Some(insn) => writeln!(out, "slot {slot}: {insn}"),
        None => Ok(()),
    }
}

/// Prints the weight and the budget of a program: `weight W budget B`.
fn print_weight<W: Write>(out: &mut W, image: &Image) -> io::Result<()>
    ensures { OnOk result (Prints W.contents out.old out.new (weight_line image.now)) }
{
    let weight = image.weight();
    let budget = image.budget();
    writeln!(out, "weight {weight} budget {budget}")
}

/// Prints what a program is refused for: the instruction at the slot, or its weight and budget; nothing if memory was
/// refused.
fn print_cause<W: Write>(out: &mut W, image: &Image, refused: Refused) -> io::Result<()>
    ensures { OnOk result (Prints W.contents out.old out.new (cause_line image.now refused)) }
{
    match refused.code {
        Refusal::Budget => print_weight(out, image),
        Refusal::Memory => Ok(()),
        Refusal::Target
        | Refusal::BackJump
        | Refusal::LoopShape
        | Refusal::LoopEntry
        | Refusal::Unset
        | Refusal::KindMismatch
        | Refusal::OutOfRegion
        | Refusal::UnsetStack
        | Refusal::HeaderWrite
        | Refusal::FrameWrite
        | Refusal::PointerRange
        | Refusal::MapKey
        | Refusal::Helper
        | Refusal::FallOff
        | Refusal::Unsupported
        | Refusal::MapKind => print_insn(out, image, refused.slot),
    }
}

/// Prints a refusal, what the program is refused for, and the reason.
fn print_refusal<W: Write>(
    out: &mut W,
    image: &Image,
    refused: Refused,
    reason: &str,
) -> io::Result<()>
    ensures { OnOk result
        (PrintsRefusal image.now refused (W.contents out.old) (W.contents out.new)) }
{
    let fault = Fault::Refused(refused);
    writeln!(out, "{fault}")?;
    print_cause(out, image, refused)?;
    print_indented(out, reason)?;
    Ok(())
}

/// The line of the maps that a program needs, or none if memory was refused to it.
fn maps_or_none(alloc: Global, image: &Image) -> String
    ensures { IsMapsLine [] image.now (string_bytes result) }
{
    match needed_line(alloc, "", image) {
        Ok(line) => line,
        Err(_) => String::new(alloc),
    }
}

/// Verifies an image, and prints its weight and its budget if it may judge, else the refusal and the reason. Then it
/// prints the maps that its program needs.
fn explain_program<W: Write>(
    alloc: Global,
    image: &Image,
    sizes: &MapSizes,
    out: &mut W,
) -> io::Result<ExitStatus>
    ensures { IfOk result
        (ExplainsProgram image.now sizes.now (W.contents out.old) (W.contents out.new)) }
{
    let maps = maps_or_none(alloc, image);
    let mut known = State::entry();
    match checked(alloc, image, sizes, &mut known) {
        Ok(()) => {
            print_accepted(out, image.weight(), image.budget())?;
            print_text(out, maps.as_str())?;
            Ok(ExitStatus::Done)
        }
        Err(refused) => {
            let reason = reason_or_none(alloc, reason_of_refusal(alloc, image, refused, &known));
            print_refusal(out, image, refused, reason.as_str())?;
            print_text(out, maps.as_str())?;
            Ok(ExitStatus::Failed)
        }
    }
}

/// Prints the fault of bytes that are no image, and the reason, and then what they are.
fn explain_fault<W: Write>(
    alloc: Global,
    bytes: &[u8],
    fault: ImageFault,
    out: &mut W,
) -> io::Result<()>
    requires { FailsReading fault (image_reading bytes.now) }
    ensures { OnOk result (PrintsNoImage bytes.now (W.contents out.old) (W.contents out.new)) }
{
    let form = form_line(alloc, bytes);
    let reason = reason_or_none(alloc, reason_of_fault(alloc, fault));
    let fault = Fault::BadImage(fault);
    writeln!(out, "{fault}")?;
    print_indented(out, reason.as_str())?;
    print_text(out, form)?;
    Ok(())
}

/// Prints what there is to say of the bytes of a file.
fn explain_bytes<W: Write>(
    alloc: Global,
    bytes: &[u8],
    sizes: &MapSizes,
    out: &mut W,
) -> io::Result<ExitStatus>
    ensures { IfOk result
        (ExplainsBytes bytes.now sizes.now (W.contents out.old) (W.contents out.new)) }
{
    match Image::read(alloc, bytes) {
        Ok(image) => explain_program(alloc, &image, sizes, out),
        Err(fault) => {
            explain_fault(alloc, bytes, fault, out)?;
            Ok(ExitStatus::Failed)
        }
    }
}

/// Verifies the image of a file as the job `verify` does, and prints the same. After the line of a refusal or of an
/// image's fault it prints the instruction at the slot, and the reason. Last it prints what maps the program needs, or
/// what the file is if it is no image. The exit status is that of `verify`.
///
/// # Errors
///
/// `CannotRead` if the file cannot be read, or that the writer failed.
pub fn why_file<'a, F: Files, W: Write>(
    alloc: Global,
    args: &'a ImageArgs,
    files: &mut F,
    out: &mut W,
) -> Result<ExitStatus, JobStop<'a>>
    ensures done { IfOk result (ExplainsFile F.reads args.now files.old files.new
        (W.contents out.old) (W.contents out.new)) }
    ensures stops { IfErr result
        (StopsBy (IsFileUnread F.reads files.old (string_bytes args.now.image) files.new)) }
    ensures quiet { IfErr result (StopsBy (λ _. W.contents out.new ≡ W.contents out.old)) }
{
    let bytes = bytes_in(alloc, files, args.image.as_str())?;
    let status = explain_bytes(alloc, bytes.as_slice(), &args.sizes, out)?;
    Ok(status)
}
