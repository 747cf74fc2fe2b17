//! Lines in words: packet lines, and what `judge`, `serve` and `live` print beside them.

ghost use Rattle.std.specs.Prelude.{◌≡◌, ◌⊎◌, ◌∷◌, IfErr, IfOk, map, string_bytes};
ghost use Rattle.job_show.specs.ShownLines.{EndsLine, IsLineFault};
ghost use Rattle.spw.specs.Line.{HasFault, marker_word, words_of as words_in};
ghost use Rattle.spw.specs.declared.faults.LineFault.TheVariants.{Memory};

use crate::other_lines::{add_begin, add_count, add_other, decimal, is_time, reason_written};
use crate::paths::{add_path, path_in_front};
use bpf::ImageFault;
use hex::FromHex;
use initiator::{NoReply, PacketForm, Reply};
use job_parts::bad_lines::BadLine;
use node_parts::LoadRefusal;
use rmap::{
    BodyFault, CONTROL_SIZE, Command, ControlData, Discard, DiscardFault, HeaderFault, Instruction,
    Kind, LoadResult, MAX_DATA, PROTOCOL, Place, Status, VERIFY_BUFFER, Windows, header_check,
};
use spw::{End, LineFault, Packet, read_line, read_port, words_of};
use std::alloc::{AllocError, Global};

/// How many bytes follow the header of a control write: its data, and their CRC.
const CONTROL_BODY: usize = CONTROL_SIZE as usize + 1;

/// Adds what a control write asks for, by its data and their CRC.
fn add_control(text: &mut String, body: &[u8]) -> Result<(), AllocError> {
    if body.len() != CONTROL_BODY {
        return Ok(());
    }
    let control = ControlData::read(body);
    let (slot, zero, length) = (control.slot, control.zero, control.length);
    write!(text, " (a load of {length} bytes for slot {slot}")?;
    if zero != 0 {
        write!(text, ", with {zero:02X} for the zero byte")?;
    }
    text.push(')')
}

/// Adds why a load was refused, if that is its code, at this slot.
fn add_refusal(text: &mut String, code: u8, slot: u16) -> Result<(), AllocError> {
    let Some(refusal) = LoadRefusal::from_code(code) else {
        return Ok(());
    };
    write!(text, " (as a load result: load fault {code} slot {slot}: ")?;
    match refusal {
        LoadRefusal::Program(refused) => {
            let why = refused.code;
            write!(text, "{why})")
        }
        // The code does not say which fault of an instruction it is.
        LoadRefusal::Image(ImageFault::Insn { .. }) => text.push_str("no instruction)"),
        why => write!(text, "{why})"),
    }
}

/// The load result that the data of a read are, if they are one.
fn load_result_in(data: &[u8]) -> Option<LoadResult> {
    let (bytes, rest) = data.split_first_chunk::<8>()?;
    if rest.is_empty() {
        LoadResult::read(bytes)
    } else {
        None
    }
}

/// Adds what the data of a read say, if they are a load result: any memory may hold such bytes too.
fn add_load_result(text: &mut String, data: &[u8]) -> Result<(), AllocError> {
    let Some(result) = load_result_in(data) else {
        return Ok(());
    };
    let (code, place, generation) = (result.code, result.place, result.generation);
    if generation == 0 {
        return add_refusal(text, code, place);
    }
    if code != 0 || place != 0 {
        return Ok(());
    }
    write!(text, " (as a load result: generation {generation})")
}

/// The packet type of a command, in an instruction.
const COMMAND_TYPE: u8 = 0b0100_0000;

/// The word for a kind.
fn kind_word(kind: Kind) -> &'static str {
    match kind {
        Kind::Read => "read",
        Kind::Write => "write",
        Kind::Rmw => "rmw",
        Kind::Unused => "unused",
    }
}

/// The word for an end marker.
fn marker_word(end: End) -> &'static str {
    match end {
        End::Eop => "EOP",
        End::Eep => "EEP",
    }
}

/// Adds a word, and bytes in hexadecimal digits after it, if there are some.
fn add_bytes(text: &mut String, alloc: Global, word: &str, bytes: &[u8]) -> Result<(), AllocError> {
    if bytes.is_empty() {
        return Ok(());
    }
    let digits = hex::encode_upper(alloc, bytes)?;
    write!(text, " {word} {digits}")
}

/// Adds what a command asks for: its kind, the bits that are set, and the reply address.
fn add_kind(text: &mut String, alloc: Global, command: &Command) -> Result<(), AllocError> {
    let kind = command.kind();
    let word = kind_word(kind);
    write!(text, "command {word}")?;
    if command.verifies() {
        text.push_str(" verify")?;
    }
    if command.wants_reply() {
        text.push_str(" reply")?;
    }
    if command.increments() {
        text.push_str(" increment")?;
    }
    add_bytes(text, alloc, "reply-address", command.reply_path())
}

/// Adds the fields of a command.
fn add_fields(text: &mut String, command: &Command) -> Result<(), AllocError> {
    let key = command.key();
    let initiator = command.initiator();
    let target = command.target();
    let transaction = command.transaction();
    let extended = command.extended();
    let address = command.address();
    let length = command.length();
    write!(text, " key {key:02X} initiator {initiator:02X}")?;
    write!(text, " target {target:02X} transaction {transaction:04X}")?;
    write!(
        text,
        " extended {extended:02X} address {address:08X} length {length}"
    )
}

/// The data of a command, as many as are there: without what follows them.
fn data_of<'a>(command: &Command<'a>) -> &'a [u8] {
    let body = command.body();
    match command.kind() {
        Kind::Write | Kind::Rmw => {
            let count = body.len().min(command.length() as usize);
            body.split_at(count).0
        }
        Kind::Read | Kind::Unused => &[],
    }
}

/// Adds the data of a command, and of a read-modify-write its mask.
fn add_data(text: &mut String, alloc: Global, command: &Command) -> Result<(), AllocError> {
    let data = data_of(command);
    let is_whole = data.len() == command.length() as usize && data.len() % 2 == 0;
    if !matches!(command.kind(), Kind::Rmw) || !is_whole {
        return add_bytes(text, alloc, "data", data);
    }
    let (front, mask) = data.split_at(data.len() / 2);
    add_bytes(text, alloc, "data", front)?;
    add_bytes(text, alloc, "mask", mask)
}

/// Adds why a command is of no kind.
fn add_unused(text: &mut String, instruction: Instruction) -> Result<(), AllocError> {
    if !instruction.is_command() {
        return text.push_str(" the packet type is reserved");
    }
    let code = instruction.0 >> 2 & 0b1111;
    write!(text, " the command code {code:04b} is unused")
}

/// Adds what a check of the body of a command finds, if one holds.
fn add_body_fault(text: &mut String, fault: Option<BodyFault>) -> Result<(), AllocError> {
    match fault {
        Some(BodyFault::TooFewBytes { .. }) => text.push_str(" too few bytes"),
        Some(BodyFault::TooManyBytes { .. }) => text.push_str(" too many bytes"),
        Some(BodyFault::WrongDataCrc { found, right }) => {
            write!(text, " data CRC is {found:02X} and should be {right:02X}")
        }
        // The marker of the packet says how it ended.
        Some(BodyFault::ErrorEnd) | None => Ok(()),
    }
}

/// Adds what the first check of a command finds, of those that are the same at each node. For a control write that is
/// right it adds what the write asks for.
fn add_checked(
    text: &mut String,
    command: &Command,
    fault: Option<BodyFault>,
) -> Result<(), AllocError> {
    let windows = Windows::new(command.target(), &[]);
    match header_check(command, &windows) {
        Err(HeaderFault::UnusedCode { instruction }) => add_unused(text, instruction),
        Err(HeaderFault::WrongRmwLength { .. }) => {
            text.push_str(" the length of an rmw is 0, 2, 4, 6 or 8")
        }
        Err(HeaderFault::TooManyToVerify { .. }) => {
            write!(text, " at most {VERIFY_BUFFER} bytes are verified")
        }
        Err(HeaderFault::TooManyBytes { .. }) => {
            write!(text, " a command has at most {MAX_DATA} bytes")
        }
        Ok(Place::Control) if fault.is_none() => add_control(text, command.body()),
        // What is at an address of a bank is each node's own.
        Err(HeaderFault::OtherNode { .. } | HeaderFault::NoPlace(_)) | Ok(_) => {
            add_body_fault(text, fault)
        }
    }
}

/// Adds a command.
fn add_command(
    text: &mut String,
    alloc: Global,
    command: &Command,
    fault: Option<BodyFault>,
) -> Result<(), AllocError> {
    add_kind(text, alloc, command)?;
    add_fields(text, command)?;
    add_data(text, alloc, command)?;
    add_checked(text, command, fault)?;
    let marker = marker_word(command.end());
    write!(text, " {marker}")
}

/// The kind of the command that a reply answers.
fn kind_answered(instruction: Instruction) -> Kind {
    Instruction(instruction.0 | COMMAND_TYPE).kind()
}

/// Adds the status of a reply, with its name if it has one.
fn add_status(text: &mut String, status: u8) -> Result<(), AllocError> {
    write!(text, " status {status}")?;
    match Status::from_code(status) {
        Some(named) => write!(text, " {named}"),
        None => Ok(()),
    }
}

/// Adds a reply, with its path.
fn add_reply(
    text: &mut String,
    alloc: Global,
    reply: &Reply,
    path: &[u8],
    end: End,
) -> Result<(), AllocError> {
    let kind = kind_word(kind_answered(reply.instruction()));
    let initiator = reply.initiator();
    let target = reply.target();
    let transaction = reply.transaction();
    write!(text, "reply {kind}")?;
    add_status(text, reply.status())?;
    add_bytes(text, alloc, "path", path)?;
    write!(text, " initiator {initiator:02X}")?;
    write!(text, " target {target:02X} transaction {transaction:04X}")?;
    if !reply.writes() {
        let length = reply.data().len();
        write!(text, " length {length}")?;
    }
    add_bytes(text, alloc, "data", reply.data())?;
    if !reply.writes() {
        add_load_result(text, reply.data())?;
    }
    let marker = marker_word(end);
    write!(text, " {marker}")
}

/// Adds that a CRC is wrong.
fn add_wrong_crc(text: &mut String, what: &str, found: u8, right: u8) -> Result<(), AllocError> {
    write!(
        text,
        " with a wrong {what} CRC: it is {found:02X} and should be {right:02X}"
    )
}

/// Adds why what has the packet type of a reply is none.
fn add_no_reply(
    text: &mut String,
    instruction: Instruction,
    why: NoReply,
) -> Result<(), AllocError> {
    let kind = kind_word(kind_answered(instruction));
    write!(text, "reply {kind}")?;
    match why {
        NoReply::HeaderCrc { found, right } => add_wrong_crc(text, "header", found, right),
        NoReply::DataCrc { found, right } => add_wrong_crc(text, "data", found, right),
        NoReply::Length { found, wanted } if found > wanted => {
            text.push_str(" with too many bytes")
        }
        NoReply::Short
        | NoReply::Protocol { .. }
        | NoReply::Command { .. }
        | NoReply::Length { .. } => text.push_str(" with too few bytes"),
    }
}

/// Adds that a packet has another protocol, and the path that comes before it, if one does.
fn add_protocol(text: &mut String, found: u8, bytes: &[u8]) -> Result<(), AllocError> {
    write!(
        text,
        " the protocol is {found:02X} and should be {PROTOCOL:02X}"
    )?;
    let path = path_in_front(bytes);
    if path.is_empty() {
        return Ok(());
    }
    text.push_str(": ")?;
    add_path(text, path)
}

/// Adds that a packet of these bytes is no command, and why.
fn add_discard(
    text: &mut String,
    reason: Discard,
    discard_fault: DiscardFault,
    bytes: &[u8],
) -> Result<(), AllocError> {
    let code = reason.code();
    write!(text, "discard {code}")?;
    match discard_fault {
        DiscardFault::TooShort => text.push_str(" too few bytes"),
        DiscardFault::OtherProtocol { found } => add_protocol(text, found, bytes),
        DiscardFault::IsReply => text.push_str(" a reply"),
        DiscardFault::WrongHeaderCrc { found, right } => write!(
            text,
            " the header CRC is {found:02X} and should be {right:02X}"
        ),
    }
}

/// Adds a packet.
fn add_packet(text: &mut String, alloc: Global, packet: &Packet) -> Result<(), AllocError> {
    match PacketForm::of(packet) {
        PacketForm::Command { command, fault } => add_command(text, alloc, &command, fault),
        PacketForm::Reply { path, reply } => add_reply(text, alloc, &reply, path, packet.end()),
        PacketForm::NoReply { instruction, why } => add_no_reply(text, instruction, why),
        PacketForm::Discarded {
            reason,
            discard_fault,
        } => add_discard(text, reason, discard_fault, packet.bytes()),
    }
}

/// Adds what `judge` prints of a packet without a reply: none was asked for, or the packet is discarded. Reports
/// whether the words are such.
fn add_answer(text: &mut String, port: &str, words: &[&str]) -> Result<bool, AllocError> {
    let Ok(port) = read_port(port) else {
        return Ok(false);
    };
    match words {
        ["-"] => write!(text, "{port} - (no reply was asked for)")?,
        ["discard", code] => {
            let Some(why) = reason_written(code) else {
                return Ok(false);
            };
            write!(text, "{port} discard {code} {why}")?;
        }
        _ => return Ok(false),
    }
    Ok(true)
}

/// Adds that a line was bad: its number, and what its fault is. Reports whether the words are such.
fn add_bad_line(text: &mut String, number: &str, code: &str) -> Result<bool, AllocError> {
    let (Some(number), Some(code)) = (decimal(number), decimal(code)) else {
        return Ok(false);
    };
    let Ok(code) = u8::try_from(code) else {
        return Ok(false);
    };
    let Some(why) = BadLine::from_number(code) else {
        return Ok(false);
    };
    write!(text, "line {number} fault {code} {why}")?;
    Ok(true)
}

/// Adds how many packets `serve` discarded, and how many replies it lost. Reports whether the words are numbers.
fn add_report(text: &mut String, discarded: &str, lost: &str) -> Result<bool, AllocError> {
    let (Some(discarded), Some(lost)) = (decimal(discarded), decimal(lost)) else {
        return Ok(false);
    };
    write!(text, "packets discarded: {discarded}, replies lost: {lost}")?;
    Ok(true)
}

/// Whether all of some words are numbers, and there is one.
fn are_numbers(words: &[&str]) -> bool {
    for word in words {
        if decimal(word).is_none() {
            return false;
        }
    }
    !words.is_empty()
}

/// Adds the words of the cells of a map. Reports whether all are numbers, and there is one.
fn add_cells(text: &mut String, map: &str, words: &[&str]) -> Result<bool, AllocError> {
    let Some(map) = decimal(map) else {
        return Ok(false);
    };
    if !are_numbers(words) {
        return Ok(false);
    }
    write!(text, "cells of map {map}:")?;
    for word in words {
        write!(text, " {word}")?;
    }
    Ok(true)
}

/// The extended address of a bank that two hexadecimal digits write, if they do.
fn bank_written(word: &str) -> Option<u8> {
    match <[u8; 1] as FromHex>::from_hex(word) {
        Ok(bytes) => Some(bytes[0]),
        Err(_) => None,
    }
}

/// Adds that an entry of a bank is not as it was made. Reports whether the word is that of a bank.
fn add_damaged(text: &mut String, bank: &str) -> Result<bool, AllocError> {
    let Some(bank) = bank_written(bank) else {
        return Ok(false);
    };
    write!(text, "bank {bank:02X}: entry that is damaged in memory")?;
    Ok(true)
}

/// Adds in words what a line of these words is, except its packet, if the line is not only a packet. It is what `judge`
/// prints of a packet without a reply, what `live` prints, or the last line of `serve`. Reports whether it is.
fn add_reported(text: &mut String, words: &[&str]) -> Result<bool, AllocError> {
    match words {
        ["journal", count, "entries"] => add_count(text, count, "entries of the journal:"),
        ["entry", bank, "damaged"] => add_damaged(text, bank),
        ["cells", count, "maps"] => add_count(text, count, "maps of cells:"),
        ["cells", map, words @ ..] => add_cells(text, map, words),
        ["set", count] => add_count(text, count, "bytes set by the instrument:"),
        ["line", number, "fault", code] => add_bad_line(text, number, code),
        ["discarded", discarded, "lost", lost] => add_report(text, discarded, lost),
        [port, rest @ ..] => {
            if add_answer(text, port, rest)? {
                Ok(true)
            } else {
                add_other(text, words)
            }
        }
        [] => Ok(false),
    }
}

/// The numbers of an entry of a journal: of its port, its command, its program's generation, its verdict and its status.
fn entry_numbers(words: &[&str]) -> Option<[u64; 5]> {
    let [port, number, generation, verdict, status, ..] = words else {
        return None;
    };
    Some([
        decimal(port)?,
        decimal(number)?,
        decimal(generation)?,
        decimal(verdict)?,
        decimal(status)?,
    ])
}

/// Adds the numbers of an entry of a journal.
fn add_numbers(text: &mut String, numbers: [u64; 5]) -> Result<(), AllocError> {
    let [_port, number, generation, verdict, status] = numbers;
    write!(
        text,
        "entry {number} generation {generation} verdict {verdict}"
    )?;
    write!(text, " status {status}")?;
    let named = match u8::try_from(status) {
        Ok(code) => Status::from_code(code),
        Err(_) => None,
    };
    match named {
        Some(named) => write!(text, " {named}"),
        None => Ok(()),
    }
}

/// The packet line of an entry of a journal: its port, and the words after its numbers.
fn packet_line(alloc: Global, words: &[&str]) -> Result<String, AllocError> {
    let mut line = String::new(alloc);
    let [port, _, _, _, _, rest @ ..] = words else {
        return Ok(line);
    };
    line.push_str(port)?;
    for word in rest {
        line.push(' ')?;
        line.push_str(word)?;
    }
    Ok(line)
}

/// Adds an entry of a journal: its numbers, and its packet. These are the words after the first.
fn add_entry(text: &mut String, alloc: Global, words: &[&str]) -> Result<(), LineFault> {
    let Some(numbers) = entry_numbers(words) else {
        return Err(LineFault::NoPort);
    };
    let line = packet_line(alloc, words)?;
    let (port, packet) = read_line(alloc, line.as_str())?;
    write!(text, "{port} ")?;
    add_numbers(text, numbers)?;
    text.push_str(": ")?;
    Ok(add_packet(text, alloc, &packet)?)
}

/// Adds an entry that is handed out at once: its bank, its numbers, and its packet. These are the words after the
/// first.
fn add_left(text: &mut String, alloc: Global, words: &[&str]) -> Result<(), LineFault> {
    let [bank, entry @ ..] = words else {
        return Err(LineFault::NoPort);
    };
    let Some(bank) = bank_written(bank) else {
        return Err(LineFault::NoPort);
    };
    write!(text, "bank {bank:02X}: ")?;
    add_entry(text, alloc, entry)
}

/// Adds how an event of `sim` ended: its status, and its reply, of which these are the digits, or `-`. Reports whether
/// the words are such.
fn add_ended(text: &mut String, alloc: Global, status: &str, reply: &str) -> Result<bool, LineFault>
    ensures { IfErr result (λ fault. fault ≡ Memory) }
{
    let Some(status) = decimal(status) else {
        return Ok(false);
    };
    let Ok(code) = u8::try_from(status) else {
        return Ok(false);
    };
    add_status(text, code)?;
    if reply == "-" {
        text.push_str(" (no reply was asked for)")?;
        return Ok(true);
    }
    let line = format!(in alloc; "0 {reply} EOP")?;
    match read_line(alloc, line.as_str()) {
        Ok((_, packet)) => {
            text.push_str(": ")?;
            add_packet(text, alloc, &packet)?;
            Ok(true)
        }
        Err(LineFault::Memory) => Err(LineFault::Memory),
        Err(_) => Ok(false),
    }
}

/// Adds how an event of `sim` ended that has a reply. Reports whether the words are such.
fn add_end(text: &mut String, alloc: Global, words: &[&str]) -> Result<bool, LineFault>
    ensures { IfErr result (λ fault. fault ≡ Memory) }
{
    let [first, status, reply] = words else {
        return Ok(false);
    };
    let first = match *first {
        "done" => "done",
        "answered" => "answered",
        _ => return Ok(false),
    };
    let mut ended = String::new(alloc);
    if !add_ended(&mut ended, alloc, status, reply)? {
        return Ok(false);
    }
    let ended = ended.as_str();
    write!(text, "{first}{ended}")?;
    Ok(true)
}

/// Adds an entry of a journal, or one that was handed out at once. These are its words.
fn add_any_entry(text: &mut String, alloc: Global, words: &[&str]) -> Result<(), LineFault> {
    match words {
        ["journal", rest @ ..] => add_entry(text, alloc, rest),
        ["entry", rest @ ..] => add_left(text, alloc, rest),
        _ => Err(LineFault::NoPort),
    }
}

/// Adds an entry, if the words are those of one. Reports whether they are.
fn add_whole_entry(text: &mut String, alloc: Global, words: &[&str]) -> Result<bool, LineFault>
    ensures { IfErr result (λ fault. fault ≡ Memory) }
{
    match add_any_entry(text, alloc, words) {
        Ok(()) => Ok(true),
        Err(LineFault::Memory) => Err(LineFault::Memory),
        Err(_) => Ok(false),
    }
}

/// Adds a line of a journal's file: a time, and then what `live` printed, or that a node began. Reports whether the
/// words are such.
fn add_filed(text: &mut String, alloc: Global, words: &[&str]) -> Result<bool, LineFault>
    ensures { IfErr result (λ fault. fault ≡ Memory) }
{
    let [time, rest @ ..] = words else {
        return Ok(false);
    };
    if !is_time(time) {
        return Ok(false);
    }
    let mut shown = String::new(alloc);
    if !add_reported(&mut shown, rest)? && !add_begin(&mut shown, rest)? {
        if !add_whole_entry(&mut shown, alloc, rest)? {
            return Ok(false);
        }
    }
    let shown = shown.as_str();
    write!(text, "{time} {shown}")?;
    Ok(true)
}

/// Adds a packet line.
fn add_line(text: &mut String, alloc: Global, line: &str) -> Result<(), LineFault>
    ensures { IfErr result (λ fault. (fault ≡ Memory) ⊎ HasFault marker_word line.now fault) }
{
    let (port, packet) = read_line(alloc, line)?;
    write!(text, "{port} ")?;
    Ok(add_packet(text, alloc, &packet)?)
}

/// Adds an entry of a journal, or a packet line, by the words of the line. This is the first of them.
fn add_by_first(
    text: &mut String,
    alloc: Global,
    line: &str,
    first: &str,
    rest: &[&str],
) -> Result<(), LineFault>
    ensures { IfErr result
        (IsLineFault line.now (first.now ∷ map (λ word. word.now) rest.now)) }
{
    match first {
        "journal" if rest.len() > 5 => add_entry(text, alloc, rest),
        "entry" if rest.len() > 6 => add_left(text, alloc, rest),
        _ => add_line(text, alloc, line),
    }
}

/// Adds an entry of a journal, or a packet line, which has these words.
fn add_packet_line(
    text: &mut String,
    alloc: Global,
    line: &str,
    words: &[&str],
) -> Result<(), LineFault>
    ensures { IfErr result (IsLineFault line.now (map (λ word. word.now) words.now)) }
{
    let [first, rest @ ..] = words else {
        return add_line(text, alloc, line);
    };
    add_by_first(text, alloc, line, first, rest)
}

/// Adds a line that has a packet, and is no packet line and no entry: of a journal's file, or of an event. Reports
/// whether the words are such.
fn add_beside(text: &mut String, alloc: Global, words: &[&str]) -> Result<bool, LineFault>
    ensures { IfErr result (λ fault. fault ≡ Memory) }
{
    if add_filed(text, alloc, words)? {
        return Ok(true);
    }
    add_end(text, alloc, words)
}

/// A line in words, with its line feed.
///
/// It is a packet line, what `judge` prints of a packet without a reply, the last line of `serve`, or what an event of
/// `sim` came to. Or it is what `live` prints: an entry of the journal, how many there are, the words of a map's cells,
/// how many bytes were set, or that a line was bad. Or it is a line of a journal's file, with its time.
///
/// # Errors
///
/// A line that is none of these has the fault of a packet line, and an entry that of its packet. `Memory` if memory was
/// refused. A packet line has no other error.
pub fn shown_line(alloc: Global, line: &str) -> Result<String, LineFault>
    ensures reported { IfOk result (λ text. EndsLine (string_bytes text)) }
    ensures fault { IfErr result (IsLineFault line.now (words_in line.now)) }
{
    let words = words_of(alloc, line)?;
    let mut text = String::new(alloc);
    if !add_reported(&mut text, words.as_slice())?
        && !add_beside(&mut text, alloc, words.as_slice())?
    {
        add_packet_line(&mut text, alloc, line, words.as_slice())?;
    }
    text.push_str("\n")?;
    Ok(text)
}
