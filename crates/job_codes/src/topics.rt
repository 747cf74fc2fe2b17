//! The codes that outputs have, and what is said of each.

ghost use Rattle.std.specs.Prelude.{◌≡◌, ◌↔◌, ◌<◌, ◌^◌, ◌++◌, ℕ, IfOk, IsTrue, MatchOption, Some, decimal, is_some};
ghost use Rattle.job_codes.specs.Topics.{HasNumber, HasByte, IsCode, IsCodeOf, IsDecimalCode, IsWritten, WritesCode, WritesByte, byte_text, code_text, has_topic_code, is_load_code, topic_kind_at, kind_letters, marked_byte_text};

use basm::AsmCode;
use bpf::ImageFault;
use bpf_insn::BadInsn;
use bver::Refusal;
use frames::FrameFault;
use job_parts::bad_lines::BadLine;
use job_parts::node_codes::NodeCode;
use node_parts::LoadRefusal;
use policy::PolicyFault;
use rmap::{Discard, Status};
use std::alloc::{AllocError, Global};

/// What the bytes of an image's slot are if they spell no instruction.
const NO_INSN: &str = "the bytes of a slot spell no instruction";

/// What a load result with the code 0 is.
const LOADED: &str = "the load was carried out";

/// When that comes, and what to do then.
const LOADED_ADVICE: &str = "\
The slot has the program of the staged image. The last four bytes of the load result are its generation, which
the journal has of each command that it judges. If all eight bytes are 0, nothing was loaded by this port.
Go on: the next command for the slot is judged by it.";

/// What has codes: the letters before the number.
#[derive(Clone, Copy, Debug, PartialEq, Eq)]
pub enum CodeKind {
    /// A refusal of the verifier: `V5`.
    Verifier,
    /// A fault of a program's text: `asm2`.
    Text,
    /// A fault of an image: `image7`.
    Image,
    /// Why a slot of an image spells no instruction: `insn3`.
    Insn,
    /// A fault of a packet line or an event line: `line3`.
    Line,
    /// A fault of a frame: `frame2`.
    Frame,
    /// Why a packet is discarded: `discard4`.
    Discard,
    /// A status of a reply: `status10`.
    Status,
    /// The code of a load result: `load40`, or `load0` of a load that was carried out.
    Load,
    /// A fault of a policy table: `policy1`.
    Policy,
    /// A fault of a node's file: `node5`.
    Node,
}

/// How many kinds there are.
pub const KINDS: u8 = 11;

/// What a code means.
#[derive(Clone, Copy, Debug)]
pub enum Topic {
    /// The verifier refuses a program.
    Refusal(Refusal),
    /// A text is no program.
    Text(AsmCode),
    /// Bytes are no image.
    Image(ImageFault),
    /// The bytes of a slot spell no instruction.
    Insn(BadInsn),
    /// A line of a job is bad.
    Line(BadLine),
    /// A frame is for a bridge, or is cut off.
    Frame(FrameFault),
    /// A packet is discarded.
    Discard(Discard),
    /// How a command ended.
    Status(Status),
    /// A load is refused for itself.
    Load(LoadRefusal),
    /// A load was carried out.
    Loaded,
    /// A policy table is none, or makes no program.
    Policy(PolicyFault),
    /// A node's file says no node.
    Node(NodeCode),
}

impl Topic {
    /// What it is, in a few words.
    ///
    /// # Errors
    ///
    /// An error if memory is refused.
    pub fn title(self, alloc: Global) -> Result<String, AllocError> {
        match self {
            Topic::Refusal(refusal) => format!(in alloc; "{refusal}"),
            Topic::Text(code) => format!(in alloc; "{code}"),
            Topic::Image(ImageFault::Insn { .. }) => String::from_str(alloc, NO_INSN),
            Topic::Image(fault) => format!(in alloc; "{fault}"),
            Topic::Insn(fault) => format!(in alloc; "{fault}"),
            Topic::Line(bad) => format!(in alloc; "{bad}"),
            Topic::Frame(fault) => format!(in alloc; "{fault}"),
            Topic::Discard(reason) => format!(in alloc; "{reason}"),
            Topic::Status(status) => format!(in alloc; "{status}"),
            Topic::Load(refusal) => format!(in alloc; "{refusal}"),
            Topic::Loaded => String::from_str(alloc, LOADED),
            Topic::Policy(fault) => format!(in alloc; "{fault}"),
            Topic::Node(fault) => format!(in alloc; "{fault}"),
        }
    }

    /// When it comes, and what to do, in lines of at most 114 columns.
    pub fn advice(self) -> &'static str {
        match self {
            Topic::Refusal(refusal) => refusal.advice(),
            Topic::Text(code) => code.advice(),
            Topic::Image(fault) => fault.advice(),
            Topic::Insn(fault) => fault.advice(),
            Topic::Line(bad) => bad.advice(),
            Topic::Frame(fault) => fault.advice(),
            Topic::Discard(reason) => reason.advice(),
            Topic::Status(status) => status.advice(),
            Topic::Load(refusal) => refusal.advice(),
            Topic::Loaded => LOADED_ADVICE,
            Topic::Policy(fault) => fault.advice(),
            Topic::Node(fault) => fault.advice(),
        }
    }
}

/// What the code of this number says of a load: that it was carried out, or why not: the verifier's refusal, the fault of the
/// image, or the load's own.
fn load_topic(number: u8) -> Option<Topic>
    ensures { is_some result ≡ is_load_code number }
{
    if number == 0 {
        return Some(Topic::Loaded);
    }
    match LoadRefusal::from_code(number)? {
        LoadRefusal::Program(refused) => Some(Topic::Refusal(refused.code)),
        LoadRefusal::Image(fault) => Some(Topic::Image(fault)),
        own => Some(Topic::Load(own)),
    }
}

/// The number that comes after this word in a text, in upper or lower case. A text that writes a number so gives that
/// number; another may give one too.
fn number_after(alloc: Global, word: &str, text: &str) -> Result<Option<u8>, AllocError>
    ensures { IfOk result (λ number. (n : ℕ) → n < 2 ^ 8
        → IsWritten (word.now ++ decimal n) text.now → number ≡ Some n) }
{
    let word = word.to_ascii_lowercase(alloc)?;
    let text = text.to_ascii_lowercase(alloc)?;
    match text.strip_prefix(word.as_str()) {
        Some(digits) => Ok(digits.parse().ok()),
        None => Ok(None),
    }
}

impl CodeKind {
    /// The kind at this place, from 0, of the order in which codes are listed; at every later place the last one.
    #[tactic(auto, unfolding(crate::specs::Topics::topic_kind_at))]
    pub fn at(place: u8) -> CodeKind
        ensures { result ≡ topic_kind_at place }
    {
        match place {
            0 => CodeKind::Verifier,
            1 => CodeKind::Text,
            2 => CodeKind::Image,
            3 => CodeKind::Insn,
            4 => CodeKind::Line,
            5 => CodeKind::Frame,
            6 => CodeKind::Discard,
            7 => CodeKind::Status,
            8 => CodeKind::Load,
            9 => CodeKind::Policy,
            _ => CodeKind::Node,
        }
    }

    /// The letters before the number.
    pub fn word(self) -> &'static str
        ensures { result.now ≡ kind_letters self }
    {
        match self {
            CodeKind::Verifier => "V",
            CodeKind::Text => "asm",
            CodeKind::Image => "image",
            CodeKind::Insn => "insn",
            CodeKind::Line => "line",
            CodeKind::Frame => "frame",
            CodeKind::Discard => "discard",
            CodeKind::Status => "status",
            CodeKind::Load => "load",
            CodeKind::Policy => "policy",
            CodeKind::Node => "node",
        }
    }

    /// What the code of this number means. `None` if the kind has no such code.
    pub fn topic(self, number: u8) -> Option<Topic>
        ensures { is_some result ≡ has_topic_code self number }
    {
        match self {
            CodeKind::Verifier => Some(Topic::Refusal(Refusal::from_code(number)?)),
            CodeKind::Text => Some(Topic::Text(AsmCode::from_code(number)?)),
            CodeKind::Image => Some(Topic::Image(ImageFault::from_code(number)?)),
            CodeKind::Insn => Some(Topic::Insn(BadInsn::from_code(number)?)),
            CodeKind::Line => Some(Topic::Line(BadLine::from_number(number)?)),
            CodeKind::Frame => Some(Topic::Frame(FrameFault::from_code(number)?)),
            CodeKind::Discard => Some(Topic::Discard(Discard::from_code(number)?)),
            CodeKind::Status => Some(Topic::Status(Status::from_code(number)?)),
            CodeKind::Load => load_topic(number),
            CodeKind::Policy => Some(Topic::Policy(PolicyFault::from_code(number)?)),
            CodeKind::Node => Some(Topic::Node(NodeCode::from_number(number)?)),
        }
    }

    /// Whether a text is the code of this number, in upper or lower case.
    fn is_written(self, alloc: Global, number: u8, text: &str) -> Result<bool, AllocError>
        ensures { IfOk result (λ is. IsTrue is ↔ IsWritten (code_text self number) text.now) }
    {
        let word = self.word();
        let code = format!(in alloc; "{word}{number}")?;
        Ok(code.as_str().eq_ignore_ascii_case(text))
    }

    /// The number of the code of this kind that a text writes.
    fn number_in(self, alloc: Global, text: &str) -> Result<Option<u8>, AllocError>
        ensures { IfOk result (λ number. MatchOption number
            (¬ HasNumber self text.now) (λ n. WritesCode self n text.now)) }
    {
        let Some(number) = number_after(alloc, self.word(), text)? else {
            return Ok(None);
        };
        if self.topic(number).is_some() && self.is_written(alloc, number, text)? {
            Ok(Some(number))
        } else {
            Ok(None)
        }
    }
}

/// A code: a kind and a number.
#[derive(Clone, Copy, Debug, PartialEq, Eq)]
pub struct TopicCode {
    pub kind: CodeKind,
    pub number: u8,
}

/// The code that a text writes in decimal, in upper or lower case. `None` if it is none.
fn decimal_code(alloc: Global, text: &str) -> Result<Option<TopicCode>, AllocError>
    ensures { IfOk result (λ code. MatchOption code
        (¬ IsDecimalCode text.now) (λ c. WritesCode c.kind c.number text.now)) }
{
    for place in 0..KINDS {
        let kind = CodeKind::at(place);
        if let Some(number) = kind.number_in(alloc, text)? {
            return Ok(Some(TopicCode { kind, number }));
        }
    }
    Ok(None)
}

/// Whether a text is the code of a load result with this first byte, in upper or lower case, with the byte in hexadecimal
/// digits.
fn is_byte_written(alloc: Global, byte: u8, text: &str) -> Result<bool, AllocError>
    ensures { IfOk result (λ is. IsTrue is ↔ IsWritten (byte_text byte) text.now) }
{
    let digits = hex::encode_upper(alloc, &[byte])?;
    let code = format!(in alloc; "load{digits}")?;
    Ok(code.as_str().eq_ignore_ascii_case(text))
}

/// The same of a text with `0x` before the digits.
fn is_marked_byte_written(alloc: Global, byte: u8, text: &str) -> Result<bool, AllocError>
    ensures { IfOk result (λ is. IsTrue is ↔ IsWritten (marked_byte_text byte) text.now) }
{
    let digits = hex::encode_upper(alloc, &[byte])?;
    let code = format!(in alloc; "load0x{digits}")?;
    Ok(code.as_str().eq_ignore_ascii_case(text))
}

/// Whether a text is the code of a load result with this first byte, and there is such a code.
fn is_load_byte(alloc: Global, byte: u8, text: &str) -> Result<bool, AllocError>
    ensures { IfOk result (λ is. IsTrue is ↔ WritesByte byte text.now) }
{
    if CodeKind::Load.topic(byte).is_none() {
        return Ok(false);
    }
    if is_byte_written(alloc, byte, text)? {
        return Ok(true);
    }
    is_marked_byte_written(alloc, byte, text)
}

/// The first byte of a load result that a text writes in hexadecimal digits, after `load`.
fn load_byte(alloc: Global, text: &str) -> Result<Option<u8>, AllocError>
    ensures { IfOk result (λ byte. MatchOption byte
        (¬ HasByte text.now) (λ n. WritesByte n text.now)) }
{
    for byte in 0..256u16 {
        if is_load_byte(alloc, byte as u8, text)? {
            return Ok(Some(byte as u8));
        }
    }
    Ok(None)
}

/// The code that a text writes, in upper or lower case. It is in decimal. If it is no decimal code, it may be that of a
/// load result in the hexadecimal digits in which replies have it. `None` if it is none.
///
/// # Errors
///
/// An error if memory is refused.
pub fn read_code(alloc: Global, text: &str) -> Result<Option<TopicCode>, AllocError>
    ensures { IfOk result (λ code. MatchOption code
        (¬ IsCode text.now) (λ c. IsCodeOf c.kind c.number text.now)) }
{
    if let Some(code) = decimal_code(alloc, text)? {
        return Ok(Some(code));
    }
    match load_byte(alloc, text)? {
        Some(number) => Ok(Some(TopicCode {
            kind: CodeKind::Load,
            number,
        })),
        None => Ok(None),
    }
}
