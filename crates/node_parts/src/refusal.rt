//! Why a load is refused.

ghost use Rattle.std.specs.Prelude.{◌≡◌, IfSome, Some};
ghost use Rattle.node_parts.specs.Loads.{load_refusal_code, load_refusal_of_code, load_refusal_slot, named_refusal, program_refusal_of_code, refused_load, refusal_of_publishing, wants_memory};
ghost use Rattle.node_parts.specs.declared.refusal.LoadRefusal.TheVariants.{Image, Program};

use bpf::ImageFault;
use bver::{Refusal, Refused};
use node_programs::PublishFault;
use rmap::LoadResult;
use thiserror::Error;

const CONTROL: &str = "\
The four bytes of control data are the slot, a zero byte, and the length of the staged image, two bytes of at
most 16,384, the most significant first.
Write the zero byte, and the length of the image.";

const SLOT: &str = "\
There are the slots 0 to 3: of reads, writes and read-modify-writes of banks, and of commands to the boot window.
Name one of these in the first byte of the control data.";

const MEMORY: &str = "\
The target was refused memory while the program was published. What is published is as it was.
Load it again; the staged bytes are still there.";

const GENERATIONS_FULL: &str = "\
4,294,967,295 programs were published, and generations have no more numbers.
Start the node anew.";

/// What the code of a load adds to the number of the fault of a staged image.
const IMAGE_FAULTS: u8 = 32;

/// The refusal that has this code, of the fault of an image or of the verifier.
fn refusal_of_program(code: u8) -> Option<LoadRefusal>
    ensures value { result ≡ program_refusal_of_code code }
    ensures number { IfSome result (λ refusal. load_refusal_code refusal ≡ code) }
{
    if code < IMAGE_FAULTS {
        let code = Refusal::from_code(code)?;
        return Some(LoadRefusal::Program(Refused { code, slot: 0 }));
    }
    Some(LoadRefusal::Image(ImageFault::from_code(code - IMAGE_FAULTS)?))
}

/// Why a load is refused. It is tested in the order of the variants. The last two come in publishing, which takes
/// memory only while generations are not full.
#[derive(Clone, Copy, Debug, PartialEq, Eq, Error)]
pub enum LoadRefusal {
    /// The second byte of the control data is not zero, or the length is over 16,384.
    #[error("the control data is none of a load")]
    Control,
    /// The slot is over 3.
    #[error("no such slot")]
    Slot,
    /// The staged bytes spell no image, or memory was refused to the image.
    #[error("{0}")]
    Image(ImageFault),
    /// The verifier refuses the program, or memory was refused to the verifier.
    #[error("{0}")]
    Program(Refused),
    /// Memory was refused to publishing.
    #[error("no memory")]
    Memory,
    /// 4,294,967,295 programs were published.
    #[error("generations full")]
    GenerationsFull,
}

impl LoadRefusal {
    /// The number by which the load result names the refusal:
    ///
    /// - 71 for control data
    /// - 66 for a slot
    /// - 32 more than the number of an image's fault
    /// - the number of the verifier's refusal
    /// - in publishing 65 for memory, and 67 if generations are full
    #[tactic(auto, using(crate::proofs::Refusals::image_codes_few, crate::proofs::Codes::code_is_read))]
    pub fn code(self) -> u8
        ensures value { result ≡ load_refusal_code self }
        ensures back { load_refusal_of_code result ≡ Some (named_refusal self) }
    {
        match self {
            LoadRefusal::Control => 71,
            LoadRefusal::Slot => 66,
            LoadRefusal::Image(fault) => IMAGE_FAULTS + fault.code(),
            LoadRefusal::Program(refused) => refused.number(),
            LoadRefusal::Memory => 65,
            LoadRefusal::GenerationsFull => 67,
        }
    }

    /// The refusal of a code, as [`LoadRefusal::code`] gives it, or `None` if no refusal has it. A code does not give
    /// the slot, nor which fault of an instruction it is. So the verifier's refusals are at slot 0, and of the faults
    /// of instructions it is `Opcode` at slot 0.
    pub fn from_code(code: u8) -> Option<LoadRefusal>
        ensures value { result ≡ load_refusal_of_code code }
        ensures number { IfSome result (λ refusal. load_refusal_code refusal ≡ code) }
    {
        match code {
            65 => Some(LoadRefusal::Memory),
            66 => Some(LoadRefusal::Slot),
            67 => Some(LoadRefusal::GenerationsFull),
            71 => Some(LoadRefusal::Control),
            _ => refusal_of_program(code),
        }
    }

    /// What to say of the refusal beside its name: when it comes, and what to do, in lines of at most 114 columns.
    pub fn advice(self) -> &'static str {
        match self {
            LoadRefusal::Control => CONTROL,
            LoadRefusal::Slot => SLOT,
            LoadRefusal::Image(fault) => fault.advice(),
            LoadRefusal::Program(refused) => refused.code.advice(),
            LoadRefusal::Memory => MEMORY,
            LoadRefusal::GenerationsFull => GENERATIONS_FULL,
        }
    }

    /// The slot of the image at which it was refused, or 0 if there is none.
    pub fn slot(self) -> u16
        ensures { result ≡ load_refusal_slot self }
    {
        match self {
            LoadRefusal::Image(fault) => fault.slot(),
            LoadRefusal::Program(refused) => refused.slot,
            LoadRefusal::Control
            | LoadRefusal::Slot
            | LoadRefusal::Memory
            | LoadRefusal::GenerationsFull => 0,
        }
    }

    /// Whether memory was refused, to the image, to the verifier or to publishing: no fault of what was staged.
    pub fn wants_memory(self) -> bool
        ensures { result ≡ wants_memory self }
    {
        match self {
            LoadRefusal::Image(fault) => matches!(fault, ImageFault::Memory),
            LoadRefusal::Program(refused) => matches!(refused.code, Refusal::Memory),
            LoadRefusal::Memory => true,
            LoadRefusal::Control | LoadRefusal::Slot | LoadRefusal::GenerationsFull => false,
        }
    }

    /// The load result: the code, the slot of the image, and generation 0.
    pub fn load_result(self) -> LoadResult
        ensures { result ≡ refused_load self }
    {
        LoadResult {
            code: self.code(),
            place: self.slot(),
            generation: 0,
        }
    }
}

impl From<ImageFault> for LoadRefusal {
    ghost from_gives = { λ fault refusal. refusal ≡ Image fault };

    fn from(fault: ImageFault) -> LoadRefusal {
        LoadRefusal::Image(fault)
    }
}

impl From<Refused> for LoadRefusal {
    ghost from_gives = { λ refused refusal. refusal ≡ Program refused };

    fn from(refused: Refused) -> LoadRefusal {
        LoadRefusal::Program(refused)
    }
}

impl From<PublishFault> for LoadRefusal {
    ghost from_gives = { λ fault refusal. refusal ≡ refusal_of_publishing fault };

    fn from(fault: PublishFault) -> LoadRefusal {
        match fault {
            PublishFault::Memory => LoadRefusal::Memory,
            PublishFault::Slot => LoadRefusal::Slot,
            PublishFault::GenerationsFull => LoadRefusal::GenerationsFull,
        }
    }
}
