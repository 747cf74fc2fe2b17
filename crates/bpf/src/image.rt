//! An image.

ghost use Rattle.std.specs.Prelude.{◌≡◌, ◌≤◌, length, IfErr, IfOk, Ok};
ghost use Rattle.bpf.specs.Parts.{parts_reading};
ghost use Rattle.bpf.specs.Program.{IsProgram, Program, image_bytes, insn_at, program};
ghost use Rattle.bpf.specs.Weight.{saturated_weight, weight_of};
ghost use Rattle.bpf.specs.Reading.{Gives, IsFaultAt, ReadsWhatSpells, image_reading};

use crate::fault::ImageFault;
use crate::header::{ImageHeader, header_bytes, read_header};
use crate::laws::image_laws;
use crate::loops::{Loop, read_loops, write_loops};
use crate::parts::{image_header_of, place_insns};
use crate::slots::{read_slots, write_slots};
use crate::version::Version;
use crate::weight::weight;
use bpf_insn::Insn;
use std::alloc::{AllocError, Global};
use std::marker::Model;

/// A program as it is loaded: its version of the format, its budget, its loops and its slots. All limits of the
/// format hold.
#[derive(Debug, Drop)]
pub struct Image {
    version: Version,
    budget: u32,
    loops: Vec<Loop>,
    slots: Vec<Option<Insn>>,
}

impl Model for Image {
    ghost use Rattle.bpf.specs.Program.{Program, IsProgram, program};

    ghost Value = { Program };

    ghost view = { λ i. program i.version i.budget i.loops.items i.slots.items };

    ghost invariant = { λ i. IsProgram (program i.version i.budget i.loops.items i.slots.items) };
}

impl Image {
    /// The image that the bytes spell.
    ///
    /// # Errors
    ///
    /// The first fault in the order of [`ImageFault`]. `Memory` if memory is refused.
    pub fn read(alloc: Global, bytes: &[u8]) -> Result<Image, ImageFault>
        // The bytes that were read are those that spell the image.
        ensures found { IfOk result (λ image. IsProgram image × (bytes.now ≡ image_bytes image)) }

        ensures only { ReadsWhatSpells bytes.now result }

        // The first fault, or the image, unless memory is refused.
        ensures exact { Gives (λ image. image) result (image_reading bytes.now) }

        // The fault of an instruction is in the bytes of its slot.
        ensures fault { IfErr result (IsFaultAt bytes.now) }
    {
        image_laws();
        Image::of_bytes(alloc, bytes)
    }

    /// The image that the bytes spell.
    fn of_bytes(alloc: Global, bytes: &[u8]) -> Result<Image, ImageFault>
        ensures found { IfOk result (λ image. IsProgram image × (bytes.now ≡ image_bytes image)) }
        ensures exact { Gives (λ image. image) result (image_reading bytes.now) }
    {
        let header = read_header(bytes)?;
        let code = 16 + 8 * usize::from(header.loops);
        if bytes.len() != code + 8 * usize::from(header.slots) {
            return Err(ImageFault::Length);
        }
        let (front, slot_bytes) = bytes.split_at(code);
        let (_, loop_bytes) = front.split_at(16);
        let loops = read_loops(alloc, loop_bytes, header.loops, header.slots)?;
        let slots = read_slots(alloc, slot_bytes, header.slots)?;
        Ok(Image::of_parts(header.version, header.budget, loops, slots))
    }

    /// The image of this version, these instructions and loops, and this budget. The instructions take 1 to 512
    /// slots. There are at most 8 loops, by rising head. The budget is 1 to 65,536.
    ///
    /// # Errors
    ///
    /// The first of `Count`, `Budget` and `Loop`. `Memory` if memory is refused.
    pub fn new(
        alloc: Global,
        version: Version,
        insns: &[Insn],
        loops: &[Loop],
        budget: u32,
    ) -> Result<Image, ImageFault>
        ensures program { IfOk result IsProgram }

        // The first fault, or the image, unless memory is refused.
        ensures exact { Gives (λ image. image) result
            (parts_reading version insns.now loops.now budget) }
    {
        let header = image_header_of(version, insns, loops, budget)?;
        let loops = Vec::from_slice(alloc, loops)?;
        let slots = place_insns(alloc, insns, header.slots)?;
        Ok(Image::of_parts(version, budget, loops, slots))
    }

    /// The image of these parts, which are in the limits of the format.
    fn of_parts(version: Version, budget: u32, loops: Vec<Loop>, slots: Vec<Option<Insn>>) -> Image
        requires { IsProgram (program version budget loops.items slots.items) }
        ensures { result ≡ program version budget loops.items slots.items }
    {
        Image {
            version,
            budget,
            loops,
            slots,
        }
    }

    /// An equal image.
    ///
    /// # Errors
    ///
    /// Memory is refused.
    pub fn copy(&self) -> Result<Image, AllocError>
        ensures { IfOk result (λ image. image ≡ self.now) }
    {
        let loops = self.loops.clone()?;
        let slots = self.slots.clone()?;
        Ok(Image::of_parts(self.version, self.budget, loops, slots))
    }

    /// The bytes that spell the image: `read` gives an equal image from them, and from no others. The call asks for
    /// memory once.
    ///
    /// # Errors
    ///
    /// Memory is refused.
    #[tactic(auto, unfolding(crate::specs::Program::image_bytes))]
    pub fn write(&self) -> Result<Vec<u8>, AllocError>
        ensures { IfOk result (λ bytes. bytes.items ≡ image_bytes self.now) }
    {
        let len = 16 + 8 * self.loops.len() + 8 * self.slots.len();
        let mut bytes = Vec::with_capacity(*self.slots.allocator(), len)?;
        let header = ImageHeader {
            version: self.version,
            loops: self.loops.len() as u8,
            slots: self.slots(),
            budget: self.budget(),
        };
        bytes.extend_from_slice(&header_bytes(&header))?;
        write_loops(&mut bytes, &self.loops)?;
        write_slots(&mut bytes, &self.slots)?;
        Ok(bytes)
    }

    /// The version of the format.
    pub fn version(&self) -> Version
        ensures value { result ≡ self.now.version }
        ensures program { IsProgram self.now }
    {
        self.version
    }

    /// How many slots the image has, 1 to 512.
    pub fn slots(&self) -> u16
        ensures value { result ≡ length self.now.slots }
        ensures program { IsProgram self.now }
    {
        self.slots.len() as u16
    }

    /// How many instructions a run may take, 1 to 65,536.
    pub fn budget(&self) -> u32
        ensures value { result ≡ self.now.budget }
        ensures program { IsProgram self.now }
    {
        self.budget
    }

    /// The loops, at most 8, by rising head.
    pub fn loops(&self) -> &[Loop]
        ensures value { result.now ≡ self.now.loops }
        ensures program { IsProgram self.now }
    {
        &self.loops
    }

    /// The instruction that begins at the slot. It is `None` at the second slot of an instruction, and past the end.
    pub fn insn(&self, slot: u16) -> Option<Insn>
        ensures value { result ≡ insn_at self.now slot }
        ensures program { IsProgram self.now }
    {
        match self.slots.get(usize::from(slot)) {
            Some(insn) => *insn,
            None => None,
        }
    }

    /// The weight: a sum over the instructions, one of two slots once. Each adds the product of the bounds of the
    /// loops that hold it. If the sum is above 2^64 - 1, the weight is that number. No run of an accepted image takes
    /// more instructions.
    pub fn weight(&self) -> u64
        ensures { result ≡ saturated_weight (weight_of self.now) }
    {
        weight(&self.loops, &self.slots)
    }
}
