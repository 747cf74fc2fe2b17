//! A slot during its visit.

ghost use Rattle.std.specs.Prelude.{◌≡◌, ◌≢◌, IfSome, IsSome, None, All, false, length, nat_lt, slice_index};
ghost use Rattle.bpf.specs.Program.{IsProgram};
ghost use Rattle.machine.specs.Helpers.{takes_kind};
ghost use Rattle.machine.specs.Sizes.{kind_of_map};
ghost use Rattle.machine.specs.Step.{insn_at};
ghost use Rattle.absdom_stack.specs.Spill.{spill_of};
ghost use Rattle.bver_form.specs.Form.{IsFormed};
ghost use Rattle.bver_form.specs.Jumps.{first_slot, is_loop_back, target};
ghost use Rattle.bver_pass.specs.Heads.{IsDeclared};
ghost use Rattle.bver_form.specs.Targets.{IsKept};
ghost use Rattle.bver_pass.specs.Visit.{VisitValue};
ghost use Rattle.bver_pass.specs.Written.{AreWrittenByLoops};

use crate::body::Body;
use crate::written::Written;
use absdom::Spill;
use bpf::{Image, MAX_LOOPS};
use bpf_insn::Insn;
use bver_form::{Refusal, Refused};
use machine::{Helper, MapKind, MapSizes};
use std::marker::Model;

/// A slot of a program that has its form, which is verified for a node with these maps. It has what each loop of the
/// program writes.
#[derive(Drop)]
pub struct Visit<'a> {
    image: &'a Image,
    maps: &'a MapSizes,
    written: &'a [Written; MAX_LOOPS],
    slot: u16,
}

impl<'a> Model for Visit<'a> {
    ghost use Rattle.bver_form.specs.Form.{IsFormed};
    ghost use Rattle.bver_pass.specs.Visit.{VisitValue};
    ghost use Rattle.bver_pass.specs.Written.{AreWrittenByLoops};

    ghost Value = { VisitValue };

    ghost view = { λ v. record { program = v.image.now; maps = v.maps.now; slot = v.slot } };

    ghost invariant = { λ v. IsFormed v.image.now × AreWrittenByLoops v.image.now v.written.now };
}

impl<'a> Visit<'a> {
    /// The visit of a slot.
    pub fn new(
        image: &'a Image,
        maps: &'a MapSizes,
        written: &'a [Written; MAX_LOOPS],
        slot: u16,
    ) -> Visit<'a>
        requires formed { IsFormed image.now }
        requires written { AreWrittenByLoops image.now written.now }
        ensures program { result.program ≡ image.now }
        ensures maps { result.maps ≡ maps.now }
        ensures slot { result.slot ≡ slot }
    {
        Visit {
            image,
            maps,
            written,
            slot,
        }
    }

    /// The slot.
    pub fn slot(&self) -> u16
        ensures slot { result ≡ self.now.slot }
        ensures formed { IsFormed self.now.program }
    {
        self.slot
    }

    /// Whether numbers on the stack keep their ranges, by the version of the program.
    pub fn spill(&self) -> Spill
        ensures { result ≡ spill_of self.now.program.version }
    {
        Spill::of_version(self.image.version())
    }

    /// The instruction that begins there, or `None` at a second slot.
    pub fn insn(&self) -> Option<Insn>
        ensures insn { result ≡ insn_at self.now.program self.now.slot }
        ensures program { IsProgram self.now.program }
        ensures formed { IsFormed self.now.program }
    {
        self.image.insn(self.slot)
    }

    /// The slot to which a jump leads by a distance in slots from the next one. It is `None` if no instruction begins
    /// there.
    pub fn landing(&self, distance: i32) -> Option<u16>
        ensures slot { result ≡ first_slot self.now.program (target self.now.slot distance) }
        ensures begins { IfSome result (λ landing. IsSome (insn_at self.now.program landing)) }
    {
        bver_form::landing(self.image, self.slot, distance)
    }

    /// How many maps there are.
    pub fn maps(&self) -> u8
        ensures { result ≡ length self.now.maps.cells }
    {
        self.maps.maps()
    }

    /// Whether the map exists and has all keys up to the last.
    pub fn has_keys(&self, map: u8, last: u64) -> bool
        ensures { result ≡ nat_lt last (slice_index self.now.maps.cells map) }
    {
        match self.maps.cells(map) {
            Some(cells) => last < u64::from(cells),
            None => false,
        }
    }

    /// Whether the helper may be asked of the map.
    pub fn takes(&self, map: u8, helper: Helper) -> bool
        ensures { result ≡ takes_kind helper (kind_of_map self.now.maps map) }
    {
        match self.maps.kind(map) {
            Some(kind) => kind.takes(helper),
            None => MapKind::Counter.takes(helper),
        }
    }

    /// The declared loop that has its head at the slot.
    pub fn head(&self) -> Option<Body<'a>>
        ensures some { IfSome result
            (λ b. (b.program ≡ self.now.program) × (b.declared.head ≡ self.now.slot)) }
        ensures declared { IfSome result (λ b. IsDeclared b.program b.declared b.place) }
        ensures none { result ≡ None → All (λ l. l.head ≢ self.now.slot) self.now.program.loops }
        ensures program { IsProgram self.now.program }
        ensures formed { IsFormed self.now.program }
    {
        for place in 0..self.image.loops().len() {
            let body = Body::new(self.image, self.written, place);
            if body.head() == self.slot {
                return Some(body);
            }
        }
        None
    }

    /// A law and no work: the program has its form, and a loop that has its head at the slot jumps back to it.
    pub fn stands_formed(&self)
        ensures formed { IsFormed self.now.program }
        ensures program { IsProgram self.now.program }
        ensures heads { (IsKept self.now.program self.now.slot → ⊥)
            → All (λ l. l.head ≢ self.now.slot) self.now.program.loops }
    {
        let _ = self.image.slots();
        let _ = self.slot();
    }

    /// The declared loop that has its back at the slot and this head.
    pub fn closed(&self, head: u16) -> Option<Body<'a>>
        ensures some { IfSome result
            (λ b. (b.program ≡ self.now.program) × (b.declared.head ≡ head)) }
        ensures back { IfSome result (λ b. b.declared.back ≡ self.now.slot) }
        ensures declared { IfSome result (λ b. IsDeclared b.program b.declared b.place) }
        ensures none { result ≡ None → is_loop_back self.now.program self.now.slot head ≡ false }
    {
        for place in 0..self.image.loops().len() {
            let body = Body::new(self.image, self.written, place);
            if body.back() == self.slot && body.head() == head {
                return Some(body);
            }
        }
        None
    }

    /// The refusal at the slot.
    pub fn refused(&self, code: Refusal) -> Refused
        ensures code { result.code ≡ code }
        ensures slot { result.slot ≡ self.now.slot }
    {
        Refused {
            code,
            slot: self.slot,
        }
    }
}
