//! Laws of the spelling of images.

ghost use Rattle.bpf.specs.Laws.{BytesSpellOneProgram, ImagesAreApart, ImagesAreRead, SlotFaultsStand};

use bpf_insn::spelling_laws;

/// What holds of all images. The function does nothing: its contract is the laws.
pub fn image_laws()
    ensures read { ImagesAreRead }
    ensures one_meaning { BytesSpellOneProgram }
    ensures apart { ImagesAreApart }
    ensures fault { SlotFaultsStand }
{
    spelling_laws();
}
