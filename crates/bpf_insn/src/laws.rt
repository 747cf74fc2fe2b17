//! Laws of the spelling of instructions.

ghost use Rattle.bpf_insn.specs.Laws.{BytesSpellOne, FaultsAreRead, FaultsStand, ReadingsAreSpelled, SpellingsAreApart, SpellingsAreRead};

/// What holds of all spellings. The function does nothing: its contract is the laws.
pub fn spelling_laws()
    ensures read { SpellingsAreRead }
    ensures one_meaning { BytesSpellOne }
    ensures apart { SpellingsAreApart }
    ensures fault { FaultsStand }
    ensures spelled { ReadingsAreSpelled }
    ensures named { FaultsAreRead }
{}
