//! The words that begin an instruction.

ghost use Rattle.std.specs.Prelude.{◌≡◌, ◌≤◌, ◌++◌, suc, Some, IfSome, length, slice_range};
ghost use Rattle.std.specs.List.{find};
ghost use Rattle.std.specs.Str.{bytes_eq};
ghost use Rattle.basm_lex.specs.Names.{IsName};
ghost use Rattle.basm_lex.specs.Mnemonics.{group_at, group_of, mnemonic_slots, mnemonic_word, mnemonic_named, start_of};
ghost use Rattle.basm_lex.specs.declared.mnemonics.TheConstants.{MNEMONICS};

use bpf_insn::{AluOp, Callee, Condition, Extension, LoadSize, Size, Swap, SwapBits, Width};
use bpf_parts::words::{
    ADDRESS_LOAD, EXIT, GOTO, LOAD, LONG_GOTO, MAP_LOAD, NEGATION, REGISTER_STORE, STORE, WIDE_LOAD,
};

/// What the first word of an instruction says.
#[derive(Clone, Copy, Debug, PartialEq, Eq)]
pub enum Mnemonic {
    Arithmetic(AluOp, Width),
    Negation(Width),
    SignedMove(Extension),
    Swapping(Swap, SwapBits),
    Loading(LoadSize),
    /// The store of an immediate.
    Storing(Size),
    /// The store of a register.
    StoringRegister(Size),
    Jumping(Condition, Width),
    ShortGoto,
    LongGoto,
    WideLoad,
    MapLoad,
    AddressLoad,
    Calling(Callee),
    Exiting,
}

impl Mnemonic {
    /// How many slots its instruction takes.
    pub fn slots(self) -> u8
        ensures { result ≡ mnemonic_slots self }
    {
        match self {
            Mnemonic::WideLoad | Mnemonic::MapLoad | Mnemonic::AddressLoad => 2,
            _ => 1,
        }
    }

    /// Its word, in two pieces.
    fn pieces(self) -> (&'static str, &'static str)
        ensures { result.0.now ++ result.1.now ≡ mnemonic_word self }
    {
        match self {
            Mnemonic::Arithmetic(op, width) => (op.name(), width.suffix()),
            Mnemonic::Negation(width) => (NEGATION, width.suffix()),
            Mnemonic::SignedMove(extension) => (extension.name(), ""),
            Mnemonic::Swapping(swap, bits) => (swap.name(), bits.name()),
            Mnemonic::Loading(size) => (LOAD, size.suffix()),
            Mnemonic::Storing(size) => (STORE, size.suffix()),
            Mnemonic::StoringRegister(size) => (REGISTER_STORE, size.suffix()),
            Mnemonic::Jumping(condition, width) => (condition.name(), width.suffix()),
            Mnemonic::ShortGoto => (GOTO, ""),
            Mnemonic::LongGoto => (LONG_GOTO, ""),
            Mnemonic::WideLoad => (WIDE_LOAD, ""),
            Mnemonic::MapLoad => (MAP_LOAD, ""),
            Mnemonic::AddressLoad => (ADDRESS_LOAD, ""),
            Mnemonic::Calling(callee) => (callee.name(), ""),
            Mnemonic::Exiting => (EXIT, ""),
        }
    }

    /// Whether the word is the mnemonic's.
    fn has_word(self, word: &str) -> bool
        ensures { result ≡ bytes_eq word.now (mnemonic_word self) }
    {
        let (first, second) = self.pieces();
        match word.strip_prefix(first) {
            Some(rest) => rest == second,
            None => false,
        }
    }
}

/// All mnemonics, each once, in the order of the first letter of their words, and then of their lengths.
const MNEMONICS: [Mnemonic; 90] = [
    Mnemonic::Arithmetic(AluOp::Add, Width::Bits64),
    Mnemonic::Arithmetic(AluOp::And, Width::Bits64),
    Mnemonic::Arithmetic(AluOp::Arsh, Width::Bits64),
    Mnemonic::Arithmetic(AluOp::Add, Width::Bits32),
    Mnemonic::Arithmetic(AluOp::And, Width::Bits32),
    Mnemonic::Arithmetic(AluOp::Arsh, Width::Bits32),
    Mnemonic::Swapping(Swap::ToBig, SwapBits::Swap16),
    Mnemonic::Swapping(Swap::ToBig, SwapBits::Swap32),
    Mnemonic::Swapping(Swap::ToBig, SwapBits::Swap64),
    Mnemonic::Calling(Callee::Helper),
    Mnemonic::Calling(Callee::ByTypeId),
    Mnemonic::Calling(Callee::Local),
    Mnemonic::Arithmetic(AluOp::Div, Width::Bits64),
    Mnemonic::Arithmetic(AluOp::Div, Width::Bits32),
    Mnemonic::Exiting,
    Mnemonic::ShortGoto,
    Mnemonic::Jumping(Condition::Equal, Width::Bits64),
    Mnemonic::Jumping(Condition::NotEqual, Width::Bits64),
    Mnemonic::Jumping(Condition::Greater, Width::Bits64),
    Mnemonic::Jumping(Condition::GreaterEqual, Width::Bits64),
    Mnemonic::Jumping(Condition::Less, Width::Bits64),
    Mnemonic::Jumping(Condition::LessEqual, Width::Bits64),
    Mnemonic::LongGoto,
    Mnemonic::Jumping(Condition::AnyBits, Width::Bits64),
    Mnemonic::Jumping(Condition::SignedGreater, Width::Bits64),
    Mnemonic::Jumping(Condition::SignedGreaterEqual, Width::Bits64),
    Mnemonic::Jumping(Condition::SignedLess, Width::Bits64),
    Mnemonic::Jumping(Condition::SignedLessEqual, Width::Bits64),
    Mnemonic::Jumping(Condition::Equal, Width::Bits32),
    Mnemonic::Jumping(Condition::NotEqual, Width::Bits32),
    Mnemonic::Jumping(Condition::Greater, Width::Bits32),
    Mnemonic::Jumping(Condition::GreaterEqual, Width::Bits32),
    Mnemonic::Jumping(Condition::Less, Width::Bits32),
    Mnemonic::Jumping(Condition::LessEqual, Width::Bits32),
    Mnemonic::Jumping(Condition::AnyBits, Width::Bits32),
    Mnemonic::Jumping(Condition::SignedGreater, Width::Bits32),
    Mnemonic::Jumping(Condition::SignedGreaterEqual, Width::Bits32),
    Mnemonic::Jumping(Condition::SignedLess, Width::Bits32),
    Mnemonic::Jumping(Condition::SignedLessEqual, Width::Bits32),
    Mnemonic::Arithmetic(AluOp::Lsh, Width::Bits64),
    Mnemonic::WideLoad,
    Mnemonic::Loading(LoadSize::LoadByte),
    Mnemonic::Loading(LoadSize::LoadHalf),
    Mnemonic::Loading(LoadSize::LoadWord),
    Mnemonic::Swapping(Swap::ToLittle, SwapBits::Swap16),
    Mnemonic::Swapping(Swap::ToLittle, SwapBits::Swap32),
    Mnemonic::Swapping(Swap::ToLittle, SwapBits::Swap64),
    Mnemonic::Loading(LoadSize::LoadDouble),
    Mnemonic::MapLoad,
    Mnemonic::Loading(LoadSize::SignedByte),
    Mnemonic::Loading(LoadSize::SignedHalf),
    Mnemonic::Loading(LoadSize::SignedWord),
    Mnemonic::AddressLoad,
    Mnemonic::Arithmetic(AluOp::Lsh, Width::Bits32),
    Mnemonic::Arithmetic(AluOp::Mov, Width::Bits64),
    Mnemonic::Arithmetic(AluOp::Mod, Width::Bits64),
    Mnemonic::Arithmetic(AluOp::Mul, Width::Bits64),
    Mnemonic::Arithmetic(AluOp::Mov, Width::Bits32),
    Mnemonic::Arithmetic(AluOp::Mod, Width::Bits32),
    Mnemonic::Arithmetic(AluOp::Mul, Width::Bits32),
    Mnemonic::SignedMove(Extension::ByteTo64),
    Mnemonic::SignedMove(Extension::HalfTo64),
    Mnemonic::SignedMove(Extension::WordTo64),
    Mnemonic::SignedMove(Extension::ByteTo32),
    Mnemonic::SignedMove(Extension::HalfTo32),
    Mnemonic::Negation(Width::Bits64),
    Mnemonic::Negation(Width::Bits32),
    Mnemonic::Arithmetic(AluOp::Or, Width::Bits64),
    Mnemonic::Arithmetic(AluOp::Or, Width::Bits32),
    Mnemonic::Arithmetic(AluOp::Rsh, Width::Bits64),
    Mnemonic::Arithmetic(AluOp::Rsh, Width::Bits32),
    Mnemonic::Arithmetic(AluOp::Sub, Width::Bits64),
    Mnemonic::Storing(Size::Byte),
    Mnemonic::Storing(Size::Half),
    Mnemonic::Storing(Size::Word),
    Mnemonic::StoringRegister(Size::Byte),
    Mnemonic::StoringRegister(Size::Half),
    Mnemonic::StoringRegister(Size::Word),
    Mnemonic::Storing(Size::Double),
    Mnemonic::Arithmetic(AluOp::SignedDiv, Width::Bits64),
    Mnemonic::Arithmetic(AluOp::SignedMod, Width::Bits64),
    Mnemonic::StoringRegister(Size::Double),
    Mnemonic::Arithmetic(AluOp::Sub, Width::Bits32),
    Mnemonic::Swapping(Swap::Reverse, SwapBits::Swap16),
    Mnemonic::Swapping(Swap::Reverse, SwapBits::Swap32),
    Mnemonic::Swapping(Swap::Reverse, SwapBits::Swap64),
    Mnemonic::Arithmetic(AluOp::SignedDiv, Width::Bits32),
    Mnemonic::Arithmetic(AluOp::SignedMod, Width::Bits32),
    Mnemonic::Arithmetic(AluOp::Xor, Width::Bits64),
    Mnemonic::Arithmetic(AluOp::Xor, Width::Bits32),
];

/// The group of words that have no place in the table. No mnemonic begins with their letter, or none has as few or as
/// many letters.
const NO_GROUP: usize = 208;

/// The index of the first mnemonic of each group, and after the last group the number of all.
const STARTS: [u8; 210] = [
    0, 0, 2, 3, 5, 6, 6, 6, 6, 6, 6, 9, 9, 9, 9, 9, 9, 9, 9, 10, 10, 10, 11, 11, 12, 12, 13, 13,
    14, 14, 14, 14, 14, 14, 14, 15, 15, 15, 15, 15, 15, 15, 15, 15, 15, 15, 15, 15, 15, 15, 15, 15,
    15, 15, 15, 15, 15, 15, 15, 15, 15, 15, 15, 15, 15, 15, 15, 15, 15, 15, 15, 15, 15, 16, 22, 28,
    34, 39, 39, 39, 39, 39, 39, 39, 39, 39, 39, 39, 39, 39, 40, 47, 54, 54, 54, 54, 54, 54, 57, 57,
    60, 61, 63, 64, 65, 65, 66, 66, 67, 67, 67, 67, 67, 68, 68, 69, 69, 69, 69, 69, 69, 69, 69, 69,
    69, 69, 69, 69, 69, 69, 69, 69, 69, 69, 69, 69, 69, 69, 70, 70, 71, 71, 71, 71, 71, 71, 75, 81,
    83, 88, 88, 88, 88, 88, 88, 88, 88, 88, 88, 88, 88, 88, 88, 88, 88, 88, 88, 88, 88, 88, 88, 88,
    88, 88, 88, 88, 88, 88, 88, 88, 88, 88, 88, 88, 88, 88, 89, 89, 90, 90, 90, 90, 90, 90, 90, 90,
    90, 90, 90, 90, 90, 90, 90, 90, 90, 90, 90, 90, 90, 90,
];

/// The mnemonic of the word, if it begins an instruction.
pub fn read_mnemonic(word: &str) -> Option<Mnemonic>
    ensures value { result ≡ mnemonic_named word.now }
    ensures names { IfSome result (λ found. word.now ≡ mnemonic_word found) }
    ensures plain { IfSome result (λ _. IsName word.now) }
    ensures exact { (found : Mnemonic) → word.now ≡ mnemonic_word found → result ≡ Some found }
{
    named(word)
}

/// The mnemonic that has this word.
fn named(word: &str) -> Option<Mnemonic>
    ensures { result ≡ mnemonic_named word.now }
{
    first_with_word(candidates(group_of(word)), word)
}

/// The group of a word: that of the words with its first letter and its length.
fn group_of(word: &str) -> usize
    ensures value { result ≡ group_of word.now }
    ensures few { result ≤ 208 }
{
    match word.as_bytes() {
        [first, rest @ ..] => group_at(*first, rest.len()),
        [] => NO_GROUP,
    }
}

/// The group of the words that begin with a letter and have `more` letters after it.
fn group_at(first: u8, more: usize) -> usize
    ensures value { result ≡ group_at first more }
    ensures few { result ≤ 208 }
{
    if first < b'a' || first > b'z' || more < 1 || more > 8 {
        NO_GROUP
    } else {
        usize::from(first - b'a') * 8 + (more - 1)
    }
}

/// The mnemonics of a group.
fn candidates(group: usize) -> &'static [Mnemonic]
    requires { group ≤ 208 }
    ensures { result.now ≡ slice_range MNEMONICS (start_of group) (start_of (suc group)) }
{
    part(&MNEMONICS, start_of(group), start_of(group + 1))
}

fn part(all: &[Mnemonic], start: usize, end: usize) -> &[Mnemonic]
    requires order { start ≤ end }
    requires within { end ≤ length all.now }
    ensures { result.now ≡ slice_range all.now start end }
{
    &all[start..end]
}

/// The index of the first mnemonic of a group.
fn start_of(group: usize) -> usize
    requires { group ≤ 209 }
    ensures { result ≡ start_of group }
{
    usize::from(STARTS[group])
}

/// What holds of all mnemonics. The function does nothing: its contract is the laws.
pub fn mnemonic_laws()
    // Each mnemonic is found by its word.
    ensures named { (found : Mnemonic) → mnemonic_named (mnemonic_word found) ≡ Some found }

    // Its word is a name, and so no directive, and no label.
    ensures plain { (found : Mnemonic) → IsName (mnemonic_word found) }

    // No two mnemonics have one word.
    ensures apart { (m n : Mnemonic) → mnemonic_word m ≡ mnemonic_word n → m ≡ n }
{}

/// The first of them that has this word.
fn first_with_word(mnemonics: &[Mnemonic], word: &str) -> Option<Mnemonic>
    ensures { result ≡ find (λ m. bytes_eq word.now (mnemonic_word m)) mnemonics.now }
{
    let mut rest = mnemonics;
    while let [mnemonic, after @ ..] = rest {
        if mnemonic.has_word(word) {
            return Some(*mnemonic);
        }
        rest = after;
    }
    None
}
