//! Registers in a text.

ghost use Rattle.std.specs.Prelude.{◌≡◌, ℕ, MatchOption};
ghost use Rattle.basm_lex.specs.Operands.{IsNoRegister, WritesRegister};

use bpf_insn::Register;

/// The register that a word names: `r0` to `r10`.
pub fn register(word: &str) -> Option<Register>
    ensures writes { MatchOption result (IsNoRegister word.now) (λ n. WritesRegister word.now n) }
    ensures exact { (n : ℕ) → WritesRegister word.now n → result ≡ Some n }
{
    match register_number(word) {
        Some(number) => Register::new(number),
        None => None,
    }
}

fn register_number(word: &str) -> Option<u8>
    ensures { MatchOption result (IsNoRegister word.now) (λ n. WritesRegister word.now n) }
{
    match word {
        "r0" => Some(0),
        "r1" => Some(1),
        "r2" => Some(2),
        "r3" => Some(3),
        "r4" => Some(4),
        "r5" => Some(5),
        "r6" => Some(6),
        "r7" => Some(7),
        "r8" => Some(8),
        "r9" => Some(9),
        "r10" => Some(10),
        _ => None,
    }
}
