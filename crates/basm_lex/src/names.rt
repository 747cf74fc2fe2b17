//! Names of places in a program.

ghost use Rattle.std.specs.Prelude.{◌≡◌, MatchOption};
ghost use Rattle.std.specs.List.{list_all};
ghost use Rattle.basm_lex.specs.Names.{DefinesName, DefinesNoName, is_name, is_name_byte};

/// Whether the word is a name: a letter, and then letters, digits and underscores.
pub fn is_name(word: &str) -> bool
    ensures { result ≡ is_name word.now }
{
    let bytes = word.as_bytes();
    match bytes {
        [first, ..] => first.is_ascii_alphabetic() && are_name_bytes(bytes),
        [] => false,
    }
}

fn are_name_bytes(bytes: &[u8]) -> bool
    ensures { result ≡ list_all is_name_byte bytes.now }
{
    bytes.iter().all(is_name_byte)
}

fn is_name_byte(byte: &u8) -> bool
    ensures { result ≡ is_name_byte byte.now }
{
    byte.is_ascii_alphanumeric() || *byte == b'_'
}

/// The name that a label defines: a name and a colon.
pub fn label_name(word: &str) -> Option<&str>
    ensures { MatchOption result (DefinesNoName word.now) (λ name. DefinesName word.now name.now) }
{
    match word.strip_suffix(':') {
        Some(name) => { if is_name(name) { Some(name) } else { None } }
        None => None,
    }
}
