//! The words of the subcommands.

ghost use Rattle.std.specs.Prelude.{◌≡◌, MatchOption};
ghost use Rattle.commands.specs.Words.{IsNoWord, name_of_word};

/// The word of a subcommand.
#[derive(Clone, Copy, Debug, PartialEq, Eq)]
pub enum SubcommandWord {
    /// `asm`.
    Asm,
    /// `dis`.
    Dis,
    /// `verify`.
    Verify,
    /// `judge`.
    Judge,
    /// `policy`.
    Policy,
    /// `serve`.
    Serve,
    /// `sim`.
    Sim,
    /// `live`.
    Live,
    /// `explain`.
    Explain,
    /// `why`.
    Why,
    /// `weigh`.
    Weigh,
    /// `node`.
    Node,
    /// `packet`.
    Packet,
    /// `show`.
    Show,
    /// `decide`.
    Decide,
    /// `trace`.
    Trace,
    /// `compare`.
    Compare,
    /// `map`.
    Map,
    /// `rehearse`.
    Rehearse,
    /// `suite`.
    Suite,
}

impl SubcommandWord {
    /// The word that is written so, if it is one.
    pub fn named(name: &str) -> Option<SubcommandWord>
        ensures { MatchOption result (IsNoWord name.now) (λ word. name.now ≡ name_of_word word) }
    {
        match name {
            "asm" => Some(SubcommandWord::Asm),
            "dis" => Some(SubcommandWord::Dis),
            "verify" => Some(SubcommandWord::Verify),
            "judge" => Some(SubcommandWord::Judge),
            "policy" => Some(SubcommandWord::Policy),
            "serve" => Some(SubcommandWord::Serve),
            "sim" => Some(SubcommandWord::Sim),
            "live" => Some(SubcommandWord::Live),
            "explain" => Some(SubcommandWord::Explain),
            "why" => Some(SubcommandWord::Why),
            "weigh" => Some(SubcommandWord::Weigh),
            "node" => Some(SubcommandWord::Node),
            "packet" => Some(SubcommandWord::Packet),
            "show" => Some(SubcommandWord::Show),
            "decide" => Some(SubcommandWord::Decide),
            "trace" => Some(SubcommandWord::Trace),
            "compare" => Some(SubcommandWord::Compare),
            "map" => Some(SubcommandWord::Map),
            "rehearse" => Some(SubcommandWord::Rehearse),
            "suite" => Some(SubcommandWord::Suite),
            _ => None,
        }
    }
}
