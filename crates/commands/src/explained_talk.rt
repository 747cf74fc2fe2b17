//! A talk that reports on standard error what the faults are that it sends, and which path is before a packet.

ghost use Rattle.std.specs.Prelude.{◌≡◌};

use crate::foreign::Foreign;
use crate::line_paths::LinePaths;
use job_live::talk::Talk;
use job_parts::bad_lines::BadLine;
use job_parts::storage::Cannot;
use std::alloc::Global;

/// What fault 6 of a line of `live` is.
const NO_PLACE: &str =
    "no such port, or set has not three words, or its bytes lie outside the bank";

/// A talk, which reports on standard error what a fault is whose line it sends. It reports each number once, so that
/// standard error which nobody reads holds nothing up. It also reports once the path that is before a packet, of the
/// first line that has one. Such a packet is discarded.
#[derive(Drop)]
pub struct ExplainedTalk<'a, R, T: Drop> {
    rt: &'a R,
    alloc: Global,
    talk: T,
    reported: u8,
    paths: LinePaths,
    path: PathReported,
    is_first: bool,
    foreign: Foreign,
}

/// Whether a path was reported.
#[derive(Debug, Drop)]
enum PathReported {
    /// No line had one.
    None,
    /// The last line has one, which is reported after what comes of it.
    Due(String),
    /// It was reported.
    Printed,
}

/// The last line of a text.
fn last_line(text: &[u8]) -> &str {
    let text = str::from_utf8(text).unwrap_or("").trim_end();
    match text.rsplit_once('\n') {
        Some((_, line)) => line,
        None => text,
    }
}

/// Whether the last line of a text may report a fault: its last character is a digit.
fn may_report_fault(text: &[u8]) -> bool {
    match text {
        [.., last, b'\n'] => last.is_ascii_digit(),
        _ => false,
    }
}

/// The number of the line and the fault that a line reports, if it reports one: `line K fault C`.
fn fault_reported(line: &str) -> Option<(&str, BadLine)> {
    let (number, code) = line.strip_prefix("line ")?.split_once(" fault ")?;
    Some((number, BadLine::from_number(code.parse().ok()?)?))
}

/// What is printed of a fault.
fn words_for(fault: BadLine) -> &'static str {
    match fault {
        BadLine::NoPort | BadLine::NoEvent => NO_PLACE,
        _ => fault.title(),
    }
}

impl<'a, R: Eprint, T: Talk + Drop> ExplainedTalk<'a, R, T> {
    /// The talk, with standard error beside it.
    pub fn new(rt: &'a R, alloc: Global, talk: T) -> ExplainedTalk<'a, R, T>
        ensures { result.talk ≡ talk }
    {
        ExplainedTalk {
            rt,
            alloc,
            talk,
            reported: 0,
            paths: LinePaths::new(),
            path: PathReported::None,
            is_first: true,
            foreign: Foreign::Nothing,
        }
    }

    /// The talk itself.
    pub fn into_talk(self) -> T
        ensures { result ≡ self.entry.talk }
    {
        self.talk
    }

    /// Reports what the fault is that the last line of a text has, if it was not reported before.
    fn report(&mut self, text: &[u8])
        ensures { self.new.talk ≡ self.old.talk }
    {
        if !may_report_fault(text) {
            return;
        }
        let Some((number, fault)) = fault_reported(last_line(text)) else {
            return;
        };
        let code = fault.number();
        let bit = 1u8.checked_shl(u32::from(code)).unwrap_or(0);
        if self.reported & bit != 0 {
            return;
        }
        self.reported |= bit;
        let words = words_for(fault);
        let _ = self.rt.eprint(&"    line ");
        let _ = self.rt.eprint(&number);
        let _ = self.rt.eprint(&" fault ");
        let _ = self.rt.eprint(&code);
        let _ = self.rt.eprint(&": ");
        let _ = self.rt.eprintln(&words);
        let _ = self.rt.eprint(&self.foreign.words());
    }
}

impl<'a, R: Eprint, T: Talk + Drop> ExplainedTalk<'a, R, T> {
    /// Looks for a path before the packet of a line, as long as none was reported.
    fn look(&mut self, line: &str)
        ensures { self.new.talk ≡ self.old.talk }
    {
        if let PathReported::Printed = self.path {
            return;
        }
        let mut text = String::new(self.alloc);
        if let Ok(true) = self.paths.take(self.alloc, line, &mut text) {
            self.path = PathReported::Due(text);
        }
    }

    /// Reports the path that is before the packet of the last line, if there is one.
    fn report_path(&mut self)
        ensures { self.new.talk ≡ self.old.talk }
    {
        if let PathReported::Due(text) = &self.path {
            let _ = self.rt.eprint(text);
            self.path = PathReported::Printed;
        }
    }
}

impl<R: Eprint, T: Talk + Drop> Talk for ExplainedTalk<'_, R, T> {
    ghost received = { λ before line after. T.received before.talk line after.talk };

    ghost sent = { λ before text after. T.sent before.talk text after.talk };

    ghost missed = { λ before after. T.missed before.talk after.talk };

    ghost unsent = { λ before text after. T.unsent before.talk text after.talk };

    fn next(&mut self, line: &mut String) -> Result<bool, Cannot> {
        let is_given = self.talk.next(line)?;
        self.foreign = Foreign::of(line.as_str(), self.is_first);
        self.is_first = false;
        self.look(line.as_str());
        Ok(is_given)
    }

    fn send(&mut self, text: &[u8]) -> Result<(), Cannot> {
        let done = self.talk.send(text);
        self.report(text);
        self.report_path();
        done
    }
}
