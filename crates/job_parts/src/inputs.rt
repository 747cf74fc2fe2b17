//! The files that a job reads, and the one that it writes, as its words name them.

ghost use Rattle.std.specs.Prelude.{◌≡◌, None, Some, option_map};
ghost use Rattle.job_parts.specs.Inputs.{AreInputs, input, input_value};

/// What a file that a job reads must be.
#[derive(Clone, Copy, Debug, PartialEq, Eq)]
pub enum Content {
    /// Lines of packets or of events, as many as there are.
    Lines,
    /// The text of a program.
    Text,
    /// The table of a policy.
    Table,
    /// The file of a node, and after it those that it names.
    Node,
    /// A BPF image.
    Image,
    /// A BPF image, or a text in place of one.
    ImageOrText,
    /// Bytes of any kind. This many are enough to show that there are too many.
    Bytes(u64),
}

/// A file that a job reads.
#[derive(Clone, Copy, Debug, PartialEq, Eq)]
pub struct InputFile<'a> {
    /// Its name.
    pub name: &'a str,
    /// What it must be.
    pub content: Content,
}

impl<'a> InputFile<'a> {
    /// A file of this name, which must be that.
    pub fn new(name: &'a str, content: Content) -> InputFile<'a>
        ensures { input_value result ≡ input name.now content }
    {
        InputFile { name, content }
    }
}

/// The files that a job reads, in this order, and the one that it writes.
#[derive(Clone, Copy, Debug, PartialEq, Eq)]
pub struct Inputs<'a> {
    /// The file that it reads first, if it reads one.
    pub first: Option<InputFile<'a>>,
    /// The file that it reads after that one.
    pub second: Option<InputFile<'a>>,
    /// The name of the file that it writes.
    pub output: Option<&'a str>,
}

impl<'a> Inputs<'a> {
    /// The one file, and then the other.
    pub fn of(first: Option<InputFile<'a>>, second: Option<InputFile<'a>>) -> Inputs<'a>
        ensures { AreInputs (option_map input_value first.entry) (option_map input_value second.entry)
            None result }
    {
        Inputs {
            first,
            second,
            output: None,
        }
    }

    /// The one file of this name, which must be that.
    pub fn one(name: &'a str, content: Content) -> Inputs<'a>
        ensures { AreInputs (Some (input name.now content)) None None result }
    {
        Inputs::of(Some(InputFile::new(name, content)), None)
    }

    /// This file, of which the file of that name is made.
    pub fn made(first: InputFile<'a>, output: &'a str) -> Inputs<'a>
        ensures { AreInputs (Some (input_value first.entry)) None (Some output.now) result }
    {
        Inputs {
            first: Some(first),
            second: None,
            output: Some(output),
        }
    }

    /// The file that is read next; what is read after it stays.
    pub fn next(&mut self) -> Option<InputFile<'a>>
        ensures first { result ≡ self.old.first }
        ensures second { self.new.first ≡ self.old.second }
        ensures last { self.new.second ≡ None }
        ensures output { self.new.output ≡ self.old.output }
    {
        let next = self.first;
        self.first = self.second;
        self.second = None;
        next
    }
}
