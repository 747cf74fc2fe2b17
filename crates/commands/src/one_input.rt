//! Standard input, which one read ends: no two of the files that a work reads are it.

ghost use Rattle.std.specs.Prelude.{◌≡◌};
ghost use Rattle.job_parts.specs.Arguments.{name_in};
ghost use Rattle.commands.specs.OneInput.{are_both_input, names_of_work, reads_input_twice};

use crate::read_names::ReadNames;
use crate::work::Work;
use job_parts::two_files::are_one_input;

/// The names of the files that a work reads.
fn names_of_work(work: &Work) -> ReadNames<'_>
    ensures first { name_in result.first ≡ (names_of_work work.now).first }
    ensures second { name_in result.second ≡ (names_of_work work.now).second }
    ensures third { name_in result.third ≡ (names_of_work work.now).third }
{
    match work {
        Work::Once(job) => job.names(),
        Work::OnNode(own) => own.job.names().with(Some(own.node.as_str())),
        Work::Live(_) | Work::Printed(_) => ReadNames::of(None, None),
    }
}

/// Whether both files have a name, and it is that of standard input.
fn are_both_input(one: Option<&str>, other: Option<&str>) -> bool
    ensures { result ≡ are_both_input (name_in one.entry) (name_in other.entry) }
{
    match one {
        Some(one) => match other {
            Some(other) => are_one_input(one, other),
            None => false,
        },
        None => false,
    }
}

/// Whether a work reads standard input for two of its files. The second would be empty.
pub fn reads_input_twice(work: &Work) -> bool
    ensures { result ≡ reads_input_twice work.now }
{
    let names = names_of_work(work);
    are_both_input(names.first, names.second)
        || are_both_input(names.first, names.third)
        || are_both_input(names.second, names.third)
}
