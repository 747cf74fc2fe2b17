//! Samples of worked examples.

ghost use Rattle.test_laws.specs.Sample.{ThisSampleIsLawful};

use lawful::sample_is_lawful;

/// A law and no work: a program and packets, byte by byte, that fit the worked example of the law of threads. The law
/// says of them what that example says. So its premises can hold together.
pub fn a_sample_is_lawful()
    ensures { ThisSampleIsLawful }
{
    sample_is_lawful();
}
