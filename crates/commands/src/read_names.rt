//! The names of the files that a work reads.

ghost use Rattle.std.specs.Prelude.{◌≡◌, None, option_map, string_bytes};
ghost use Rattle.job_parts.specs.Arguments.{name_in};
ghost use Rattle.job_packets.specs.MadePackets.{file_of};
ghost use Rattle.commands.specs.ReadNames.{place_name, source_name};

use job_config::sources::NodeSource;
use job_packets::orders::{DataSource, Order};
use job_rehearse::places::PlaceWords;

/// The names of the files that a work reads: at most three.
#[derive(Clone, Copy, Debug)]
pub struct ReadNames<'a> {
    /// The first.
    pub first: Option<&'a str>,
    /// The second.
    pub second: Option<&'a str>,
    /// The third.
    pub third: Option<&'a str>,
}

impl<'a> ReadNames<'a> {
    /// The one file, and the other if there is one.
    pub fn of(first: Option<&'a str>, second: Option<&'a str>) -> ReadNames<'a>
        ensures first { result.first ≡ first.entry }
        ensures second { result.second ≡ second.entry }
        ensures third { name_in result.third ≡ None }
    {
        ReadNames {
            first,
            second,
            third: None,
        }
    }

    /// The same, and one more file.
    pub fn with(self, third: Option<&'a str>) -> ReadNames<'a>
        ensures first { result.first ≡ self.entry.first }
        ensures second { result.second ≡ self.entry.second }
        ensures third { result.third ≡ third.entry }
    {
        ReadNames {
            first: self.first,
            second: self.second,
            third,
        }
    }
}

/// The name, if there is one.
pub fn lent(name: &Option<String>) -> Option<&str>
    ensures { name_in result ≡ option_map string_bytes name.now }
{
    match name {
        Some(name) => Some(name.as_str()),
        None => None,
    }
}

/// The name of the file that a node comes from: its own, or that of the image that judges, if there is one.
pub fn source_name(source: &NodeSource) -> Option<&str>
    ensures { name_in result ≡ source_name source.now }
{
    match source {
        NodeSource::File(name) => Some(name.as_str()),
        NodeSource::Words(words) => lent(&words.image),
    }
}

/// The name of the file of the node at which loads are rehearsed, if it has one.
pub fn place_name(place: &PlaceWords) -> Option<&str>
    ensures { name_in result ≡ place_name place.now }
{
    match place {
        PlaceWords::Maps(_) => None,
        PlaceWords::File(name) => Some(name.as_str()),
    }
}

/// The name of the file of what `packet` makes, if there is one.
pub fn order_name(order: &Order) -> Option<&str>
    ensures { name_in result ≡ file_of order.now }
{
    match order {
        Order::Load { image, .. } => Some(image.as_str()),
        Order::Write {
            source: DataSource::File(name),
            ..
        } => Some(name.as_str()),
        Order::Read { .. } | Order::Write { .. } | Order::Rmw { .. } => None,
    }
}
