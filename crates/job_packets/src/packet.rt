//! The words of the job `packet`.

ghost use Rattle.std.specs.Prelude.{◌≡◌, IfErr, IfOk, None, false, option_map};
ghost use Rattle.job_parts.specs.Matched.{app_of, fields_of, found_of, rows_of};
ghost use Rattle.job_packets.specs.HexWords.{Has};
ghost use Rattle.job_parts.specs.Inputs.{input_value};
ghost use Rattle.job_packets.specs.MadePackets.{file_of};
ghost use Rattle.job_packets.specs.PacketJob.{NamesPacket, RefusesPacket, packet_app, with_order_options, with_order_words};
ghost use Rattle.job_packets.specs.Slips.{IsWordFault};

use crate::orders::{DataSource, Order, order_of};
use crate::packet_options::{HeaderWords, field_arguments, header_words};
use crate::slips::PacketFault;
use clap::{ArgMatches, Command};
use job_parts::arguments::{file, flag, is_flag_set, option, optional};
use job_parts::inputs::{Content, InputFile, Inputs};
use job_parts::usage::UsageFault;
use rmap::STAGING_SIZE;
use spw::MAX_PACKET;
use std::alloc::{AllocError, Global};

/// The words of the job `packet`.
#[derive(Debug, Drop)]
pub struct PacketWords {
    /// The port, and the fields of the header that have a default.
    pub header: HeaderWords,
    /// What is made.
    pub order: Order,
    /// Whether a load is meant to be the last. Then nothing is said if its program denies the same load after it.
    pub is_final: bool,
}

impl PacketWords {
    /// What the job reads: the image of a load, or the data of a write, if a file has them.
    pub fn inputs(&self) -> Inputs<'_>
        ensures file { option_map (λ file. file.name) (option_map input_value result.first)
            ≡ file_of self.now.order }
        ensures alone { option_map input_value result.second ≡ None }
    {
        let (name, most) = match &self.order {
            Order::Load { image, .. } => (image, u64::from(STAGING_SIZE)),
            Order::Write {
                source: DataSource::File(name),
                ..
            } => (name, MAX_PACKET as u64),
            Order::Read { .. } | Order::Write { .. } | Order::Rmw { .. } => {
                return Inputs::of(None, None);
            }
        };
        let file = InputFile::new(name.as_str(), Content::Bytes(most.saturating_add(1)));
        Inputs::of(Some(file), None)
    }
}

/// The subcommand with what is made and at which address.
fn order_words<'a>(alloc: Global, command: Command<'a>) -> Result<Command<'a>, AllocError>
    requires { (fields_of command).has_globals ≡ false }
    ensures shape { IfOk result (λ c. app_of c ≡ with_order_words (app_of command.entry)) }
    ensures local { IfOk result (λ c. (fields_of c).has_globals ≡ false) }
{
    let kind = file(
        alloc,
        "kind",
        "KIND",
        "What is made: read, write, rmw or load",
    );
    let help =
        "The address, at most 8 hexadecimal digits; of a load the file of the BPF image, or - for standard input";
    let address = file(alloc, "address", "ADDRESS", help);
    let help =
        "The data in hexadecimal digits, or - for none, or @ and the name of their file; of a read the length";
    let data = optional(alloc, "data", "DATA", help);
    let help = "The mask of an rmw, as long as its data";
    let mask = optional(alloc, "mask", "MASK", help);
    command.arg(kind)?.arg(address)?.arg(data)?.arg(mask)
}

/// The subcommand with the options of what is made.
fn order_options<'a>(alloc: Global, command: Command<'a>) -> Result<Command<'a>, AllocError>
    requires { (fields_of command).has_globals ≡ false }
    ensures shape { IfOk result (λ c. app_of c ≡ with_order_options (app_of command.entry)) }
    ensures local { IfOk result (λ c. (fields_of c).has_globals ≡ false) }
{
    let help = "The slots of a load, 0 to 3 with commas between them, or all for each of the four";
    let slot = option(alloc, "slot", "LIST", help);
    let verify = flag(alloc, "verify", "Of a write: the data are verified first");
    let no_reply = flag(alloc, "no-reply", "Of a write: no reply is asked for");
    let help = "Of a read or a write: all bytes have the one address";
    let no_increment = flag(alloc, "no-increment", help);
    let help = "Of a load: its program may deny the same load after it, and nothing is said of it";
    let last = flag(alloc, "final", help);
    command
        .arg(slot)?
        .arg(verify)?
        .arg(no_reply)?
        .arg(no_increment)?
        .arg(last)
}

/// `packet KIND ADDRESS [DATA] [MASK]` with its options.
///
/// # Errors
///
/// An error if memory is refused.
pub fn packet_command<'a>(alloc: Global) -> Result<Command<'a>, AllocError>
    ensures shape { IfOk result (λ c. app_of c ≡ packet_app) }
    ensures local { IfOk result (λ c. (fields_of c).has_globals ≡ false) }
{
    let about = "Makes packet lines: of a read, a write, an rmw or the packets of a load";
    let port = option(
        alloc,
        "port",
        "N",
        "The port of the line, 0 to 31; 0 without it",
    );
    let named = Command::new(alloc, "packet").about(about);
    let ordered = order_words(alloc, named)?.arg(port)?;
    let chosen = order_options(alloc, ordered)?;
    field_arguments(alloc, chosen)
}

/// The words of `packet` with these matches.
///
/// # Errors
///
/// The first slip: of the options of a header, and then of what is ordered. Or `Memory` if memory was refused.
pub fn packet_words(alloc: Global, found: &ArgMatches) -> Result<PacketWords, PacketFault>
    ensures ok { IfOk result (NamesPacket (rows_of (found_of found.now))) }
    ensures err { IfErr result (IsWordFault (Has (NamesPacket (rows_of (found_of found.now))))) }
{
    let header = header_words(alloc, found)?;
    let order = order_of(alloc, found)?;
    let is_final = is_flag_set(found, "final");
    Ok(PacketWords {
        header,
        order,
        is_final,
    })
}

/// The same, for the command line.
///
/// # Errors
///
/// `BadOption` for a slip, or `Memory` if memory was refused.
pub fn packet_job(alloc: Global, found: &ArgMatches) -> Result<PacketWords, UsageFault>
    ensures ok { IfOk result (NamesPacket (rows_of (found_of found.now))) }
    ensures err { IfErr result (RefusesPacket (rows_of (found_of found.now))) }
{
    match packet_words(alloc, found) {
        Ok(words) => Ok(words),
        Err(fault) => Err(fault.usage()),
    }
}
