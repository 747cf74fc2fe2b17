//! Whether an image may judge, and the opening of a node.

ghost use Rattle.std.specs.Prelude.{◌≡◌, ◌≢◌, ◌↔◌, IfErr, IfOk, IfSome, IsSome, MatchResult};
ghost use Rattle.std.specs.declared.option.Option.TheVariants.{None, Some};
ghost use Rattle.bpf.specs.Program.{image_bytes};
ghost use Rattle.machine.specs.Sizes.{Maps};
ghost use Rattle.scrub.specs.Guarded.{IsGuarded};
ghost use Rattle.single_node_c.specs.Numbers.{maps_of};
ghost use Rattle.single_node_c.specs.Opening.{AreMaps, IsAccepted, IsConfigFault, IsImageUnfit, IsNodeMade, IsOpened, IsUnfit, IsUnopened, ReportsFit, ReportsOpening, is_config, unfit_of};
ghost use Rattle.single_node_c.specs.declared.codes.TheConstants.{IS_OPEN, OK};
ghost use Rattle.single_node_c.specs.declared.unfit.Unfit.TheVariants.{Config, Memory};

use crate::codes::{IS_OPEN, OK};
use crate::handle::Handle;
use crate::held::{put, take};
use crate::lists::{MAX_MAPS, banks_of, have_kinds, maps_of};
use crate::numbers::{BankNumbers, MapNumbers, Why};
use crate::unfit::{Unfit, no_why};
use bpf::{Image, ImageFault};
use bver::{Accepted, MapSizes, Refusal, verify};
use node_parts::{BankConfig, NodeConfig, NodeFault};
use rmap::MAX_BANKS;
use scrub::GuardedNode;
use single_node::SingleNode;
use std::alloc::Global;

/// The maps of these numbers, if a node may have them.
fn sizes_of(numbers: &[MapNumbers]) -> Option<MapSizes>
    ensures sizes { IfSome result (λ sizes. sizes ≡ maps_of numbers.now) }
    ensures maps { IsSome result ↔ AreMaps numbers.now }
{
    if numbers.len() > MAX_MAPS || !have_kinds(numbers) {
        return None;
    }
    let maps = maps_of(numbers);
    MapSizes::with_kinds(&maps[..numbers.len()]).ok()
}

/// Why an image may not judge if its bytes have that fault.
fn unfit_of(fault: ImageFault) -> Unfit
    ensures { result ≡ unfit_of fault }
{
    match fault {
        ImageFault::Memory => Unfit::Memory,
        ImageFault::Magic
        | ImageFault::Version
        | ImageFault::Length
        | ImageFault::Count
        | ImageFault::Budget
        | ImageFault::Loop
        | ImageFault::Insn { .. } => Unfit::Image(fault),
    }
}

/// The image that bytes spell.
fn image_of(alloc: Global, bytes: &[u8]) -> Result<Image, Unfit>
    ensures image { IfOk result (λ image. bytes.now ≡ image_bytes image) }
    ensures fault { IfErr result (λ fault. (maps : Maps) → IsImageUnfit maps bytes.now fault) }
{
    match Image::read(alloc, bytes) {
        Ok(image) => Ok(image),
        Err(fault) => Err(unfit_of(fault)),
    }
}

/// The program of an image, accepted for those maps.
///
/// # Errors
///
/// Why the image may not judge: memory was refused, the bytes are no image, or the verifier refuses the program.
pub fn program_of(alloc: Global, image: &[u8], sizes: &MapSizes) -> Result<Accepted, Unfit>
    ensures { MatchResult result (IsAccepted sizes.now image.now) (IsImageUnfit sizes.now image.now) }
{
    let image = image_of(alloc, image)?;
    match verify(alloc, image, sizes) {
        Ok(program) => Ok(program),
        Err(refused) if refused.code == Refusal::Memory => Err(Unfit::Memory),
        Err(refused) => Err(Unfit::Program(refused)),
    }
}

/// The program of an image, accepted for maps of those numbers.
fn accepted(alloc: Global, maps: &[MapNumbers], image: &[u8]) -> Result<Accepted, Unfit>
    ensures maps { IfOk result (λ _. AreMaps maps.now) }
    ensures program { IfOk result (IsAccepted (maps_of maps.now) image.now) }
    ensures unfit { IfErr result (IsUnfit maps.now image.now) }
{
    let Some(sizes) = sizes_of(maps) else {
        return Err(Unfit::Maps);
    };
    program_of(alloc, image, &sizes)
}

/// Reports whether the program of an image may judge in a node with those maps. `why` is written at each code.
#[unsafe(no_mangle)]
pub extern "C" fn sandbar_verify(
    alloc: Global,
    maps: &[MapNumbers],
    image: &[u8],
    why: &mut Why,
) -> u32
    ensures { ReportsFit maps.now image.now result why.new }
{
    match accepted(alloc, maps, image) {
        Ok(_program) => {
            *why = no_why();
            OK
        }
        Err(unfit) => {
            *why = unfit.why();
            unfit.code()
        }
    }
}

/// The configuration of these parts.
fn config_of(address: u8, ports: u8, banks: &[BankConfig], sizes: MapSizes) -> NodeConfig<'_>
    ensures address { result.address ≡ address }
    ensures ports { result.ports ≡ ports }
    ensures banks { result.banks.now ≡ banks.now }
    ensures sizes { result.sizes ≡ sizes }
{
    NodeConfig {
        address,
        ports,
        banks,
        sizes,
    }
}

/// A fresh node in a box, with the program in each slot.
fn fresh(
    alloc: Global,
    address: u8,
    ports: u8,
    banks: &[BankNumbers],
    factory: Accepted,
) -> Result<Box<GuardedNode>, Unfit>
    ensures node { IfOk result (λ node. IsOpened address ports banks.now factory node.value.node) }
    ensures sums { IfOk result (λ node. IsGuarded (Some 0) node.value.node node.value) }
    ensures fault { IfErr result (IsConfigFault (is_config ports banks.now)) }
{
    if banks.len() > MAX_BANKS {
        return Err(Unfit::Config);
    }
    let list = banks_of(banks);
    let config = config_of(address, ports, &list[..banks.len()], factory.sizes());
    let node = match SingleNode::new(alloc, &config, factory) {
        Ok(node) => node,
        Err(NodeFault::Memory) => return Err(Unfit::Memory),
        Err(NodeFault::Ports | NodeFault::Banks) => return Err(Unfit::Config),
    };
    let Ok(node) = Box::new(alloc, GuardedNode::new(node, Some(0))) else {
        return Err(Unfit::Memory);
    };
    Ok(node)
}

/// A fresh node in a box, with the program of the image in each slot.
fn made(
    alloc: Global,
    address: u8,
    ports: u8,
    banks: &[BankNumbers],
    maps: &[MapNumbers],
    image: &[u8],
) -> Result<Box<GuardedNode>, Unfit>
    ensures made { IfOk result
        (λ node. IsNodeMade address ports banks.now maps.now image.now node.value.node) }
    ensures sums { IfOk result (λ node. IsGuarded (Some 0) node.value.node node.value) }
    ensures fault { IfErr result (IsUnopened ports banks.now maps.now image.now) }
{
    let factory = accepted(alloc, maps, image)?;
    fresh(alloc, address, ports, banks, factory)
}

/// Opens a node: banks of zeros, and the program of the image in each slot. A handle that holds a node keeps it. `why`
/// is written at each code except `IS_OPEN`.
#[unsafe(no_mangle)]
pub extern "C" fn sandbar_open(
    alloc: Global,
    handle: &mut Handle,
    address: u8,
    ports: u8,
    banks: &[BankNumbers],
    maps: &[MapNumbers],
    image: &[u8],
    why: &mut Why,
) -> u32
    ensures held { IfSome handle.old.kept (λ _. (result ≡ IS_OPEN) × (why.new ≡ why.old)) }
    ensures reported { handle.old.kept ≡ None
        → ReportsOpening address ports banks.now maps.now image.now handle.new.kept result why.new }
    ensures kept { result ≢ OK → handle.new.kept ≡ handle.old.kept }
{
    if let Some(node) = take(alloc, handle) {
        put(alloc, handle, node);
        return IS_OPEN;
    }
    match made(alloc, address, ports, banks, maps, image) {
        Ok(node) => {
            put(alloc, handle, node);
            *why = no_why();
            OK
        }
        Err(unfit) => {
            *why = unfit.why();
            unfit.code()
        }
    }
}
