//! The world: the state of a node as plain values.

ghost use Rattle.std.specs.Prelude.{◌≡◌, ◌<◌, ◌≤◌, ℕ, length, map, replicate, option_map, slice_get, All, Some, None, IfOk, IfErr, IfSome, IfNone, OnOk};
ghost use Rattle.std.specs.Arc.{arc_value};
ghost use Rattle.std.specs.List.{range_with_len};
ghost use Rattle.machine.specs.Sizes.{IsInside};
ghost use Rattle.node_parts.specs.Nodes.{ArePortShares, AreSharesOf, fresh_banks, limit_fault};
ghost use Rattle.sched.specs.Firsts.{AddsFirst, IsFirstOfWorld, slot_with_program};
ghost use Rattle.sched.specs.Headline.{IsNode};
ghost use Rattle.sched.specs.History.{History, Start, opened};
ghost use Rattle.sched.specs.Standing.{IsLent};
ghost use Rattle.sched.specs.Looking.{Node};
ghost use Rattle.sched.specs.Worlds.{IsUnmade, IsWorldFault, IsWorldOf, first_port, generation_in, node_of, node_with, shown_in_all, world_staging_in};
ghost use Rattle.plain_cells.specs.Words.{key_word_at, word_in};

use crate::faults::WorldFault;
use crate::port::Port;
use crate::shown::SlotVersion;
use crate::standing::Standing;
use bank::Bank;
use bpf::Image;
use bver::{Accepted, verify};
use machine::MapSizes;
use node_parts::{Banks, NodeConfig, PortShares, made_are_paired};
use node_programs::Staging;
use plain_cells::CellWords;
use rmap::{MAX_BANKS, ReplyBuf, Windows};
use spw::PORTS;
use std::alloc::{AllocError, Global};
use std::marker::Model;
use std::sync::Arc;

/// The state of a node as plain values, between two events: its banks, the words of its cells, the program of each slot,
/// and what each of its ports has. [`step`](crate::step) takes it from one event to the next. `reply` is room for the
/// reply of an event, and no part of the state.
#[derive(Drop)]
pub struct World {
    pub(crate) windows: Windows,
    pub(crate) sizes: MapSizes,
    pub(crate) banks: Banks,
    pub(crate) words: CellWords,
    pub(crate) programs: [SlotVersion; 4],
    pub(crate) count: u32,
    pub(crate) ports: Vec<Port>,
    pub(crate) reply: ReplyBuf,
}

impl Model for World {
    ghost use Rattle.sched.specs.Worlds.{IsWorld, WorldValue};

    ghost Value = { WorldValue };

    ghost view = { λ w. record { windows = w.windows; sizes = w.sizes; banks = w.banks; words = w.words; programs = w.programs; count = w.count; ports = w.ports.items } };

    ghost invariant = { λ w. IsWorld (record { windows = w.windows; sizes = w.sizes; banks = w.banks; words = w.words; programs = w.programs; count = w.count; ports = w.ports.items }) };
}

/// The factory program, accepted for those maps.
fn accepted(alloc: Global, factory: &Image, maps: &MapSizes) -> Result<Accepted, WorldFault>
    ensures program { IfOk result (λ a. a.program ≡ factory.now) }
    ensures sizes { IfOk result (λ a. a.sizes ≡ maps.now) }
    ensures fault { IfErr result (IsWorldFault None maps.now factory.now) }
{
    let image = factory.copy()?;
    Ok(verify(alloc, image, maps)?)
}

/// The program in each slot, of generation 0.
fn in_all_slots(program: Arc<Accepted>) -> Result<[SlotVersion; 4], AllocError>
    ensures { IfOk result (λ shown. shown ≡ shown_in_all (arc_value program)) }
{
    Ok([
        SlotVersion::first(&program)?,
        SlotVersion::first(&program)?,
        SlotVersion::first(&program)?,
        SlotVersion::first(&program)?,
    ])
}

/// The ports, each with its shares of that many banks, an empty staging and no command.
fn free_ports(alloc: Global, mut by_port: Vec<PortShares>) -> Result<Vec<Port>, AllocError>
    ensures { IfOk result (λ ports. (banks count : ℕ) → ArePortShares banks count by_port.items
        → ports.items ≡ map (first_port banks) (range_with_len 0 count)) }
{
    let mut ports = Vec::with_capacity(alloc, by_port.len())?;
    for port in 0..by_port.len() {
        let shares = by_port[port].take(alloc);
        ports.push(Port::free(shares, Staging::new(alloc)?))?;
    }
    Ok(ports)
}

impl World {
    /// The world of a node before any event: banks of zero bytes, words of 0, and the factory program in each slot,
    /// with generation 0.
    ///
    /// # Errors
    ///
    /// - `Config` if the ports or banks are outside their limits. This is tested first.
    /// - `Image` if the verifier refuses the factory program. Nothing justifies the program then for those maps.
    /// - `Memory` if memory was refused.
    pub fn new(alloc: Global, config: &NodeConfig, factory: &Image) -> Result<World, WorldFault>
        ensures world { IfOk result (IsWorldOf (node_of config.now factory.now) Start) }
        ensures limits { IfOk result (λ _. limit_fault config.now ≡ None) }
        ensures node { IfOk result (λ _. IsNode (node_of config.now factory.now)) }
        ensures fault { IfErr result
            (IsWorldFault (limit_fault config.now) config.now.sizes factory.now) }
    {
        let (banks, by_port) = Banks::new(alloc, config)?;
        let factory = accepted(alloc, factory, &config.sizes)?;
        Ok(World::of(alloc, config, banks, by_port, factory)?)
    }

    /// The world of a node before any event, as [`World::new`] makes it, with a factory program that the verifier
    /// accepted before. The condition is a program that was accepted for the maps of the configuration.
    ///
    /// # Errors
    ///
    /// - `Config` if the ports or banks are outside their limits.
    /// - `Memory` if memory was refused.
    pub fn with_factory(
        alloc: Global,
        config: &NodeConfig,
        factory: Accepted,
    ) -> Result<World, WorldFault>
        requires { factory.sizes ≡ config.now.sizes }
        ensures world { IfOk result (IsWorldOf (node_of config.now factory.program) Start) }
        ensures limits { IfOk result (λ _. limit_fault config.now ≡ None) }
        ensures node { IfOk result (λ _. IsNode (node_of config.now factory.program)) }
        ensures fault { IfErr result (IsUnmade (limit_fault config.now)) }
    {
        let (banks, by_port) = Banks::new(alloc, config)?;
        Ok(World::of(alloc, config, banks, by_port, factory)?)
    }

    /// The world of a node before any event, as [`World::with_factory`] makes it, with these programs published after
    /// that, in order. Each is published for its slot, with the next generation, the first with 1. Stagings, load
    /// results, banks and words are those of a world without them. The conditions are programs that were accepted for
    /// the maps of the configuration, slots of 0 to 3, and at most 4,294,967,295 publishes.
    ///
    /// # Errors
    ///
    /// - `Config` if the ports or banks are outside their limits.
    /// - `Memory` if memory was refused. There is no world then.
    pub fn with_programs(
        alloc: Global,
        config: &NodeConfig,
        factory: Accepted,
        firsts: &[(u8, Accepted)],
    ) -> Result<World, WorldFault>
        requires factory { factory.sizes ≡ config.now.sizes }
        requires firsts { All (IsFirstOfWorld config.now.sizes) firsts.now }
        requires few { length firsts.now ≤ 4294967295 }
        ensures world { IfOk result
            (IsWorldOf (node_with config.now factory.program (map slot_with_program firsts.now)) Start) }
        ensures limits { IfOk result (λ _. limit_fault config.now ≡ None) }
        ensures node { IfOk result (λ _.
            IsNode (node_with config.now factory.program (map slot_with_program firsts.now))) }
        ensures fault { IfErr result (IsUnmade (limit_fault config.now)) }
    {
        let mut world = World::with_factory(alloc, config, factory)?;
        for index in 0..firsts.len() {
            let first = &firsts[index];
            let program = first.1.copy()?;
            world.publish_first(alloc, first.0, program)?;
        }
        Ok(world)
    }

    /// Publishes a program for a slot before the first event. The conditions are a slot below 4, a program that was accepted for
    /// the maps of the world, and a generation that is left.
    fn publish_first(
        &mut self,
        alloc: Global,
        slot: u8,
        program: Accepted,
    ) -> Result<(), AllocError>
        requires first { IsFirstOfWorld self.old.sizes (slot, program) }
        requires few { self.old.count < 4294967295 }
        ensures { OnOk result (AddsFirst (slot, program) self.old self.new) }
    {
        let _justified = program.image();
        let shown = SlotVersion {
            program: Arc::new(alloc, program)?,
            generation: self.count + 1,
        };
        self.count = shown.generation;
        self.programs[usize::from(slot)] = shown;
        Ok(())
    }

    /// The world of a node before any event, of its banks, its ports' shares of them, and its factory program.
    fn of(
        alloc: Global,
        config: &NodeConfig,
        banks: Banks,
        by_port: Vec<PortShares>,
        factory: Accepted,
    ) -> Result<World, AllocError>
        requires banks { banks ≡ fresh_banks config.now }
        requires by_port { AreSharesOf config.now by_port.items }
        requires few_ports { config.now.ports ≤ PORTS }
        requires few_banks { length config.now.banks.now ≤ MAX_BANKS }
        requires factory { factory.sizes ≡ config.now.sizes }
        ensures world { IfOk result (IsWorldOf (node_of config.now factory.program) Start) }
        ensures node { IfOk result (λ _. IsNode (node_of config.now factory.program)) }
    {
        made_are_paired();
        let _justified = factory.image();
        let factory = Arc::new(alloc, factory)?;
        Ok(World {
            windows: config.windows(),
            sizes: config.sizes,
            banks,
            words: CellWords::new(alloc, &config.sizes)?,
            programs: in_all_slots(factory)?,
            count: 0,
            ports: free_ports(alloc, by_port)?,
            reply: ReplyBuf::new(),
        })
    }

    /// How many ports there are, at most 32.
    pub fn ports(&self) -> u8
        ensures value { result ≡ length self.now.ports }
        ensures few { result ≤ 32 }
    {
        self.ports.len() as u8
    }

    /// How many banks there are.
    pub fn banks(&self) -> usize
        ensures { result ≡ length self.now.banks }
    {
        self.banks.len()
    }

    /// The bank of that number. The condition is a number below [`World::banks`].
    pub fn bank(&self, k: u8) -> &Bank
        requires { k < length self.now.banks }
        ensures { slice_get self.now.banks k ≡ Some result.now }
    {
        self.banks.bank(k)
    }

    /// The word of a cell, or `None` if there is no such map or the map has no such key.
    pub fn word(&self, map: u8, key: u16) -> Option<u64>
        ensures value { result ≡ word_in self.now.words map key }
        ensures inside { IsInside self.now.sizes map key
            → result ≡ Some (key_word_at self.now.words map key) }
    {
        self.words.get(map, key)
    }

    /// The generation of the program of a slot. The condition is a slot below 4.
    pub fn generation(&self, slot: u8) -> u32
        requires { slot < 4 }
        ensures { Some result ≡ generation_in (slice_get self.now.programs slot) }
    {
        let shown = &self.programs[usize::from(slot)];
        shown.generation
    }

    /// The staging of a port, with the result of its last load, or `None` if there is no such port.
    pub fn staging(&self, port: u8) -> Option<&Staging>
        ensures { option_map (λ staging. staging.now) result
            ≡ world_staging_in (slice_get self.now.ports port) }
    {
        match self.ports.get(usize::from(port)) {
            Some(port) => Some(port.staging()),
            None => None,
        }
    }

    /// The command that is judged at a port, as it is now, or `None` if there is none or no such port.
    pub fn standing(&self, port: u8) -> Option<Standing<'_>>
        ensures lent { IfSome result (λ standing. (n : Node) (h : History)
            → IsWorldOf n h self.now → IsLent n port (opened h port) (Some standing)) }
        ensures free { IfNone result ((n : Node) (h : History)
            → IsWorldOf n h self.now → port < n.ports → opened h port ≡ None) }
    {
        match self.ports.get(usize::from(port)) {
            Some(port) => port.standing(),
            None => None,
        }
    }
}
