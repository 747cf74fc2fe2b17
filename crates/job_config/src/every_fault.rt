//! All faults of a node's file, found in one run, as text for the user.

ghost use Rattle.job_config.specs.Reads.{SomeRead};

use crate::banks::{greatest_size, is_count};
use crate::configuration::{Configuration, configuration_of};
use crate::faults::{ConfigFault, NameWord};
use crate::maps::configured_kind_of;
use crate::numbers::{number_at_key, number_or};
use crate::own_node::{LEAST_ADDRESS, MOST_ADDRESS, NODE_ADDRESS};
use crate::places::{NumberKey, TableKind, TablePlace};
use crate::reading::{contents_in, first_program, image_in, slot_in};
use crate::tables::{OWN, held, list_at, table_in};
use bank::MAX_ROOM;
use bver::MapSizes;
use job_parts::storage::Files;
use machine::{MAX_CELLS, MAX_MAPS};
use node_parts::BankConfig;
use spw::PORTS;
use std::alloc::{AllocError, Global};
use toml::{Table, Value};

/// What is between two faults: the next is in a line of its own, as far to the right as the first.
const NEXT_LINE: &str = "\n    ";

/// The faults of the node's file of that name, in the order in which they are found: each with its place, and what is wanted.
#[derive(Drop)]
pub(crate) struct Faults<'a> {
    name: &'a str,
    text: String,
}

impl<'a> Faults<'a> {
    /// No fault of the file of that name.
    pub(crate) fn new(alloc: Global, name: &'a str) -> Faults<'a> {
        Faults {
            name,
            text: String::new(alloc),
        }
    }

    /// Whether no fault was found.
    pub(crate) fn is_empty(&self) -> bool {
        self.text.is_empty()
    }

    /// The text of the faults.
    pub(crate) fn into_text(self) -> String {
        self.text
    }

    /// Adds a fault.
    pub(crate) fn add(&mut self, fault: &ConfigFault) -> Result<(), AllocError> {
        if !self.text.is_empty() {
            self.text.push_str(NEXT_LINE)?;
        }
        let name = self.name;
        write!(self.text, "{name} {fault}")
    }

    /// What was read; or `None`, and the fault of the reading is added.
    pub(crate) fn note<T>(
        &mut self,
        read: Result<T, ConfigFault>,
    ) -> Result<Option<T>, AllocError> {
        match read {
            Ok(value) => Ok(Some(value)),
            Err(ConfigFault::Memory) => Err(AllocError),
            Err(fault) => {
                self.add(&fault)?;
                Ok(None)
            }
        }
    }

    /// Adds each key that a table may not have, by the bytes of keys.
    fn note_table(
        &mut self,
        alloc: Global,
        table: &Table,
        place: TablePlace,
    ) -> Result<(), AllocError> {
        for (key, _value) in table.iter() {
            if !place.kind.knows(key.as_str()) {
                let key = NameWord::new(alloc, key.as_str())?;
                self.add(&ConfigFault::UnknownKey { place, key })?;
            }
        }
        Ok(())
    }

    /// Adds each key that a table of a list may not have.
    fn note_tables(
        &mut self,
        alloc: Global,
        list: &[Value],
        kind: TableKind,
    ) -> Result<(), AllocError> {
        for number in 0..list.len() {
            if let Some(table) = list[number].as_table() {
                self.note_table(alloc, table, TablePlace { kind, number })?;
            }
        }
        Ok(())
    }

    /// Adds each key that a table of a kind may not have.
    fn note_kind(
        &mut self,
        alloc: Global,
        table: &Table,
        kind: TableKind,
    ) -> Result<(), AllocError> {
        let Some(value) = held(table, kind.word()) else {
            return Ok(());
        };
        match value.as_array() {
            Some(list) => self.note_tables(alloc, list.as_slice(), kind),
            None => Ok(()),
        }
    }

    /// Adds each key that no node has: of the node's own table, then of banks, maps and publishes.
    fn note_keys(&mut self, alloc: Global, table: &Table) -> Result<(), AllocError> {
        self.note_table(alloc, table, OWN)?;
        self.note_kind(alloc, table, TableKind::Bank)?;
        self.note_kind(alloc, table, TableKind::Map)?;
        self.note_kind(alloc, table, TableKind::Publish)
    }

    /// Adds what is wrong with the table of a bank. Without a base its size may be what it is at 0.
    fn note_bank(&mut self, item: &Value, place: TablePlace) -> Result<(), AllocError> {
        let Some(table) = self.note(table_in(item, place))? else {
            return Ok(());
        };
        let base = self.note(number_at_key(table, place, NumberKey::Base, 0, u32::MAX))?;
        let most = greatest_size(base.unwrap_or(0));
        self.note(number_at_key(table, place, NumberKey::Size, 1, most))?;
        self.note(number_at_key(table, place, NumberKey::Journal, 1, MAX_ROOM))?;
        Ok(())
    }

    /// Adds what is wrong with the banks.
    fn note_banks(&mut self, table: &Table) -> Result<(), AllocError> {
        let Some(Some(list)) = self.note(list_at(table, TableKind::Bank))? else {
            return Ok(());
        };
        let (kind, count) = (TableKind::Bank, list.len());
        if !is_count(count) {
            self.add(&ConfigFault::BadCount { kind, count })?;
        }
        for number in 0..count {
            self.note_bank(&list[number], TablePlace { kind, number })?;
        }
        Ok(())
    }

    /// Adds what is wrong with the table of a map. `left` cells are left before it; returns how many are left after it.
    fn note_map(&mut self, item: &Value, place: TablePlace, left: u16) -> Result<u16, AllocError> {
        let Some(table) = self.note(table_in(item, place))? else {
            return Ok(left);
        };
        let most = u32::from(left);
        let cells = self.note(number_at_key(table, place, NumberKey::Cells, 1, most))?;
        self.note(configured_kind_of(table, place))?;
        let taken = u16::try_from(cells.unwrap_or(0)).unwrap_or(left);
        Ok(left.saturating_sub(taken))
    }

    /// Adds what is wrong with the maps.
    fn note_maps(&mut self, table: &Table) -> Result<(), AllocError> {
        let Some(Some(list)) = self.note(list_at(table, TableKind::Map))? else {
            return Ok(());
        };
        let (kind, count) = (TableKind::Map, list.len());
        if count > MAX_MAPS {
            self.add(&ConfigFault::BadCount { kind, count })?;
        }
        let mut left = MAX_CELLS;
        for number in 0..count {
            left = self.note_map(&list[number], TablePlace { kind, number }, left)?;
        }
        Ok(())
    }

    /// Adds what is wrong with the numbers of a table: the keys, the address, the ports, the banks and the maps.
    pub(crate) fn note_numbers(&mut self, alloc: Global, table: &Table) -> Result<(), AllocError> {
        self.note_keys(alloc, table)?;
        let (least, most) = (u32::from(LEAST_ADDRESS), u32::from(MOST_ADDRESS));
        let other = u32::from(NODE_ADDRESS);
        self.note(number_or(table, OWN, NumberKey::Address, least, most, other))?;
        let most = u32::from(PORTS);
        self.note(number_or(table, OWN, NumberKey::Ports, 1, most, 1))?;
        self.note_banks(table)?;
        self.note_maps(table)
    }

    /// Adds what is wrong with the bytes that the bank of that number begins with, by the list of the tables of banks.
    fn note_own<F: Files>(
        &mut self,
        alloc: Global,
        files: &mut F,
        list: &[Value],
        banks: &[BankConfig],
        number: usize,
    ) -> Result<(), AllocError>
        ensures read { SomeRead F.reads files.old files.new }
    {
        let (Some(item), Some(bank)) = (list.get(number), banks.get(number)) else {
            return Ok(());
        };
        let kind = TableKind::Bank;
        let place = TablePlace { kind, number };
        let contents = contents_in(alloc, self.name, files, item, place, bank.size);
        self.note(contents)?;
        Ok(())
    }

    /// Adds what is wrong with the bytes that each of these banks begins with, by the list of their tables.
    fn note_contents<F: Files>(
        &mut self,
        alloc: Global,
        files: &mut F,
        list: &[Value],
        banks: &[BankConfig],
    ) -> Result<(), AllocError>
        ensures read { SomeRead F.reads files.old files.new }
    {
        for number in 0..list.len() {
            self.note_own(alloc, files, list, banks, number)?;
        }
        Ok(())
    }

    /// Adds what is wrong with the table of a publish.
    fn note_publish<F: Files>(
        &mut self,
        alloc: Global,
        files: &mut F,
        item: &Value,
        place: TablePlace,
        sizes: MapSizes,
    ) -> Result<(), AllocError>
        ensures read { SomeRead F.reads files.old files.new }
    {
        let Some(table) = self.note(table_in(item, place))? else {
            return Ok(());
        };
        self.note(slot_in(table, place))?;
        let program = image_in(alloc, self.name, files, table, place, sizes);
        self.note(program)?;
        Ok(())
    }

    /// Adds what is wrong with the publishes of a list of tables.
    fn note_publishes<F: Files>(
        &mut self,
        alloc: Global,
        files: &mut F,
        list: &[Value],
        sizes: MapSizes,
    ) -> Result<(), AllocError>
        ensures read { SomeRead F.reads files.old files.new }
    {
        let kind = TableKind::Publish;
        for number in 0..list.len() {
            let place = TablePlace { kind, number };
            self.note_publish(alloc, files, &list[number], place, sizes)?;
        }
        Ok(())
    }

    /// Adds what is wrong with the bytes that the banks of a table begin with.
    fn note_all_contents<F: Files>(
        &mut self,
        alloc: Global,
        files: &mut F,
        table: &Table,
        banks: &[BankConfig],
    ) -> Result<(), AllocError>
        ensures read { SomeRead F.reads files.old files.new }
    {
        let Some(Some(list)) = self.note(list_at(table, TableKind::Bank))? else {
            return Ok(());
        };
        self.note_contents(alloc, files, list, banks)
    }

    /// Adds what is wrong with the program that a table names.
    fn note_program<F: Files>(
        &mut self,
        alloc: Global,
        files: &mut F,
        table: &Table,
        sizes: MapSizes,
    ) -> Result<(), AllocError>
        ensures read { SomeRead F.reads files.old files.new }
    {
        let program = first_program(alloc, self.name, files, table, sizes);
        self.note(program)?;
        Ok(())
    }

    /// Adds what is wrong with the publishes of a table.
    fn note_all_publishes<F: Files>(
        &mut self,
        alloc: Global,
        files: &mut F,
        table: &Table,
        sizes: MapSizes,
    ) -> Result<(), AllocError>
        ensures read { SomeRead F.reads files.old files.new }
    {
        let Some(Some(list)) = self.note(list_at(table, TableKind::Publish))? else {
            return Ok(());
        };
        self.note_publishes(alloc, files, list, sizes)
    }

    /// Adds what is wrong with the files that a table of that configuration names: the contents of banks, the program and the
    /// publishes.
    fn note_files<F: Files>(
        &mut self,
        alloc: Global,
        files: &mut F,
        table: &Table,
        configuration: &Configuration,
    ) -> Result<(), AllocError>
        ensures read { SomeRead F.reads files.old files.new }
    {
        let sizes = configuration.sizes;
        self.note_all_contents(alloc, files, table, configuration.banks.as_slice())?;
        self.note_program(alloc, files, table, sizes)?;
        self.note_all_publishes(alloc, files, table, sizes)
    }

    /// Adds what is wrong with the files that a table names, whose numbers have no fault.
    pub(crate) fn note_named<F: Files>(
        &mut self,
        alloc: Global,
        files: &mut F,
        table: &Table,
    ) -> Result<(), AllocError>
        ensures read { SomeRead F.reads files.old files.new }
    {
        let Some(configuration) = self.note(configuration_of(alloc, table))? else {
            return Ok(());
        };
        self.note_files(alloc, files, table, &configuration)
    }
}
