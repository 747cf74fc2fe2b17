//! Memory in pages.

ghost use Rattle.std.specs.Prelude.{◌≡◌, ◌≤◌, ◌<◌, ◌+◌, ◌-◌, ◌%◌, ◌^◌, ◌++◌, true, None, [], length, take, drop, replicate, map, slice_get, slice_index_or, slice_set, IfOk};
ghost use Rattle.std.specs.List.{concat};
ghost use Rattle.std.specs.Vec.{vec_items};
ghost use Rattle.rmap.specs.Windows.{lies_inside};
ghost use Rattle.rmap.specs.Checks.{body_line};
ghost use Rattle.bank.specs.Admission.{IsAdmissible};
ghost use Rattle.bank.specs.Effect.{IsDataWithin, memory_at, effect, overlaid};
ghost use Rattle.bank.specs.Answer.{executed_reply, read_reply};
ghost use Rattle.bank.specs.Pages.{ArePages, after_page};

use crate::effect::{change, reply_read};
use crate::reading::Bytes;
use rmap::{Command, Kind, ReplyBuf};
use std::alloc::{AllocError, Global};
use std::marker::Model;

/// How many bytes a page has, except the last one, which may be shorter.
const PAGE: usize = 4096;

/// Memory in pages of [`PAGE`] bytes. The last page may be shorter. Joined they are the memory.
#[derive(Debug, Drop)]
pub(crate) struct Pages {
    pages: Vec<Vec<u8>>,
    size: u32,
}

impl Model for Pages {
    ghost use Rattle.std.specs.Prelude.{◌≡◌, ℕ, List, map, length};
    ghost use Rattle.std.specs.List.{concat};
    ghost use Rattle.std.specs.Vec.{vec_items};
    ghost use Rattle.bank.specs.Pages.{ArePages};

    ghost Value = { List ℕ };

    ghost view = { λ p. concat (map vec_items p.pages.items) };

    ghost invariant = { λ p. ArePages (map vec_items p.pages.items) × (length (concat (map vec_items p.pages.items)) ≡ p.size) };
}

impl Pages {
    /// That many zeros.
    pub(crate) fn zeros(alloc: Global, size: u32) -> Result<Pages, AllocError>
        ensures { IfOk result (λ p. p ≡ replicate size 0) }
    {
        let pages = zero_pages(alloc, size as usize)?;
        Ok(Pages { pages, size })
    }

    /// How many bytes there are.
    pub(crate) fn len(&self) -> u32
        ensures { result ≡ length self.now }
    {
        self.size
    }

    /// The pages, in order.
    pub(crate) fn pages(&self) -> &[Vec<u8>]
        ensures joined { concat (map vec_items result.now) ≡ self.now }
        ensures pages { ArePages (map vec_items result.now) }
    {
        self.pages.as_slice()
    }

    /// The byte at an offset from the first, or `None` past the end.
    pub(crate) fn get(&self, offset: usize) -> Option<u8>
        ensures { result ≡ slice_get self.now offset }
    {
        if offset < self.size as usize {
            self.from(offset).first().copied()
        } else {
            None
        }
    }

    /// The bytes from an offset, counted from the first byte, to the end of their page.
    fn from(&self, offset: usize) -> &[u8]
        requires { offset < length self.now }
        ensures { result.now ≡ take (PAGE - offset % PAGE) (drop offset self.now) }
    {
        let pages = self.pages.as_slice();
        from_byte(&pages[offset / PAGE], offset % PAGE)
    }

    /// Copies the bytes of other memory of the same length.
    pub(crate) fn copy_from(&mut self, other: &Pages)
        requires { length other.now ≡ length self.old }
        ensures { self.new ≡ other.now }
    {
        copy_pages(&mut self.pages, &other.pages);
    }

    /// Puts bytes into memory, the first of them at an offset.
    pub(crate) fn put(&mut self, offset: usize, bytes: &[u8])
        requires { offset + length bytes.now ≤ length self.old }
        ensures { self.new ≡ overlaid offset self.old bytes.now }
    {
        put_bytes(&mut self.pages, offset, bytes);
    }

    /// Does what the command does to its bytes, which lie in the memory that begins at the address `first`. A read
    /// looks for no page.
    pub(crate) fn change(&mut self, first: u32, command: &Command)
        requires admitted { IsAdmissible command.now }
        requires body { body_line command.now ≡ None }
        requires inside { lies_inside first (length self.old) command.now ≡ true }
        requires range { first + length self.old ≤ 2 ^ 32 }
        ensures { memory_at first self.new
            ≡ (effect (memory_at first self.old) command.now).memory }
    {
        match command.kind() {
            Kind::Write | Kind::Rmw => self.change_pages(first, command),
            Kind::Read | Kind::Unused => {}
        }
    }

    /// Does what the command does to its bytes, which are in one page, or in one and the next.
    fn change_pages(&mut self, first: u32, command: &Command)
        requires admitted { IsAdmissible command.now }
        requires body { body_line command.now ≡ None }
        requires inside { lies_inside first (length self.old) command.now ≡ true }
        requires range { first + length self.old ≤ 2 ^ 32 }
        ensures { memory_at first self.new
            ≡ (effect (memory_at first self.old) command.now).memory }
    {
        let k = (command.address() - first) as usize / PAGE;
        let address = first + (k * PAGE) as u32;
        let count = self.pages.as_slice().len();
        change_page(&mut self.pages, k, address, command);
        if k + 1 < count {
            change_page(&mut self.pages, k + 1, address + PAGE as u32, command);
        }
    }
}

impl Bytes for Pages {
    ghost bytes = { λ p. p };

    fn reply_read(&self, first: u32, command: &Command, count: usize, reply: &mut ReplyBuf) {
        let address = command.address();
        let offset = (address - first) as usize;
        let bytes = self.from(offset);
        if !command.increments() || count <= bytes.len() {
            reply_read(reply, command, bytes, address, count);
        } else {
            let rest = &self.from(offset + bytes.len())[..count - bytes.len()];
            reply_read(
                reply,
                command,
                &joined(bytes, rest)[..count],
                address,
                count,
            );
        }
    }
}

/// The pages of that many zeros.
fn zero_pages(alloc: Global, size: usize) -> Result<Vec<Vec<u8>>, AllocError>
    ensures pages { IfOk result (λ pages. ArePages (map vec_items pages.items)) }
    ensures zeros { IfOk result (λ pages. concat (map vec_items pages.items) ≡ replicate size 0) }
{
    let mut pages = full_pages(alloc, size / PAGE)?;
    let rest = size % PAGE;
    if rest == 0 {
        return Ok(pages);
    }
    let last = zero_page(alloc, rest)?;
    pages.push(last)?;
    Ok(pages)
}

/// `count` full pages of zeros.
fn full_pages(alloc: Global, count: usize) -> Result<Vec<Vec<u8>>, AllocError>
    ensures { IfOk result (λ pages. map vec_items pages.items
        ≡ replicate count (replicate PAGE 0)) }
{
    let mut pages = Vec::new(alloc);
    for _ in 0..count {
        pages.push(vec![in alloc; 0; PAGE]?)?;
    }
    Ok(pages)
}

/// A page of `count` zeros.
fn zero_page(alloc: Global, count: usize) -> Result<Vec<u8>, AllocError>
    ensures { IfOk result (λ page. page.items ≡ replicate count 0) }
{
    vec![in alloc; 0; count]
}

/// Copies the bytes of other pages, page by page.
fn copy_pages(pages: &mut Vec<Vec<u8>>, others: &Vec<Vec<u8>>)
    requires { map length (map vec_items others.now.items)
        ≡ map length (map vec_items pages.old.items) }
    ensures { map vec_items pages.new.items ≡ map vec_items others.now.items }
{
    let count = others.as_slice().len();
    for k in 0..count {
        copy_page(pages, others, k);
    }
}

/// Copies the bytes of page k of other pages.
fn copy_page(pages: &mut Vec<Vec<u8>>, others: &Vec<Vec<u8>>, k: usize)
    requires below { k < length pages.old.items }
    requires alike { map length (map vec_items others.now.items)
        ≡ map length (map vec_items pages.old.items) }
    ensures { map vec_items pages.new.items
        ≡ slice_set (map vec_items pages.old.items) k (slice_index_or (map vec_items others.now.items) k []) }
{
    copy_bytes(&mut pages[k], &others[k]);
}

/// Copies the bytes of a page of the same length.
fn copy_bytes(page: &mut Vec<u8>, other: &Vec<u8>)
    requires { length other.now.items ≡ length page.old.items }
    ensures { page.new.items ≡ other.now.items }
{
    page.copy_from_slice(other);
}

/// Puts bytes into the pages, the first of them at an offset.
fn put_bytes(pages: &mut Vec<Vec<u8>>, offset: usize, bytes: &[u8])
    requires pages { ArePages (map vec_items pages.old.items) }
    requires inside { offset + length bytes.now ≤ length (concat (map vec_items pages.old.items)) }
    requires few { length (concat (map vec_items pages.old.items)) < 2 ^ 32 }
    ensures pages { ArePages (map vec_items pages.new.items) }
    ensures value { concat (map vec_items pages.new.items)
        ≡ overlaid offset (concat (map vec_items pages.old.items)) bytes.now }
{
    for i in 0..bytes.len() {
        put_byte(pages, offset + i, bytes[i]);
    }
}

/// Puts a byte at an offset, counted in bytes from the first.
fn put_byte(pages: &mut Vec<Vec<u8>>, offset: usize, byte: u8)
    requires pages { ArePages (map vec_items pages.old.items) }
    requires inside { offset < length (concat (map vec_items pages.old.items)) }
    ensures pages { ArePages (map vec_items pages.new.items) }
    ensures value { concat (map vec_items pages.new.items)
        ≡ slice_set (concat (map vec_items pages.old.items)) offset byte }
{
    set_byte(&mut pages[offset / PAGE], offset % PAGE, byte);
}

/// Puts a byte into a page.
fn set_byte(page: &mut Vec<u8>, at: usize, byte: u8)
    requires { at < length page.old.items }
    ensures { page.new.items ≡ slice_set page.old.items at byte }
{
    page[at] = byte;
}

/// Does what the command does to those of its bytes that are in page k, which begins at that address.
fn change_page(pages: &mut Vec<Vec<u8>>, k: usize, address: u32, command: &Command)
    requires admitted { IsAdmissible command.now }
    requires body { body_line command.now ≡ None }
    requires below { k < length pages.old.items }
    ensures { map vec_items pages.new.items
        ≡ after_page address (map vec_items pages.old.items) k command.now }
{
    change_bytes(&mut pages[k], address, command);
}

/// Does what the command does to those of its bytes that are in the page, which begins at that address.
fn change_bytes(page: &mut Vec<u8>, address: u32, command: &Command)
    requires admitted { IsAdmissible command.now }
    requires body { body_line command.now ≡ None }
    ensures { memory_at address page.new.items
        ≡ (effect (memory_at address page.old.items) command.now).memory }
{
    change(page, address, command);
}

/// The bytes of a page from an index.
fn from_byte(page: &Vec<u8>, start: usize) -> &[u8]
    requires { start ≤ length page.now.items }
    ensures { result.now ≡ take (length page.now.items - start) (drop start page.now.items) }
{
    &page[start..]
}

/// The bytes at the end of a page and those at the beginning of the next, and zeros after them.
fn joined(end: &[u8], next: &[u8]) -> [u8; PAGE]
    requires { length end.now + length next.now ≤ PAGE }
    ensures { take (length end.now + length next.now) result ≡ end.now ++ next.now }
{
    let mut bytes = [0; PAGE];
    put_at(&mut bytes, 0, end);
    put_at(&mut bytes, end.len(), next);
    bytes
}

/// Puts some bytes after the first `start`.
fn put_at(bytes: &mut [u8], start: usize, part: &[u8])
    requires { start + length part.now ≤ length bytes.old }
    ensures value { take (start + length part.now) bytes.new ≡ take start bytes.old ++ part.now }
    ensures length { length bytes.new ≡ length bytes.old }
{
    bytes[start..start + part.len()].copy_from_slice(part);
}
