//! The policies of files: images, or tables.

ghost use Rattle.std.specs.Prelude.{◌≡◌, ◌≤◌, IfErr, IfOk, false, length};
ghost use Rattle.bpf.specs.Program.{IsProgram, image_bytes};
ghost use Rattle.rmap.specs.declared.boot.TheConstants.{STAGING_SIZE};
ghost use Rattle.job_rehearse.specs.Policies.{AreRehearsed, AreImages, AreNoImages, ArePolicies, AreUnasked, AreUnready, GivesNoPolicy, HoldsAsked, HoldsBoth, HoldsNotAsked, HoldsNotBoth, HoldsPolicyFor, IsCompiledOf, IsFaultyImage, HasNoPolicy, IsNotAccepted, IsTextOfTable, IsImageTooLong, begins_image};
ghost use Rattle.job_rehearse.specs.declared.policies.NoPolicy.TheVariants.{Ended};

use crate::askers::{LoadInitiator, askers_of};
use crate::rehearse::RehearseWords;
use bpf::{Image, ImageFault};
use bver::{Accepted, verify};
use job_parts::faults::Fault;
use job_parts::programs::bytes_in;
use job_parts::storage::Files;
use machine::MapSizes;
use policy::{Policy, TextFault, compile_policy};
use rmap::STAGING_SIZE;
use std::alloc::Global;

/// The bytes with which an image begins.
const MAGIC: [u8; 4] = *b"BPFA";

/// Why there are no policies.
#[derive(Debug, Drop)]
pub enum NoPolicy<'a> {
    /// The fault ends the job.
    Ended(Fault<'a>),
    /// The table in the file of this name has a fault.
    BadTable(&'a str, TextFault),
}

impl<'a> From<Fault<'a>> for NoPolicy<'a> {
    ghost from_gives = { λ fault none. none ≡ Ended fault };

    fn from(fault: Fault<'a>) -> Self {
        NoPolicy::Ended(fault)
    }
}

/// The images of two policies.
#[derive(Drop)]
struct Images {
    /// The image of the old policy.
    old: Image,
    /// The image of the new policy.
    new: Image,
    /// The table that the new policy is, if it is one.
    table: Option<Policy>,
}

/// The policies of a rehearsal.
#[derive(Drop)]
pub struct Policies {
    /// The program of the old policy, which may judge on the node.
    pub program: Accepted,
    /// The bytes of the image of the old policy, at most as many as the staging has.
    pub old: Vec<u8>,
    /// The bytes of the image of the new policy, at most as many as the staging has.
    pub new: Vec<u8>,
}

/// The policies, of which the new one is asked.
#[derive(Drop)]
pub struct ComparedPolicies {
    /// The policies.
    pub policies: Policies,
    /// The program of the new policy, which may judge on the node.
    pub judge: Accepted,
    /// Whose loads it is asked about.
    pub askers: Vec<LoadInitiator>,
}

/// Whether bytes begin as those of an image do.
fn begins_image(bytes: &[u8]) -> bool
    ensures { result ≡ begins_image bytes.now }
{
    bytes.starts_with(&MAGIC)
}

/// The image that the bytes are.
fn image_of<'a>(alloc: Global, bytes: &[u8]) -> Result<Image, Fault<'a>>
    ensures image { IfOk result (λ image. IsProgram image × (bytes.now ≡ image_bytes image)) }
    ensures refused { IfErr result (IsFaultyImage bytes.now) }
{
    Ok(Image::read(alloc, bytes)?)
}

/// The table that the bytes of the file of this name are, without a fault for a node with maps of these sizes.
fn table_of<'a>(
    alloc: Global,
    name: &'a str,
    bytes: Vec<u8>,
    sizes: &MapSizes,
) -> Result<Policy, NoPolicy<'a>>
    requires { begins_image bytes.items ≡ false }
    ensures table { IfOk result (IsTextOfTable sizes.now bytes.items) }
    ensures none { IfErr result (HasNoPolicy name.now sizes.now bytes.items) }
{
    let Ok(text) = String::from_utf8(bytes) else {
        return Err(NoPolicy::Ended(Fault::CannotRead(name)));
    };
    match Policy::read_for(alloc, text.as_str(), sizes) {
        Ok(table) => Ok(table),
        Err(fault) => Err(NoPolicy::BadTable(name, fault)),
    }
}

/// The image of the table that the bytes of the file of this name are, and the table.
fn compiled<'a>(
    alloc: Global,
    name: &'a str,
    bytes: Vec<u8>,
    sizes: &MapSizes,
) -> Result<(Image, Policy), NoPolicy<'a>>
    requires { begins_image bytes.items ≡ false }
    ensures policy { IfOk result (λ made. IsCompiledOf sizes.now bytes.items made.0 made.1) }
    ensures none { IfErr result (HasNoPolicy name.now sizes.now bytes.items) }
{
    let table = table_of(alloc, name, bytes, sizes)?;
    match compile_policy(alloc, &table, sizes) {
        Ok(image) => Ok((image, table)),
        // Only memory can be refused to it: the table has no fault for these maps.
        Err(_) => Err(NoPolicy::Ended(Fault::NoMemory)),
    }
}

/// The image of the policy in the file of this name, for a node with maps of these sizes, and the table, if it is one.
/// It is the image that the file has, or that of its table.
fn policy_in<'a, F: Files>(
    alloc: Global,
    files: &mut F,
    name: &'a str,
    sizes: &MapSizes,
) -> Result<(Image, Option<Policy>), NoPolicy<'a>>
    ensures policy { IfOk result (λ made.
        HoldsPolicyFor F.reads files.old name.now sizes.now made.0 made.1 files.new) }
    ensures none { IfErr result
        (GivesNoPolicy F.reads files.old name.now sizes.now files.new) }
{
    let bytes = bytes_in(alloc, files, name)?;
    if begins_image(bytes.as_slice()) {
        return Ok((image_of(alloc, bytes.as_slice())?, None));
    }
    let (image, table) = compiled(alloc, name, bytes, sizes)?;
    Ok((image, Some(table)))
}

/// The images of the policies in two files, read in this order.
fn images_read<'a, F: Files>(
    alloc: Global,
    words: &'a RehearseWords,
    sizes: &MapSizes,
    files: &mut F,
) -> Result<Images, NoPolicy<'a>>
    ensures images { IfOk result (λ made. AreImages F.reads words.now sizes.now files.old made files.new) }
    ensures none { IfErr result (AreNoImages F.reads words.now sizes.now files.old files.new) }
{
    let (old, _) = policy_in(alloc, files, words.old.as_str(), sizes)?;
    let (new, table) = policy_in(alloc, files, words.new.as_str(), sizes)?;
    Ok(Images { old, new, table })
}

/// The program of an image, which may judge on a node with maps of these sizes.
fn accepted<'a>(alloc: Global, image: &Image, sizes: &MapSizes) -> Result<Accepted, Fault<'a>>
    ensures program { IfOk result (λ program. program.program ≡ image.now) }
    ensures sizes { IfOk result (λ program. program.sizes ≡ sizes.now) }
    ensures refused { IfErr result (IsNotAccepted image.now sizes.now) }
{
    Ok(verify(alloc, image.copy()?, sizes)?)
}

/// The bytes of an image, at most as many as the staging has.
pub(crate) fn bytes_of<'a>(image: &Image) -> Result<Vec<u8>, Fault<'a>>
    ensures bytes { IfOk result (λ bytes. bytes.items ≡ image_bytes image.now) }
    ensures short { IfOk result (λ bytes. length bytes.items ≤ STAGING_SIZE) }
    ensures refused { IfErr result (IsImageTooLong image.now) }
{
    let bytes = image.write()?;
    if bytes.len() > STAGING_SIZE as usize {
        return Err(Fault::BadImage(ImageFault::Length));
    }
    Ok(bytes)
}

/// What a rehearsal needs of two images.
fn policies_of<'a>(
    alloc: Global,
    old: &Image,
    new: &Image,
    sizes: &MapSizes,
) -> Result<Policies, Fault<'a>>
    ensures policies { IfOk result (ArePolicies old.now new.now sizes.now) }
    ensures refused { IfErr result (AreUnready old.now new.now sizes.now) }
{
    let program = accepted(alloc, old, sizes)?;
    let old = bytes_of(old)?;
    let new = bytes_of(new)?;
    Ok(Policies { program, old, new })
}

/// The policies of a rehearsal, of the files that the words name, for a node with maps of these sizes.
///
/// # Errors
///
/// Faults are found in this order: the file of the old policy, that policy, the file of the new one, that policy, and
/// whether the old one may judge on the node.
pub fn policies_in<'a, F: Files>(
    alloc: Global,
    words: &'a RehearseWords,
    sizes: &MapSizes,
    files: &mut F,
) -> Result<Policies, NoPolicy<'a>>
    ensures policies { IfOk result (HoldsBoth F.reads words.now sizes.now files.old files.new) }
    ensures sizes { IfOk result (λ made. made.program.sizes ≡ sizes.now) }
    ensures none { IfErr result (HoldsNotBoth F.reads words.now sizes.now files.old files.new) }
{
    let images = images_read(alloc, words, sizes, files)?;
    Ok(policies_of(alloc, &images.old, &images.new, sizes)?)
}

/// What is asked of two images.
fn asked_of<'a>(
    alloc: Global,
    images: &Images,
    sizes: &MapSizes,
) -> Result<ComparedPolicies, Fault<'a>>
    ensures asked { IfOk result (AreRehearsed images.now sizes.now) }
    ensures refused { IfErr result (AreUnasked images.now sizes.now) }
{
    let policies = policies_of(alloc, &images.old, &images.new, sizes)?;
    let judge = accepted(alloc, &images.new, sizes)?;
    let askers = askers_of(alloc, &images.table)?;
    Ok(ComparedPolicies {
        policies,
        judge,
        askers,
    })
}

/// The policies, of which the new one is asked, of the files that the words name, for a node with maps of these sizes.
///
/// # Errors
///
/// Those of [`policies_in`], in its order, and then whether the new policy may judge on the node.
pub fn asked_in<'a, F: Files>(
    alloc: Global,
    words: &'a RehearseWords,
    sizes: &MapSizes,
    files: &mut F,
) -> Result<ComparedPolicies, NoPolicy<'a>>
    ensures asked { IfOk result (HoldsAsked F.reads words.now sizes.now files.old files.new) }
    ensures none { IfErr result (HoldsNotAsked F.reads words.now sizes.now files.old files.new) }
{
    let images = images_read(alloc, words, sizes, files)?;
    Ok(asked_of(alloc, &images, sizes)?)
}
