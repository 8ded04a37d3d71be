//! What a crash may leave of a core's part of the medium, and the file that a mount finds in it.

ghost use Rattle.std.specs.Prelude.{◌≡◌, ◌==◌, get_or, map, false, IfOk, OnOk};
ghost use Rattle.cfs_file.specs.File.{effect};
ghost use Rattle.cfs_file.specs.Log.{file_of};
ghost use Rattle.cfs_core.specs.Words.{is_on};
ghost use Rattle.std.specs.List.{list_any};
ghost use Rattle.cfs_core.specs.Medium.{agree, allow_bits, allow_gates, allow_marks, are_bytes, bit_at, bytes_agree, doubt_gate, gates_agree, image_now, is_image, is_loose, is_open, is_size, marks_agree, open_entries, placed, placed_doubt, reads, recovered, rests, rests_as, stands, stored, stored_byte};

use crate::jobs::tag_of;
use crate::spans::{byte_at, byte_or_zero, end_of, start_of};
use crate::tracks::{track_at, track_of};
use cfs_core::{Core, Doubt, Flag, Image, Items, Stretch, Track};
use cfs_file::{BLOCK_LEN, Bytes, Entry, NoMemory, Request, Span, apply};
use std::alloc::{AllocError, Global};

/// An image may have any byte at the position.
fn is_loose(loose: &[Stretch], position: u64) -> bool
    ensures { result ≡ is_loose loose.now position }
{
    loose.iter().any(|s| s.from <= position && position < s.to)
}

fn rests_as(flag: Flag, loose: bool, stands: u8, byte: u8) -> bool
    ensures { result ≡ rests_as flag loose stands byte }
{
    match flag {
        Flag::Off => byte == 0,
        Flag::On => !loose && stands == byte,
        Flag::Unsure => !loose && stands == byte && byte == 0,
    }
}

/// The byte stands at the position in every image.
fn rests(core: &Core, position: u64, byte: u8) -> bool
    ensures { result ≡ rests core.now position byte }
{
    rests_as(
        tag_of(core.tags.as_slice(), position / BLOCK_LEN),
        is_loose(core.loose.as_slice(), position),
        byte_or_zero(core.bytes.as_slice(), position),
        byte,
    )
}

/// At each position of the span that lies in a mapped block, the entry's byte stands in every
/// image.
pub(crate) fn stands(core: &Core, bytes: &[u8], span: Span) -> bool
    ensures { result ≡ stands core.now bytes.now span }
{
    (start_of(span)..end_of(span)).all(|p| {
        tag_of(core.tags.as_slice(), p / BLOCK_LEN).is_off()
            || rests(core, p, byte_at(bytes, span, p))
    })
}

/// The stored byte that is read at a position.
pub(crate) fn reads(core: &Core, position: u64) -> u8
    ensures { result ≡ reads core.now position }
{
    if position < core.size && tag_of(core.tags.as_slice(), position / BLOCK_LEN).is_on() {
        byte_or_zero(core.bytes.as_slice(), position)
    } else {
        0
    }
}

/// The bit at an index, or false past the end.
pub(crate) fn bit_or_false(bits: &[bool], at: u64) -> bool
    ensures { result ≡ get_or bits.now at false }
{
    match bits.get(at as usize) {
        Some(bit) => *bit,
        None => false,
    }
}

fn doubt_gate(doubt: &Option<Doubt>) -> Flag
    ensures { result ≡ doubt_gate doubt.now }
{
    match doubt {
        Some(doubt) => doubt.gate,
        None => Flag::Off,
    }
}

fn agree(flags: &[Flag], bits: &[bool]) -> bool
    ensures { result ≡ agree flags.now bits.now }
{
    bits.len() == flags.len() && allow_bits(flags, bits)
}

fn allow_bits(flags: &[Flag], bits: &[bool]) -> bool
    ensures { result ≡ allow_bits flags.now bits.now }
{
    (0..flags.len() as u64).all(|k| tag_of(flags, k).can_be(bit_or_false(bits, k)))
}

fn gates_agree(tracks: &[Track], bits: &[bool]) -> bool
    ensures { result ≡ gates_agree tracks.now bits.now }
{
    bits.len() == tracks.len() && allow_gates(tracks, bits)
}

fn allow_gates(tracks: &[Track], bits: &[bool]) -> bool
    ensures { result ≡ allow_gates tracks.now bits.now }
{
    (0..tracks.len() as u64).all(|k| track_at(tracks, k).gate.can_be(bit_or_false(bits, k)))
}

fn marks_agree(tracks: &[Track], bits: &[bool]) -> bool
    ensures { result ≡ marks_agree tracks.now bits.now }
{
    bits.len() == tracks.len() && allow_marks(tracks, bits)
}

fn allow_marks(tracks: &[Track], bits: &[bool]) -> bool
    ensures { result ≡ allow_marks tracks.now bits.now }
{
    (0..tracks.len() as u64).all(|k| track_at(tracks, k).mark.can_be(bit_or_false(bits, k)))
}

fn bytes_agree(core: &Core, bytes: &[u8]) -> bool
    ensures { result ≡ bytes_agree core.now bytes.now }
{
    bytes.len() == core.bytes.len()
        && are_bytes(core.loose.as_slice(), core.bytes.as_slice(), bytes)
}

/// Whether the bytes are those that stand, but where these are loose.
fn are_bytes(loose: &[Stretch], stands: &[u8], bytes: &[u8]) -> bool
    ensures { result ≡ are_bytes loose.now stands.now bytes.now }
{
    (0..stands.len() as u64).all(|p| is_loose(loose, p)
        || byte_or_zero(bytes, p) == byte_or_zero(stands, p))
}

fn is_size(core: &Core, size: u64) -> bool
    ensures { result ≡ is_size core.now size }
{
    size == core.size || is_among(core.sizes.as_slice(), size)
}

fn is_among(sizes: &[u64], size: u64) -> bool
    ensures { result ≡ list_any (λ s. size == s) sizes.now }
{
    sizes.iter().any(|s| size == *s)
}

/// Whether a crash may leave this: each word and each byte by itself. Takes no memory.
pub fn is_image(core: &Core, image: &Image) -> bool
    ensures { result ≡ is_image core.now image.now }
{
    is_size(core, image.size)
        && agree(core.tags.as_slice(), image.tags.as_slice())
        && bytes_agree(core, image.bytes.as_slice())
        && gates_agree(core.tracks.as_slice(), image.gates.as_slice())
        && marks_agree(core.tracks.as_slice(), image.marks.as_slice())
        && doubt_gate(&core.doubt).can_be(image.doubt)
}

/// What is read now, as an image: a word that is unsure counts as 0.
pub fn image_now(alloc: Global, core: &Core) -> Result<Image, NoMemory>
    ensures { IfOk result (λ image. image ≡ image_now core.now) }
{
    let tags = tags_now(alloc, core.tags.as_slice())?;
    let gates = gates_now(alloc, core.tracks.as_slice())?;
    let marks = marks_now(alloc, core.tracks.as_slice())?;
    let bytes = Bytes::from_slice(alloc, core.bytes.as_slice())?;
    Ok(Image {
        size: core.size,
        tags: Items::from_vec(tags),
        bytes,
        gates: Items::from_vec(gates),
        marks: Items::from_vec(marks),
        doubt: doubt_gate(&core.doubt).is_on(),
    })
}

fn tags_now(alloc: Global, tags: &[Flag]) -> Result<Vec<bool>, AllocError>
    ensures { IfOk result (λ bits. bits.items ≡ map (λ flag. is_on flag) tags.now) }
{
    tags.iter().map(|flag| flag.is_on()).collect(alloc)
}

fn gates_now(alloc: Global, tracks: &[Track]) -> Result<Vec<bool>, AllocError>
    ensures { IfOk result (λ bits. bits.items ≡ map (λ t. is_on t.gate) tracks.now) }
{
    tracks.iter().map(|t| t.gate.is_on()).collect(alloc)
}

fn marks_now(alloc: Global, tracks: &[Track]) -> Result<Vec<bool>, AllocError>
    ensures { IfOk result (λ bits. bits.items ≡ map (λ t. is_on t.mark) tracks.now) }
{
    tracks.iter().map(|t| t.mark.is_on()).collect(alloc)
}

fn stored_byte(image: &Image, position: u64) -> u8
    ensures { result ≡ stored_byte image.now position }
{
    if bit_or_false(image.tags.as_slice(), position / BLOCK_LEN) {
        byte_or_zero(image.bytes.as_slice(), position)
    } else {
        0
    }
}

/// The stored file of an image: as long as its size word, with 0 where no block is tagged.
pub fn stored_file(alloc: Global, image: &Image) -> Result<Bytes, NoMemory>
    ensures { IfOk result (λ file. file ≡ stored image.now) }
{
    let bytes = stored_bytes(alloc, image)?;
    Ok(Bytes::from_vec(bytes))
}

fn stored_bytes(alloc: Global, image: &Image) -> Result<Vec<u8>, AllocError>
    ensures { IfOk result (λ bytes. bytes.items ≡ stored image.now) }
{
    (0..image.size)
        .map(|p| stored_byte(image, p))
        .collect(alloc)
}

fn bit_at(bits: &[bool], place: u64) -> bool
    ensures { result ≡ bit_at bits.now place }
{
    if place == 0 {
        return false;
    }
    bit_or_false(bits, place - 1)
}

fn is_open(image: &Image, place: u64) -> bool
    ensures { result ≡ is_open image.now place }
{
    bit_at(image.gates.as_slice(), place) && !bit_at(image.marks.as_slice(), place)
}

/// The file that a mount finds in an image: the stored file, taken through the live entries in
/// order of their gates. Slow: it goes through the whole log.
pub fn recovered_file(alloc: Global, core: &Core, image: &Image) -> Result<Bytes, NoMemory>
    ensures { IfOk result (λ file. file ≡ recovered core.now image.now) }
{
    let mut file = stored_file(alloc, image)?;
    apply_open(
        &mut file,
        core.log.as_slice(),
        core.tracks.as_slice(),
        image,
    )?;
    apply_doubt(&mut file, &core.doubt, image.doubt)?;
    Ok(file)
}

/// Takes the file through a request as its slot holds it: an append is a write where its span
/// begins.
fn apply_placed(file: &mut Bytes, request: &Request, span: Span) -> Result<(), NoMemory>
    ensures { OnOk result (file.new ≡ effect file.old (placed span request.now)) }
{
    match request {
        Request::Append { bytes } => file.put(start_of(span), bytes.as_slice()),
        Request::Write { .. } | Request::Truncate { .. } | Request::Read { .. } | Request::Sync =>
            apply(file, request),
    }
}

/// Takes the file through the entries whose gates are open.
fn apply_open(
    file: &mut Bytes,
    log: &[Entry],
    tracks: &[Track],
    image: &Image,
) -> Result<(), NoMemory>
    ensures { OnOk result
        (file.new ≡ file_of file.old (open_entries tracks.now image.now log.now)) }
{
    for entry in log {
        if is_open(image, entry.place) {
            apply_placed(file, &entry.request, track_of(tracks, entry.place).span)?;
        }
    }
    Ok(())
}

/// Takes the file through the request in doubt, where its gate is open.
fn apply_doubt(file: &mut Bytes, doubt: &Option<Doubt>, gate: bool) -> Result<(), NoMemory>
    ensures { OnOk result (file.new ≡ file_of file.old (placed_doubt doubt.now gate)) }
{
    match doubt {
        Some(doubt) => {
            if gate {
                apply_placed(file, &doubt.entry.request, doubt.span)?;
            }
            Ok(())
        }
        None => Ok(()),
    }
}
