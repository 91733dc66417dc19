//! The segments of an ELF64 file.
ghost use Rattle.std.specs.Prelude.{◌≡◌, ◌+◌, ◌≤◌, ◌==◌, drop, length, take};
ghost use Rattle.cc_decode.specs.Elf.{begins_as, bytes_of, data_order, elf_order, segment_of, table_of};
ghost use Rattle.cc_decode.specs.Elf.{bytes_before, half_at, word_at, words_at, xword_at};

use cc_io::ByteOrder;

/// The length of an entry of the table of segments.
pub(crate) const ENTRY: usize = 56;

/// A segment of a file.
#[derive(Clone, Copy)]
pub(crate) struct Segment<'a> {
    /// The address of the first word.
    pub(crate) address: u64,
    /// The whole words that the file has.
    pub(crate) words: &'a [u8],
    /// Whether the file ends in the segment.
    pub(crate) is_cut: bool,
}

/// Returns the number of 2 bytes at a place.
fn half_at(order: ByteOrder, bytes: &[u8], place: usize) -> u16
    requires { place + 2 ≤ length bytes.now }
    ensures { result ≡ half_at order bytes.now place }
{
    let mut half = [0; 2];
    half.copy_from_slice(&bytes[place..place + 2]);
    match order {
        ByteOrder::Little => u16::from_le_bytes(half),
        ByteOrder::Big => u16::from_be_bytes(half),
    }
}

/// Returns the number of 4 bytes at a place.
fn word_at(order: ByteOrder, bytes: &[u8], place: usize) -> u32
    requires { place + 4 ≤ length bytes.now }
    ensures { result ≡ word_at order bytes.now place }
{
    let mut word = [0; 4];
    word.copy_from_slice(&bytes[place..place + 4]);
    match order {
        ByteOrder::Little => u32::from_le_bytes(word),
        ByteOrder::Big => u32::from_be_bytes(word),
    }
}

/// Returns the number of 8 bytes at a place.
fn xword_at(order: ByteOrder, bytes: &[u8], place: usize) -> u64
    requires { place + 8 ≤ length bytes.now }
    ensures { result ≡ xword_at order bytes.now place }
{
    let mut xword = [0; 8];
    xword.copy_from_slice(&bytes[place..place + 8]);
    match order {
        ByteOrder::Little => u64::from_le_bytes(xword),
        ByteOrder::Big => u64::from_be_bytes(xword),
    }
}

/// Returns the bytes from an offset on.
fn bytes_after(bytes: &[u8], offset: u64) -> &[u8]
    ensures { result.now ≡ drop offset bytes.now }
{
    &bytes[offset.min(bytes.len() as u64) as usize..]
}

/// Returns the first bytes, at most `most`.
fn first_bytes(bytes: &[u8], most: u64) -> &[u8]
    ensures { result.now ≡ take most bytes.now }
{
    &bytes[..most.min(bytes.len() as u64) as usize]
}

/// Returns the byte order that the first bytes of a file name.
fn data_order(file: &[u8]) -> Option<ByteOrder>
    ensures { result ≡ data_order file.now }
{
    if file.starts_with(b"\x7fELF\x02\x01") {
        Some(ByteOrder::Little)
    } else if file.starts_with(b"\x7fELF\x02\x02") {
        Some(ByteOrder::Big)
    } else {
        None
    }
}

/// Returns the byte order of an ELF64 file with a table of segments, or `None` for another file.
pub(crate) fn elf_order(file: &[u8]) -> Option<ByteOrder>
    ensures { result ≡ elf_order file.now }
{
    if file.len() < 64 {
        return None;
    }
    match data_order(file) {
        // the length of an entry is `e_phentsize`
        Some(order) if half_at(order, file, 54) == 56 && segment_count(order, file) < 0xffff => {
            Some(order)
        }
        _ => None,
    }
}

/// Returns `e_phnum`, the number of entries of the table of segments.
pub(crate) fn segment_count(order: ByteOrder, file: &[u8]) -> u16
    requires { 64 ≤ length file.now }
    ensures { result ≡ half_at order file.now 56 }
{
    half_at(order, file, 56)
}

/// Returns the file from its table of segments on, which is at `e_phoff`.
pub(crate) fn table_of(order: ByteOrder, file: &[u8]) -> &[u8]
    requires { 64 ≤ length file.now }
    ensures { result.now ≡ table_of order file.now }
{
    bytes_after(file, xword_at(order, file, 32))
}

/// Returns whether the segment of this entry is loaded: its `p_type` is `PT_LOAD`.
pub(crate) fn is_loaded(order: ByteOrder, entry: &[u8; ENTRY]) -> bool
    ensures { result ≡ (word_at order entry.now 0 == 1) }
{
    word_at(order, entry, 0) == 1
}

/// Returns the segment of an entry of the table.
pub(crate) fn segment_of<'a>(order: ByteOrder, file: &'a [u8], entry: &[u8; ENTRY]) -> Segment<'a>
    ensures address { result.address ≡ (segment_of order file.now entry.now).address }
    ensures words { result.words.now ≡ (segment_of order file.now entry.now).words }
    ensures is_cut { result.is_cut ≡ (segment_of order file.now entry.now).is_cut }
{
    let p_offset = xword_at(order, entry, 8);
    let p_vaddr = xword_at(order, entry, 16);
    let p_filesz = xword_at(order, entry, 32);
    let bytes = first_bytes(bytes_after(file, p_offset), p_filesz);
    Segment {
        address: p_vaddr.wrapping_add(bytes_before(p_vaddr)),
        words: words_at(p_vaddr, bytes),
        is_cut: (bytes.len() as u64) < p_filesz,
    }
}

/// Returns the number of bytes before the first multiple of 16 from an address on.
fn bytes_before(address: u64) -> u64
    ensures { result ≡ bytes_before address }
{
    (16 - address % 16) % 16
}

/// Returns the whole words at multiples of 16 in bytes at an address.
fn words_at(address: u64, bytes: &[u8]) -> &[u8]
    ensures { result.now ≡ words_at address bytes.now }
{
    let rest = bytes_after(bytes, bytes_before(address));
    &rest[..rest.len() / 16 * 16]
}
