//! Lists the words of a core file.
ghost use Rattle.std.specs.Prelude.{◌≡◌, ◌≤◌, ◌↔◌, false, true, length, Some, IsErr, OnErr, OnOk};
ghost use Rattle.cc_io.specs.Devices.{SendsBytes};
ghost use Rattle.cc_decode.specs.Core.{EndsCore, ListsCore, ListsSegment, ListsSegments, core_header};
ghost use Rattle.cc_decode.specs.Core.{segment_options};
ghost use Rattle.cc_decode.specs.Elf.{is_table_cut, segments_of};

use crate::decoder::{Decoder, syntax_refusal, unfinished_refusal};
use crate::decoding::{header, place_name};
use crate::elf::{ENTRY, elf_order, is_loaded, segment_count, segment_of, table_of};
use crate::options::{Options, Search};
use crate::writers::Batch;
use cc_io::{
    Blocks, ByteOrder, Failed, Format, InputForm, IoError, Sink, Source, Summary, pump,
    write_and_flush,
};

/// A source of the bytes of a slice, which never fails.
#[derive(Drop)]
struct Rest<'a> {
    bytes: &'a [u8],
}

impl<'a> Source for Rest<'a> {
    ghost state = { λ rest. record {
      unread = Some rest.bytes.now;
      most_unread = length rest.bytes.now;
      has_failed = false;
    } };

    fn read(&mut self, room: &mut [u8]) -> Result<usize, Failed> {
        let count = room.len().min(self.bytes.len());
        let (given, rest) = self.bytes.split_at(count);
        room[..count].copy_from_slice(given);
        self.bytes = rest;
        Ok(count)
    }
}

/// Writes the header of the format, and then the row of each word of a core file, with its address in front: of the
/// words at multiples of 16 in its loaded segments, in the order of their table. A search lists only the words that
/// it finds.
///
/// A core file is an ELF64 file of either byte order with a table of fewer than 65,535 segments. For another, writes
/// `error 1 syntax`. If the file ends before its table or a loaded segment does, writes `error 2 unfinished` after the
/// words that it has. Both are errors. Flushes the sink. Allocates nothing.
///
/// Requires: the sink has not failed.
/// Errors: `Write` if and only if the sink fails. It has then taken a prefix of the listing.
pub fn decode_core<W: Sink>(
    file: &[u8],
    format: Format,
    search: Option<Search>,
    sink: &mut W,
) -> Result<Summary, IoError>
    requires { (W.state sink.old).has_failed ≡ false }
    ensures lists { ListsCore format search file.now (W.state sink.old) (W.state sink.new) result }
    ensures fails { IsErr result ↔ ((W.state sink.new).has_failed ≡ true) }
    ensures write { OnErr result (result ≡ Err IoError.Write) }
    ensures flushed { OnOk result ((W.state sink.new).is_flushed ≡ true) }
{
    match write_header(format, sink) {
        Ok(()) => {}
        Err(error) => return Err(error),
    }
    match elf_order(file) {
        Some(order) => list_segments(order, format, search, file, sink),
        None => end_core(syntax_refusal(format), true, sink),
    }
}

/// Writes the header of the listing.
fn write_header<W: Sink>(format: Format, sink: &mut W) -> Result<(), IoError>
    requires { (W.state sink.old).has_failed ≡ false }
    ensures sends { SendsBytes (W.state sink.old) (W.state sink.new) (core_header format) result }
    ensures write { OnErr result (result ≡ Err IoError.Write) }
{
    let mut page = Batch::new();
    page.push(place_name(format));
    page.push(header(format));
    write_and_flush(&page, sink)
}

/// Lists the loaded segments of a file in this byte order.
fn list_segments<W: Sink>(
    order: ByteOrder,
    format: Format,
    search: Option<Search>,
    file: &[u8],
    sink: &mut W,
) -> Result<Summary, IoError>
    requires sink { (W.state sink.old).has_failed ≡ false }
    requires header { 64 ≤ length file.now }
    ensures lists { ListsSegments order format search (segments_of order file.now) (is_table_cut order file.now) false
        (W.state sink.old) (W.state sink.new) result }
    ensures fails { IsErr result ↔ ((W.state sink.new).has_failed ≡ true) }
    ensures write { OnErr result (result ≡ Err IoError.Write) }
    ensures flushed { OnOk result ((W.state sink.new).is_flushed ≡ true) }
{
    let mut table = table_of(order, file);
    let mut left = segment_count(order, file);
    let mut is_cut = table.len() < ENTRY * usize::from(left);
    let mut any_error = false;
    'entries: while left > 0 {
        let (entry, after) = match table.split_first_chunk::<ENTRY>() {
            Some(parts) => parts,
            None => break,
        };
        if is_loaded(order, entry) {
            let segment = segment_of(order, file, entry);
            match list_segment(
                segment_options(order, format, search, segment.address),
                segment.words,
                sink,
            ) {
                Ok(summary) => any_error |= summary.any_error,
                Err(error) => return Err(error),
            }
            is_cut |= segment.is_cut;
        }
        table = after;
        left -= 1;
    }
    let line = if is_cut {
        unfinished_refusal(format)
    } else {
        b""
    };
    end_core(line, any_error | is_cut, sink)
}

/// Returns the options of the listing of a segment whose first word is at this address.
fn segment_options<'a>(
    order: ByteOrder,
    format: Format,
    search: Option<Search>,
    address: u64,
) -> Options<'a>
    ensures { result ≡ segment_options order format search address }
{
    Options {
        input: InputForm::Bytes(order),
        format,
        at: Some(address),
        tags: None,
        search,
    }
}

/// Writes the replies to the words of a segment.
fn list_segment<W: Sink>(
    options: Options<'_>,
    words: &[u8],
    sink: &mut W,
) -> Result<Summary, IoError>
    requires { (W.state sink.old).has_failed ≡ false }
    ensures lists { ListsSegment options.entry words.now (W.state sink.old) (W.state sink.new) result }
    ensures fails { IsErr result ↔ ((W.state sink.new).has_failed ≡ true) }
    ensures write { OnErr result (result ≡ Err IoError.Write) }
{
    let mut page = Batch::new();
    let mut source = Rest { bytes: words };
    let mut decoder = Decoder {
        options,
        left: None,
    };
    pump(&Blocks, &mut decoder, &mut source, sink, &mut page)
}

/// Ends the listing with this line. `any_error` says whether it has an error.
fn end_core<W: Sink>(line: &[u8], any_error: bool, sink: &mut W) -> Result<Summary, IoError>
    requires sink { (W.state sink.old).has_failed ≡ false }
    requires fits { length line.now ≤ 32 }
    ensures ends { EndsCore line.now any_error (W.state sink.old) (W.state sink.new) result }
{
    let mut page = Batch::new();
    page.push(line);
    match write_and_flush(&page, sink) {
        Ok(()) => Ok(Summary { any_error }),
        Err(error) => Err(error),
    }
}
