//! Replies to all entries of the input that a source gives.
ghost use Rattle.std.specs.Prelude.{◌≡◌, ◌≤◌, [], None, false, length, IfSome, IsSome};
ghost use Rattle.cc_io.specs.Correct.{Pumps};
ghost use Rattle.cc_io.specs.Devices.{AreReady, IsOutcome};
ghost use Rattle.cc_decode.specs.Correct.{Lists};
ghost use Rattle.cc_decode.specs.Decoder.{plain_options};
ghost use Rattle.cc_decode.specs.Input.{frame_of};
ghost use Rattle.cc_decode.specs.Place.{header_of, place_name};
ghost use Rattle.cc_decode.specs.Row.{header_text};

use crate::decoder::{Decoder, PlainDecoder};
use crate::options::{Options, Part};
use crate::skipping::skip;
use crate::writers::{Batch, ROOM};
use cc_io::{
    Answerer, Blocks, Failed, Format, InputForm, IoError, Lines, Sink, Source, Summary, pump,
    write_and_flush,
};

/// Writes the header of the format, and then the reply to each entry of the part of the input that the
/// source gives. An entry is a line, or a block of 16 bytes. The first begins after the skipped bytes, or
/// there is none if the input has fewer. After as many as the part has, the rest is not decoded.
///
/// The reply to a word is its row in the format, with its address in front if the options have the
/// address of the first entry. In a search, only the words that it finds get a reply, and if the tags
/// are known, only tagged ones. A word without a tag bit is then an error without a reply. The reply to a
/// line that is not 32 hexadecimal digits, with or without `0x` before them, is `error 1 syntax`, or
/// nothing in a search; it is an error in both cases. The reply to bytes after the last entry,
/// unless there are none, is that to the word that they are, if they are one, and then
/// `error 2 unfinished`. In JSON a refusal is an object. The source is read in chunks of up to 16 KiB,
/// and the skipped bytes in chunks of up to 64 KiB. Before each read, all replies to earlier entries
/// are written. The sink is flushed once, at the end. Allocates nothing.
///
/// Requires: neither the source nor the sink has failed.
/// Errors: `Read` if and only if the source failed. The header and the replies to all entries
/// before the failure are then written, or nothing if it failed among the skipped bytes. `Write` if
/// and only if the sink failed. It has then taken a prefix of the header and the replies.
pub fn decode_words<R: Source, W: Sink>(
    part: Part,
    options: Options<'_>,
    source: &mut R,
    sink: &mut W,
) -> Result<Summary, IoError>
    requires { AreReady (R.state source.old) (W.state sink.old) }
    // If the source does not say which bytes it has, some input has the listing.
    ensures { Lists part options.entry (R.state source.old) (R.state source.new) (W.state sink.old) (W.state sink.new)
        result }
{
    match skip(part.skipped, source) {
        Ok(()) => {}
        Err(Failed) => return Err(IoError::Read),
    }
    let mut page = Batch::new();
    push_header(&mut page, &options);
    // `pump` takes no answerer that is done before the first entry
    if part.count == Some(0) {
        write_and_flush(&page, sink)?;
        return Ok(Summary { any_error: false });
    }
    match plain_decoder(part.count, options) {
        Some(mut decoder) => list_entries(options.input, &mut decoder, source, sink, &mut page),
        None => {
            let mut decoder = Decoder {
                options,
                left: part.count,
            };
            list_entries(options.input, &mut decoder, source, sink, &mut page)
        }
    }
}

/// Returns the decoder of all words without addresses and tags, if that is what the options request and all
/// entries are decoded.
fn plain_decoder(count: Option<u64>, options: Options<'_>) -> Option<PlainDecoder>
    ensures options { IfSome result (λ decoder. plain_options decoder ≡ options.entry) }
    ensures all { IsSome result → count ≡ None }
{
    if count.is_some() {
        return None;
    }
    match options {
        Options {
            input,
            format,
            at: None,
            tags: None,
            search: None,
        } => Some(PlainDecoder { input, format }),
        _ => None,
    }
}

/// Writes the page, and then the replies of a decoder to all entries of the input.
fn list_entries<A: Answerer<ROOM>, R: Source, W: Sink>(
    input: InputForm,
    decoder: &mut A,
    source: &mut R,
    sink: &mut W,
    page: &mut Batch,
) -> Result<Summary, IoError>
    requires ready { AreReady (R.state source.old) (W.state sink.old) }
    requires room { A.MOST ≤ 32768 }
    requires goes_on { A.done decoder.old ≡ false }
    ensures pumps { Pumps A.done A.Answered A.Ended (frame_of input) 32768 A.MOST decoder.old page.old
        (R.state source.old).unread (R.state source.new).unread (W.state sink.old).taken (W.state sink.new).taken
        result decoder.new }
    ensures outcome { IsOutcome (R.state source.new) (W.state sink.new) result }
{
    match input {
        InputForm::Lines => pump(&Lines, decoder, source, sink, page),
        InputForm::Bytes(_) => pump(&Blocks, decoder, source, sink, page),
    }
}

/// Appends the header of a listing.
fn push_header(page: &mut Batch, options: &Options<'_>)
    requires { page.old ≡ [] }
    ensures { page.new ≡ header_of options.now }
{
    if options.at.is_some() {
        page.push(place_name(options.format));
    }
    page.push(header(options.format));
}

/// Returns the name of the column of addresses in the header of a format, and a comma.
pub(crate) fn place_name(format: Format) -> &'static [u8]
    ensures value { result.now ≡ place_name format }
    ensures fits { length result.now ≤ 10 }
{
    match format {
        Format::Columns | Format::Text | Format::Fixed | Format::Json => b"",
        Format::Csv => b"at,",
    }
}

/// Returns the header of a format: the names of the columns for comma-separated values, and
/// otherwise nothing.
pub(crate) fn header(format: Format) -> &'static [u8]
    ensures value { result.now ≡ header_text format }
    ensures fits { length result.now ≤ 100 }
{
    match format {
        Format::Columns | Format::Text | Format::Fixed | Format::Json => b"",
        Format::Csv => b"word,base,top,perms,flag,type,exponent,canonical,address,names\n",
    }
}
