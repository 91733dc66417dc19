//! The replies to entries, and to trailing bytes.
ghost use Rattle.std.specs.Prelude.{◌≡◌, ◌≤◌, ◌+◌, ◌++◌, ◌↔◌, ℕ, IsTrue, false, length};
ghost use Rattle.cc_word.specs.declared.refusal.Refusal.TheVariants as RefusalSpec;
ghost use Rattle.cc_decode.specs.Decoder.{
  AnswersEntry,
  AnswersPlainly,
  AppendsReply,
  AppendsUnfinished,
  AppendsWord,
  EndsPart,
  EndsPlainly,
  most_line,
};
ghost use Rattle.cc_decode.specs.Output.{IsWanted, refusal_line};
ghost use Rattle.cc_decode.specs.Part.{is_part_over, left_after};

use crate::entries::read_entry;
use crate::options::Options;
use crate::places::next_place;
use crate::rows::push_row_line;
use crate::search::is_listed;
use crate::tags::{is_tagged, lacks_bit, next_tags};
use crate::writers::{Batch, ROOM};
use cc_io::{Answerer, Format, InputForm, refusal_bytes};
use cc_word::Refusal;

/// Replies to an entry with the row of its word, or with the refusal `syntax` in this format. Each
/// reply has a line feed.
// The decoder of all words, without addresses: for a word it tests neither tags nor a search, and its
// replies are inlined into the loop over the entries.
#[derive(Clone, Copy)]
pub(crate) struct PlainDecoder {
    /// The form of the input.
    pub(crate) input: InputForm,
    /// The format of the rows.
    pub(crate) format: Format,
}

impl Answerer<ROOM> for PlainDecoder {
    ghost Answered = { AnswersPlainly };

    ghost Ended = { EndsPlainly };

    ghost MOST = { 512 };

    #[inline(always)]
    fn is_done(&self) -> bool {
        false
    }

    #[inline(always)]
    fn most() -> usize {
        512
    }

    #[inline(always)]
    fn answer(&mut self, entry: &[u8], out: &mut Batch) -> bool {
        match read_entry(self.input, entry) {
            Some(word) => {
                push_row_line(out, self.format, None, word);
                false
            }
            None => {
                out.push(syntax_refusal(self.format));
                true
            }
        }
    }

    fn end(&mut self, rest: &[u8], out: &mut Batch) -> bool {
        let options = Options {
            input: self.input,
            format: self.format,
            at: None,
            tags: None,
            search: None,
        };
        push_unfinished(out, &options, rest);
        true
    }
}

/// Replies to an entry with the row of its word, if the word is listed, with its address in front,
/// if it has one. In a search, an entry that is not a word is an error without a reply.
#[derive(Clone, Copy)]
pub(crate) struct Decoder<'a> {
    /// The options for the rest of the input.
    pub(crate) options: Options<'a>,
    /// The number of entries that are still decoded, if not all of them are.
    pub(crate) left: Option<u64>,
}

impl<'a> Answerer<ROOM> for Decoder<'a> {
    ghost Answered = { AnswersEntry };

    ghost Ended = { EndsPart };

    ghost MOST = { 512 };

    ghost done = { λ decoder. is_part_over decoder.left };

    #[inline(always)]
    fn is_done(&self) -> bool {
        match self.left {
            Some(left) => left == 0,
            None => false,
        }
    }

    #[inline(always)]
    fn most() -> usize
        ensures { result ≡ 512 }
    {
        512
    }

    fn answer(&mut self, entry: &[u8], out: &mut Batch) -> bool {
        let word = read_entry(self.options.input, entry);
        let is_error = push_reply(out, &self.options, word);
        self.options.at = next_place(self.options.at);
        self.options.tags = next_tags(self.options.tags);
        self.left = fewer(self.left);
        is_error
    }

    fn end(&mut self, rest: &[u8], out: &mut Batch) -> bool {
        push_unfinished(out, &self.options, rest);
        true
    }
}

/// Returns the number of entries that are decoded after one more.
fn fewer(left: Option<u64>) -> Option<u64>
    requires { is_part_over left ≡ false }
    ensures { result ≡ left_after left 1 }
{
    match left {
        Some(left) => Some(left - 1),
        None => None,
    }
}

/// Appends the reply to trailing bytes: that to the word that they are, if they are one, and then their refusal.
fn push_unfinished(out: &mut Batch, options: &Options<'_>, rest: &[u8])
    requires { length out.old + 512 ≤ 32768 }
    ensures { AppendsUnfinished options.now rest.now out.old out.new }
{
    match read_entry(options.input, rest) {
        Some(word) => push_word(out, options, word),
        None => {}
    }
    out.push(unfinished_refusal(options.format));
}

/// Returns the line of the refusal of an entry that is not a word.
pub(crate) fn syntax_refusal(format: Format) -> &'static [u8]
    ensures value { result.now ≡ refusal_line format RefusalSpec.Syntax }
    ensures fits { length result.now ≤ 32 }
{
    match format {
        Format::Columns | Format::Text | Format::Fixed | Format::Csv => {
            refusal_bytes(Refusal::Syntax)
        }
        Format::Json => b"{\"error\":1,\"name\":\"syntax\"}\n",
    }
}

/// Returns the line of the refusal of trailing bytes.
pub(crate) fn unfinished_refusal(format: Format) -> &'static [u8]
    ensures value { result.now ≡ refusal_line format RefusalSpec.Unfinished }
    ensures fits { length result.now ≤ 32 }
{
    match format {
        Format::Columns | Format::Text | Format::Fixed | Format::Csv => {
            refusal_bytes(Refusal::Unfinished)
        }
        Format::Json => b"{\"error\":2,\"name\":\"unfinished\"}\n",
    }
}

/// Appends the reply to an entry, which is this word, if it is one. Returns whether it is an error.
fn push_reply(out: &mut Batch, options: &Options<'_>, word: Option<u128>) -> bool
    requires { length out.old + 512 ≤ 32768 }
    ensures { AppendsReply options.now word out.old out.new result }
{
    match word {
        Some(word) => {
            push_word(out, options, word);
            lacks_bit(options.tags)
        }
        None => {
            if options.search.is_none() {
                out.push(syntax_refusal(options.format));
            }
            true
        }
    }
}

/// Appends the line of a word, if the options request it.
fn push_word(out: &mut Batch, options: &Options<'_>, word: u128)
    requires { length out.old + most_line ≤ 32768 }
    ensures word { AppendsWord options.now word out.old out.new }
    ensures fits { length out.new ≤ length out.old + most_line }
{
    if is_wanted(options, word) {
        push_row_line(out, options.format, options.at, word);
    }
}

/// Returns whether the options request the row of a word.
fn is_wanted(options: &Options<'_>, word: u128) -> bool
    ensures { IsTrue result ↔ IsWanted options.now word }
{
    is_tagged(options.tags) && is_listed(options.search, word)
}
