//! The replies to the runs of a text: each run as it is, and after it the line of its word.
ghost use Rattle.std.specs.Prelude.{◌≡◌, ◌≢◌, ◌≤◌, ◌<◌, ◌+◌, ◌++◌, ℕ, List, codes, length, IfSome, IfNone};
ghost use Rattle.cc_decode.specs.Annotate.{IsPrefix};
ghost use Rattle.cc_decode.specs.Annotator.{
  AnswersRest,
  AnswersRun,
  AreHalves,
  Follows,
  IsAlone,
  IsHalf,
  JoinsHalves,
  PushesRun,
  RunIs,
};

use crate::rows::push_row;
use crate::runs::{MOST_RUN, is_word_character};
use crate::writers::{Batch, ROOM, push_byte};
use cc_io::{Answerer, Format, Page};
use cc_word::read_word_fast;

/// The number of digits of half a word.
const HALF: usize = 16;

/// The bytes before a run, as far as the run's word depends on them.
#[derive(Clone, Copy)]
pub(crate) enum Before {
    /// A byte that is not a word character, or no byte.
    Outside,
    /// A run that may be the high half of a word, and a colon.
    Half([u8; HALF]),
    /// Word characters, too many for a word.
    Inside,
}

/// Replies to a run with the run, and with the line of its word if it has one.
#[derive(Clone, Copy)]
pub(crate) struct Annotator {
    /// The bytes before the next run.
    pub(crate) before: Before,
}

impl Answerer<ROOM> for Annotator {
    ghost Answered = { AnswersRun };

    ghost Ended = { AnswersRest };

    ghost MOST = { 600 };

    #[inline(always)]
    fn is_done(&self) -> bool {
        false
    }

    #[inline(always)]
    fn most() -> usize {
        600
    }

    fn answer(&mut self, entry: &[u8], out: &mut Batch) -> bool {
        // no entry is longer
        if entry.len() > MOST_RUN {
            return false;
        }
        if let [run @ .., last] = entry {
            let last = *last;
            if is_word_character(last) {
                out.push(entry);
                self.before = Before::Inside;
            } else {
                push_run(out, &self.before, run);
                push_byte(out, last);
                self.before = before_next(&self.before, run, last);
            }
        }
        false
    }

    fn end(&mut self, rest: &[u8], out: &mut Batch) -> bool {
        // no entry is longer
        if rest.len() > MOST_RUN {
            return false;
        }
        push_run(out, &self.before, rest);
        false
    }
}

/// Appends a run, and after it a space and the line of the word that it ends, if there is one.
fn push_run(out: &mut Batch, before: &Before, run: &[u8])
    requires short { length run.now ≤ 64 }
    requires room { length out.old + 600 ≤ 32768 }
    ensures run { PushesRun before.now run.now out.old out.new }
    ensures fits { length out.new ≤ length out.old + 599 }
{
    out.push(run);
    if let Some(word) = word_of(before, run) {
        push_byte(out, b' ');
        push_row(out, Format::Text, word);
    }
}

/// Returns the word that a run ends, if there is one.
fn word_of(before: &Before, run: &[u8]) -> Option<u128>
    ensures word { IfSome result (λ word. RunIs before.now run.now word) }
    ensures none { IfNone result ((word : ℕ) → ¬ RunIs before.now run.now word) }
{
    match before {
        Before::Inside => None,
        Before::Outside => word_of_run(run),
        Before::Half(high) => {
            if run.len() == HALF {
                join(high, run)
            } else {
                word_of_run(run)
            }
        }
    }
}

/// Returns the word whose text a run is, if it is one.
fn word_of_run(run: &[u8]) -> Option<u128>
    ensures word { IfSome result (λ word. IsAlone run.now word) }
    ensures none { IfNone result ((word : ℕ) → ¬ IsAlone run.now word) }
{
    let digits = without_prefix(run, 2 * HALF + 1);
    match digits.len() {
        32 => read_word_fast(digits),
        33 => join_halves(digits),
        _ => None,
    }
}

/// Returns the bytes after `0x`, or all of them if they do not begin with `0x` or are at most
/// `most` bytes.
fn without_prefix(run: &[u8], most: usize) -> &[u8]
    ensures parts { (prefix : List ℕ) × IsPrefix prefix × (run.now ≡ prefix ++ result.now) }
    ensures short { length run.now ≤ most → result.now ≡ run.now }
    ensures long { most < length run.now → (digits : List ℕ) → run.now ≡ codes "0x" ++ digits → result.now ≡ digits }
{
    if run.len() <= most {
        return run;
    }
    match after(b"0x", run) {
        Some(digits) => digits,
        None => run,
    }
}

/// Returns the bytes of a text after its first bytes, if these are `start`.
pub(crate) fn after<'a>(start: &[u8], text: &'a [u8]) -> Option<&'a [u8]>
    ensures found { IfSome result (λ rest. text.now ≡ start.now ++ rest.now) }
    ensures none { IfNone result ((rest : List ℕ) → text.now ≢ start.now ++ rest) }
{
    text.strip_prefix(start)
}

/// Returns the word of two halves of 16 digits with an underscore between.
fn join_halves(text: &[u8]) -> Option<u128>
    requires { length text.now ≡ 33 }
    ensures word { IfSome result (λ word. AreHalves text.now word) }
    ensures none { IfNone result ((word : ℕ) → ¬ AreHalves text.now word) }
{
    let (high, rest) = text.split_at(HALF);
    match after(b"_", rest) {
        Some(low) => join(high, low),
        None => None,
    }
}

/// Returns the word of a high half and a low half of 16 digits each.
fn join(high: &[u8], low: &[u8]) -> Option<u128>
    requires { length high.now ≡ 16 }
    ensures word { IfSome result (λ word. JoinsHalves high.now low.now word) }
    ensures none { IfNone result ((word : ℕ) → ¬ JoinsHalves high.now low.now word) }
{
    if low.len() != HALF {
        return None;
    }
    let mut digits = Page::<32>::new();
    digits.push(high);
    digits.push(low);
    read_word_fast(digits.bytes())
}

/// Returns the state after a run and a byte that is not a word character.
fn before_next(before: &Before, run: &[u8], last: u8) -> Before
    ensures { Follows before.now run.now last result }
{
    if last != b':' || matches!(before, Before::Inside) {
        return Before::Outside;
    }
    match half_of(run) {
        Some(high) => Before::Half(high),
        None => Before::Outside,
    }
}

/// Returns the 16 bytes of a run that may be the high half of a word.
fn half_of(run: &[u8]) -> Option<[u8; HALF]>
    ensures half { IfSome result (λ high. IsHalf run.now high) }
    ensures none { IfNone result ((high : List ℕ) → ¬ IsHalf run.now high) }
{
    match <[u8; HALF]>::try_from(without_prefix(run, HALF)) {
        Ok(high) => Some(high),
        Err(_) => None,
    }
}
