//! The counts of the replies to a script.
ghost use Rattle.std.specs.Prelude.{◌≡◌, ◌-◌, ◌<◌, ℕ, List, [], ◌∷◌, ◌++◌, Bool, false, length, take};
ghost use Rattle.cc_values.specs.declared.reply.Reply.{Reply as ReplySpec};
ghost use Rattle.cc_values.specs.declared.reply.Reply.TheVariants.{Refused};
ghost use Rattle.cc_word.specs.Refusal.{code_of};
ghost use Rattle.cc_word.specs.declared.refusal.Refusal.TheVariants.{Full};
ghost use Rattle.cc_syntax.specs.LineHints.{has_marked_word};
ghost use Rattle.cc_syntax.specs.Replies.{is_error};
ghost use Rattle.cc_syntax.specs.Tally.{Exchange, HasOneMore, IsTally, first_after, is_refusal};

use crate::line_hints::{ends_in_return, has_marked_word};
use cc_word::Refusal;

/// The number of replies that are one refusal, and the line that got the first of them.
#[derive(Clone, Copy, PartialEq, Eq)]
pub struct Count {
    /// The refusal.
    pub refusal: Refusal,
    /// The number of replies that are this refusal, at most 2^64 - 1.
    pub times: u64,
    /// The number of the line that got the first of them, at least 1. It is 0 if no reply is this
    /// refusal, or if a reply to the setup operations is.
    pub first: u64,
}

/// The counts of the replies to a script: the number of lines, a count for each refusal, and the
/// first lines that are worth a hint. Lines are numbered from 1, and 0 means that there is no such
/// line.
#[derive(Drop)]
pub struct Tally {
    /// The number of lines, at most 2^64 - 1. Trailing bytes count as a line.
    pub lines: u64,
    /// The counts of the refusals, in the order of their codes.
    pub counts: [Count; 22],
    /// The number of the first line that is refused as `Full`.
    pub full: u64,
    /// The number of the first refused line that has at most 128 bytes and ends in a carriage
    /// return.
    pub carriage_return: u64,
    /// The number of the first refused `rebuild` line of at most 128 bytes whose word is written
    /// with `0x` or a colon.
    pub marked_word: u64,
}

/// The count of a refusal that no reply is.
macro_rules! none {
    ($refusal:ident) => {
        Count {
            refusal: Refusal::$refusal,
            times: 0,
            first: 0,
        }
    };
}

/// The counts of no replies.
const NONE: [Count; 22] = [
    none!(Syntax),
    none!(Unfinished),
    none!(TooLong),
    none!(OutOfRange),
    none!(NoSlot),
    none!(Revoked),
    none!(Sealed),
    none!(Unsealed),
    none!(OutOfBounds),
    none!(Inexact),
    none!(Unrepresentable),
    none!(MissingPermission),
    none!(ReservedType),
    none!(TypeMismatch),
    none!(NotCanonical),
    none!(ExceedsAuthority),
    none!(NoPool),
    none!(PoolAlreadySet),
    none!(ZeroSize),
    none!(NoRoom),
    none!(NoObject),
    none!(Full),
];

/// Returns the index of a refusal among the counts.
fn index_of(refusal: Refusal) -> usize
    ensures value { result ≡ code_of refusal - 1 }
    ensures within { result < 22 }
{
    usize::from(refusal.code()) - 1
}

/// Returns whether a refusal is `Full`.
fn is_full(refusal: Refusal) -> bool
    ensures { result ≡ is_refusal Full (Refused refusal) }
{
    Refusal::Full.code() == refusal.code()
}

/// Sets `first`, the number of the first line that passes or 0, to that of one more line, if this passes
/// and `first` is 0.
fn note_first(first: &mut u64, passes: bool, number: u64)
    ensures { first.new ≡ first_after first.old passes number }
{
    if passes && *first == 0 {
        *first = number;
    }
}

/// Sets `first`, the number of the first line with a marked word or 0, to that of one more refused line, if this
/// has one and `first` is 0.
#[cold]
#[inline(never)]
fn note_marked_word(first: &mut u64, line: &[u8], number: u64)
    ensures { first.new ≡ first_after first.old (has_marked_word line.now) number }
{
    note_first(first, has_marked_word(line), number);
}

/// Counts one more reply that is this refusal, to the line with this number. The number of a setup
/// operation is 0.
fn add_reply(counts: &mut [Count; 22], refusal: Refusal, number: u64)
    ensures { HasOneMore refusal number counts.old counts.new }
{
    let count = &mut counts[index_of(refusal)];
    if count.times == 0 {
        count.first = number;
    }
    count.times = count.times.saturating_add(1);
}

impl Tally {
    /// Returns the tally of no replies.
    pub fn new() -> Tally
        ensures { IsTally [] [] result }
    {
        Tally {
            lines: 0,
            counts: NONE,
            full: 0,
            carriage_return: 0,
            marked_word: 0,
        }
    }

    /// Counts a setup operation that is refused.
    pub fn take_refused_opening(&mut self, refusal: Refusal)
        ensures { (opening : List ReplySpec) → IsTally opening [] self.old
            → IsTally (opening ++ Refused refusal ∷ []) [] self.new }
    {
        add_reply(&mut self.counts, refusal, 0);
    }

    /// Counts a line whose reply is not a refusal.
    #[inline(always)]
    pub fn take_line(&mut self)
        ensures { (opening : List ReplySpec) (exchanges : List Exchange) (line : List ℕ) (reply : ReplySpec)
            → is_error reply ≡ false → IsTally opening exchanges self.old
            → IsTally opening (exchanges ++ record { line = line; reply = reply } ∷ []) self.new }
    {
        self.lines = self.lines.saturating_add(1);
    }

    /// Counts a line that is refused. `start` is the line, or its first 129 bytes.
    #[cold]
    #[inline(never)]
    pub fn take_refused(&mut self, start: &[u8], refusal: Refusal)
        ensures { (opening : List ReplySpec) (exchanges : List Exchange) (line : List ℕ) → start.now ≡ take 129 line
            → IsTally opening exchanges self.old
            → IsTally opening (exchanges ++ record { line = line; reply = Refused refusal } ∷ []) self.new }
    {
        self.lines = self.lines.saturating_add(1);
        add_reply(&mut self.counts, refusal, self.lines);
        note_first(&mut self.full, is_full(refusal), self.lines);
        note_first(&mut self.carriage_return, ends_in_return(start), self.lines);
        // for nearly all refused lines, the first bytes decide
        if start.starts_with(b"rebuild ") {
            note_marked_word(&mut self.marked_word, start, self.lines);
        }
    }
}
