//! The trait of the types that turn an entry of the input into bytes of the output.
ghost use Rattle.std.specs.Prelude.{◌≡◌, ℕ, ◌+◌, ◌≤◌, Bool, false, length};
ghost use Rattle.cc_io.specs.Answers.{Relation, AnswersInto};

use crate::Page;

/// A type that replies to entries on a page of `N` bytes.
///
/// A reply may depend on the state of the answerer, and may change it. The answerer sees the first
/// 129 bytes of an entry or of trailing bytes.
// `N` is a parameter of the trait, since a method of a trait cannot have a const parameter
pub trait Answerer<const N: usize> {
    // the replies that an entry may get
    ghost Answered: { Relation Self };

    // the replies that trailing bytes may get, unless there are none
    ghost Ended: { Relation Self };

    // the maximum length of a reply in bytes
    ghost MOST: { ℕ };

    // the answerer takes no more entries; never true of one that does not say so
    ghost done: { Self → Bool } = { λ _. false };

    /// Returns the maximum length of a reply in bytes.
    // no constant: an impl for a type that borrows cannot have the clause of one
    fn most() -> usize
        ensures { result ≡ MOST };

    /// Returns whether the answerer takes no more entries.
    fn is_done(&self) -> bool
        ensures { result ≡ done self.now };

    /// Appends the reply to an entry, and returns whether the reply is an error.
    ///
    /// Requires: `MOST` bytes fit on the page.
    fn answer(&mut self, entry: &[u8], out: &mut Page<N>) -> bool
        requires room { length out.old + MOST ≤ N }
        requires goes_on { done self.old ≡ false }
        ensures { AnswersInto Answered self.old entry.now out.old out.new result self.new };

    /// Appends the reply to trailing bytes after the last entry, and returns whether the reply is
    /// an error.
    ///
    /// Requires: `MOST` bytes fit on the page.
    fn end(&mut self, rest: &[u8], out: &mut Page<N>) -> bool
        requires room { length out.old + MOST ≤ N }
        requires goes_on { done self.old ≡ false }
        ensures { AnswersInto Ended self.old rest.now out.old out.new result self.new };
}
