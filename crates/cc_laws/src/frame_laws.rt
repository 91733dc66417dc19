//! Laws of every output, for any answerer. The contract of each function is a law, and its body
//! does nothing.
ghost use Rattle.std.specs.Prelude.{◌≡◌, ℕ, Bool, List, [], ◌++◌, Option};
ghost use Rattle.cc_io.specs.Lines.{OneSplit};
ghost use Rattle.cc_io.specs.Blocks.{OneCut};
ghost use Rattle.cc_io.specs.Answers.{Output, entries_of};
ghost use Rattle.cc_io.specs.Correct.{StopsOnPage, StopsInAnswer};
ghost use Rattle.cc_io.specs.Laws.{InParts, IsOne, IsSome, BeginsOutput};

use cc_io::{Answerer, Framing};

/// Proves that a text can be cut at its line feeds in exactly one way.
pub fn one_split()
    ensures { (text : List ℕ) → OneSplit text }
{}

/// Proves that bytes can be cut into blocks of 16 and fewer than 16 trailing bytes in exactly one
/// way.
pub fn one_cut()
    ensures { (bytes : List ℕ) → OneCut bytes }
{}

/// Proves that the output of a text is the output of its first part and then that of its second
/// part, if the first part ends with an entry.
///
/// The second part starts from the state that the first part leads to.
pub fn parts<F: Framing, A: Answerer<N>, const N: usize>(framing: &F)
    ensures { (old : A) (first second output : List ℕ) (any_error : Bool) (new : A)
        → (F.frame framing.now).left [] first ≡ []
        → Output A.Answered A.Ended (F.frame framing.now) old (first ++ second) output any_error new
        → InParts A.Answered A.Ended (F.frame framing.now) old first second output any_error new }
{
    let _ = framing;
}

/// Proves that on a page of one reply a sink that fails does so in one reply, if no reply is empty.
///
/// The answerer has then taken the entry of this reply, and none after it.
pub fn one_on_page<A: Answerer<N>, const N: usize>()
    ensures { IsSome A.Answered → (room : ℕ) (old new : A) (pending : List ℕ) (entries : List (List ℕ))
        (taken taken_now : Option (List ℕ))
        → StopsOnPage A.Answered room room old pending entries taken taken_now new
        → StopsInAnswer A.Answered old pending entries taken taken_now new }
{}

/// Proves that the bytes written before the sink failed on a page are a prefix of the whole output,
/// if no entry may get two replies.
pub fn stops_begins<F: Framing, A: Answerer<N>, const N: usize>(framing: &F)
    ensures { IsOne A.Answered → (room most : ℕ) (old new : A) (pending given rest : List ℕ)
        (taken taken_now : Option (List ℕ))
        → StopsOnPage A.Answered room most old pending (entries_of (F.frame framing.now) given) taken taken_now new
        → BeginsOutput A.Answered A.Ended (F.frame framing.now) old pending (given ++ rest) taken taken_now }
{
    let _ = framing;
}
