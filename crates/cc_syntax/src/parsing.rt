//! Parses a line as an operation: the table of commands.
ghost use Rattle.std.specs.Prelude.{◌≡◌, ◌+◌, ◌≤◌, ℕ, List, Result, drop, length};
ghost use Rattle.cc_word.specs.declared.refusal.Refusal.{Refusal as RefusalSpec};
ghost use Rattle.cc_values.specs.declared.op.Op.{Op as OpSpec};
ghost use Rattle.cc_values.specs.Values.{single, words_of};
ghost use Rattle.cc_syntax.specs.Commands.{command_by, command_in, commands, one, operation_of, slot_and, two};

use crate::values::{Value, slot_and, slot_and_perhaps};
use crate::words::{after, is};
use cc_bounds::Align;
use cc_io::{Page, WholeLine};
use cc_values::Op;
use cc_word::Refusal;

/// The maximum number of bytes of a line.
pub const MOST_BYTES: usize = 128;

/// A use of the operation of a line, or of its refusal. It may append to a page of `N` bytes.
pub trait Taker<const N: usize> {
    /// The result of the use.
    type Out;

    // the results that a command may have
    ghost Taken: { (old : Self) → (command : Result OpSpec RefusalSpec) → Self.Out → (text text_now : List ℕ)
        → (new : Self) → Type 0 };

    /// Takes the operation of a line, or its refusal.
    ///
    /// Requires: 193 bytes fit the page.
    fn take(&mut self, text: &mut Page<N>, parsed: Result<Op, Refusal>) -> Self::Out
        requires { length text.old + 193 ≤ N }
        ensures { (command : Result OpSpec RefusalSpec) → command ≡ parsed
            → Taken self.old command result text.old text.new self.new };
}

/// Returns the operation or the refusal as it is.
#[derive(Drop)]
struct Parser;

impl<const N: usize> Taker<N> for Parser {
    type Out = Result<Op, Refusal>;

    ghost Taken = { λ _ command result _ _ _. result ≡ command };

    #[inline(always)]
    fn take(&mut self, _text: &mut Page<N>, parsed: Result<Op, Refusal>) -> Result<Op, Refusal> {
        parsed
    }
}

/// Parses a line, without its line feed, as an operation.
///
/// Errors, in order: `TooLong` if the line has more than 128 bytes, none of which is then read;
/// `Syntax` if it is not a command; `OutOfRange` if a number is over its limit.
#[tactic(auto, unfolding(crate::specs::Commands::operation_of))]
pub fn parse_line(line: &[u8]) -> Result<Op, Refusal>
    ensures { result ≡ operation_of line.now }
{
    if line.len() > MOST_BYTES {
        return Err(Refusal::TooLong);
    }
    parse_words(line)
}

/// Returns the operation of a line of at most 128 bytes.
fn parse_words(line: &[u8]) -> Result<Op, Refusal>
    ensures { result ≡ command_in (words_of line.now) }
{
    take_command(&mut Parser, &mut WholeLine::new(), line)
}

/// Takes the operation of a line of at most 128 bytes, or the refusal of the line. This is the table of commands: a
/// name, the form of the values, and the operation.
///
/// Requires: 193 bytes of the page are free.
// Each command is taken in an arm in which the compiler knows the operation, since what the arm calls is inlined. In a
// run the taker is the session of cc_script, which steps its machine.
#[inline(always)]
pub fn take_command<const N: usize, T: Taker<N>>(
    taker: &mut T,
    text: &mut Page<N>,
    line: &[u8],
) -> T::Out
    requires { length text.old + 193 ≤ N }
    ensures { (command : Result OpSpec RefusalSpec) → command ≡ command_in (words_of line.now)
        → T.Taken taker.old command result text.old text.new taker.new }
{
    if let Some(values) = after(line, b"show ") {
        take_of_value(taker, text, values, Op::Show)
    } else if let Some(values) = after(line, b"round ") {
        take_of_value(taker, text, values, Op::Round)
    } else if let Some(values) = after(line, b"alloc ") {
        take_of_value(taker, text, values, Op::Alloc)
    } else if let Some(values) = after(line, b"free ") {
        take_of_value(taker, text, values, Op::Free)
    } else {
        take_derivation(taker, text, line)
    }
}

/// Takes the operation of a line of at most 128 bytes by the table from `inc` on, or the refusal of the line.
///
/// Requires: 193 bytes of the page are free.
// The proof of a chain of arms grows with the square of its length, so the table has three functions.
#[inline(always)]
fn take_derivation<const N: usize, T: Taker<N>>(
    taker: &mut T,
    text: &mut Page<N>,
    line: &[u8],
) -> T::Out
    requires { length text.old + 193 ≤ N }
    ensures { (command : Result OpSpec RefusalSpec) → command ≡ command_by (drop 4 commands) (words_of line.now)
        → T.Taken taker.old command result text.old text.new taker.new }
{
    if let Some(values) = after(line, b"inc ") {
        take_of_slot(taker, text, values, Op::Inc)
    } else if let Some(values) = after(line, b"addr ") {
        take_of_slot(taker, text, values, Op::Addr)
    } else if let Some(values) = after(line, b"bounds ") {
        take_of_slot(taker, text, values, Op::Bounds)
    } else if let Some(values) = after(line, b"exact ") {
        take_of_slot(taker, text, values, Op::Exact)
    } else if let Some(values) = after(line, b"perms ") {
        take_of_slot(taker, text, values, Op::Perms)
    } else if let Some(values) = after(line, b"flag ") {
        take_of_slot(taker, text, values, Op::Flag)
    } else {
        take_sealing(taker, text, line)
    }
}

/// Takes the operation of a line of at most 128 bytes by the table from `seal` on, or the refusal of the line.
///
/// Requires: 193 bytes of the page are free.
#[inline(always)]
fn take_sealing<const N: usize, T: Taker<N>>(
    taker: &mut T,
    text: &mut Page<N>,
    line: &[u8],
) -> T::Out
    requires { length text.old + 193 ≤ N }
    ensures { (command : Result OpSpec RefusalSpec) → command ≡ command_by (drop 10 commands) (words_of line.now)
        → T.Taken taker.old command result text.old text.new taker.new }
{
    if let Some(values) = after(line, b"seal ") {
        take_of_slot(taker, text, values, Op::Seal)
    } else if let Some(values) = after(line, b"unseal ") {
        take_of_slot(taker, text, values, Op::Unseal)
    } else if let Some(values) = after(line, b"rebuild ") {
        take_of_slot(taker, text, values, Op::Rebuild)
    } else if let Some(values) = after(line, b"pool ") {
        taker.take(text, made(slot_and_perhaps(Align::One, values), Op::Pool))
    } else if is(line, b"sweep") {
        taker.take(text, Ok(Op::Sweep))
    } else {
        taker.take(text, Err(Refusal::Syntax))
    }
}

/// Takes the operation that is made of a value, or the refusal of the value.
///
/// Requires: 193 bytes of the page are free, and `make` takes every value.
// The proof of the table grows with the calls in its arms, so an arm makes one: of this function or of the next.
#[inline(always)]
fn take_of_value<const N: usize, T: Taker<N>, V: Value, F: FnOnce(V) -> Op>(
    taker: &mut T,
    text: &mut Page<N>,
    values: &[u8],
    make: F,
) -> T::Out
    requires room { length text.old + 193 ≤ N }
    requires callable { (value : V) → F.pre make value }
    ensures { (makes : V → OpSpec) (command : Result OpSpec RefusalSpec)
        → ((value : V) (op : OpSpec) → F.post make value op → op ≡ makes value)
        → command ≡ one makes (single V.value_in (words_of values.now))
        → T.Taken taker.old command result text.old text.new taker.new }
{
    taker.take(text, V::read(values).map(make))
}

/// Takes the operation that is made of a slot and a value, or the refusal of these.
///
/// Requires: 193 bytes of the page are free, and `make` takes every slot and value.
#[inline(always)]
fn take_of_slot<const N: usize, T: Taker<N>, V: Value, F: FnOnce(u32, V) -> Op>(
    taker: &mut T,
    text: &mut Page<N>,
    values: &[u8],
    make: F,
) -> T::Out
    requires room { length text.old + 193 ≤ N }
    requires callable { (slot : ℕ) (value : V) → F.pre make slot value }
    ensures { (makes : ℕ → V → OpSpec) (command : Result OpSpec RefusalSpec)
        → ((slot : ℕ) (value : V) (op : OpSpec) → F.post make slot value op → op ≡ makes slot value)
        → command ≡ two makes (slot_and V.value_in (words_of values.now))
        → T.Taken taker.old command result text.old text.new taker.new }
{
    taker.take(text, made(slot_and(values), make))
}

/// Returns the operation that is made of a slot and a value, or their refusal.
///
/// Requires: `make` takes every slot and value.
#[inline(always)]
fn made<V: Value, F: FnOnce(u32, V) -> Op>(
    parts: Result<(u32, V), Refusal>,
    make: F,
) -> Result<Op, Refusal>
    requires { (slot : ℕ) (value : V) → F.pre make slot value }
    ensures { (makes : ℕ → V → OpSpec)
        → ((slot : ℕ) (value : V) (op : OpSpec) → F.post make slot value op → op ≡ makes slot value)
        → result ≡ two makes parts }
{
    match parts {
        Ok((slot, value)) => Ok(make(slot, value)),
        Err(refusal) => Err(refusal),
    }
}
