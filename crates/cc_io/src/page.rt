//! Output bytes in fixed-size buffers: a reply, or replies that are pending.
ghost use Rattle.std.specs.Prelude.{◌≡◌, ◌+◌, ◌-◌, ◌*◌, ◌/◌, ◌%◌, ◌^◌, ◌≤◌, ◌<◌, [], ◌∷◌, ◌++◌, length, take};
ghost use Rattle.std.specs.Prelude.{decimal, false};
ghost use Rattle.std.specs.Fmt.{digits};
ghost use Rattle.cc_word.specs.WordText.{digits_of, hexadecimal};
ghost use Rattle.cc_io.specs.Text.{with_line_feed};

use cc_word::{write_half, write_word_fast};
use std::marker::Model;

/// The maximum length of a reply in bytes.
pub const MOST_REPLY: usize = 192;

/// The maximum length of a reply and its line feed in bytes.
pub const MOST_LINE: usize = 193;

/// The maximum number of bytes that are pending for a sink.
pub const MOST_PENDING: usize = 65536;

/// The maximum length of a [`Text`] in bytes.
pub const MOST_TEXT: usize = 4096;

/// A buffer for a reply, or for a line that is as short.
pub type Line = Page<MOST_REPLY>;

/// A buffer for a reply and its line feed.
pub type WholeLine = Page<MOST_LINE>;

/// A buffer for replies that are pending.
pub type Pending = Page<MOST_PENDING>;

/// A buffer for the output of a command, or for a part of a drawing.
pub type Text = Page<MOST_TEXT>;

/// The two decimal digits of each number below 100.
const PAIRS: [u8; 200] = *b"00010203040506070809\
    10111213141516171819\
    20212223242526272829\
    30313233343536373839\
    40414243444546474849\
    50515253545556575859\
    60616263646566676869\
    70717273747576777879\
    80818283848586878889\
    90919293949596979899";

/// At most `N` bytes, which are stored in the value itself.
#[derive(Drop)]
pub struct Page<const N: usize> {
    room: [u8; N],
    len: usize,
}

impl<const N: usize> Model for Page<N> {
    ghost use Rattle.std.specs.Prelude.{ℕ, ◌≤◌, List, take};

    ghost Value = { List ℕ };

    ghost view = { λ s. take s.len s.room };

    ghost invariant = { λ s. s.len ≤ N };
}

impl<const N: usize> Page<N> {
    /// Creates a page with no bytes.
    pub fn new() -> Self
        ensures { result ≡ [] }
    {
        Page {
            room: [0; N],
            len: 0,
        }
    }

    /// Returns the bytes of the page.
    pub fn bytes(&self) -> &[u8]
        ensures value { result.now ≡ self.now }
        ensures fits { length result.now ≤ N }
    {
        &self.room[..self.len]
    }

    /// Returns the number of bytes of the page.
    #[inline(always)]
    pub fn len(&self) -> usize
        ensures value { result ≡ length self.now }
        ensures fits { result ≤ N }
    {
        self.len
    }

    /// Removes all the bytes.
    pub fn clear(&mut self)
        ensures { self.new ≡ [] }
    {
        self.len = 0;
    }

    /// Appends bytes as they are.
    ///
    /// Requires: the bytes fit on the page.
    #[inline(always)]
    pub fn push(&mut self, bytes: &[u8])
        requires { length self.old + length bytes.now ≤ N }
        ensures { self.new ≡ self.old ++ bytes.now }
    {
        let end = self.len + bytes.len();
        // the mutable part is taken of a slice and not of an array of `N` bytes, which the prover
        // does not cover
        let room = &mut self.room[..];
        room[self.len..end].copy_from_slice(bytes);
        self.len = end;
    }

    /// Appends bytes that are known at compile time.
    ///
    /// Requires: the bytes fit on the page.
    #[inline(always)]
    pub fn push_known<const M: usize>(&mut self, bytes: [u8; M])
        requires { length self.old + M ≤ N }
        ensures { self.new ≡ self.old ++ bytes.entry }
    {
        self.push(&bytes);
    }

    /// Appends a line and its line feed.
    ///
    /// Requires: both fit on the page.
    pub fn push_line(&mut self, line: &Line)
        requires { length self.old + length line.now + 1 ≤ N }
        ensures value { self.new ≡ self.old ++ with_line_feed line.now }
        ensures fits { length self.new ≡ length self.old + length line.now + 1 }
    {
        self.push(line.bytes());
        self.push(b"\n");
    }

    /// Appends the number of a slot or of an object in decimal digits.
    ///
    /// Requires: 10 bytes fit on the page.
    #[tactic(auto, using(crate::proofs::DecimalLemmas::one_digit, crate::proofs::DecimalLemmas::two_alone))]
    pub fn push_index(&mut self, number: u32)
        requires { length self.old + 10 ≤ N }
        ensures value { self.new ≡ self.old ++ decimal number }
        ensures fits { length self.new ≤ length self.old + 10 }
    {
        if number >= 10_000 {
            return self.push_long_index(number);
        }
        if number < 10 {
            return self.push_second_digit(number);
        }
        if number < 100 {
            return self.push_pair(number);
        }
        if number < 1000 {
            self.push_second_digit(number / 100);
            return self.push_pair(number % 100);
        }
        self.push_pair(number / 100);
        self.push_pair(number % 100);
    }

    /// Appends a number of at least five digits in decimal digits.
    #[inline(always)]
    fn push_long_index(&mut self, number: u32)
        requires long { 10000 ≤ number }
        requires room { length self.old + 10 ≤ N }
        ensures value { self.new ≡ self.old ++ decimal number }
        ensures fits { length self.new ≤ length self.old + 10 }
    {
        if number >= 1_000_000 {
            return self.push_large_index(number);
        }
        self.push_middle_index(number);
    }

    /// Appends a number of five or six digits in decimal digits.
    #[inline(always)]
    fn push_middle_index(&mut self, number: u32)
        requires long { 10000 ≤ number }
        requires short { number < 1000000 }
        requires room { length self.old + 6 ≤ N }
        ensures value { self.new ≡ self.old ++ decimal number }
        ensures fits { length self.new ≤ length self.old + 6 }
    {
        let pair = second_pair(number);
        if number < 100_000 {
            self.push_second_digit(number / 10_000);
            self.push_pair(pair);
            return self.push_pair(number % 100);
        }
        self.push_pair(number / 10_000);
        self.push_pair(pair);
        self.push_pair(number % 100);
    }

    /// Appends the two decimal digits of a number below 100.
    #[inline(always)]
    fn push_pair(&mut self, number: u32)
        requires small { number < 100 }
        requires room { length self.old + 2 ≤ N }
        ensures value { self.new ≡ self.old ++ (48 + number / 10) ∷ (48 + number % 10) ∷ [] }
        ensures fits { length self.new ≡ length self.old + 2 }
    {
        let (first, second) = digits_of_pair(number);
        self.push(&[first, second]);
    }

    /// Appends the second of the two decimal digits of a number below 100.
    #[inline(always)]
    fn push_second_digit(&mut self, number: u32)
        requires small { number < 100 }
        requires room { length self.old + 1 ≤ N }
        ensures value { self.new ≡ self.old ++ (48 + number % 10) ∷ [] }
        ensures fits { length self.new ≡ length self.old + 1 }
    {
        let (_, second) = digits_of_pair(number);
        self.push(&[second]);
    }

    /// Appends a number of at least seven digits in decimal digits, such as the bytes that a plan
    /// holds.
    #[inline(never)]
    fn push_large_index(&mut self, number: u32)
        requires large { 1000000 ≤ number }
        requires room { length self.old + 10 ≤ N }
        ensures value { self.new ≡ self.old ++ decimal number }
        ensures fits { length self.new ≤ length self.old + 10 }
    {
        if number >= 100_000_000 {
            return self.push_any_index(number);
        }
        self.push_middle_index(number / 100);
        self.push_pair(number % 100);
    }

    /// Appends a number of any size in decimal digits.
    #[cold]
    #[inline(never)]
    fn push_any_index(&mut self, number: u32)
        requires { length self.old + 10 ≤ N }
        ensures value { self.new ≡ self.old ++ decimal number }
        ensures fits { length self.new ≤ length self.old + 10 }
    {
        let mut buffer = itoa::Buffer::new();
        self.push(buffer.format(number).as_bytes());
    }

    /// Appends a number in decimal digits.
    ///
    /// Requires: 40 bytes fit on the page.
    pub fn push_decimal(&mut self, number: u128)
        requires { length self.old + 40 ≤ N }
        ensures value { self.new ≡ self.old ++ decimal number }
        ensures fits { length self.new ≤ length self.old + 40 }
    {
        if number < 1 << 32 {
            return self.push_index(number as u32);
        }
        self.push_long_decimal(number);
    }

    /// Appends a number of any size in decimal digits.
    #[inline(never)]
    fn push_long_decimal(&mut self, number: u128)
        requires { length self.old + 40 ≤ N }
        ensures value { self.new ≡ self.old ++ decimal number }
        ensures fits { length self.new ≤ length self.old + 40 }
    {
        let mut buffer = itoa::Buffer::new();
        self.push(buffer.format(number).as_bytes());
    }

    /// Appends the last `count` hexadecimal digits of a number.
    ///
    /// Requires: `count <= 32`; `count` bytes fit on the page.
    pub fn push_digits(&mut self, number: u128, count: usize)
        requires digits { count ≤ 32 }
        requires room { length self.old + count ≤ N }
        ensures value { self.new ≡ self.old ++ digits_of count number }
        ensures fits { length self.new ≡ length self.old + count }
    {
        self.push(&write_word_fast(number)[32 - count..]);
    }

    /// Appends the 32 hexadecimal digits of a word.
    ///
    /// Requires: 32 bytes fit on the page.
    pub fn push_word(&mut self, word: u128)
        requires { length self.old + 32 ≤ N }
        ensures value { self.new ≡ self.old ++ digits_of 32 word }
        ensures fits { length self.new ≡ length self.old + 32 }
    {
        self.push(&write_word_fast(word));
    }

    /// Appends `0x` and a number's hexadecimal digits without leading zeros.
    ///
    /// Requires: 34 bytes fit on the page.
    #[inline(always)]
    pub fn push_hexadecimal(&mut self, number: u128)
        requires { length self.old + 34 ≤ N }
        ensures value { self.new ≡ self.old ++ hexadecimal number }
        ensures fits { length self.new ≤ length self.old + 34 }
    {
        if number < 1 << 64 {
            self.push_short_hexadecimal(number as u64);
        } else {
            self.push_long_hexadecimal(number);
        }
    }

    /// Appends `0x` and the hexadecimal digits of a number of at most 64 bits.
    #[inline(always)]
    fn push_short_hexadecimal(&mut self, number: u64)
        requires { length self.old + 34 ≤ N }
        ensures value { self.new ≡ self.old ++ hexadecimal number }
        ensures fits { length self.new ≤ length self.old + 34 }
    {
        self.push_known(*b"0x");
        self.push_significant(number);
    }

    /// Appends `0x` and the hexadecimal digits of a number of more than 64 bits.
    #[cold]
    #[inline(never)]
    fn push_long_hexadecimal(&mut self, number: u128)
        requires long { 2 ^ 64 ≤ number }
        requires room { length self.old + 34 ≤ N }
        ensures value { self.new ≡ self.old ++ hexadecimal number }
        ensures fits { length self.new ≤ length self.old + 34 }
    {
        self.push_known(*b"0x");
        self.push_significant((number >> 64) as u64);
        self.push(&write_half((number % (1 << 64)) as u64));
    }

    /// Appends a number's hexadecimal digits without leading zeros.
    fn push_significant(&mut self, number: u64)
        requires { length self.old + 16 ≤ N }
        ensures value { self.new ≡ self.old ++ digits 16 false number }
        ensures fits { length self.new ≤ length self.old + 16 }
    {
        let zeros = leading_zeros(number);
        self.push(&write_half(number << (4 * zeros)));
        self.drop_last(zeros);
    }

    /// Removes the last `count` bytes.
    ///
    /// Requires: the page has at least `count` bytes.
    #[inline(always)]
    pub fn drop_last(&mut self, count: usize)
        requires { count ≤ length self.old }
        ensures { self.new ≡ take (length self.old - count) self.old }
    {
        self.len -= count;
    }
}

/// Returns the two decimal digits of a number below 100.
#[inline(always)]
#[tactic(auto, using(crate::proofs::DecimalLemmas::first_listed, crate::proofs::DecimalLemmas::second_listed))]
fn digits_of_pair(number: u32) -> (u8, u8)
    requires { number < 100 }
    ensures first { result.0 ≡ 48 + number / 10 }
    ensures second { result.1 ≡ 48 + number % 10 }
{
    let at = 2 * number as usize;
    (PAIRS[at], PAIRS[at + 1])
}

/// Returns the two decimal digits before the last two, as a number.
///
/// One quotient also gives the digits before these, so that the compiler divides once for both.
#[inline(always)]
fn second_pair(number: u32) -> u32
    ensures value { result ≡ number / 100 % 100 }
    ensures small { result < 100 }
{
    number / 100 - number / 10_000 * 100
}

/// Returns how many of the 16 hexadecimal digits of a number are leading zeros, at most 15.
fn leading_zeros(number: u64) -> usize
    ensures few { result < 16 }
    ensures fits { number < 16 ^ (16 - result) }
    ensures least { result < 15 → 16 ^ (15 - result) ≤ number }
{
    ((number | 1).leading_zeros() / 4) as usize
}
