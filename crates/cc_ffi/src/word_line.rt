//! The one-line form of a word, in a fixed-size buffer.
ghost use Rattle.std.specs.Prelude.{◌≡◌, ◌+◌, ◌-◌, ◌^◌, ◌<◌, ◌≤◌, ◌++◌, [], length};
ghost use Rattle.cc_word.specs.WordText.{hexadecimal};
ghost use Rattle.cc_word.specs.declared.fields.Fields.{Fields as FieldsSpec};
ghost use Rattle.cc_word.specs.Permissions.{bits_of};
ghost use Rattle.cc_cap.specs.LineText.{HasDigits, IsWordLine, letter_of, letters_of, word_line_of, marks_of};

use cc_bounds::{Span, decode};
use cc_cap::Flags;
use cc_word::{Fields, Perms, SENTRY_TYPE, UNSEALED_TYPE, unpack, write_word_fast};
use std::marker::Model;

/// The size of the buffer in bytes, which is more than any line has.
const ROOM: usize = 96;

/// The one-line form of a word: at most 95 bytes, which are stored in the value itself.
#[derive(Drop)]
pub(crate) struct WordLine {
    room: [u8; ROOM],
    len: usize,
}

impl Model for WordLine {
    ghost use Rattle.std.specs.Prelude.{ℕ, ◌<◌, List, take};
    ghost use Rattle.cc_ffi.specs.declared.word_line.TheConstants.{ROOM};

    ghost Value = { List ℕ };

    ghost view = { λ line. take line.len line.room };

    ghost invariant = { λ line. line.len < ROOM };
}

impl WordLine {
    /// Returns the one-line form of any word, in the format of `%#p` in CheriBSD.
    ///
    /// It is the word's address, and in brackets the letters of its permissions, and its base and
    /// its top as the word decodes. Then comes ` (sealed)` or ` (sentry)`, by its type,
    /// ` (invalid)` if `tagged` is false, or both, as ` (invalid,sealed)`. An example is
    /// `0x10070 [rwxRW,0x10070-0x12070]`.
    ///
    /// LOAD is `r`, STORE `w`, EXECUTE `x`, LOAD_CAP `R`, and STORE_CAP `W`. The other permissions
    /// have no letter. A type other than unsealed and sentry is sealed, including reserved types.
    pub(crate) fn of_word(word: u128, tagged: bool) -> WordLine
        ensures { IsWordLine word tagged result }
    {
        let fields = unpack(word);
        let bounds = decode(&fields);
        let mut line = WordLine::new();
        line.push_line(&fields, &bounds, tagged);
        line
    }

    /// Returns the bytes of the line.
    pub(crate) fn bytes(&self) -> &[u8]
        ensures value { result.now ≡ self.now }
        ensures fits { length result.now < 96 }
    {
        &self.room[..self.len]
    }

    fn new() -> WordLine
        ensures { result ≡ [] }
    {
        WordLine {
            room: [0; ROOM],
            len: 0,
        }
    }

    // Writes the line of these fields and bounds into an empty line.
    fn push_line(&mut self, fields: &Fields, bounds: &Span, tagged: bool)
        requires empty { self.old ≡ [] }
        requires top { bounds.now.top < 2 ^ 65 }
        ensures { self.new ≡ word_line_of fields.now bounds.now tagged }
    {
        self.push_number(u128::from(fields.address));
        self.push(b" [");
        self.push_letters(Perms::from_bits_retain(fields.perms));
        self.push(b",");
        self.push_number(u128::from(bounds.base));
        self.push(b"-");
        self.push_number(bounds.top);
        self.push(b"]");
        self.push(marks(fields.otype, tagged));
    }

    fn push(&mut self, bytes: &[u8])
        requires { length self.old + length bytes.now < 96 }
        ensures { self.new ≡ self.old ++ bytes.now }
    {
        let end = self.len + bytes.len();
        self.room[self.len..end].copy_from_slice(bytes);
        self.len = end;
    }

    // Appends `0x` and a number's hexadecimal digits without leading zeros.
    fn push_number(&mut self, number: u128)
        requires small { number < 2 ^ 65 }
        requires room { length self.old + 19 < 96 }
        ensures value { self.new ≡ self.old ++ hexadecimal number }
        ensures fits { length self.new ≤ length self.old + 19 }
    {
        self.push(b"0x");
        self.push(&write_word_fast(number)[32 - digit_count(number)..]);
    }

    fn push_letters(&mut self, perms: Perms)
        requires { length self.old + 5 < 96 }
        ensures value { self.new ≡ self.old ++ letters_of (bits_of perms) }
        ensures fits { length self.new ≤ length self.old + 5 }
    {
        self.push(letter(b"r", perms, Perms::LOAD));
        self.push(letter(b"w", perms, Perms::STORE));
        self.push(letter(b"x", perms, Perms::EXECUTE));
        self.push(letter(b"R", perms, Perms::LOAD_CAP));
        self.push(letter(b"W", perms, Perms::STORE_CAP));
    }
}

// Returns the letter of a permission if the set has it, otherwise nothing.
fn letter<'a>(letter: &'a [u8], perms: Perms, permission: Perms) -> &'a [u8]
    ensures value { result.now ≡ letter_of letter.now (bits_of perms) (bits_of permission) }
    ensures fits { length result.now ≤ length letter.now }
{
    if perms.contains(permission) {
        letter
    } else {
        b""
    }
}

// Returns the mark of a type and a tag, with the space before it: nothing for a tagged word that is
// unsealed.
fn marks(otype: u32, tagged: bool) -> &'static [u8]
    ensures value { result.now ≡ marks_of otype tagged }
    ensures fits { length result.now ≤ 17 }
{
    match (otype, tagged) {
        (UNSEALED_TYPE, true) => b"",
        (UNSEALED_TYPE, false) => b" (invalid)",
        (SENTRY_TYPE, true) => b" (sentry)",
        (SENTRY_TYPE, false) => b" (invalid,sentry)",
        (_, true) => b" (sealed)",
        (_, false) => b" (invalid,sealed)",
    }
}

// Returns the number of hexadecimal digits, without leading zeros.
fn digit_count(number: u128) -> usize
    requires { number < 2 ^ 65 }
    ensures { HasDigits result number }
{
    ((131 - number.leading_zeros()) / 4).max(1) as usize
}
