//! Bytes, digits and numbers appended to the page of replies.
ghost use Rattle.std.specs.Prelude.{◌≡◌, ◌+◌, ◌≤◌, ◌<◌, ◌++◌, ◌∷◌, [], decimal, length, if◌then◌else◌};
ghost use Rattle.cc_decode.specs.Row.{padded};

use cc_io::Page;
use cc_word::write_half;

/// The length of the page of replies in bytes.
pub(crate) const ROOM: usize = 32768;

/// The page of replies that are not yet written.
pub(crate) type Batch = Page<ROOM>;

/// Appends a byte.
#[inline(always)]
pub(crate) fn push_byte(batch: &mut Batch, byte: u8)
    requires { length batch.old + 1 ≤ 32768 }
    ensures value { batch.new ≡ batch.old ++ byte ∷ [] }
    ensures fits { length batch.new ≡ length batch.old + 1 }
{
    batch.push(&[byte]);
}

/// Appends a byte if `wanted` is true. The byte is stored in either case, so that there is no
/// branch.
#[inline(always)]
pub(crate) fn push_byte_if(batch: &mut Batch, byte: u8, wanted: bool)
    requires { length batch.old + 1 ≤ 32768 }
    ensures value { batch.new ≡ batch.old ++ (if wanted then byte ∷ [] else []) }
    ensures fits { length batch.new ≤ length batch.old + 1 }
{
    batch.push(&[byte]);
    batch.drop_last(usize::from(!wanted));
}

/// Appends a number below 100 in decimal digits.
#[inline(always)]
#[tactic(auto, using(cc_io::proofs::DecimalLemmas::one_digit, cc_io::proofs::DecimalLemmas::two_digits))]
pub(crate) fn push_decimal(batch: &mut Batch, number: u8)
    requires small { number < 100 }
    requires room { length batch.old + 2 ≤ 32768 }
    ensures value { batch.new ≡ batch.old ++ decimal number }
    ensures fits { length batch.new ≤ length batch.old + 2 }
{
    let ones = b'0' + number % 10;
    if number < 10 {
        return batch.push(&[ones]);
    }
    batch.push(&[b'0' + number / 10 % 10, ones]);
}

/// Appends `0x` and the last 17 hexadecimal digits of a number.
#[inline(always)]
pub(crate) fn push_padded(batch: &mut Batch, number: u128)
    requires { length batch.old + 19 ≤ 32768 }
    ensures value { batch.new ≡ batch.old ++ padded number }
    ensures fits { length batch.new ≡ length batch.old + 19 }
{
    batch.push_known(*b"0x");
    batch.push_digits(number >> 64, 1);
    batch.push(&write_half((number % (1 << 64)) as u64));
}
