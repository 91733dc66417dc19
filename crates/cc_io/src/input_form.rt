//! The forms of words in the input.
ghost use Rattle.std.specs.Prelude.{◌≡◌};
ghost use Rattle.cc_io.specs.Lines.{digits_in};

/// The order of the sixteen bytes of a word.
#[derive(Clone, Copy)]
pub enum ByteOrder {
    /// The lowest byte first: the address's lowest byte is the first, as in the memory of a
    /// little-endian machine.
    Little,
    /// The highest byte first.
    Big,
}

/// The form of words in the input.
#[derive(Clone, Copy)]
pub enum InputForm {
    /// One word on a line, as 32 hexadecimal digits of either case, with or without `0x` before
    /// them.
    Lines,
    /// One word after the other, as sixteen bytes each, with nothing between.
    Bytes(ByteOrder),
}

/// Returns the bytes of a string after `0x`, or all of them if it does not begin with `0x`.
pub fn digits_in(text: &[u8]) -> &[u8]
    ensures { result.now ≡ digits_in text.now }
{
    text.strip_prefix(b"0x").unwrap_or(text)
}
