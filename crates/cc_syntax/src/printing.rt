//! The lines of replies.
ghost use Rattle.std.specs.Prelude.{◌≡◌, ◌+◌, ◌≤◌, ◌++◌, length, take, drop, codes, decimal};
ghost use Rattle.cc_word.specs.Word.{bit_of};
ghost use Rattle.cc_word.specs.WordText.{digits_of};
ghost use Rattle.cc_word.specs.Permissions.{bits_of};
ghost use Rattle.cc_syntax.specs.Replies.{align_text, bounds_text, hexadecimal, made_text, parent_text};
ghost use Rattle.cc_syntax.specs.Replies.{reply_text, revoked_text};

use cc_bounds::{Align, Span};
use cc_io::{Line, Page, refusal_bytes};
use cc_values::Reply;
use cc_word::{ObjType, Perms, write_half};

/// Returns the line of a reply, without its line feed: at most 192 bytes.
pub fn reply_line(reply: &Reply) -> Line
    ensures { result ≡ reply_text reply.now }
{
    let mut line = Line::new();
    push_reply(&mut line, reply);
    line
}

/// Appends the line of a reply, at most 192 bytes.
///
/// Requires: 192 bytes of the page are free.
#[inline(always)]
#[tactic(auto, unfolding(crate::specs::Replies::reply_text))]
pub fn push_reply<const N: usize>(line: &mut Page<N>, reply: &Reply)
    requires { length line.old + 192 ≤ N }
    ensures value { line.new ≡ line.old ++ reply_text reply.now }
    ensures fits { length line.new ≤ length line.old + 192 }
{
    match *reply {
        Reply::Made { slot, word, span } => push_made_line(line, slot, word, &span),
        Reply::Shown {
            word,
            span,
            perms,
            flag,
            otype,
            parent,
        } => {
            push_shown(line, word, &span);
            push_rights(line, perms, flag, otype);
            push_parent(line, parent);
        }
        Reply::Rounded {
            rounded,
            granule,
            mask,
        } => push_rounded(line, rounded, granule, mask),
        Reply::PoolSet { slot, span, align } => push_pool(line, slot, &span, align),
        Reply::Allocated {
            object,
            slot,
            word,
            span,
            held,
        } => push_allocated(line, object, slot, word, &span, held),
        Reply::Freed {
            object,
            revoked,
            held,
        } => push_freed(line, object, revoked, held),
        Reply::Swept {
            objects,
            revoked,
            held,
        } => push_swept(line, objects, revoked, held),
        Reply::Refused(refusal) => {
            let bytes = refusal_bytes(refusal);
            // all but the line feed
            line.push(&bytes[..bytes.len() - 1]);
        }
    }
}

/// Appends the line of a new slot.
#[inline(never)]
fn push_made_line<const N: usize>(line: &mut Page<N>, slot: u32, word: u128, span: &Span)
    requires { length line.old + 118 ≤ N }
    ensures value { line.new ≡ line.old ++ codes "slot " ++ made_text slot word span.now }
    ensures fits { length line.new ≤ length line.old + 118 }
{
    line.push_known(*b"slot ");
    push_made(line, slot, word, span);
}

/// Appends the line of a new object and its slot.
fn push_allocated<const N: usize>(
    line: &mut Page<N>,
    object: u32,
    slot: u32,
    word: u128,
    span: &Span,
    held: u128,
)
    requires { length line.old + 182 ≤ N }
    ensures value { line.new ≡ line.old ++ codes "object " ++ decimal object ++ codes " slot " ++ made_text slot
        word span.now ++ codes " held " ++ decimal held }
    ensures fits { length line.new ≤ length line.old + 182 }
{
    line.push_known(*b"object ");
    line.push_index(object);
    line.push_known(*b" slot ");
    push_made(line, slot, word, span);
    line.push_known(*b" held ");
    line.push_decimal(held);
}

/// Appends the line of a freed object.
fn push_freed<const N: usize>(line: &mut Page<N>, object: u32, revoked: u32, held: u128)
    requires { length line.old + 81 ≤ N }
    ensures value { line.new ≡ line.old ++ codes "freed " ++ decimal object ++ revoked_text revoked held }
    ensures fits { length line.new ≤ length line.old + 81 }
{
    line.push_known(*b"freed ");
    line.push_index(object);
    push_revoked(line, revoked, held);
}

/// Appends the line of a sweep.
fn push_swept<const N: usize>(line: &mut Page<N>, objects: u32, revoked: u32, held: u128)
    requires { length line.old + 81 ≤ N }
    ensures value { line.new ≡ line.old ++ codes "swept " ++ decimal objects ++ revoked_text revoked held }
    ensures fits { length line.new ≤ length line.old + 81 }
{
    line.push_known(*b"swept ");
    line.push_index(objects);
    push_revoked(line, revoked, held);
}

/// Appends the line of a new pool.
fn push_pool<const N: usize>(line: &mut Page<N>, slot: u32, span: &Span, align: Align)
    requires { length line.old + 94 ≤ N }
    ensures value { line.new ≡ line.old ++ codes "pool " ++ decimal slot ++ codes " " ++ bounds_text span.now ++
        align_text align }
    ensures fits { length line.new ≤ length line.old + 94 }
{
    line.push_known(*b"pool ");
    line.push_index(slot);
    line.push_known(*b" ");
    push_bounds(line, span);
    match align {
        Align::One => {}
        Align::Sixteen => line.push_known(*b" align 16"),
    }
}

/// Appends the line of a rounded length.
fn push_rounded<const N: usize>(line: &mut Page<N>, rounded: u128, granule: u64, mask: u64)
    requires { length line.old + 110 ≤ N }
    ensures value { line.new ≡ line.old ++ codes "round " ++ hexadecimal rounded ++ codes " " ++ hexadecimal granule
        ++ codes " " ++ hexadecimal mask }
    ensures fits { length line.new ≤ length line.old + 110 }
{
    line.push_known(*b"round ");
    line.push_hexadecimal(rounded);
    line.push_known(*b" ");
    line.push_hexadecimal(u128::from(granule));
    line.push_known(*b" ");
    line.push_hexadecimal(u128::from(mask));
}

/// Appends the start of the line of a shown capability: its word and its bounds.
fn push_shown<const N: usize>(line: &mut Page<N>, word: u128, span: &Span)
    requires { length line.old + 106 ≤ N }
    ensures value { line.new ≡ line.old ++ codes "cap " ++ digits_of 32 word ++ codes " " ++ bounds_text span.now }
    ensures fits { length line.new ≤ length line.old + 106 }
{
    line.push_known(*b"cap ");
    line.push_word(word);
    line.push_known(*b" ");
    push_bounds(line, span);
}

/// Appends the number of revoked slots, and the number of held bytes.
fn push_revoked<const N: usize>(line: &mut Page<N>, revoked: u32, held: u128)
    requires { length line.old + 65 ≤ N }
    ensures value { line.new ≡ line.old ++ revoked_text revoked held }
    ensures fits { length line.new ≤ length line.old + 65 }
{
    line.push_known(*b" revoked ");
    line.push_index(revoked);
    line.push_known(*b" held ");
    line.push_decimal(held);
}

/// Appends permissions, flag and type.
fn push_rights<const N: usize>(line: &mut Page<N>, perms: Perms, flag: bool, otype: ObjType)
    requires { length line.old + 60 ≤ N }
    ensures value { line.new ≡ line.old ++ codes " " ++ digits_of 4 (bits_of perms) ++ codes " " ++ decimal
        (bit_of flag) ++ codes " " ++ digits_of 5 otype }
    ensures fits { length line.new ≤ length line.old + 60 }
{
    let digits = digits_of_rights(perms.bits(), otype.bits());
    line.push_known(*b" ");
    line.push(&digits[4..8]);
    line.push_known(*b" ");
    push_flag(line, flag);
    line.push_known(*b" ");
    line.push(&digits[11..]);
}

/// Returns eight digits of the permissions and eight of the type, written together. Only the last
/// ones of each are needed.
#[inline(always)]
fn digits_of_rights(perms: u16, otype: u32) -> [u8; 16]
    ensures perms { take 4 (drop 4 result) ≡ digits_of 4 perms }
    ensures otype { drop 11 result ≡ digits_of 5 otype }
{
    write_half(u64::from(perms) * (1 << 32) + u64::from(otype))
}

/// Appends a flag as a number.
#[inline(always)]
fn push_flag<const N: usize>(line: &mut Page<N>, flag: bool)
    requires { length line.old + 1 ≤ N }
    ensures value { line.new ≡ line.old ++ decimal (bit_of flag) }
    ensures fits { length line.new ≤ length line.old + 1 }
{
    line.push_known([b'0' + u8::from(flag)]);
}

/// Appends the parent's slot, or `-` for the root.
fn push_parent<const N: usize>(line: &mut Page<N>, parent: Option<u32>)
    requires { length line.old + 12 ≤ N }
    ensures value { line.new ≡ line.old ++ codes " " ++ parent_text parent }
    ensures fits { length line.new ≤ length line.old + 12 }
{
    line.push_known(*b" ");
    match parent {
        Some(slot) => line.push_index(slot),
        None => line.push_known(*b"-"),
    }
}

/// Appends the number, the word and the bounds of a slot.
fn push_made<const N: usize>(line: &mut Page<N>, slot: u32, word: u128, span: &Span)
    requires { length line.old + 113 ≤ N }
    ensures value { line.new ≡ line.old ++ made_text slot word span.now }
    ensures fits { length line.new ≤ length line.old + 113 }
{
    line.push_index(slot);
    line.push_known(*b" ");
    line.push_word(word);
    line.push_known(*b" ");
    push_bounds(line, span);
}

/// Appends base and top.
fn push_bounds<const N: usize>(line: &mut Page<N>, span: &Span)
    requires { length line.old + 69 ≤ N }
    ensures value { line.new ≡ line.old ++ bounds_text span.now }
    ensures fits { length line.new ≤ length line.old + 69 }
{
    line.push_hexadecimal(u128::from(span.base));
    line.push_known(*b" ");
    line.push_hexadecimal(span.top);
}
