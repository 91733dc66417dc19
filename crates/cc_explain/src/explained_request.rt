//! The explanation of a request for bounds: what setting them grants, and why.
ghost use Rattle.std.specs.Prelude.{◌≡◌, ◌+◌, ◌≤◌, ◌<◌, ◌^◌, ◌++◌, [], length};
ghost use Rattle.cc_bounds.specs.Granule.{IsGranule};
ghost use Rattle.cc_bounds.specs.Span.{IsSpan, IsWithin, length_of};
ghost use Rattle.cc_explain.specs.Request.{
  IsGrant,
  IsRequestExplanation,
  exact_text,
  grant_text,
  half_text,
  lost_text,
  span_text,
  touched_text,
  unit_text,
};

use crate::explained_steps::push_word;
use crate::request::{Grant, grant_of, granule_count, length_of};
use cc_bounds::{Span, granule, round_length};
use cc_io::{MOST_TEXT, Text, end_with_decimal, end_with_hexadecimal, push_hexadecimal};

/// Puts the explanation of a request for bounds into an empty text: the granule, and why half of it is not enough;
/// the granted bounds, and the number of their bytes below and above the request; the length with exact bounds, and
/// its bases; and the word of the root capability with the granted bounds.
///
/// Requires: the request is a span of the address space.
pub fn push_explained_request(text: &mut Text, request: &Span)
    requires is_span { IsSpan request.now }
    requires empty { text.old ≡ [] }
    ensures { IsRequestExplanation request.now text.new }
{
    push_grant(text, request, &grant_of(request));
}

/// Appends all lines of an explained request, down to the word of what it is granted.
fn push_grant(text: &mut Text, request: &Span, grant: &Grant)
    requires is_span { IsSpan request.now }
    requires is_grant { IsGrant request.now grant.now }
    requires granted { IsSpan grant.now.granted }
    requires covers { IsWithin request.now grant.now.granted }
    requires room { length text.old + 1100 ≤ MOST_TEXT }
    ensures { text.new ≡ text.old ++ grant_text request.now grant.now }
{
    push_span(text, b"request   ", request);
    push_unit(text, request, grant.granule);
    push_span(text, b"granted   ", &grant.granted);
    push_lost(text, request, &grant.granted);
    push_exact(text, request);
    push_word(text, grant.word);
}

/// Appends a line: the given bytes, and then the span's length, base and top.
fn push_span(text: &mut Text, before: &[u8], span: &Span)
    requires is_span { IsSpan span.now }
    requires before { length before.now ≤ 60 }
    requires room { length text.old + length before.now + 130 ≤ MOST_TEXT }
    ensures value { text.new ≡ text.old ++ span_text before.now span.now }
    ensures fits { length text.new ≤ length text.old + length before.now + 130 }
{
    push_hexadecimal(text, before, length_of(span));
    push_hexadecimal(text, b" bytes, from ", u128::from(span.base));
    end_with_hexadecimal(text, b" to ", span.top, b"");
}

/// Appends the line of a request's granule, and for at least 4,096 bytes a line that says why half
/// of it is not enough.
fn push_unit(text: &mut Text, request: &Span, granule: u64)
    requires is_span { IsSpan request.now }
    requires is_granule { IsGranule request.now granule }
    requires room { length text.old + 400 ≤ MOST_TEXT }
    ensures value { text.new ≡ text.old ++ unit_text request.now granule }
    ensures fits { length text.new ≤ length text.old + 400 }
{
    if length_of(request) < 4096 {
        text.push(b"granule   1 byte: the request has less than 4096\n");
    } else {
        push_touched(text, request, granule);
        push_half(text, request, granule);
    }
}

/// Appends the line of a granule of more than one byte.
fn push_touched(text: &mut Text, request: &Span, granule: u64)
    requires is_span { IsSpan request.now }
    requires some { 8 ≤ granule }
    requires room { length text.old + 200 ≤ MOST_TEXT }
    ensures value { text.new ≡ text.old ++ touched_text request.now granule }
    ensures fits { length text.new ≤ length text.old + 200 }
{
    push_hexadecimal(text, b"granule   ", u128::from(granule));
    end_with_decimal(
        text,
        b" bytes: the request touches ",
        granule_count(request, granule),
        b" of them, and at most 1023 can be counted",
    );
}

/// Appends the line that says why half of the granule is not enough.
fn push_half(text: &mut Text, request: &Span, granule: u64)
    requires is_span { IsSpan request.now }
    requires some { 8 ≤ granule }
    requires room { length text.old + 200 ≤ MOST_TEXT }
    ensures value { text.new ≡ text.old ++ half_text request.now granule }
    ensures fits { length text.new ≤ length text.old + 200 }
{
    if granule == 8 {
        text.push(b"half      none: from 4096 bytes up a granule has 8 bytes or more\n");
    } else {
        push_hexadecimal(text, b"half      ", u128::from(granule / 2));
        end_with_decimal(
            text,
            b" bytes: the request touches ",
            granule_count(request, granule / 2),
            b" of them, and that is too many",
        );
    }
}

/// Appends the line of the number of bytes that are granted before the request, and after it.
fn push_lost(text: &mut Text, request: &Span, granted: &Span)
    requires covers { IsWithin request.now granted.now }
    requires room { length text.old + 160 ≤ MOST_TEXT }
    ensures value { text.new ≡ text.old ++ lost_text request.now granted.now }
    ensures fits { length text.new ≤ length text.old + 160 }
{
    let before = u128::from(request.base - granted.base);
    push_hexadecimal(text, b"lost      ", before);
    end_with_hexadecimal(
        text,
        b" bytes before the request, and ",
        granted.top - request.top,
        b" behind it",
    );
}

/// Appends the line of the request's length rounded up, and of the bases at which that length has
/// exact bounds.
fn push_exact(text: &mut Text, request: &Span)
    requires is_span { IsSpan request.now }
    requires room { length text.old + 160 ≤ MOST_TEXT }
    ensures value { text.new ≡ text.old ++ exact_text (length_of request.now) }
    ensures fits { length text.new ≤ length text.old + 160 }
{
    let len = length_of(request);
    push_hexadecimal(text, b"exact     ", round_length(len));
    end_with_hexadecimal(
        text,
        b" bytes, at a base that is a multiple of ",
        u128::from(granule(len)),
        b"",
    );
}
