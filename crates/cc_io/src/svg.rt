//! The parts of SVG documents.
ghost use Rattle.std.specs.Prelude.{◌≡◌, ◌+◌, ◌≤◌, ◌++◌, length};
ghost use Rattle.cc_io.specs.Svg.{markup, opening_text, sheet_text};

use crate::page::Page;

/// Appends the start of a document with these attributes, and the line feed.
///
/// Requires: 42 bytes and the attributes fit on the page.
#[tactic(auto, unfolding(crate::specs::Svg::opening_text))]
pub fn push_opening<const N: usize>(page: &mut Page<N>, attributes: &[u8])
    requires { length page.old + length attributes.now + 42 ≤ N }
    ensures value { page.new ≡ page.old ++ opening_text attributes.now }
    ensures fits { length page.new ≤ length page.old + length attributes.now + 42 }
{
    push_markup(page, b"<svg xmlns='http://www.w3.org/2000/svg' ");
    page.push(attributes);
    page.push(b">\n");
}

/// Appends a white rectangle with these attributes, and the line feed.
///
/// Requires: 21 bytes and the attributes fit on the page.
#[tactic(auto, unfolding(crate::specs::Svg::sheet_text))]
pub fn push_sheet<const N: usize>(page: &mut Page<N>, attributes: &[u8])
    requires { length page.old + length attributes.now + 21 ≤ N }
    ensures value { page.new ≡ page.old ++ sheet_text attributes.now }
    ensures fits { length page.new ≤ length page.old + length attributes.now + 21 }
{
    page.push(b"<rect ");
    page.push(attributes);
    page.push(b" fill='#fff'/>\n");
}

/// Appends bytes of a document as they are.
///
/// Requires: the bytes fit on the page.
#[tactic(auto, unfolding(crate::specs::Svg::markup))]
pub fn push_markup<const N: usize>(page: &mut Page<N>, bytes: &[u8])
    requires { length page.old + length bytes.now ≤ N }
    ensures value { page.new ≡ page.old ++ markup bytes.now }
    ensures fits { length page.new ≡ length page.old + length bytes.now }
{
    page.push(bytes);
}
