//! Laws of every input of words. The contract of each function is a law, and its body is empty.
ghost use Rattle.std.specs.Prelude.{◌≡◌, ◌↔◌, ◌%◌, ◌++◌, [], ◌∷◌, length, ℕ, Bool, List, Option, Some};
ghost use Rattle.std.specs.Io.KnownBytes.{Appends};
ghost use Rattle.cc_decode.specs.Correct.{WritesListing};
ghost use Rattle.cc_decode.specs.Input.{left_of};
ghost use Rattle.cc_decode.specs.Place.{header_of};
ghost use Rattle.cc_laws.specs.ListingParts.{AreListingRows, RowsInParts};
ghost use Rattle.cc_io.specs.declared.input_form.ByteOrder.{ByteOrder as ByteOrderSpec};
ghost use Rattle.cc_io.specs.declared.input_form.InputForm.TheVariants as form;
ghost use Rattle.cc_decode.specs.declared.options.Options.{Options as OptionsSpec};

/// Proves that an input has one listing. Two sinks that had taken the same bytes before it have
/// taken the same bytes after it, and both listings have an error, or neither.
pub fn one_listing()
    ensures { (options : OptionsSpec) (text taken : List ℕ) (one other : Option (List ℕ)) (any_error other_error : Bool)
        → WritesListing options text (Some taken) one any_error
        → WritesListing options text (Some taken) other other_error
        → (one ≡ other) × (any_error ≡ other_error) }
{}

/// Proves that a listing is the header of its format followed by rows, and that the rows of an input
/// in two parts are the rows of the first part followed by those of the second.
///
/// The first part has to have no trailing bytes: it ends in a line feed, or, if the input is raw
/// bytes, its length is a multiple of 16. So parts of an input can be decoded separately, and their
/// listings joined, if the header is kept only once. With addresses, the second part begins at the
/// address after the entries of the first.
pub fn listing_in_parts()
    ensures rows { (options : OptionsSpec) (text : List ℕ) (taken taken_now : Option (List ℕ)) (any_error : Bool)
        → (WritesListing options text taken taken_now any_error
        ↔ ((rows : List ℕ) × AreListingRows options text rows any_error
        × Appends taken taken_now (header_of options ++ rows))) }
    ensures parts { (options : OptionsSpec) (text more rows : List ℕ) (any_error : Bool)
        → left_of options.input text ≡ []
        → (AreListingRows options (text ++ more) rows any_error ↔ RowsInParts options text more rows any_error) }
    ensures line_feed { (text : List ℕ) → left_of form.Lines (text ++ 10 ∷ []) ≡ [] }
    ensures blocks { (order : ByteOrderSpec) (text : List ℕ) → length text % 16 ≡ 0
        → left_of (form.Bytes order) text ≡ [] }
{}
