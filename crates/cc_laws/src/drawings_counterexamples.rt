//! Proves that no claim of the laws of drawings and listings holds for everything, and that their
//! premises are met. Each function here does nothing, and its contract is the claim.
ghost use Rattle.std.specs.Prelude.{ℕ, ◌≡◌, true, false, List, [], ◌∷◌, ◌++◌, Option, Some};
ghost use Rattle.cc_bounds.specs.Span.{span_from};
ghost use Rattle.cc_values.specs.declared.usage.Usage.{Usage};
ghost use Rattle.cc_io.specs.declared.input_form.InputForm.TheVariants.{Lines};
ghost use Rattle.cc_machine.specs.Planned.{plan_of};
ghost use Rattle.cc_draw.specs.Usage.{IsUsage, pool_span};
ghost use Rattle.cc_io.specs.declared.format.Format.{Format};
ghost use Rattle.cc_decode.specs.declared.options.Search.{Search};
ghost use Rattle.cc_decode.specs.declared.options.Tags.{Tags};
ghost use Rattle.cc_decode.specs.Correct.{WritesListing};
ghost use Rattle.cc_decode.specs.Output.{refused_text};
ghost use Rattle.cc_decode.specs.Place.{header_of};
ghost use Rattle.cc_decode.specs.declared.options.Options.{Options};
ghost use Rattle.cc_laws.specs.DrawnObjects.{AreHoles, ArePlaced, CountsFreeBytes, IsDrawnExactly};
ghost use Rattle.cc_laws.specs.ListingParts.{AreListingRows, RowsInParts};
ghost use Rattle.cc_laws.specs.Witnesses.{with_first_object};

/// A pool of 16 free bytes in which no hole, or a hole of no bytes, is counted.
fn usage_that_misses_free_bytes()
    ensures holes { (usage : Usage) → usage.holes ≡ 0 → ¬ CountsFreeBytes (span_from 0 16) [] usage }
    ensures largest { (usage : Usage) → usage.largest ≡ 0 → ¬ CountsFreeBytes (span_from 0 16) [] usage }
{}

/// A free byte that no span has, a byte above the pool, two spans that touch, and a span of no bytes.
fn spans_that_are_not_holes()
    ensures free { ¬ AreHoles (span_from 0 16) [] [] }
    ensures in_pool { ¬ AreHoles (span_from 0 16) [] (span_from 0 17 ∷ []) }
    ensures apart { ¬ AreHoles (span_from 0 16) [] (span_from 0 8 ∷ span_from 8 8 ∷ []) }
    ensures some { ¬ AreHoles (span_from 0 0) [] (span_from 0 0 ∷ []) }
{}

/// A span of no bytes, and one that is longer than the layout.
fn objects_that_are_not_drawn_exactly()
    ensures some { ¬ IsDrawnExactly (record { start = 0; size = 1; cells = 1; width = 1 }) (span_from 0 0) }
    ensures in_layout { ¬ IsDrawnExactly (record { start = 0; size = 1; cells = 1; width = 1 }) (span_from 0 2) }
{}

/// A row, or an error, that no part of an input has.
fn rows_of_other_input()
    ensures row { (options : Options) → options.input ≡ Lines → ¬ AreListingRows options [] (10 ∷ []) false }
    ensures rows { (options : Options) → options.input ≡ Lines → ¬ RowsInParts options [] [] (10 ∷ []) false }
    ensures error { (options : Options) → options.input ≡ Lines → ¬ RowsInParts options [] [] [] true }
{}

/// The plan of a worked state, with an object, and its usage.
fn a_plan_with_its_usage()
    ensures placed { ArePlaced (pool_span (plan_of with_first_object)) (plan_of with_first_object).objects }
    ensures usage { (usage : Usage) × IsUsage 2 (plan_of with_first_object) usage }
{}

/// The listing of a line that is not a word: the refusal of this line.
fn a_listing_of_a_line()
    ensures { (format : Format) (at : Option ℕ) (tags : Option Tags) (search : Option Search) → WritesListing
        (record { input = Lines; format = format; at = at; tags = tags; search = search }) (120 ∷ 10 ∷ []) (Some [])
        (Some (header_of (record { input = Lines; format = format; at = at; tags = tags; search = search }) ++
        (refused_text format search ++ []) ++ [])) true }
{}
