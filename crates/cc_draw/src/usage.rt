//! The bytes of a planner's pool that its objects take, and those that are left.
ghost use Rattle.std.specs.Prelude.{◌≡◌, ◌≤◌, ◌<◌, ◌+◌, ◌^◌, IfOk, count_by, length, max, option_map, unwrap_or};
ghost use Rattle.std.specs.List.Sorted.{IsNonDecreasingBy, IsPermutation};
ghost use Rattle.cc_bounds.specs.Span.{from_zero};
ghost use Rattle.cc_plan.specs.Plan.{plan_spans, is_held};
ghost use Rattle.cc_draw.specs.Drawing.{is_in};
ghost use Rattle.cc_draw.specs.Usage.{IsUsage, asked_bytes_of, largest_of, highest_top, hole, holes};

use cc_bounds::Span;
use cc_cap::Cap;
use cc_placer::Placer;
use cc_plan::{ObjectState, PlannedObject, Planner};
use cc_values::Usage;
use std::alloc::{AllocError, Global};

/// The number of holes, and the number of bytes of the largest.
#[derive(Clone, Copy)]
struct Holes {
    count: usize,
    largest: u128,
}

impl Holes {
    /// Adds a gap of `gap` bytes. An empty gap is not a hole.
    fn add(&mut self, gap: u128)
        requires { self.old.count ≤ 65536 }
        ensures count { self.new.count ≡ self.old.count + length (hole gap) }
        ensures largest { self.new.largest ≡ max self.old.largest (largest_of (hole gap)) }
    {
        if gap > 0 {
            self.count += 1;
            self.largest = self.largest.max(gap);
        }
    }
}

/// Returns the use of a planner's pool by its objects. `slots` is the number of slots of the machine
/// that has the planner. At most 2^80 bytes are held.
///
/// Allocates memory for the held spans, which it sorts, and frees it.
///
/// Errors: `AllocError` if the allocation fails.
pub fn usage_of<P: Placer>(
    alloc: Global,
    planner: &Planner<P>,
    slots: u32,
) -> Result<Usage, AllocError>
    ensures usage { IfOk result (IsUsage slots planner.now) }
    ensures fits { IfOk result (λ usage. usage.held ≤ 2 ^ 80) }
{
    let objects = planner.objects();
    let pool = pool_span(planner.pool());
    let order = spans_in_order(alloc, objects)?;
    let holes = holes_beside(&pool, order.as_slice());
    Ok(Usage {
        slots,
        limit: planner.limit(),
        made: objects.len(),
        live: count_in(objects, ObjectState::Live),
        quarantined: count_in(objects, ObjectState::Freed),
        swept: count_in(objects, ObjectState::Swept),
        asked: asked_bytes(objects),
        held: planner.held_bytes(),
        pool: pool.top - u128::from(pool.base),
        holes: holes.count,
        largest: holes.largest,
        end: highest_top(objects),
    })
}

/// Returns the bounds of a pool, or base and top 0 if there is none.
pub(crate) fn pool_span(pool: Option<Cap>) -> Span
    ensures value { result ≡ unwrap_or (option_map (λ pool. pool.span) pool) (from_zero 0) }
    ensures in_order { result.base ≤ result.top }
    ensures fits { result.top ≤ 2 ^ 64 }
{
    match pool {
        Some(pool) => pool.span(),
        None => Span { base: 0, top: 0 },
    }
}

/// Returns the number of objects in this state.
fn count_in(objects: &[PlannedObject], state: ObjectState) -> usize
    ensures { result ≡ count_by (λ object. is_in state object.state) objects.now }
{
    objects
        .iter()
        .filter(|object| object.state() == state)
        .count()
}

/// Returns whether an object holds its bytes: it does until it is swept.
fn is_held(object: &PlannedObject) -> bool
    ensures { result ≡ is_held object.now.state }
{
    !matches!(object.state(), ObjectState::Swept)
}

/// Returns the number of bytes that were requested for the held objects, without padding.
fn asked_bytes(objects: &[PlannedObject]) -> u128
    requires { asked_bytes_of objects.now < 2 ^ 128 }
    ensures { result ≡ asked_bytes_of objects.now }
{
    let mut asked = 0;
    let mut rest = objects;
    'objects: while let Some((object, after)) = rest.split_first() {
        if is_held(object) {
            asked += object.size();
        }
        rest = after;
    }
    asked
}

/// Returns the highest top of the objects, or 0 if there is none.
fn highest_top(objects: &[PlannedObject]) -> u128
    ensures { result ≡ highest_top objects.now }
{
    let mut highest = 0;
    let mut rest = objects;
    'objects: while let Some((object, after)) = rest.split_first() {
        highest = object.span().top.max(highest);
        rest = after;
    }
    highest
}

/// Returns the spans of the held objects, in the order of the objects.
fn held_spans(alloc: Global, objects: &[PlannedObject]) -> Result<Vec<Span>, AllocError>
    ensures { IfOk result (λ spans. spans.items ≡ plan_spans objects.now) }
{
    objects
        .iter()
        .filter(|object| is_held(object))
        .map(|object| object.span())
        .collect(alloc)
}

/// Returns the spans of the held objects, in the order of their addresses.
fn spans_in_order(alloc: Global, objects: &[PlannedObject]) -> Result<Vec<Span>, AllocError>
    ensures same { IfOk result (λ spans. IsPermutation (plan_spans objects.now) spans.items) }
    ensures sorted { IfOk result (λ spans. IsNonDecreasingBy (λ span. span.base) spans.items) }
{
    let mut spans = held_spans(alloc, objects)?;
    spans.sort_unstable_by_key(|span| span.base);
    Ok(spans)
}

/// Returns the holes that these spans leave in a pool. The spans are in the order of their
/// addresses.
fn holes_beside(pool: &Span, order: &[Span]) -> Holes
    requires { length order.now ≤ 65536 }
    ensures count { result.count ≡ length (holes pool.now.base pool.now.top order.now) }
    ensures largest { result.largest ≡ largest_of (holes pool.now.base pool.now.top order.now) }
{
    let mut holes = Holes {
        count: 0,
        largest: 0,
    };
    let mut from = u128::from(pool.base);
    let mut rest = order;
    'spans: while let Some((span, after)) = rest.split_first() {
        holes.add(u128::from(span.base).saturating_sub(from));
        from = span.top;
        rest = after;
    }
    holes.add(pool.top.saturating_sub(from));
    holes
}
