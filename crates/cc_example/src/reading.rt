ghost use Rattle.std.specs.Prelude.{◌≤◌, ◌^◌, IfOk};
ghost use Rattle.cc_bounds.specs.Granule.{IsGranted};
ghost use Rattle.cc_bounds.specs.Span.{span_from};
ghost use Rattle.cc_cap.specs.Capability.{GrantsNoMore};
ghost use Rattle.cc_word.specs.Permissions.{HasAll};

use cc_cap::{Cap, Perms};
use cc_word::Refusal;

/// Derives a read-only capability for the first `len` bytes of `cap`, rounded up if they cannot be
/// stored exactly.
pub fn read_only(cap: &Cap, len: u128) -> Result<Cap, Refusal>
    requires { len ≤ 2 ^ 64 }
    ensures monotonic { IfOk result (λ narrower. GrantsNoMore narrower cap.now) }
    ensures bytes { IfOk result (λ narrower. IsGranted (span_from cap.now.span.base len) narrower.span) }
    ensures load { IfOk result (λ narrower. HasAll (2 ^ 2) narrower.permissions) }
{
    cap.set_address(cap.span().base)?
        .set_bounds(len)?
        .and_perms(Perms::LOAD)
}
