// A disturbance of an examined set: radii are added to the given parts of its own.
ghost use Rattle.std.specs.Prelude.{◌≡◌, ℕ, ◌+◌, ◌<◌, ◌≤◌, length, get_or};
ghost use Rattle.whole.specs.Tab.{tab};
ghost use Rattle.model.specs.Operations.{disturb};
ghost use Rattle.zonotope.specs.Record.{view, pack};
ghost use Rattle.answers.specs.Answer.{settled};
ghost use Rattle.summing.specs.Disturb.{Disturbable};

use arrays::span;
use zonotope::{Cause, MAX_SPAN, PolyZonotope};

// An examined set disturbed by examined radii: 10 where the result is too wide.
pub fn disturbed(s: PolyZonotope, radii: &[u32]) -> Result<PolyZonotope, Cause>
    requires { Disturbable s radii.now }
    ensures { result ≡ settled (disturb radii.now (view s)) }
{
    let t = with_radii(s, radii);
    let totals = zonotope::parts::totals(t.radii);
    if span::too_wide(
        &t.centre,
        &t.coefficients,
        &t.vectors,
        &totals,
        t.dimension,
        t.terms,
        t.generators,
        MAX_SPAN,
    ) {
        return Err(Cause::ResultTooWide);
    }
    Ok(t)
}

// The set with the radii added.
fn with_radii(s: PolyZonotope, radii: &[u32]) -> PolyZonotope
    requires { Disturbable s radii.now }
    ensures { result ≡ pack (disturb radii.now (view s)) }
{
    let mut parts = s.radii;
    let sums = add_radii(parts.given, radii);
    parts.given = sums;
    let mut t = s;
    t.radii = parts;
    t
}

// The numbers of both, added place by place.
fn add_radii(own: [u32; 6], radii: &[u32]) -> [u32; 6]
    requires { (length radii.now ≤ 6) × ((i : ℕ) → i < 6 → get_or own i 0 + get_or radii.now i 0 < 4294967296) }
    ensures { result ≡ tab 6 (λ i. get_or own i 0 + get_or radii.now i 0) }
{
    let mut out = own;
    for (i, x) in radii.iter().enumerate() {
        out[i] = own[i] + *x;
    }
    out
}
