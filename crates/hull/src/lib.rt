// The hull of two sets, so that one set carries both outcomes. A refusal gives the first set back as it came.
#![tactic(auto)]

ghost use Rattle.std.specs.Prelude.{◌≡◌};
ghost use Rattle.model.specs.Limits.{standard_weights};
ghost use Rattle.model.specs.Hull.{hull};
ghost use Rattle.model.specs.Library.{hull_refusal};
ghost use Rattle.zonotope.specs.Record.{view, given};
ghost use Rattle.answers.specs.Answer.{answered, resulted};

use answers::Changed;
use zonotope::{Cause, PolyZonotope};

mod refusals;

// The set of all points between a point of the one set and a point of the other at equal factor values: `next` becomes the identifier of
// the factor that blends them.
pub fn hull(first: PolyZonotope, second: PolyZonotope, next: u32) -> Changed
    ensures { result ≡ answered (hull_refusal next (given first) (given second)) first
        (hull standard_weights next (view first) (view second)) }
{
    answers::answer(first, hulled(first, second, next))
}

// The result of the call: what refuses it before it is worked out, then the hull.
fn hulled(first: PolyZonotope, second: PolyZonotope, next: u32) -> Result<PolyZonotope, Cause>
    ensures { result ≡ resulted (hull_refusal next (given first) (given second))
        (hull standard_weights next (view first) (view second)) }
{
    refusals::before_hulling(first, second, next)?;
    hulling::hulled(first, second, next)
}
