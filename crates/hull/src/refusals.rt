// The causes that refuse a hull before it is worked out, and their order.
ghost use Rattle.std.specs.Prelude.{◌≡◌};
ghost use Rattle.zonotope.specs.Record.{view, given};
ghost use Rattle.zonotope.specs.Shape.{Sized};
ghost use Rattle.zonotope.specs.Answer.{examined, Accepted, or_else};
ghost use Rattle.summing.specs.Arguments.{before_summing};
ghost use Rattle.hull.specs.Causes.{of_blend};

use zonotope::{Cause, PolyZonotope};

// The first cause that refuses a hull before its factors are looked at: the two sets, then a next identifier that isn't above both
// sets' identifiers.
pub fn before_hulling(first: PolyZonotope, second: PolyZonotope, next: u32) -> Result<(), Cause>
    ensures value { result ≡ examined (or_else (before_summing (given first) (given second)) (of_blend next (view first) (view second))) }
    ensures sized { result ≡ Accepted → Sized first × Sized second }
{
    summing::arguments::before_summing(first, second)?;
    if fresh::bad_next(first, next) | fresh::bad_next(second, next) {
        return Err(Cause::NextIdentifier);
    }
    Ok(())
}
