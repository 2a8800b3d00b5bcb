// The tests of two sets as the arguments of a call, in their order.
ghost use Rattle.std.specs.Prelude.{◌≡◌};
ghost use Rattle.model.specs.Run.{first_of};
ghost use Rattle.model.specs.Library.{of_second};
ghost use Rattle.zonotope.specs.Record.{given};
ghost use Rattle.zonotope.specs.Shape.{Sized};
ghost use Rattle.zonotope.specs.Answer.{examined, Accepted};
ghost use Rattle.summing.specs.Arguments.{before_summing};

use zonotope::{Cause, PolyZonotope};

// The first cause that refuses two sets: the first one, then the second.
pub fn before_summing(first: PolyZonotope, second: PolyZonotope) -> Result<(), Cause>
    ensures value { result ≡ examined (before_summing (given first) (given second)) }
    ensures sized { result ≡ Accepted → Sized first × Sized second }
{
    zonotope::examine(first)?;
    of_second(first, second)
}

// The first cause that refuses the second set: 5 stands between its counts and the rest.
fn of_second(first: PolyZonotope, second: PolyZonotope) -> Result<(), Cause>
    ensures value { result ≡ examined (first_of (of_second (given first) (given second))) }
    ensures sized { result ≡ Accepted → Sized second }
{
    if zonotope::bad_counts(second) {
        return Err(Cause::Count);
    }
    if second.dimension != first.dimension {
        return Err(Cause::Dimension);
    }
    zonotope::examine(second)
}
