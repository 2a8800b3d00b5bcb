// The causes that refuse a call before its own numbers are asked, and their order.
ghost use Rattle.std.specs.Prelude.{◌≡◌};
ghost use Rattle.zonotope.specs.Record.{given};
ghost use Rattle.zonotope.specs.Shape.{Sized};
ghost use Rattle.zonotope.specs.Answer.{examined, Accepted};
ghost use Rattle.step.specs.Answer.{without_room};
ghost use Rattle.step.specs.Order.{of_room_and_set};

use zonotope::{Cause, PolyZonotope};

// The first cause of these: 13, then the set. The work slices have room for so many numbers and exponents.
pub fn of_room_and_set(s: PolyZonotope, numbers: usize, exponents: usize) -> Result<(), Cause>
    ensures value { result ≡ examined (of_room_and_set (without_room numbers exponents) (given s)) }
    ensures sized { result ≡ Accepted → Sized s }
{
    if (numbers < crate::WORK_NUMBERS) | (exponents < crate::WORK_EXPONENTS) {
        return Err(Cause::WorkTooShort);
    }
    zonotope::examine(s)
}
