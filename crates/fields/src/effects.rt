// What a kind does to a set, by what its call answers.
ghost use Rattle.std.specs.Prelude.{◌≡◌};
ghost use Rattle.fields.specs.Effect.{boxed_by, judged_by};

use crate::{Effect, Found};
use verdicts::Verdict;
use zonotope::{Cause, PolyZonotope};

// By a call that changes a set: the next identifier after it is `after`.
pub fn boxed(r: Result<PolyZonotope, Cause>, after: u32) -> Result<Effect, Cause>
    ensures { result ≡ boxed_by r after }
{
    match r {
        Ok(set) => Ok(Effect {
            found: Found::Inside,
            set,
            next: after,
        }),
        Err(cause) => Err(cause),
    }
}

// By a verdict, which leaves the set.
pub fn judged(r: Result<Verdict, Cause>, first: PolyZonotope, next: u32) -> Result<Effect, Cause>
    ensures { result ≡ judged_by r first next }
{
    let found = match r {
        Ok(Verdict::Safe) => Found::Safe,
        Ok(Verdict::Unknown) => Found::Unknown,
        Err(cause) => return Err(cause),
    };
    Ok(Effect {
        found,
        set: first,
        next,
    })
}
