// The box around a set, and the check of a set against an unsafe region.
#![tactic(auto)]

ghost use Rattle.std.specs.Prelude.{◌≡◌};
ghost use Rattle.zonotope.specs.Record.{given};
ghost use Rattle.bounds.specs.Answer.{bounds_of, verdict_of};

use verdicts::{Ends, Verdict};
use zonotope::{Cause, PolyZonotope};

// The box around the set's points: the ends of each coordinate in its first places; every other place is 0.
pub fn box_of(s: PolyZonotope) -> Result<Ends, Cause>
    ensures { result ≡ bounds_of (given s) }
{
    zonotope::examine(s)?;
    Ok(verdicts::ends_of(s))
}

// Whether the set avoids the unsafe region of `count` halfspaces in n coordinates, as far as the lower ends tell. Normal k is the entries
// k·n .. k·n + n - 1.
pub fn check(
    s: PolyZonotope,
    n: usize,
    count: usize,
    normals: &[i32],
    bounds: &[i64],
) -> Result<Verdict, Cause>
    ensures { result ≡ verdict_of n count normals.now bounds.now (given s) }
{
    zonotope::examine(s)?;
    verdicts::judge(s, n, count, normals, bounds)
}
