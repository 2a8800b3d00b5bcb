// The box and the verdict of a set whose counts are known to be within limits.
#![tactic(auto)]

ghost use Rattle.std.specs.Prelude.{◌≡◌};
ghost use Rattle.model.specs.Operations.{low, high, safe};
ghost use Rattle.model.specs.Run.{first_of};
ghost use Rattle.model.specs.Library.{of_region};
ghost use Rattle.zonotope.specs.Record.{view};
ghost use Rattle.zonotope.specs.Counts.{InLimits};
ghost use Rattle.verdicts.specs.Six.{six};
ghost use Rattle.verdicts.specs.Region.{halfspaces};
ghost use Rattle.verdicts.specs.Judged.{judged};

mod along;
mod columns;
mod region;

use zonotope::{Cause, MAX_DIMENSION, PolyZonotope, parts};

// Document 01's limits: of a region's halfspaces, of the size of a normal's entry and of a bound.
const MAX_HALFSPACES: usize = 8;

const MAX_ENTRY: u64 = 32768;

const MAX_BOUND: u64 = 1099511627776;

// A low and a high number for each coordinate in the first places; every other place of a box is 0.
#[derive(Drop)]
pub struct Ends {
    pub low: [i64; 6],
    pub high: [i64; 6],
}

// What a check says: the set avoids the region, or it isn't known to.
#[derive(Clone, Copy, PartialEq, Eq, Debug)]
pub enum Verdict {
    Safe,
    Unknown,
}

// The box around the set's points: both ends of each coordinate.
pub fn ends_of(s: PolyZonotope) -> Ends
    requires { InLimits s }
    ensures { (result.low ≡ six s.dimension (low (view s))) × (result.high ≡ six s.dimension (high (view s))) }
{
    let terms = columns::extremes(&s);
    let sizes = arrays::span::column_sizes(&s.vectors, s.generators);
    columns::reach(&s, &terms, &sizes, &parts::totals(s.radii))
}

// Whether the set avoids the unsafe region of `count` halfspaces in n coordinates, as far as the lower ends tell. Normal k is the entries
// k·n .. k·n + n - 1.
pub fn judge(
    s: PolyZonotope,
    n: usize,
    count: usize,
    normals: &[i32],
    bounds: &[i64],
) -> Result<Verdict, Cause>
    requires { InLimits s }
    ensures { result ≡ judged (first_of (of_region n count normals.now bounds.now (view s)))
        (safe (halfspaces n count normals.now bounds.now) (view s)) }
{
    if (n == 0) | (MAX_DIMENSION < n) | (count == 0) | (MAX_HALFSPACES < count) {
        return Err(Cause::Count);
    }
    if (normals.len() != count * n) | (bounds.len() != count) {
        return Err(Cause::Length);
    }
    if n != s.dimension {
        return Err(Cause::Dimension);
    }
    if zonotope::arguments::entries_beyond(normals, MAX_ENTRY)
        | region::bounds_beyond(bounds, MAX_BOUND)
    {
        return Err(Cause::Range);
    }
    if region::any_apart(&s, n, normals, bounds) {
        return Ok(Verdict::Safe);
    }
    Ok(Verdict::Unknown)
}
