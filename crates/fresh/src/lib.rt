// Whether identifiers from the next one on are fresh for a set. A part of `sums`, of `hull` and of `run`.
#![tactic(auto)]

ghost use Rattle.std.specs.Prelude.{◌≡◌, ◌||◌, ◌≤◌, ltb};
ghost use Rattle.model.specs.Limits.{first_fresh, last_fresh};
ghost use Rattle.model.specs.Library.{bad_next};
ghost use Rattle.zonotope.specs.Record.{view};

use zonotope::PolyZonotope;

// The first and the last of the next identifiers.
const FIRST_FRESH: u32 = 65536;

const LAST_FRESH: u32 = 1999999988;

// 11: whether the next identifier is out of its range or not above the set's identifiers.
pub fn bad_next(s: PolyZonotope, next: u32) -> bool
    requires { s.factors ≤ 12 }
    ensures { result ≡ bad_next next (view s) }
{
    out_of_range(next) || s.identifiers[..s.factors].iter().any(|k| next <= *k)
}

// Whether the next identifier is out of its range.
pub fn out_of_range(next: u32) -> bool
    ensures { result ≡ (ltb next first_fresh || ltb last_fresh next) }
{
    !(FIRST_FRESH..=LAST_FRESH).contains(&next)
}
