// The causes that refuse a call before it works, each a test, and their order.
ghost use Rattle.std.specs.Prelude.{◌≡◌, ◌||◌, ltb};
ghost use Rattle.whole.specs.Tab.{any};
ghost use Rattle.model.specs.Limits.{max_terms, max_generators};
ghost use Rattle.model.specs.Field.{all_zero};
ghost use Rattle.model.specs.Run.{first_of};
ghost use Rattle.model.specs.Library.{of_radii, of_limits, bad_next};
ghost use Rattle.zonotope.specs.Record.{view, given};
ghost use Rattle.zonotope.specs.Shape.{Sized};
ghost use Rattle.zonotope.specs.Answer.{examined, Accepted, or_else};
ghost use Rattle.summing.specs.Arguments.{before_summing, of_next};
ghost use Rattle.sums.specs.Causes.{before_disturbing, before_reducing};

use zonotope::{Cause, PolyZonotope};

// The largest radius of a disturbance.
const MAX_DISTURBANCE: u32 = 1048576;

// ---- the order

// The first cause that refuses a disturbance before its result is looked at: the set, then the radii.
pub fn before_disturbing(s: PolyZonotope, n: usize, radii: &[u32]) -> Result<(), Cause>
    ensures value { result ≡ examined (before_disturbing n radii.now (given s)) }
    ensures sized { result ≡ Accepted → Sized s }
{
    zonotope::examine(s)?;
    of_radii(s.dimension, n, radii)
}

// The first cause that refuses radii for n coordinates.
fn of_radii(dimension: usize, n: usize, radii: &[u32]) -> Result<(), Cause>
    ensures { result ≡ examined (first_of (of_radii n radii.now dimension)) }
{
    if zonotope::arguments::bad_dimension(n) {
        return Err(Cause::Count);
    }
    if radii.len() != n {
        return Err(Cause::Length);
    }
    if n != dimension {
        return Err(Cause::Dimension);
    }
    if any_above(radii, MAX_DISTURBANCE) {
        return Err(Cause::Range);
    }
    if radii_empty(radii) {
        return Err(Cause::EmptyDisturbance);
    }
    Ok(())
}

// The first cause that refuses a reduction before its result is looked at: the set, then the limits.
pub fn before_reducing(
    s: PolyZonotope,
    term_limit: usize,
    generator_limit: usize,
) -> Result<(), Cause>
    ensures value { result ≡ examined (before_reducing term_limit generator_limit (given s)) }
    ensures sized { result ≡ Accepted → Sized s }
{
    zonotope::examine(s)?;
    of_limits(term_limit, generator_limit)
}

// The cause that refuses a reduction's limits.
fn of_limits(term_limit: usize, generator_limit: usize) -> Result<(), Cause>
    ensures { result ≡ examined (first_of (of_limits term_limit generator_limit)) }
{
    if limits_out(term_limit, generator_limit) {
        return Err(Cause::Count);
    }
    Ok(())
}

// The first cause that refuses an independent sum before its result is looked at: the two sets, then the next identifier.
pub fn before_renumbering(first: PolyZonotope, second: PolyZonotope, next: u32) -> Result<(), Cause>
    ensures value { result ≡ examined (or_else (before_summing (given first) (given second)) (of_next (bad_next next (view first)))) }
    ensures sized { result ≡ Accepted → Sized first × Sized second }
{
    summing::arguments::before_summing(first, second)?;
    if fresh::bad_next(first, next) {
        return Err(Cause::NextIdentifier);
    }
    Ok(())
}

// ---- the tests

// 4: whether a reduction's limit is more than a set can have.
fn limits_out(term_limit: usize, generator_limit: usize) -> bool
    ensures { result ≡ (ltb max_terms term_limit || ltb max_generators generator_limit) }
{
    (zonotope::MAX_TERMS < term_limit) | (zonotope::MAX_GENERATORS < generator_limit)
}

// 6: whether one of the radii is above a limit.
fn any_above(radii: &[u32], limit: u32) -> bool
    ensures { result ≡ any (ltb limit) radii.now }
{
    radii.iter().any(|x| limit < *x)
}

// 14: whether the radii are all zero.
fn radii_empty(radii: &[u32]) -> bool
    ensures { result ≡ all_zero radii.now }
{
    !any_above(radii, 0)
}
