// The results of the calls: what refuses a call before it works, then the operation.
ghost use Rattle.std.specs.Prelude.{◌≡◌};
ghost use Rattle.model.specs.Limits.{standard_weights};
ghost use Rattle.model.specs.Operations.{disturb, reduce, tied_sum, independent_sum};
ghost use Rattle.model.specs.Library.{disturb_refusal, reduce_refusal, tied_refusal, independent_refusal};
ghost use Rattle.zonotope.specs.Record.{view, given};
ghost use Rattle.answers.specs.Answer.{resulted};

use crate::refusals;
use zonotope::{Cause, PolyZonotope};

// Of a disturbance.
pub fn disturbed(s: PolyZonotope, n: usize, radii: &[u32]) -> Result<PolyZonotope, Cause>
    ensures { result ≡ resulted (disturb_refusal n radii.now (given s)) (disturb radii.now (view s)) }
{
    refusals::before_disturbing(s, n, radii)?;
    summing::disturbance::disturbed(s, radii)
}

// Of a reduction.
pub fn reduced(
    s: PolyZonotope,
    term_limit: usize,
    generator_limit: usize,
) -> Result<PolyZonotope, Cause>
    ensures { result ≡ resulted (reduce_refusal term_limit generator_limit (given s))
        (reduce standard_weights term_limit generator_limit (view s)) }
{
    refusals::before_reducing(s, term_limit, generator_limit)?;
    summing::reduction::reduced(s, term_limit, generator_limit)
}

// Of a tied sum.
pub fn tied(first: PolyZonotope, second: PolyZonotope) -> Result<PolyZonotope, Cause>
    ensures { result ≡ resulted (tied_refusal (given first) (given second)) (tied_sum standard_weights (view first) (view second)) }
{
    summing::arguments::before_summing(first, second)?;
    summing::sum::tied(first, second)
}

// Of an independent sum.
pub fn independent(
    first: PolyZonotope,
    second: PolyZonotope,
    next: u32,
) -> Result<PolyZonotope, Cause>
    ensures { result ≡ resulted (independent_refusal next (given first) (given second))
        (independent_sum standard_weights next (view first) (view second)) }
{
    refusals::before_renumbering(first, second, next)?;
    summing::sum::independent(first, second, next)
}
