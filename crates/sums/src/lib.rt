// The library's calls that change a set. A refusal gives the first set back as it came.
#![tactic(auto)]

ghost use Rattle.std.specs.Prelude.{◌≡◌};
ghost use Rattle.model.specs.Limits.{standard_weights};
ghost use Rattle.model.specs.Operations.{disturb, reduce, tied_sum, independent_sum};
ghost use Rattle.model.specs.Library.{disturb_refusal, reduce_refusal, tied_refusal, independent_refusal};
ghost use Rattle.zonotope.specs.Record.{view, given};
ghost use Rattle.answers.specs.Answer.{answered};

use answers::Changed;
use zonotope::PolyZonotope;

mod refusals;
mod results;

// The set with radii for n coordinates added to its own.
pub fn disturb(s: PolyZonotope, n: usize, radii: &[u32]) -> Changed
    ensures { result ≡ answered (disturb_refusal n radii.now (given s)) s (disturb radii.now (view s)) }
{
    answers::answer(s, results::disturbed(s, n, radii))
}

// The set with at most this many terms and generators, the smallest ones folded.
pub fn reduce(s: PolyZonotope, term_limit: usize, generator_limit: usize) -> Changed
    ensures { result ≡ answered (reduce_refusal term_limit generator_limit (given s)) s
        (reduce standard_weights term_limit generator_limit (view s)) }
{
    answers::answer(s, results::reduced(s, term_limit, generator_limit))
}

// The sum in which factors with one identifier are one factor (document 01: the tied sum).
pub fn tied_sum(first: PolyZonotope, second: PolyZonotope) -> Changed
    ensures { result ≡ answered (tied_refusal (given first) (given second)) first (tied_sum standard_weights (view first) (view second)) }
{
    answers::answer(first, results::tied(first, second))
}

// The sum in which the second set's factors are its own, with the identifiers next, next + 1 ..
pub fn independent_sum(first: PolyZonotope, second: PolyZonotope, next: u32) -> Changed
    ensures { result ≡ answered (independent_refusal next (given first) (given second)) first
        (independent_sum standard_weights next (view first) (view second)) }
{
    answers::answer(first, results::independent(first, second, next))
}
