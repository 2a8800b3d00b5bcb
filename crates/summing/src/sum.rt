// Sums of two examined sets: their rows over common factors, finished.
ghost use Rattle.std.specs.Prelude.{◌≡◌, ltb, get_or};
ghost use Rattle.whole.specs.Tab.{tab};
ghost use Rattle.model.specs.Limits.{max_factors, standard_weights};
ghost use Rattle.model.specs.Finish.{finish};
ghost use Rattle.model.specs.Operations.{joined, renumbered, tied_sum, independent_sum};
ghost use Rattle.zonotope.specs.Record.{view};
ghost use Rattle.zonotope.specs.Answer.{or_else};
ghost use Rattle.align.specs.Sum.{Common};
ghost use Rattle.finish.specs.Held.{held};
ghost use Rattle.answers.specs.Answer.{resulted, of_result, settled};
ghost use Rattle.answers.specs.Finishing.{Finishable};
ghost use Rattle.summing.specs.Summable.{Summable, Next, of_factors};
ghost use Rattle.summing.specs.Summed.{unfinished_sum};

use align::{Identifiers, Sum};
use finish::Unfinished;
use zonotope::{Cause, PolyZonotope};

// The tied sum of examined sets: 9, 10.
pub fn tied(first: PolyZonotope, second: PolyZonotope) -> Result<PolyZonotope, Cause>
    requires { Summable first second }
    ensures { result ≡ resulted (or_else (of_factors (view first) (view second))
        (of_result (tied_sum standard_weights (view first) (view second)))) (tied_sum standard_weights (view first) (view second)) }
{
    let all = align::tied_identifiers(first, second);
    if too_many(all.count) {
        return Err(Cause::TooManyFactors);
    }
    tied_finished(first, second, all)
}

// The tied sum over its identifiers, finished.
fn tied_finished(
    first: PolyZonotope,
    second: PolyZonotope,
    all: Identifiers,
) -> Result<PolyZonotope, Cause>
    requires { Summable first second × Common (joined (view first) (view second)) all }
    ensures { result ≡ settled (tied_sum standard_weights (view first) (view second)) }
{
    let mut e = [0u8; 960];
    let mut c = [0i64; 480];
    let mut g = [0i64; 288];
    let sum = align::tied(first, second, all, &mut e, &mut c, &mut g);
    finish_sum(first.dimension, all, sum, &e, &c, &mut g)
}

// The independent sum of examined sets: 9, 10.
pub fn independent(
    first: PolyZonotope,
    second: PolyZonotope,
    next: u32,
) -> Result<PolyZonotope, Cause>
    requires { Summable first second × Next next }
    ensures { result ≡ resulted (or_else (of_factors (view first) (renumbered next (view second)))
        (of_result (independent_sum standard_weights next (view first) (view second))))
        (independent_sum standard_weights next (view first) (view second)) }
{
    let all = align::independent_identifiers(next, first, second);
    if too_many(all.count) {
        return Err(Cause::TooManyFactors);
    }
    independent_finished(first, second, next, all)
}

// The independent sum over its identifiers, finished.
fn independent_finished(
    first: PolyZonotope,
    second: PolyZonotope,
    next: u32,
    all: Identifiers,
) -> Result<PolyZonotope, Cause>
    requires { Summable first second × Next next × Common (joined (view first) (renumbered next (view second))) all }
    ensures { result ≡ settled (independent_sum standard_weights next (view first) (view second)) }
{
    let mut e = [0u8; 960];
    let mut c = [0i64; 480];
    let mut g = [0i64; 288];
    let sum = align::independent(next, first, second, all, &mut e, &mut c, &mut g);
    finish_sum(first.dimension, all, sum, &e, &c, &mut g)
}

// A sum in rows, finished with the limits of a set.
fn finish_sum(
    dimension: usize,
    all: Identifiers,
    sum: Sum,
    e: &[u8],
    c: &[i64],
    g: &mut [i64],
) -> Result<PolyZonotope, Cause>
    requires { Finishable (unfinished_sum dimension all sum) e.now c.now sum.terms g.old sum.generators }
    ensures { result ≡ settled (finish standard_weights 40 24
        (held (unfinished_sum dimension all sum) e.now c.now sum.terms g.old sum.generators)) }
{
    let identifiers = first_twelve(&all.numbers);
    let centre = sum.centre;
    let radii = sum.radii;
    let u = Unfinished {
        dimension,
        factors: all.count,
        identifiers,
        centre,
        radii,
    };
    answers::finishing::finish_rows(
        u,
        e,
        c,
        sum.terms,
        g,
        sum.generators,
        zonotope::MAX_TERMS,
        zonotope::MAX_GENERATORS,
    )
}

// 9: whether there are more factors than a set can have.
fn too_many(count: usize) -> bool
    ensures { result ≡ ltb max_factors count }
{
    zonotope::MAX_FACTORS < count
}

// The first twelve numbers.
pub fn first_twelve(numbers: &[u32; 24]) -> [u32; 12]
    ensures { result ≡ tab 12 (λ i. get_or numbers.now i 0) }
{
    let mut out = [0u32; 12];
    out.copy_from_slice(&numbers[..12]);
    out
}
