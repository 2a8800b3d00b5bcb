// Under the call and the field that give a hull: the hull of two sets that were examined and accepted, which holds every point between a
// point of each at equal factor values, by a fresh factor that blends them.
#![tactic(auto)]

ghost use Rattle.std.specs.Prelude.{◌≡◌, ◌+◌, ◌*◌, ◌≤◌, ◌<◌, ltb, length};
ghost use Rattle.model.specs.Limits.{max_factors, standard_weights};
ghost use Rattle.model.specs.Operations.{joined};
ghost use Rattle.model.specs.Hull.{hull};
ghost use Rattle.zonotope.specs.Record.{view};
ghost use Rattle.zonotope.specs.Answer.{or_else};
ghost use Rattle.rows.specs.Rows.{Small};
ghost use Rattle.align.specs.Examined as Sum;
ghost use Rattle.align.specs.Sum.{Common};
ghost use Rattle.summing.specs.Summable.{Summable};
ghost use Rattle.answers.specs.Answer.{resulted, of_result, settled};
ghost use Rattle.answers.specs.Accepted.{AcceptedRecord};
ghost use Rattle.hulling.specs.Blended.{Blended};
ghost use Rattle.hulling.specs.BlendRadii.{parts, blend_radii};
ghost use Rattle.hulling.specs.WithNext.{with_next};
ghost use Rattle.hulling.specs.Hulled.{of_blended};

use align::Identifiers;
use finish::Unfinished;
use zonotope::{Cause, PolyZonotope, WideRadii};

mod blending;
mod radii;

// The hull of examined sets with `next` as the blending factor: 9, 10.
pub fn hulled(first: PolyZonotope, second: PolyZonotope, next: u32) -> Result<PolyZonotope, Cause>
    requires { Summable first second }
    ensures { result ≡ resulted (or_else (of_blended (view first) (view second))
        (of_result (hull standard_weights next (view first) (view second)))) (hull standard_weights next (view first) (view second)) }
{
    let all = align::tied_identifiers(first, second);
    if too_many(all.count) {
        return Err(Cause::TooManyFactors);
    }
    finished(first, second, next, all)
}

// 9: whether these factors and the blending factor are more than a set can have.
fn too_many(count: usize) -> bool
    ensures { result ≡ ltb max_factors (count + 1) }
{
    zonotope::MAX_FACTORS <= count
}

// The hull over the identifiers of both sets and `next`, finished.
fn finished(
    first: PolyZonotope,
    second: PolyZonotope,
    next: u32,
    all: Identifiers,
) -> Result<PolyZonotope, Cause>
    requires { Summable first second × Common (joined (view first) (view second)) all × (all.count < 12) }
    ensures { result ≡ settled (hull standard_weights next (view first) (view second)) }
{
    let mut f = [0u8; 1932];
    let mut w = [0i64; 966];
    let mut centre = blend(first, second, all, &mut f, &mut w);
    let rows = 1 + (first.terms + second.terms + (first.terms + second.terms));
    let radii = blend_radii(first, second, &w, rows, &centre);
    image::rounding::round_first(&mut w, rows * 6);
    image::rounding::round_first(&mut centre, 6);
    let identifiers = with_next(&all.numbers, all.count, next);
    let u = Unfinished {
        dimension: first.dimension,
        factors: all.count + 1,
        identifiers,
        centre,
        radii,
    };
    let mut none = [0i64; 144];
    answers::finishing::finish_rows(
        u,
        &f[0..rows * 12],
        &w[0..rows * 6],
        rows,
        &mut none,
        0,
        zonotope::MAX_TERMS,
        zonotope::MAX_GENERATORS,
    )
}

// The terms of the blend of two sets before rounding, in the first rows of f and w, which hold zeros. The answer is its centre.
fn blend(
    first: PolyZonotope,
    second: PolyZonotope,
    all: Identifiers,
    f: &mut [u8],
    w: &mut [i64],
) -> [i64; 6]
    requires { Sum.Examined first × Sum.Examined second × Common (joined (view first) (view second)) all
        × (1932 ≤ length f.old) × (966 ≤ length w.old) × Small 0 w.old }
    ensures { Blended (view first) (view second) first.terms second.terms f.new w.new result }
{
    let mut e = [0u8; 960];
    let mut c = [0i64; 480];
    let mut g = [0i64; 288];
    let sum = align::tied(first, second, all, &mut e, &mut c, &mut g);
    let difference = align::wide::add_centres(&first.centre, -1, &second.centre);
    blending::blend_exponents(&e, first.terms + second.terms, all.count, f);
    blending::blend_numbers(&difference, &c, first.terms, second.terms, w);
    let mut centre = [0i64; 6];
    blending::put_halves(&sum.centre, 0, 1, blending::HALF, &mut centre, 0);
    centre
}

// The radii of the blend of two sets, rounded, from its raw rows and centre.
fn blend_radii(
    first: PolyZonotope,
    second: PolyZonotope,
    w: &[i64],
    rows: usize,
    centre: &[i64; 6],
) -> WideRadii
    requires { AcceptedRecord first × AcceptedRecord second × (rows ≤ 161) × (rows * 6 ≤ length w.now) }
    ensures { result ≡ blend_radii first second w.now rows centre.now }
{
    let none = [0i64; 144];
    let counts = image::rounding::counts(w, rows, centre, &none, 0);
    let p = independent_parts(first);
    let q = independent_parts(second);
    let carried = radii::larger_parts(&p, &q, first.dimension);
    let rounded = image::rounding::halves(&counts);
    zonotope::parts::anew(carried, rounded)
}

// The generators' sizes and the radius of each coordinate.
fn independent_parts(s: PolyZonotope) -> [u64; 6]
    requires { AcceptedRecord s }
    ensures { result ≡ parts s }
{
    let totals = zonotope::parts::totals(s.radii);
    image::remainder::spreads(&s.vectors, s.generators, &totals)
}

// The first twelve numbers, with `next` after `count` of them.
fn with_next(numbers: &[u32; 24], count: usize, next: u32) -> [u32; 12]
    requires { count < 12 }
    ensures { result ≡ with_next numbers.now count next }
{
    let mut out = summing::sum::first_twelve(numbers);
    out[count] = next;
    out
}
