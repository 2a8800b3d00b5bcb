// A reduction of an examined set: its rows at 64 bits, finished with other limits.
ghost use Rattle.std.specs.Prelude.{◌≡◌, ◌≤◌, length};
ghost use Rattle.model.specs.Limits.{standard_weights};
ghost use Rattle.model.specs.Operations.{reduce};
ghost use Rattle.zonotope.specs.Record.{firsts, view};
ghost use Rattle.zonotope.specs.Shape.{Sized};
ghost use Rattle.answers.specs.Answer.{settled};
ghost use Rattle.answers.specs.Accepted.{AcceptedRecord};
ghost use Rattle.summing.specs.Wide.{wide_firsts, unfinished_of};

use finish::Unfinished;
use zonotope::{Cause, PolyZonotope, Radii, WideRadii};

// An examined set finished with limits of a set: 10 where the result is too wide.
pub fn reduced(
    s: PolyZonotope,
    term_limit: usize,
    generator_limit: usize,
) -> Result<PolyZonotope, Cause>
    requires { AcceptedRecord s × (term_limit ≤ 40) × (generator_limit ≤ 24) }
    ensures { result ≡ settled (reduce standard_weights term_limit generator_limit (view s)) }
{
    let u = unfinished(s);
    let mut c = [0i64; 240];
    widen_numbers(&s.coefficients, &mut c);
    let mut g = [0i64; 144];
    widen_numbers(&s.vectors, &mut g);
    answers::finishing::finish_rows(
        u,
        &s.exponents,
        &c,
        s.terms,
        &mut g,
        s.generators,
        term_limit,
        generator_limit,
    )
}

// The set without its terms and generators, its numbers at 64 bits.
fn unfinished(s: PolyZonotope) -> Unfinished
    requires { Sized s }
    ensures { result ≡ unfinished_of s }
{
    let identifiers = s.identifiers;
    let mut centre = [0i64; 6];
    widen_numbers(&s.centre, &mut centre);
    Unfinished {
        dimension: s.dimension,
        factors: s.factors,
        identifiers,
        centre,
        radii: widen_radii(s.radii),
    }
}

// The numbers at 64 bits.
fn widen_numbers(numbers: &[i32], out: &mut [i64])
    requires { length numbers.now ≡ length out.old }
    ensures { out.new ≡ numbers.now }
{
    for (i, x) in numbers.iter().enumerate() {
        out[i] = i64::from(*x);
    }
}

// The radii at 64 bits.
fn widen_radii(r: Radii) -> WideRadii
    ensures { result ≡ wide_firsts r }
{
    WideRadii {
        carried: widen_part(r.carried),
        rounded: widen_part(r.rounded),
        folded: widen_part(r.folded),
        given: widen_part(r.given),
    }
}

// A part at 64 bits.
fn widen_part(part: [u32; 6]) -> [u64; 6]
    ensures { result ≡ firsts 6 part }
{
    let mut out = [0; 6];
    for (i, x) in part.iter().enumerate() {
        out[i] = u64::from(*x);
    }
    out
}
