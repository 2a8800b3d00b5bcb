// The record of a set whose terms and generators are held in rows: its numbers, which no span exceeds, at 32 bits, without unused factors.
ghost use Rattle.std.specs.Prelude.{◌≡◌, ℕ, ◌*◌, ◌≤◌, ◌<◌, length, get_or, pos, nat_abs};
ghost use Rattle.whole.specs.Write.{write};
ghost use Rattle.model.specs.Limits.{max_span};
ghost use Rattle.model.specs.Finish.{drop_unused};
ghost use Rattle.model.specs.Set.{with_folded};
ghost use Rattle.zonotope.specs.Record.{wide_parts_of, firsts, packed_radii, pack};
ghost use Rattle.finish.specs.Held.{held_by};
ghost use Rattle.finish.specs.Numbers.{WithinSpan, PartsNarrow, Narrowable, Narrowed};
ghost use Rattle.finish.specs.Packing.{Packable};

use zonotope::{Radii, WideRadii};

// The record of the set without the factors that occur in no term.
pub fn pack(
    u: super::Unfinished,
    k: super::Reduced,
    e: &[u8],
    heads: &[u16],
    s: &[i64],
    g: &[i64],
) -> zonotope::PolyZonotope
    requires { Packable u k e.now heads.now s.now g.now }
    ensures { result ≡ pack (drop_unused (held_by u k e.now heads.now s.now g.now)) }
{
    let f = factors::drop_unused(e, heads, k.terms, u.identifiers);
    let identifiers = f.identifiers;
    let exponents = f.exponents;
    let Numbers {
        centre,
        coefficients,
        vectors,
    } = narrow_all(k, s, g);
    zonotope::PolyZonotope {
        dimension: u.dimension,
        factors: f.count,
        terms: k.terms,
        generators: k.generators,
        identifiers,
        centre,
        exponents,
        coefficients,
        vectors,
        radii: narrow_radii(u.radii, k.folded),
    }
}

// The numbers of a record but for its radii.
#[derive(Clone, Copy)]
struct Numbers {
    centre: [i32; 6],
    coefficients: [i32; 240],
    vectors: [i32; 144],
}

// The numbers of the set at 32 bits; the places after the terms and generators are 0.
fn narrow_all(k: super::Reduced, s: &[i64], g: &[i64]) -> Numbers
    requires { Narrowable k s.now g.now }
    ensures { Narrowed k s.now g.now result.centre result.coefficients result.vectors }
{
    let mut numbers = Numbers {
        centre: [0; 6],
        coefficients: [0; 240],
        vectors: [0; 144],
    };
    narrow_numbers(&mut numbers.centre, &k.centre);
    narrow_numbers(&mut numbers.coefficients, &s[..k.terms * 6]);
    narrow_numbers(&mut numbers.vectors, &g[..k.generators * 6]);
    numbers
}

// The first places of `out` become the numbers of s.
fn narrow_numbers(out: &mut [i32], s: &[i64])
    requires { (length s.now ≤ length out.old) × WithinSpan (length s.now) s.now }
    ensures { out.new ≡ write out.old 0 (λ x. get_or s.now x (pos 0)) (length s.now) }
{
    for (i, x) in s.iter().enumerate() {
        out[i] = narrow(*x);
    }
}

// A number that no span exceeds, at 32 bits.
fn narrow(x: i64) -> i32
    requires { nat_abs x ≤ max_span }
    ensures { result ≡ x }
{
    x as i32
}

// The radii with these folded parts, at 32 bits.
fn narrow_radii(r: WideRadii, folded: [u64; 6]) -> Radii
    requires { PartsNarrow (with_folded (wide_parts_of r) folded) }
    ensures { result ≡ packed_radii (with_folded (wide_parts_of r) folded) }
{
    Radii {
        carried: narrow_part(r.carried),
        rounded: narrow_part(r.rounded),
        folded: narrow_part(folded),
        given: narrow_part(r.given),
    }
}

// A part at 32 bits.
fn narrow_part(part: [u64; 6]) -> [u32; 6]
    requires { (i : ℕ) → i < 6 → get_or part i 0 ≤ max_span }
    ensures { result ≡ firsts 6 part }
{
    let mut out = [0; 6];
    for (i, x) in part.iter().enumerate() {
        out[i] = *x as u32;
    }
    out
}
