// The sum of two sets before finishing: rows of 12 exponents for common factors and of 6 numbers in lent slices, a centre and radii.
#![tactic(auto)]

ghost use Rattle.std.specs.Prelude.{List, ℕ, ◌≤◌, length};
ghost use Rattle.model.specs.Limits.{max_span, last_fresh};
ghost use Rattle.model.specs.Operations.{joined, renumbered};
ghost use Rattle.zonotope.specs.Record.{view};
ghost use Rattle.rows.specs.Rows.{Small};
ghost use Rattle.align.specs.Examined.{Examined};
ghost use Rattle.align.specs.Sum.{summed, Factors, Common, Terms, Generators, Space, Joined};

use zonotope::PolyZonotope;

mod numbering;
pub mod wide;

// Identifiers of up to 24 factors, in the first `count` places.
#[derive(Clone, Copy)]
pub struct Identifiers {
    pub count: usize,
    pub numbers: [u32; 24],
}

// The sum of two sets before finishing, but for what stands in lent slices: how many rows there are, the centre and the radii.
#[derive(Clone, Copy)]
pub struct Sum {
    pub terms: usize,
    pub generators: usize,
    pub centre: [i64; 6],
    pub radii: zonotope::WideRadii,
}

// The identifiers of the tied sum: equal ones are one factor.
pub fn tied_identifiers(a: PolyZonotope, b: PolyZonotope) -> Identifiers
    requires { Examined a × Examined b }
    ensures { Factors (joined (view a) (view b)) result }
{
    numbering::unite(&a.identifiers, a.factors, &b.identifiers, b.factors)
}

// The identifiers of the independent sum: those of the second set become next, next + 1 ..
pub fn independent_identifiers(next: u32, a: PolyZonotope, b: PolyZonotope) -> Identifiers
    requires { Examined a × Examined b × (next ≤ last_fresh) }
    ensures { Factors (joined (view a) (renumbered next (view b))) result }
{
    let fresh = numbering::renumber(next, b.factors);
    numbering::unite(&a.identifiers, a.factors, &fresh, b.factors)
}

// The tied sum before finishing, over its identifiers.
pub fn tied(
    a: PolyZonotope,
    b: PolyZonotope,
    all: Identifiers,
    e: &mut [u8],
    c: &mut [i64],
    g: &mut [i64],
) -> Sum
    requires { Examined a × Examined b × Common (joined (view a) (view b)) all × Space e.old c.old g.old }
    ensures { Joined (joined (view a) (view b)) all result e.old e.new c.old c.new
        g.old g.new }
{
    join(a, b, &b.identifiers, all, e, c, g)
}

// The independent sum before finishing, over its identifiers.
pub fn independent(
    next: u32,
    a: PolyZonotope,
    b: PolyZonotope,
    all: Identifiers,
    e: &mut [u8],
    c: &mut [i64],
    g: &mut [i64],
) -> Sum
    requires { Examined a × Examined b × (next ≤ last_fresh) × Common (joined (view a) (renumbered next (view b))) all
        × Space e.old c.old g.old }
    ensures { Joined (joined (view a) (renumbered next (view b))) all result e.old e.new c.old
        c.new g.old g.new }
{
    let ids = numbering::renumber(next, b.factors);
    join(a, b, &ids, all, e, c, g)
}

// The sum of a and b, whose identifiers count as `ids`, before finishing, over the factors `all`.
fn join(
    a: PolyZonotope,
    b: PolyZonotope,
    ids: &[u32; 12],
    all: Identifiers,
    e: &mut [u8],
    c: &mut [i64],
    g: &mut [i64],
) -> Sum
    requires { Examined a × Examined b × Common (summed a b ids.now) all × Space e.old c.old g.old }
    ensures { Joined (summed a b ids.now) all result e.old e.new c.old c.new
        g.old g.new }
{
    Sum {
        terms: join_terms(a, b, ids, all, e, c),
        generators: join_generators(a, b, g),
        centre: wide::add_centres(&a.centre, 1, &b.centre),
        radii: wide::add_radii(a.radii, b.radii),
    }
}

// The terms of the sum of a and b, whose identifiers count as `ids`, in rows for the factors `all`. The answer is how many there are.
fn join_terms(
    a: PolyZonotope,
    b: PolyZonotope,
    ids: &[u32; 12],
    all: Identifiers,
    e: &mut [u8],
    c: &mut [i64],
) -> usize
    requires { Examined a × Examined b × Common (summed a b ids.now) all × (960 ≤ length e.old) × (480 ≤ length c.old)
        × Small max_span c.old }
    ensures { Terms (summed a b ids.now) e.old e.new c.old c.new result }
{
    wide::align_rows(
        &a.exponents,
        a.terms,
        &a.identifiers,
        a.factors,
        &all.numbers,
        all.count,
        e,
        0,
    );
    wide::align_rows(
        &b.exponents,
        b.terms,
        ids,
        b.factors,
        &all.numbers,
        all.count,
        e,
        a.terms,
    );
    wide::widen_rows(&a.coefficients, a.terms, c, 0);
    wide::widen_rows(&b.coefficients, b.terms, c, a.terms);
    a.terms + b.terms
}

// The generators of both, one after the other. The answer is how many there are.
fn join_generators(a: PolyZonotope, b: PolyZonotope, g: &mut [i64]) -> usize
    requires { Examined a × Examined b × (288 ≤ length g.old) × Small max_span g.old }
    ensures { (ids : List ℕ) → Generators (summed a b ids) g.old g.new result }
{
    wide::widen_rows(&a.vectors, a.generators, g, 0);
    wide::widen_rows(&b.vectors, b.generators, g, a.generators);
    a.generators + b.generators
}
