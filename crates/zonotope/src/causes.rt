// The causes that refuse a set, each a test over its record. A valid set passes through all parts of one, so they are joined by `|`.
ghost use Rattle.std.specs.Prelude.{◌≡◌, ◌≤◌};
ghost use Rattle.model.specs.Limits.{record_identifiers};
ghost use Rattle.model.specs.Valid.{bad_counts, bad_range, bad_order};
ghost use Rattle.zonotope.specs.Shape.{PartLengths, Sized};
ghost use Rattle.zonotope.specs.Record.{view, spare, spare_parts};
ghost use Rattle.zonotope.specs.Counts.{InLimits};

use crate::{PolyZonotope, Radii};
use arrays::{spare, used};

// 4: whether there are too many coordinates, factors, terms or generators, or no coordinate.
pub fn counts_out(s: &PolyZonotope) -> bool
    ensures { result ≡ bad_counts (view s.now) }
{
    (s.dimension == 0)
        | (crate::MAX_DIMENSION < s.dimension)
        | (crate::MAX_FACTORS < s.factors)
        | (crate::MAX_TERMS < s.terms)
        | (crate::MAX_GENERATORS < s.generators)
}

// 6: whether an identifier or an exponent is out of range.
pub fn range_out(s: &PolyZonotope) -> bool
    requires { InLimits s.now }
    ensures { result ≡ bad_range record_identifiers (view s.now) }
{
    used::identifiers_out(&s.identifiers, s.factors)
        | used::exponents_out(&s.exponents, s.terms, s.factors)
}

// 7, first: whether a place that the counts leave unused isn't 0.
pub fn has_spare(s: &PolyZonotope) -> bool
    requires { InLimits s.now }
    ensures value { result ≡ spare s.now }
    ensures lengths { Sized s.now }
{
    spare::after_first(&s.identifiers, s.factors)
        | spare::outside_numbers(&s.centre, 1, s.dimension)
        | spare::outside_exponents(&s.exponents, s.terms, s.factors)
        | spare::outside_numbers(&s.coefficients, s.terms, s.dimension)
        | spare::outside_numbers(&s.vectors, s.generators, s.dimension)
        | spare_in_parts(&s.radii, s.dimension)
}

// Whether a place after the first n of a part isn't 0.
fn spare_in_parts(r: &Radii, n: usize) -> bool
    requires { n ≤ 6 }
    ensures value { result ≡ spare_parts r.now n }
    ensures lengths { PartLengths r.now }
{
    spare::after_first(&r.carried, n)
        | spare::after_first(&r.rounded, n)
        | spare::after_first(&r.folded, n)
        | spare::after_first(&r.given, n)
}

// 7, second: whether identifiers or terms don't rise, a term or a generator is zero, a term has no factor or a factor no term.
pub fn order_out(s: &PolyZonotope) -> bool
    requires { InLimits s.now }
    ensures { result ≡ bad_order (view s.now) }
{
    !used::identifiers_rise(&s.identifiers, s.factors)
        | !used::rows_rise(&s.exponents, s.terms, s.factors)
        | used::constant_rows(&s.exponents, s.terms, s.factors)
        | used::zero_rows(&s.coefficients, s.terms, s.dimension)
        | used::zero_rows(&s.vectors, s.generators, s.dimension)
        | !used::factors_occur(&s.exponents, s.terms, s.factors)
}
