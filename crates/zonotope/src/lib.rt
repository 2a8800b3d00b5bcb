// A set in memory: one record by value that holds its own arrays.
#![tactic(auto)]

ghost use Rattle.std.specs.Prelude.{◌≡◌};
ghost use Rattle.model.specs.Valid.{bad_counts, is_too_wide};
ghost use Rattle.model.specs.Run.{no_set};
ghost use Rattle.model.specs.Library.{examine};
ghost use Rattle.zonotope.specs.Record.{view, pack, given};
ghost use Rattle.zonotope.specs.Counts.{InLimits};
ghost use Rattle.zonotope.specs.Shape.{Sized};
ghost use Rattle.zonotope.specs.Answer.{Accepted, examined, number_of};

pub mod arguments;
mod causes;
pub mod parts;

use arrays::span;

// Document 01's limits: of the counts and of a coordinate's span.
pub const MAX_DIMENSION: usize = 6;

pub const MAX_FACTORS: usize = 12;

pub const MAX_TERMS: usize = 40;

pub const MAX_GENERATORS: usize = 24;

pub const MAX_SPAN: u64 = 1048576;

// The radius of each coordinate by where it came from: what a step or a hull carried on, what rounding and what folding added, and what a
// set or a disturbance gave. No part can be negative; the radius is their sum.
#[derive(Clone, Copy)]
pub struct Radii {
    pub carried: [u32; 6],
    pub rounded: [u32; 6],
    pub folded: [u32; 6],
    pub given: [u32; 6],
}

// The same at 64 bits, for results that aren't finished.
#[derive(Clone, Copy)]
pub struct WideRadii {
    pub carried: [u64; 6],
    pub rounded: [u64; 6],
    pub folded: [u64; 6],
    pub given: [u64; 6],
}

// A sparse polynomial zonotope with generators and radii, in units of the last place (document 01: grains). A term's exponents stand in
// a row of 12, its coefficients and a generator's numbers in a row of 6. Places that the counts leave unused hold 0.
#[derive(Clone, Copy)]
pub struct PolyZonotope {
    pub dimension: usize,
    pub factors: usize,
    pub terms: usize,
    pub generators: usize,
    pub identifiers: [u32; 12],
    pub centre: [i32; 6],
    pub exponents: [u8; 480],
    pub coefficients: [i32; 240],
    pub vectors: [i32; 144],
    pub radii: Radii,
}

// What refuses a set, a call or a field, in the order of document 01's numbers.
#[derive(Clone, Copy, PartialEq, Eq, Debug)]
pub enum Cause {
    Ended,
    Tag,
    Length,
    Count,
    Dimension,
    Range,
    Form,
    SetTooWide,
    TooManyFactors,
    ResultTooWide,
    NextIdentifier,
    TooManyFields,
    WorkTooShort,
    EmptyDisturbance,
}

impl Cause {
    // Document 01's number of the cause, from 1 to 14.
    pub fn number(self) -> u8
        ensures { result ≡ number_of self }
    {
        match self {
            Cause::Ended => 1,
            Cause::Tag => 2,
            Cause::Length => 3,
            Cause::Count => 4,
            Cause::Dimension => 5,
            Cause::Range => 6,
            Cause::Form => 7,
            Cause::SetTooWide => 8,
            Cause::TooManyFactors => 9,
            Cause::ResultTooWide => 10,
            Cause::NextIdentifier => 11,
            Cause::TooManyFields => 12,
            Cause::WorkTooShort => 13,
            Cause::EmptyDisturbance => 14,
        }
    }
}

// The record of no set: every count and every place is 0.
pub fn empty() -> PolyZonotope
    ensures { result ≡ pack no_set }
{
    let none = [0u32; 6];
    PolyZonotope {
        dimension: 0,
        factors: 0,
        terms: 0,
        generators: 0,
        identifiers: [0; 12],
        centre: [0; 6],
        exponents: [0; 480],
        coefficients: [0; 240],
        vectors: [0; 144],
        radii: Radii {
            carried: none,
            rounded: none,
            folded: none,
            given: none,
        },
    }
}

// The first cause that refuses the set, if any.
pub fn examine(s: PolyZonotope) -> Result<(), Cause>
    ensures value { result ≡ examined (examine (given s)) }
    ensures sized { result ≡ Accepted → Sized s }
{
    if causes::counts_out(&s) {
        return Err(Cause::Count);
    }
    if causes::range_out(&s) {
        return Err(Cause::Range);
    }
    if causes::has_spare(&s) | causes::order_out(&s) {
        return Err(Cause::Form);
    }
    if too_wide(&s) {
        return Err(Cause::SetTooWide);
    }
    Ok(())
}

// 8: whether the span of a coordinate exceeds the limit.
fn too_wide(s: &PolyZonotope) -> bool
    requires { InLimits s.now }
    ensures { result ≡ is_too_wide (view s.now) }
{
    span::too_wide(
        &s.centre,
        &s.coefficients,
        &s.vectors,
        &parts::totals(s.radii),
        s.dimension,
        s.terms,
        s.generators,
        MAX_SPAN,
    )
}

// 4: whether a count is out of limits.
pub fn bad_counts(s: PolyZonotope) -> bool
    ensures { result ≡ bad_counts (view s) }
{
    causes::counts_out(&s)
}
