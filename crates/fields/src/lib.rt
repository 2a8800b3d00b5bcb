// A field of each kind, given to a set that is known to be valid: its body is read, and what lies under the library's calls does the rest.
// A kind is a file, and its `effect` says what a field of it does. Each is given the part of the buffer that the body fills. A part of
// `run`.
#![tactic(auto)]

ghost use Rattle.std.specs.Prelude.{◌≡◌};
ghost use Rattle.model.specs.Field.{describe};
ghost use Rattle.fields.specs.Kinds.{meant, OfTag};

use zonotope::{Cause, PolyZonotope};

pub mod checks;
pub mod disturbances;
mod effects;
pub mod hulls;
pub mod independent_sums;
pub mod ranged_steps;
pub mod reductions;
mod sets;
pub mod starts;
pub mod steps;
pub mod tied_sums;

// The kinds of field.
#[derive(Clone, Copy, PartialEq, Eq, Debug)]
pub enum Kind {
    Start,
    Step,
    Disturbance,
    IndependentSum,
    TiedSum,
    Reduction,
    Check,
    Hull,
    RangedStep,
}

impl TryFrom<u8> for Kind {
    type Error = Cause;

    ghost try_from_gives = { OfTag };

    // The kind with this tag.
    fn try_from(tag: u8) -> Result<Self, Cause> {
        match tag {
            1 => Ok(Kind::Start),
            2 => Ok(Kind::Step),
            3 => Ok(Kind::Disturbance),
            4 => Ok(Kind::IndependentSum),
            5 => Ok(Kind::TiedSum),
            6 => Ok(Kind::Reduction),
            7 => Ok(Kind::Check),
            8 => Ok(Kind::Hull),
            9 => Ok(Kind::RangedStep),
            _ => Err(Cause::Tag),
        }
    }
}

impl Kind {
    // Whether it makes the parts of the radius anew.
    pub fn makes_anew(self) -> bool
        ensures { result ≡ (describe (meant self)).anew }
    {
        match self {
            Kind::Start | Kind::Step | Kind::Hull | Kind::RangedStep => true,
            _ => false,
        }
    }

    // Whether it is worked out in the work slices.
    pub fn works(self) -> bool
        ensures { result ≡ (describe (meant self)).works }
    {
        match self {
            Kind::Step | Kind::RangedStep => true,
            _ => false,
        }
    }
}

// What an accepted field comes to by itself: the box of the set that it leaves, or a verdict.
#[derive(Clone, Copy, PartialEq, Eq, Debug)]
pub enum Found {
    Inside,
    Safe,
    Unknown,
}

// What an accepted field does to a set: what it comes to, the set that it leaves, and the next identifier after it. A refused one leaves
// the set and the next identifier as they came.
#[derive(Clone, Copy)]
pub struct Effect {
    pub found: Found,
    pub set: PolyZonotope,
    pub next: u32,
}
