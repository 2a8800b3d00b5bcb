// The radii from their parts.
ghost use Rattle.std.specs.Prelude.{◌≡◌, ℕ, ◌≤◌, get_or};
ghost use Rattle.arrays.specs.Rows.{most_radius};
ghost use Rattle.zonotope.specs.Record.{totals_of, anew};

use crate::{Radii, WideRadii};

// The radius of each coordinate.
pub fn totals(r: Radii) -> [u64; 6]
    ensures { (result ≡ totals_of r) × ((i : ℕ) → get_or result i 0 ≤ most_radius) }
{
    let mut totals = [0u64; 6];
    for (i, total) in totals.iter_mut().enumerate() {
        let made = u64::from(r.carried[i]) + u64::from(r.rounded[i]);
        let later = u64::from(r.folded[i]) + u64::from(r.given[i]);
        *total = made + later;
    }
    totals
}

// The radii of a result that makes its parts anew: nothing is folded yet, and nothing was given.
pub fn anew(carried: [u64; 6], rounded: [u64; 6]) -> WideRadii
    ensures { result ≡ anew carried rounded }
{
    let none = [0u64; 6];
    WideRadii {
        carried,
        rounded,
        folded: none,
        given: none,
    }
}
