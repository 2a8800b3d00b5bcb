// The ends of all coordinates in one pass over the rows of terms and one over the coordinates.
ghost use Rattle.std.specs.Prelude.{◌≡◌, true, false, ℕ, ◌+◌, ◌*◌, ◌^◌, ◌≤◌, ◌<◌, length, get_or, nat_abs, ◌+ℤ◌};
ghost use Rattle.model.specs.Set.{at};
ghost use Rattle.model.specs.Operations.{greatest};
ghost use Rattle.arrays.specs.Rows.{most_radius};
ghost use Rattle.zonotope.specs.Counts.{InLimits};
ghost use Rattle.verdicts.specs.Six.{six};
ghost use Rattle.verdicts.specs.Ends.{reached, Added, Extremes};

use crate::{Ends, along};
use zonotope::PolyZonotope;

// What the terms contribute to both ends of each coordinate. A term has a row in two arrays, so the loop goes by its number.
pub fn extremes(s: &PolyZonotope) -> Ends
    requires { InLimits s.now }
    ensures { Extremes false s.now.exponents s.now.coefficients s.now.factors s.now.terms result.low
        × Extremes true s.now.exponents s.now.coefficients s.now.factors s.now.terms result.high }
{
    let mut low = [0i64; 6];
    let mut high = [0i64; 6];
    for t in 0..s.terms {
        let even = along::even_row(&s.exponents, t, s.factors);
        add_row(&mut low, &mut high, even, &s.coefficients[t * 6..t * 6 + 6]);
    }
    Ends { low, high }
}

// What a row contributes is added to both ends of each coordinate.
fn add_row(low: &mut [i64; 6], high: &mut [i64; 6], even: bool, row: &[i32])
    requires { (length row.now ≡ 6) × ((i : ℕ) → nat_abs (at low.old i) ≤ 40 * 2147483648)
        × ((i : ℕ) → nat_abs (at high.old i) ≤ 40 * 2147483648) }
    ensures { Added false even row.now low.old low.new × Added true even row.now high.old high.new }
{
    for (i, x) in row.iter().enumerate() {
        let g = i64::from(*x);
        low[i] += along::least(even, g);
        high[i] += greatest(even, g);
    }
}

// Both ends of each coordinate: its centre and what the terms contribute, less and more by the sizes of the generators and the radius.
// Five arrays give a number to each coordinate, so the loop goes by its place.
pub fn reach(s: &PolyZonotope, terms: &Ends, sizes: &[u64; 6], radii: &[u64; 6]) -> Ends
    requires { (s.now.dimension ≤ 6) × ((i : ℕ) → nat_abs (at terms.now.low i) ≤ 40 * 2147483648)
        × ((i : ℕ) → nat_abs (at terms.now.high i) ≤ 40 * 2147483648)
        × ((i : ℕ) → get_or sizes.now i 0 ≤ 40 * 2147483648) × ((i : ℕ) → get_or radii.now i 0 ≤ most_radius) }
    ensures { (result.low ≡ six s.now.dimension (λ i. reached false (at s.now.centre i +ℤ at terms.now.low i)
        (get_or sizes.now i 0 + get_or radii.now i 0)))
        × (result.high ≡ six s.now.dimension (λ i. reached true (at s.now.centre i +ℤ at terms.now.high i)
        (get_or sizes.now i 0 + get_or radii.now i 0))) }
{
    let mut ends = Ends {
        low: [0; 6],
        high: [0; 6],
    };
    for i in 0..s.dimension {
        let centre = i64::from(s.centre[i]);
        let width = (sizes[i] + radii[i]) as i64;
        ends.low[i] = centre + terms.low[i] - width;
        ends.high[i] = centre + terms.high[i] + width;
    }
    ends
}

// The most that a coefficient g contributes: 0 or g for an even monomial, else |g|.
fn greatest(even: bool, g: i64) -> i64
    requires { nat_abs g < 2 ^ 63 }
    ensures { result ≡ greatest even g }
{
    if even { g.max(0) } else { g.abs() }
}
