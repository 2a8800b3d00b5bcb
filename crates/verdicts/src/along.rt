// The lower end of a·x over a set, part by part: the centre, the terms, the generators, the radii. No entry of a exceeds 32,768, so the
// sums fit 64 bits whatever the record holds.
ghost use Rattle.std.specs.Prelude.{◌≡◌, ℕ, ◌+◌, ◌*◌, ◌^◌, ◌≤◌, ◌<◌, nat_abs, length, get_or};
ghost use Rattle.model.specs.Finish.{all_even};
ghost use Rattle.model.specs.Operations.{least};
ghost use Rattle.arrays.specs.Rows.{row, most_radius};
ghost use Rattle.zonotope.specs.Counts.{InLimits};
ghost use Rattle.verdicts.specs.Along.{Entries, row_dot, row_bound, least_sum, size_sum, radius_sum, reach_bound, low_by};

use zonotope::PolyZonotope;

// Whether the first p exponents of row t are all even.
pub fn even_row(e: &[u8; 480], t: usize, p: usize) -> bool
    requires { (t < 40) × (p ≤ 12) }
    ensures { result ≡ all_even (row 12 0 e.now t p) }
{
    e[t * 12..t * 12 + p].iter().all(|x| x % 2 == 0)
}

// The least that a coefficient g contributes: 0 or g for an even monomial, else -|g|.
pub fn least(even: bool, g: i64) -> i64
    requires { nat_abs g < 2 ^ 63 }
    ensures { result ≡ least even g }
{
    if even { g.min(0) } else { -g.abs() }
}

// a·x for row t of 6 numbers.
pub fn dot(a: &[i32], xs: &[i32], t: usize, n: usize) -> i64
    requires { Entries a.now × (n ≤ length a.now) × (n ≤ 6) × (t < 40) × (t * 6 + 6 ≤ length xs.now) }
    ensures { (result ≡ row_dot a.now xs.now t n) × (nat_abs result ≤ row_bound) }
{
    let mut sum = 0;
    for (x, y) in a.iter().zip(&xs[t * 6..t * 6 + n]) {
        sum += i64::from(*x) * i64::from(*y);
    }
    sum
}

// The least that the terms contribute together.
pub fn terms_low(a: &[i32], s: &PolyZonotope) -> i64
    requires { Entries a.now × (s.now.dimension ≤ length a.now) × InLimits s.now }
    ensures { (result ≡ least_sum a.now s.now.exponents s.now.coefficients s.now.factors s.now.dimension s.now.terms)
        × (nat_abs result ≤ 40 * row_bound) }
{
    let mut sum: i64 = 0;
    for t in 0..s.terms {
        let even = even_row(&s.exponents, t, s.factors);
        sum += least(even, dot(a, &s.coefficients, t, s.dimension));
    }
    sum
}

// How far the generators reach together.
pub fn generators_reach(a: &[i32], s: &PolyZonotope) -> u64
    requires { Entries a.now × (s.now.dimension ≤ length a.now) × InLimits s.now }
    ensures { (result ≡ size_sum a.now s.now.vectors s.now.dimension s.now.generators) × (result ≤ 24 * row_bound) }
{
    let mut sum: u64 = 0;
    for g in 0..s.generators {
        sum += dot(a, &s.vectors, g, s.dimension).unsigned_abs();
    }
    sum
}

// How far the radii reach together.
pub fn radii_reach(a: &[i32], radii: &[u64; 6], n: usize) -> u64
    requires { Entries a.now × (n ≤ length a.now) × (n ≤ 6) × ((i : ℕ) → get_or radii.now i 0 ≤ most_radius) }
    ensures { (result ≡ radius_sum a.now radii.now n) × (result ≤ reach_bound) }
{
    let mut sum = 0;
    for (x, radius) in a.iter().zip(&radii[..n]) {
        sum += u64::from(x.unsigned_abs()) * *radius;
    }
    sum
}

// The lower end of a·x over the set's points.
pub fn lower_end(a: &[i32], s: &PolyZonotope, radii: &[u64; 6]) -> i64
    requires { Entries a.now × (s.now.dimension ≤ length a.now) × InLimits s.now × ((i : ℕ) → get_or radii.now i 0 ≤ most_radius) }
    ensures { (result ≡ low_by a.now s.now radii.now) × (nat_abs result < 2 ^ 63) }
{
    let n = s.dimension;
    let middle = dot(a, &s.centre, 0, n);
    let terms = terms_low(a, s);
    let width = generators_reach(a, s) + radii_reach(a, radii, n);
    middle + terms - width as i64
}
