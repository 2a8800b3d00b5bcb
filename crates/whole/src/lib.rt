// Whole-number arithmetic: leaf functions of a few operations, each with a contract in plain ℤ or ℕ.
// A function that could leave 64 bits asks, in its `requires`, that the result fits.
#![tactic(auto)]

ghost use Rattle.std.specs.Prelude.{◌≡◌, ◌+◌, ◌*◌, ◌%◌, ◌^◌, ◌<◌, pos, nat_abs, ◌+ℤ◌, ◌*ℤ◌};
ghost use Rattle.whole.specs.Floor.{floor};
ghost use Rattle.whole.specs.Round.{scale, round, exact, inexact};
ghost use Rattle.whole.specs.Half.{half, half_size};

// The raw units of a step's numbers that make one unit in the last place: 4096 * 4096.
const SCALE: i64 = 16777216;

// One more product in a sum.
pub fn multiply_add(sum: i64, a: i64, b: i64) -> i64
    requires { nat_abs sum + nat_abs a * nat_abs b < 2 ^ 63 }
    ensures { result ≡ sum +ℤ a *ℤ b }
{
    sum + a * b
}

// v / 16,777,216 rounded down, built from division toward zero: one less than the quotient where the remainder is negative.
pub fn floor_scale(v: i64) -> i64
    ensures { result ≡ floor v scale }
{
    let q = v / SCALE;
    if v % SCALE < 0 { q - 1 } else { q }
}

// v / 16,777,216 to the nearest whole number, an exact half to the even neighbour: one more than the number below where the rest is more
// than half a unit, or is half a unit and the number below is odd.
pub fn round_scale(v: i64) -> i64
    ensures { result ≡ round v }
{
    let below = floor_scale(v);
    let rest = v - below * SCALE;
    below + (rest + 8388607 + odd(below)) / SCALE
}

// 1 for an odd number, 0 for an even one.
fn odd(z: i64) -> i64
    ensures { result ≡ pos (nat_abs z % 2) }
{
    (z.unsigned_abs() % 2).cast_signed()
}

// Whether rounding v loses nothing.
#[tactic(auto, unfolding(crate::specs::Round::exact))]
pub fn is_exact(v: i64) -> bool
    ensures { result ≡ exact v }
{
    v % SCALE == 0
}

// 1 for an inexact rounding, 0 for an exact one.
#[tactic(auto, unfolding(crate::specs::Round::inexact))]
pub fn count_inexact(v: i64) -> u64
    ensures { result ≡ inexact v }
{
    u64::from(!is_exact(v))
}

// How far folding an even term with coefficient g moves the centre: g / 2, rounded toward zero.
#[tactic(auto, unfolding(crate::specs::Half::half))]
pub fn half(g: i64) -> i64
    ensures { result ≡ half g }
{
    g / 2
}

// How much folding it widens the radius: |g| / 2, rounded up.
#[tactic(auto, unfolding(crate::specs::Half::half_size))]
pub fn half_size_up(g: i64) -> u64
    ensures { result ≡ half_size g }
{
    g.unsigned_abs().div_ceil(2)
}
