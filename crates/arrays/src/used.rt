// Tests of the places that a record's counts use: identifiers, rows of 12 exponents and rows of 6 numbers.
ghost use Rattle.std.specs.Prelude.{◌≡◌, Bool, List, ◌+◌, ◌-◌, ◌*◌, ◌≤◌, ◌<◌, ltb, pos, length, get_or};
ghost use Rattle.std.specs.Fn.{FnReturnsAt};
ghost use Rattle.whole.specs.Tab.{tab, any};
ghost use Rattle.model.specs.Valid.{order, is_less, rises, is_zero, zeros, factorless};
ghost use Rattle.arrays.specs.Rows.{row, identifier_out, exponent_out};
ghost use Rattle.whole.specs.Tests.{some_below, each_below};

use crate::{MAX_EXPONENT, MAX_IDENTIFIER};

// Whether the first n entries of one of the first rows of w pass the test.
fn any_row<T, F: Fn(&[T]) -> bool>(xs: &[T], w: usize, rows: usize, n: usize, test: F) -> bool
    requires { (rows * w ≤ length xs.now) × (n ≤ w) × F.IsAlwaysCallable test }
    ensures { (p : List T → Bool) (d : T) → ((r : List T) (b : Bool) → FnReturnsAt F.Fn test r b → b ≡ p r)
        → result ≡ some_below rows (λ t. p (row w d xs.now t n)) }
{
    (0..rows).any(|t| test(&xs[t * w..t * w + n]))
}

// Whether the number is 0.
pub fn is_zero(v: i32) -> bool
    ensures { result ≡ is_zero v }
{
    v == 0
}

// ---- ranges
// Whether the identifier isn't in a record's range.
pub fn identifier_out(k: u32) -> bool
    ensures { result ≡ identifier_out k }
{
    (k == 0) | (MAX_IDENTIFIER < k)
}

// Whether one of the first p identifiers isn't in a record's range.
pub fn identifiers_out(ids: &[u32; 12], p: usize) -> bool
    requires { p ≤ 12 }
    ensures { result ≡ any identifier_out (tab p (λ i. get_or ids.now i 0)) }
{
    ids[..p].iter().any(|k| identifier_out(*k))
}

// Whether one of the first p exponents of row t is too large.
pub fn row_out(e: &[u8; 480], t: usize, p: usize) -> bool
    requires { (t < 40) × (p ≤ 12) }
    ensures { result ≡ any exponent_out (row 12 0 e.now t p) }
{
    has_large(&e[t * 12..t * 12 + p])
}

// The same of one of the first h rows.
pub fn exponents_out(e: &[u8; 480], h: usize, p: usize) -> bool
    requires { (h ≤ 40) × (p ≤ 12) }
    ensures { result ≡ some_below h (λ t. any exponent_out (row 12 0 e.now t p)) }
{
    any_row(e, 12, h, p, has_large)
}

// Whether an exponent is too large.
fn has_large(row: &[u8]) -> bool
    ensures { result ≡ any exponent_out row.now }
{
    row.iter().any(|x| MAX_EXPONENT < *x)
}

// ---- zeros
// Whether the first n numbers of row t are all 0.
pub fn zero_row(xs: &[i32], t: usize, n: usize) -> bool
    requires { (t < 40) × (t * 6 + 6 ≤ length xs.now) × (n ≤ 6) }
    ensures { result ≡ zeros (row 6 (pos 0) xs.now t n) }
{
    all_zero(&xs[t * 6..t * 6 + n])
}

// Whether one of the first h rows of numbers is zero.
pub fn zero_rows(xs: &[i32], h: usize, n: usize) -> bool
    requires { (h ≤ 40) × (h * 6 ≤ length xs.now) × (n ≤ 6) }
    ensures { result ≡ some_below h (λ t. zeros (row 6 (pos 0) xs.now t n)) }
{
    any_row(xs, 6, h, n, all_zero)
}

// Whether all numbers of a row are 0.
fn all_zero(row: &[i32]) -> bool
    ensures { result ≡ zeros row.now }
{
    row.iter().all(|x| *x == 0)
}

// Whether the first p exponents of row t are all 0.
pub fn constant_row(e: &[u8; 480], t: usize, p: usize) -> bool
    requires { (t < 40) × (p ≤ 12) }
    ensures { result ≡ factorless (row 12 0 e.now t p) }
{
    is_constant(&e[t * 12..t * 12 + p])
}

// Whether one of the first h rows of exponents is constant.
pub fn constant_rows(e: &[u8; 480], h: usize, p: usize) -> bool
    requires { (h ≤ 40) × (p ≤ 12) }
    ensures { result ≡ some_below h (λ t. factorless (row 12 0 e.now t p)) }
{
    any_row(e, 12, h, p, is_constant)
}

// Whether all exponents of a row are 0.
fn is_constant(row: &[u8]) -> bool
    ensures { result ≡ factorless row.now }
{
    row.iter().all(|x| *x == 0)
}

// Whether factor j occurs in one of the first h rows.
pub fn factor_occurs(e: &[u8; 480], h: usize, j: usize) -> bool
    requires { (h ≤ 40) × (j < 12) }
    ensures { result ≡ some_below h (λ t. ltb 0 (get_or e.now (t * 12 + j) 0)) }
{
    (0..h).any(|t| 0 < e[t * 12 + j])
}

// Whether each of the first p factors occurs in one of the first h rows.
pub fn factors_occur(e: &[u8; 480], h: usize, p: usize) -> bool
    requires { (h ≤ 40) × (p ≤ 12) }
    ensures { result ≡ each_below p (λ j. some_below h (λ t. ltb 0 (get_or e.now (t * 12 + j) 0))) }
{
    (0..p).all(|j| factor_occurs(e, h, j))
}

// ---- order
// Whether each of the first p identifiers is below the next.
pub fn identifiers_rise(ids: &[u32; 12], p: usize) -> bool
    requires { p ≤ 12 }
    ensures { result ≡ rises ltb (tab p (λ i. get_or ids.now i 0)) }
{
    ids[..p].is_sorted_by(|a, b| a < b)
}

// Whether row t comes before the next one, by the first of p exponents in which they differ.
pub fn row_rises(e: &[u8; 480], t: usize, p: usize) -> bool
    requires { (t + 1 < 40) × (p ≤ 12) }
    ensures { result ≡ is_less (order (row 12 0 e.now t p) (row 12 0 e.now (t + 1) p)) }
{
    let at = t * 12;
    let next = (t + 1) * 12;
    e[at..at + p] < e[next..next + p]
}

// Whether each of the first h rows comes before the next.
pub fn rows_rise(e: &[u8; 480], h: usize, p: usize) -> bool
    requires { (h ≤ 40) × (p ≤ 12) }
    ensures { result ≡ rises (λ u v. is_less (order u v)) (tab h (λ t. row 12 0 e.now t p)) }
{
    (1..h).all(|t| row_rises(e, t - 1, p))
}
