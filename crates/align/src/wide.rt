// Rows of 12 exponents and of 6 numbers in lent slices, and sums of vectors.
ghost use Rattle.std.specs.Prelude.{◌≡◌, ◌+◌, ◌*◌, ◌≤◌, ◌<◌, length, get_or, pos, nat_abs, ◌+ℤ◌, ◌*ℤ◌};
ghost use Rattle.whole.specs.Tab.{tab};
ghost use Rattle.whole.specs.Write.{write};
ghost use Rattle.align.specs.Listed.{listed};
ghost use Rattle.align.specs.Align.{meet, aligned_at};
ghost use Rattle.align.specs.Runs.{flat};
ghost use Rattle.align.specs.Radii.{added_parts, added_radii};

use crate::numbering;
use zonotope::{Radii, WideRadii};

// Whether factor i of the first p is factor k of the first n.
fn meets(ids: &[u32; 12], p: usize, i: usize, all: &[u32; 24], n: usize, k: usize) -> bool
    requires { (p ≤ 12) × (n ≤ 24) }
    ensures { result ≡ meet (listed p ids.now) (listed n all.now) i k }
{
    i < p && numbering::stands_at(all, n, k, ids[i])
}

// Row `to` of e gets the exponents of row t, which belong to p factors, written for n factors, and 0 in the later columns.
fn align_row(
    exponents: &[u8; 480],
    t: usize,
    ids: &[u32; 12],
    p: usize,
    all: &[u32; 24],
    n: usize,
    e: &mut [u8],
    to: usize,
)
    requires { (t < 40) × (p ≤ 12) × (n ≤ 24) × (to * 12 + 12 ≤ length e.old) }
    ensures { e.new ≡ write e.old (to * 12)
        (aligned_at exponents.now p ids.now n all.now t) 12 }
{
    let mut i = 0;
    for k in 0..12 {
        if meets(ids, p, i, all, n, k) {
            e[to * 12 + k] = exponents[t * 12 + i];
            i += 1;
        } else {
            e[to * 12 + k] = 0;
        }
    }
}

// The rows of h terms, from row `to` on.
pub fn align_rows(
    exponents: &[u8; 480],
    h: usize,
    ids: &[u32; 12],
    p: usize,
    all: &[u32; 24],
    n: usize,
    e: &mut [u8],
    to: usize,
)
    requires { (h ≤ 40) × (p ≤ 12) × (n ≤ 24) × (to * 12 + h * 12 ≤ length e.old) }
    ensures { e.new ≡ write e.old (to * 12)
        (flat 12 (aligned_at exponents.now p ids.now n all.now)) (h * 12) }
{
    for t in 0..h {
        align_row(exponents, t, ids, p, all, n, e, to + t);
    }
}

// n rows of 6 numbers at 64 bits, from row `to` on.
pub fn widen_rows(numbers: &[i32], n: usize, c: &mut [i64], to: usize)
    requires { (n * 6 ≤ length numbers.now) × (to * 6 + n * 6 ≤ length c.old) }
    ensures { c.new ≡ write c.old (to * 6) (λ k. get_or numbers.now k (pos 0)) (n * 6) }
{
    for (k, x) in numbers[..n * 6].iter().enumerate() {
        c[to * 6 + k] = i64::from(*x);
    }
}

// The sum of two centres, or their difference: the second counts times `sign`.
pub fn add_centres(a: &[i32; 6], sign: i64, b: &[i32; 6]) -> [i64; 6]
    requires { nat_abs sign ≤ 1 }
    ensures { result ≡ tab 6 (λ i. get_or a.now i (pos 0) +ℤ sign *ℤ get_or b.now i (pos 0)) }
{
    let mut out = [0i64; 6];
    for i in 0..6 {
        out[i] = add_wide(a[i], sign, b[i]);
    }
    out
}

// The same of two 32-bit numbers.
fn add_wide(x: i32, sign: i64, y: i32) -> i64
    requires { nat_abs sign ≤ 1 }
    ensures { result ≡ x +ℤ sign *ℤ y }
{
    whole::multiply_add(i64::from(x), sign, i64::from(y))
}

// The sums of like parts of the radii of two sets.
pub fn add_radii(a: Radii, b: Radii) -> WideRadii
    ensures { result ≡ added_radii a b }
{
    WideRadii {
        carried: add_parts(&a.carried, &b.carried),
        rounded: add_parts(&a.rounded, &b.rounded),
        folded: add_parts(&a.folded, &b.folded),
        given: add_parts(&a.given, &b.given),
    }
}

// The sums of two parts.
fn add_parts(a: &[u32; 6], b: &[u32; 6]) -> [u64; 6]
    ensures { result ≡ added_parts a.now b.now }
{
    let mut out = [0u64; 6];
    for i in 0..6 {
        out[i] = u64::from(a[i]) + u64::from(b[i]);
    }
    out
}
