// What a set's independent part, its generators and radii, carries on to each coordinate's radius: S of document 01, and what it gains.
ghost use Rattle.std.specs.Prelude.{◌≡◌, ℕ, ◌*◌, ◌≤◌, ◌<◌, length};
ghost use Rattle.whole.specs.Tab.{tab};
ghost use Rattle.rows.specs.Rows.{Small};
ghost use Rattle.forms.specs.Numbers.{table_limit};
ghost use Rattle.raw.specs.Accepted.{InSpan};
ghost use Rattle.raw.specs.Limits.{row_sizes};
ghost use Rattle.image.specs.Remainder.{Below, spread, cell_of, slope_sum, cross_row, cross_sum, carried_from};
ghost use Rattle.image.specs.Gaining.{gain_limit};
ghost use Rattle.image.specs.Radii.{Carried};

use core::array;
use zonotope::{PolyZonotope, parts};

// The raw units that make one unit in the last place.
const SCALE: u64 = 16777216;

// What a step on s carries on: S with what it gains, of each coordinate, in whole units.
pub fn carried(lines: &[i64; 36], q: &[i32; 216], s: PolyZonotope, gains: &[u64; 6]) -> [u64; 6]
    requires { Small table_limit lines.now × Small 32768 q.now × InSpan s × Below gain_limit gains.now }
    ensures { Carried lines.now q.now s gains.now result }
{
    let coefficients = s.coefficients;
    let vectors = s.vectors;
    let h = s.terms;
    let g = s.generators;
    let w = parts::totals(s.radii);
    let none = [0u64; 6];
    let d = spreads(&coefficients, h, &none);
    let r = spreads(&vectors, g, &w);
    array::from_fn(|i| carried_at(lines, q, &d, &r, &w, gains, i))
}

// ---- D, r and w
// The sum of the sizes at coordinate i of the first rows.
fn size_sum(xs: &[i32], rows: usize, i: usize) -> u64
    requires { (rows ≤ 40) × (i < 6) × (rows * 6 ≤ length xs.now) × (row_sizes xs.now rows i ≤ 1048576) }
    ensures { result ≡ row_sizes xs.now rows i }
{
    (0..rows)
        .map(|t| u64::from(xs[t * 6 + i].unsigned_abs()))
        .sum()
}

// The sizes of each coordinate over the first rows, with radii.
pub fn spreads(xs: &[i32], rows: usize, radii: &[u64; 6]) -> [u64; 6]
    requires { (rows ≤ 40) × (rows * 6 ≤ length xs.now) × ((i : ℕ) → i < 6 → row_sizes xs.now rows i ≤ 1048576)
        × Below 1048576 radii.now }
    ensures { result ≡ tab 6 (spread xs.now rows radii.now) }
{
    array::from_fn(|i| size_sum(xs, rows, i) + radii[i])
}

// ---- sums over the coordinates
// The sum over j of |line j|·w_j, at coordinate i.
fn slope_sum(lines: &[i64; 36], i: usize, w: &[u64; 6]) -> u64
    requires { (i < 6) × Small table_limit lines.now × Below 1048576 w.now }
    ensures { (result ≡ slope_sum lines.now w.now i) × (result ≤ 2594917810295537664) }
{
    (0..6).map(|j| lines[i * 6 + j].unsigned_abs() * w[j]).sum()
}

// |Q_jl|·(D_j·r_l + r_j·D_l + r_j·r_l).
fn cell(q: u64, dj: u64, dl: u64, rj: u64, rl: u64) -> u64
    requires { (q ≤ 32768) × (dj ≤ 1048576) × (dl ≤ 1048576) × (rj ≤ 1048576) × (rl ≤ 1048576) }
    ensures { result ≡ cell_of q dj dl rj rl }
{
    q * (dj * rl + rj * dl + rj * rl)
}

// The sum over l, in row j; where D_j and r_j are 0 every product is.
fn cross_row(q: &[i32; 216], i: usize, d: &[u64; 6], r: &[u64; 6], j: usize) -> u64
    requires { (i < 6) × (j < 6) × Small 32768 q.now × Below 1048576 d.now × Below 1048576 r.now }
    ensures { result ≡ cross_row q.now d.now r.now i j }
{
    let dj = d[j];
    let rj = r[j];
    if dj + rj == 0 {
        return 0;
    }
    (0..6)
        .map(|l| {
            let size = q[(i * 6 + j) * 6 + l].unsigned_abs();
            cell(u64::from(size), dj, d[l], rj, r[l])
        })
        .sum()
}

// The sum over j and l.
fn cross_sum(q: &[i32; 216], i: usize, d: &[u64; 6], r: &[u64; 6]) -> u64
    requires { (i < 6) × Small 32768 q.now × Below 1048576 d.now × Below 1048576 r.now }
    ensures { (result ≡ cross_sum q.now d.now r.now i) × (result ≤ 3891110078048108544) }
{
    (0..6).map(|j| cross_row(q, i, d, r, j)).sum()
}

// ---- what is carried
// S of coordinate i with what it gains, together rounded up to whole units.
fn carried_at(
    lines: &[i64; 36],
    q: &[i32; 216],
    d: &[u64; 6],
    r: &[u64; 6],
    w: &[u64; 6],
    gains: &[u64; 6],
    i: usize,
) -> u64
    requires { (i < 6) × Small table_limit lines.now × Small 32768 q.now × Below 1048576 d.now × Below 1048576 r.now
        × Below 1048576 w.now × Below gain_limit gains.now }
    ensures { result ≡ carried_from lines.now q.now d.now r.now w.now
        gains.now i }
{
    (slope_sum(lines, i, w) + cross_sum(q, i, d, r) + gains[i]).div_ceil(SCALE)
}
