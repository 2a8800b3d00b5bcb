// Under the ranged step: what the half-widths beside the entries of A and Q add to S of each coordinate, and the test that refuses them.
#![tactic(auto)]

ghost use Rattle.std.specs.Prelude.{◌≡◌, ◌+◌, ◌*◌, ◌≤◌, ◌<◌, length};
ghost use Rattle.whole.specs.Tab.{tab};
ghost use Rattle.model.specs.Ranged.{gain};
ghost use Rattle.zonotope.specs.Record.{view};
ghost use Rattle.raw.specs.Accepted.{InSpan};
ghost use Rattle.image.specs.Remainder.{Below};
ghost use Rattle.image.specs.Gaining.{Gaining};
ghost use Rattle.widths.specs.Widths.{WidthsAccepted, widths_of, row_gain, form_row, form_gain, gain_at};

pub mod entries;
mod spans;

use core::array;
use zonotope::PolyZonotope;

// The half-widths of A, as A itself, are in 1/4096; products of two coordinates need no such factor.
const UNIT: u64 = 4096;

// What S of each coordinate gains: 4096·w·M over A's row and w·M·M over Q's form, with M the spans of the set.
pub fn gains(m: usize, n: usize, da: &[u32], dq: &[u32], s: PolyZonotope) -> [u64; 6]
    requires { WidthsAccepted m n da.now dq.now × InSpan s }
    ensures { (result ≡ tab 6 (gain n (widths_of da.now dq.now) (view s))) × Gaining m result }
{
    let spans = spans::of_set(s);
    array::from_fn(|i| gain_at(m, n, da, dq, &spans, i))
}

// Of coordinate i; past the step's coordinates there are no half-widths.
fn gain_at(m: usize, n: usize, da: &[u32], dq: &[u32], spans: &[u64; 6], i: usize) -> u64
    requires { WidthsAccepted m n da.now dq.now × Below 1048576 spans.now }
    ensures { result ≡ gain_at n spans.now da.now dq.now i }
{
    if m <= i {
        return 0;
    }
    row_gain(da, i * n, n, UNIT, spans) + form_gain(dq, i, n, spans)
}

// Of form i: the sum over j of row j's.
fn form_gain(dq: &[u32], i: usize, n: usize, spans: &[u64; 6]) -> u64
    requires { (i < 6) × (n ≤ 6) × ((i * n + n) * n ≤ length dq.now) × Below 32768 dq.now × Below 1048576 spans.now }
    ensures { (result ≡ form_gain n spans.now dq.now i) × (result ≤ 1297036692682702848) }
{
    (0..n).map(|j| form_row(dq, i, j, n, spans)).sum()
}

// Of row j of form i, with M_j as the factor.
fn form_row(dq: &[u32], i: usize, j: usize, n: usize, spans: &[u64; 6]) -> u64
    requires { (i < 6) × (j < n) × (n ≤ 6) × ((i * n + n) * n ≤ length dq.now) × Below 32768 dq.now × Below 1048576 spans.now }
    ensures { result ≡ form_row n spans.now dq.now i j }
{
    row_gain(dq, (i * n + j) * n, n, spans[j], spans)
}

// Of a row of n half-widths: the sum over l of w·factor·M_l.
fn row_gain(widths: &[u32], from: usize, n: usize, factor: u64, spans: &[u64; 6]) -> u64
    requires { (n ≤ 6) × (from + n ≤ length widths.now) × (factor ≤ 1048576) × Below 32768 widths.now
        × Below 1048576 spans.now }
    ensures { (result ≡ row_gain n spans.now widths.now from factor) × (result ≤ 216172782113783808) }
{
    (0..n)
        .map(|l| u64::from(widths[from + l]) * (factor * spans[l]))
        .sum()
}
