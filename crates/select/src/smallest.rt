// The smallest of rows: a bar on their sizes, found by bisection, and the marks of the rows that lie below it. Sizes and marks are
// written into slices that the caller lends.
ghost use Rattle.std.specs.Prelude.{◌≡◌, ℕ, ◌+◌, ◌*◌, ◌^◌, ◌≤◌, ◌<◌, ltb, length};
ghost use Rattle.model.specs.Motion.{places};
ghost use Rattle.model.specs.Finish.{size};
ghost use Rattle.model.proofs.Select.{bar, left};
ghost use Rattle.model.proofs.Level.{level, Bar};
ghost use Rattle.rows.specs.Rows.{number_row, Small};
ghost use Rattle.fold.specs.Folding.{Under};
ghost use Rattle.select.specs.Bar.{size_at, Marked};
ghost use Rattle.select.specs.Selected.{Selected};

use core::cmp::Ordering;

// The marks of the smallest of the first rows, of equals the later, of which all but `limit` are marked. `z` is for the sizes.
pub fn mark_smallest(s: &[i64], limit: usize, weights: &[u64; 6], z: &mut [u64], gone: &mut [bool])
    requires { (limit ≤ length gone.old) × (length gone.old * 6 ≤ length s.now) × (length z.old ≡ length gone.old)
        × Small (2 ^ 50) s.now × Under 1000 weights.now }
    ensures { Selected (λ k. size weights.now (number_row s.now k)) limit (length gone.old) gone.new }
{
    sizes(s, weights, z);
    let height = find_bar(z, limit, largest(z) + 1);
    let above = count_from(z, height + 1);
    mark_below(z, height, limit - above, gone);
}

// The marks of the sizes that lie below the bar, and of those at the bar after the first `quota`.
fn mark_below(z: &[u64], height: u64, quota: usize, gone: &mut [bool])
    requires { length z.now ≡ length gone.old }
    ensures { Marked z.now height quota (length gone.old) gone.new }
{
    let mut rest = quota;
    for (k, gone) in gone.iter_mut().enumerate() {
        *gone = is_below(z[k], height, rest);
        if *gone {
            continue;
        }
        rest = quota_after(z[k], height, rest);
    }
}

// Whether a size lies below the bar at `height`, while `quota` of that size are still to be kept.
fn is_below(size: u64, height: u64, quota: usize) -> bool
    ensures { result ≡ ltb size (bar height quota) }
{
    if quota == 0 {
        size <= height
    } else {
        size < height
    }
}

// How many of size `height` are still to be kept after one of this size was.
fn quota_after(size: u64, height: u64, quota: usize) -> usize
    ensures { result ≡ left height quota size }
{
    if size == height {
        quota.saturating_sub(1)
    } else {
        quota
    }
}

// A bar for a limit: at least `limit` of the sizes reach it, and at most `limit` exceed it. All are below `top`.
fn find_bar(z: &[u64], limit: usize, top: u64) -> u64
    requires { (limit ≤ length z.now) × (0 < top) × (top ≤ 2 ^ 63) × ((k : ℕ) → k < length z.now → size_at z.now k < top) }
    ensures { Bar (size_at z.now) limit (places (length z.now)) result × (result < top) }
{
    let mut low = 0;
    let mut high = top;
    while low + 1 < high {
        let middle = low + (high - low) / 2;
        match count_from(z, middle).cmp(&limit) {
            // Exactly `limit` reach it, and so no more exceed it.
            Ordering::Equal => return middle,
            Ordering::Greater => low = middle,
            Ordering::Less => high = middle,
        }
    }
    low
}

// How many of the sizes reach a bar.
fn count_from(z: &[u64], height: u64) -> usize
    ensures { result ≡ level (size_at z.now) height (places (length z.now)) }
{
    z.iter().filter(|size| height <= **size).count()
}

// The largest of the sizes, or 0.
fn largest(z: &[u64]) -> u64
    requires { (k : ℕ) → k < length z.now → size_at z.now k ≤ 6000 * 2 ^ 50 }
    ensures { ((k : ℕ) → k < length z.now → size_at z.now k ≤ result) × (result ≤ 6000 * 2 ^ 50) }
{
    let mut most = 0;
    for size in z {
        most = most.max(*size);
    }
    most
}

// The sizes of the first rows.
fn sizes(s: &[i64], weights: &[u64; 6], z: &mut [u64])
    requires { (length z.old * 6 ≤ length s.now) × Small (2 ^ 50) s.now × Under 1000 weights.now }
    ensures { ((k : ℕ) → k < length z.old → size_at z.new k ≡ size weights.now (number_row s.now k))
        × ((k : ℕ) → k < length z.old → size_at z.new k ≤ 6000 * 2 ^ 50) }
{
    for (k, size) in z.iter_mut().enumerate() {
        *size = fold::row_size(rows::number_row(s, k), weights);
    }
}
