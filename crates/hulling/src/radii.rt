// What a hull carries on: the larger independent part of each coordinate.
ghost use Rattle.std.specs.Prelude.{◌≡◌, ◌<◌, ◌≤◌, get_or};
ghost use Rattle.whole.specs.Tab.{tab};
ghost use Rattle.hulling.specs.Radii.{larger_part, larger_parts};

use core::array;

// Of the first n coordinates, from the independent parts p and q.
pub fn larger_parts(p: &[u64; 6], q: &[u64; 6], n: usize) -> [u64; 6]
    requires { n ≤ 6 }
    ensures { result ≡ larger_parts n p.now q.now }
{
    array::from_fn(|i| larger_part(p, q, n, i))
}

// Of coordinate i, 0 past the first n.
fn larger_part(p: &[u64; 6], q: &[u64; 6], n: usize, i: usize) -> u64
    requires { i < 6 }
    ensures { result ≡ get_or (tab n (larger_part p.now q.now)) i 0 }
{
    if i < n { p[i].max(q[i]) } else { 0 }
}
