// The span of a set whose terms and generators are held in rows.
ghost use Rattle.std.specs.Prelude.{◌≡◌, List, ℕ, ◌+◌, ◌*◌, ◌^◌, ◌≤◌, ◌<◌, length};
ghost use Rattle.model.specs.Valid.{is_too_wide};
ghost use Rattle.rows.specs.Rows.{Small};
ghost use Rattle.model.specs.Set.{radius_of, with_folded};
ghost use Rattle.zonotope.specs.Record.{wide_parts_of};
ghost use Rattle.fold.specs.Folding.{Under};
ghost use Rattle.finish.specs.Held.{held_by, PartsUnder, RowsLong};
ghost use Rattle.finish.specs.Spans.{column_size, held_span};

use zonotope::WideRadii;

// The largest span of a coordinate.
const SPAN_LIMIT: u64 = zonotope::MAX_SPAN;

// Whether the span of one of the set's coordinates is too wide.
pub fn too_wide(u: super::Unfinished, k: super::Reduced, s: &[i64], g: &[i64]) -> bool
    requires { (u.dimension ≤ 6) × PartsUnder (2 ^ 40) u.radii × RowsLong k s.now g.now }
    ensures { (e heads : List ℕ) → result ≡ is_too_wide (held_by u k e heads s.now g.now) }
{
    (0..u.dimension).any(|i| span_at(u.radii, k, s, g, i) > SPAN_LIMIT)
}

// The span of coordinate i.
fn span_at(parts: WideRadii, k: super::Reduced, s: &[i64], g: &[i64], i: usize) -> u64
    requires { (i < 6) × PartsUnder (2 ^ 40) parts × RowsLong k s.now g.now }
    ensures { result ≡ held_span parts k s.now g.now i }
{
    let terms = column_size(s, k.terms, i);
    let generators = column_size(g, k.generators, i);
    k.centre[i].unsigned_abs() + terms + generators + radius_at(parts, k.folded, i)
}

// The radius of coordinate i with these folded parts.
fn radius_at(parts: WideRadii, folded: [u64; 6], i: usize) -> u64
    requires { (i < 6) × PartsUnder (2 ^ 40) parts × Under (2 ^ 61) folded }
    ensures { (result ≡ radius_of (with_folded (wide_parts_of parts) folded) i) × (result ≤ 2 ^ 61 + 3 * 2 ^ 40) }
{
    parts.carried[i] + parts.rounded[i] + folded[i] + parts.given[i]
}

// The sizes at coordinate i of the first n rows together.
fn column_size(s: &[i64], n: usize, i: usize) -> u64
    requires { (n ≤ 40) × (i < 6) × (n * 6 ≤ length s.now) × Small (2 ^ 50) s.now }
    ensures { (result ≡ column_size s.now n i) × (result ≤ n * 2 ^ 50) }
{
    let mut sum = 0;
    for t in 0..n {
        sum += s[t * 6 + i].unsigned_abs();
    }
    sum
}
