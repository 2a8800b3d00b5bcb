// An unsafe region: halfspaces given by the slices of their normals and their bounds.
ghost use Rattle.std.specs.Prelude.{◌≡◌, ℕ, ◌*◌, ◌≤◌, length, get_or};
ghost use Rattle.std.specs.Int.Signed.{lt_z};
ghost use Rattle.whole.specs.Tab.{any};
ghost use Rattle.model.specs.Field.{beyond};
ghost use Rattle.model.specs.Operations.{safe};
ghost use Rattle.arrays.specs.Rows.{most_radius};
ghost use Rattle.zonotope.specs.Record.{view};
ghost use Rattle.zonotope.specs.Counts.{InLimits};
ghost use Rattle.verdicts.specs.Along.{Entries, low_by};
ghost use Rattle.verdicts.specs.Region.{halfspaces};

use crate::along;
use zonotope::{PolyZonotope, parts};

// Whether the size of some bound exceeds the limit.
pub fn bounds_beyond(xs: &[i64], limit: u64) -> bool
    ensures { result ≡ any (beyond limit) xs.now }
{
    xs.iter().any(|x| limit < x.unsigned_abs())
}

// Whether the lower end along a exceeds b.
fn is_apart(a: &[i32], b: i64, s: &PolyZonotope, radii: &[u64; 6]) -> bool
    requires { Entries a.now × (s.now.dimension ≤ length a.now) × InLimits s.now × ((i : ℕ) → get_or radii.now i 0 ≤ most_radius) }
    ensures { result ≡ lt_z b (low_by a.now s.now radii.now) }
{
    b < along::lower_end(a, s, radii)
}

// Whether the set is apart from one of the halfspaces in its n coordinates.
pub fn any_apart(s: &PolyZonotope, n: usize, normals: &[i32], bounds: &[i64]) -> bool
    requires { InLimits s.now × (s.now.dimension ≡ n) × Entries normals.now × (length normals.now ≡ length bounds.now * n) }
    ensures { result ≡ safe (halfspaces n (length bounds.now) normals.now bounds.now) (view s.now) }
{
    let radii = parts::totals(s.radii);
    for (k, b) in bounds.iter().enumerate() {
        if is_apart(&normals[k * n..k * n + n], *b, s, &radii) {
            return true;
        }
    }
    false
}
