// What the body of each kind of field says, read from its bytes. A body's counts are asked first, then its length; the other functions
// require that both passed.
#![tactic(auto)]

ghost use Rattle.std.specs.Prelude.{◌≡◌, false, ◌||◌, ◌≤◌, ltb, length};
ghost use Rattle.whole.specs.Tab.{any};
ghost use Rattle.model.specs.Limits.{file_identifiers, max_disturbance};
ghost use Rattle.model.specs.Body.{set_length, radius_words, given_set, step_length, given_step};
ghost use Rattle.model.specs.Body.{ranged_length, given_widths};
ghost use Rattle.model.specs.Body.{dimension, disturbance_words, given_radii};
ghost use Rattle.model.specs.Field.{bad_dimension, all_zero, negative, negative_width, beyond};
ghost use Rattle.zonotope.specs.Record.{pack};
ghost use Rattle.bodies.specs.Set.{set_counts_out, SetBody};
ghost use Rattle.bodies.specs.Fields.{step_counts_out, StepBody, WidthsBody, radii_length, limits_out};
ghost use Rattle.bodies.specs.Fields.{region_counts_out, region_length, RegionBody, given_normals, given_bounds};

mod counts;
mod record;

use crate::counts::{SetCounts, StepCounts};
use zonotope::{PolyZonotope, arguments};

// The largest identifier of a set, the largest radius of a disturbance, and the most halfspaces of a check.
const MAX_FILE_IDENTIFIER: u32 = 65535;

const MAX_DISTURBANCE: u64 = 1048576;

const MAX_HALFSPACES: usize = 8;

// ---- a set
// 4: whether a count of a set is out of limits.
pub fn set_counts_out(b: &[u8]) -> bool
    requires { 4 ≤ length b.now }
    ensures { result ≡ set_counts_out b.now }
{
    SetCounts::of(b).out_of_limits()
}

// The length of a set's body.
pub fn set_length(b: &[u8]) -> usize
    requires { (4 ≤ length b.now) × (set_counts_out b.now ≡ false) }
    ensures { result ≡ set_length b.now }
{
    let k = SetCounts::of(b);
    k.radii_from() + 4 * k.dimension
}

// The set.
pub fn set(b: &[u8]) -> PolyZonotope
    requires { SetBody b.now }
    ensures { result ≡ pack (given_set b.now) }
{
    record::filled(b, SetCounts::of(b))
}

// 6: whether a radius of a set is negative.
pub fn negative_radius(b: &[u8]) -> bool
    requires { SetBody b.now }
    ensures { result ≡ any negative (radius_words b.now) }
{
    let k = SetCounts::of(b);
    words::any_negative(b, k.radii_from(), k.dimension)
}

// 6: whether an identifier of a set is too large for a file.
#[tactic(auto, unfolding(model::specs::Body::given_set))]
pub fn large_identifier(b: &[u8]) -> bool
    requires { SetBody b.now }
    ensures { result ≡ any (ltb file_identifiers) (given_set b.now).identifiers }
{
    let k = SetCounts::of(b);
    words::any_above(b, 4, k.factors, MAX_FILE_IDENTIFIER)
}

// ---- a step
// 4: whether a count of a step is out of limits.
pub fn step_counts_out(b: &[u8]) -> bool
    requires { 2 ≤ length b.now }
    ensures { result ≡ step_counts_out b.now }
{
    let k = StepCounts::of(b);
    arguments::bad_dimension(k.rows) || arguments::bad_dimension(k.columns)
}

// The length of a step's body.
pub fn step_length(b: &[u8]) -> usize
    requires { 2 ≤ length b.now }
    ensures { result ≡ step_length b.now }
{
    StepCounts::of(b).length()
}

// The entries of a step.
#[tactic(auto, unfolding(model::specs::Body::given_step))]
pub fn step(b: &[u8], c: &mut [i32], a: &mut [i32], q: &mut [i32])
    requires { StepBody b.now (length c.old) (length a.old) (length q.old) }
    ensures { (c.new ≡ (given_step b.now).constant) × (a.new ≡ (given_step b.now).linear)
        × (q.new ≡ (given_step b.now).quadratic) }
{
    let linear_from = 2 + 4 * c.len();
    let quadratic_from = linear_from + 4 * a.len();
    words::read_words(b, 2, c);
    words::read_words(b, linear_from, a);
    words::read_words(b, quadratic_from, q);
}

// ---- a ranged step: a step, then the half-widths of A's entries and of Q's
// The length of a ranged step's body.
pub fn ranged_length(b: &[u8]) -> usize
    requires { 2 ≤ length b.now }
    ensures { result ≡ ranged_length b.now }
{
    let k = StepCounts::of(b);
    k.length() + 4 * k.linear() + 4 * k.quadratic()
}

// The sizes of its half-widths.
#[tactic(auto, unfolding(model::specs::Body::given_widths))]
pub fn widths(b: &[u8], da: &mut [u32], dq: &mut [u32])
    requires { WidthsBody b.now (length da.old) (length dq.old) }
    ensures { (da.new ≡ (given_widths b.now).linear)
        × (dq.new ≡ (given_widths b.now).quadratic) }
{
    let linear_from = step_length(b);
    let quadratic_from = linear_from + 4 * da.len();
    words::read_sizes(b, linear_from, da);
    words::read_sizes(b, quadratic_from, dq);
}

// 6: whether a half-width is negative.
pub fn negative_width(b: &[u8]) -> bool
    requires { length b.now ≡ ranged_length b.now }
    ensures { result ≡ negative_width b.now }
{
    let k = StepCounts::of(b);
    let linear_from = k.length();
    let quadratic_from = linear_from + 4 * k.linear();
    words::any_negative(b, linear_from, k.linear())
        || words::any_negative(b, quadratic_from, k.quadratic())
}

// ---- a disturbance
// 4: whether the count of a disturbance is out of limits.
pub fn radii_counts_out(b: &[u8]) -> bool
    requires { 1 ≤ length b.now }
    ensures { result ≡ bad_dimension (dimension b.now) }
{
    arguments::bad_dimension(words::byte_at(b, 0))
}

// The length of a disturbance's body.
pub fn radii_length(b: &[u8]) -> usize
    requires { 1 ≤ length b.now }
    ensures { result ≡ radii_length b.now }
{
    1 + 4 * words::byte_at(b, 0)
}

// The sizes of the radii of a disturbance.
#[tactic(auto, unfolding(model::specs::Body::given_radii))]
pub fn radii(b: &[u8], out: &mut [u32])
    requires { (length b.now ≡ radii_length b.now) × (length out.old ≡ dimension b.now) }
    ensures { out.new ≡ given_radii b.now }
{
    words::read_sizes(b, 1, out);
}

// 6: whether a radius of a disturbance is negative or too large.
pub fn radii_out(b: &[u8]) -> bool
    requires { length b.now ≡ radii_length b.now }
    ensures { result ≡ any (λ z. negative z || beyond max_disturbance z) (disturbance_words b.now) }
{
    let n = words::byte_at(b, 0);
    words::any_outside(b, 1, n, MAX_DISTURBANCE)
}

// 14: whether the radii of a disturbance are all zero.
pub fn radii_empty(b: &[u8]) -> bool
    requires { length b.now ≡ radii_length b.now }
    ensures { result ≡ all_zero (given_radii b.now) }
{
    let n = words::byte_at(b, 0);
    !words::any_outside(b, 1, n, 0)
}

// ---- a reduction
// 4: whether a limit of a reduction is larger than a set's.
pub fn limits_out(b: &[u8]) -> bool
    requires { 2 ≤ length b.now }
    ensures { result ≡ limits_out b.now }
{
    zonotope::MAX_TERMS < words::byte_at(b, 0) || zonotope::MAX_GENERATORS < words::byte_at(b, 1)
}

// ---- a check
// 4: whether a count of a check is out of limits.
pub fn region_counts_out(b: &[u8]) -> bool
    requires { 2 ≤ length b.now }
    ensures { result ≡ region_counts_out b.now }
{
    let n = words::byte_at(b, 0);
    let count = words::byte_at(b, 1);
    arguments::bad_dimension(n) || count == 0 || MAX_HALFSPACES < count
}

// The length of a check's body.
pub fn region_length(b: &[u8]) -> usize
    requires { 2 ≤ length b.now }
    ensures { result ≡ region_length b.now }
{
    let n = words::byte_at(b, 0);
    let count = words::byte_at(b, 1);
    2 + count * (4 * n + 8)
}

// The normals and bounds of a check.
#[tactic(auto, unfolding(crate::specs::Fields::given_normals, crate::specs::Fields::given_bounds))]
pub fn region(b: &[u8], normals: &mut [i32], bounds: &mut [i64])
    requires { RegionBody b.now (length normals.old) (length bounds.old) }
    ensures { (normals.new ≡ given_normals b.now) × (bounds.new ≡ given_bounds b.now) }
{
    let n = words::byte_at(b, 0);
    let halfspace = 4 * n + 8;
    words::fill(
        normals,
        |x| words::word_at(b, 2 + x / n * halfspace + 4 * (x % n)),
    );
    words::fill(bounds, |k| words::long_at(b, 2 + k * halfspace + 4 * n));
}
