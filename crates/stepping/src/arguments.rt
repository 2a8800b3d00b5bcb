// The tests of a step's own numbers and of its half-widths, in their order.
ghost use Rattle.std.specs.Prelude.{◌≡◌, ◌||◌, ◌*◌, ◌≤◌};
ghost use Rattle.model.specs.Field.{differs};
ghost use Rattle.model.specs.Run.{first_of};
ghost use Rattle.model.specs.Library.{of_step, of_ranged_step};
ghost use Rattle.zonotope.specs.Answer.{examined};
ghost use Rattle.image.specs.StepAccepted.{step_of};
ghost use Rattle.widths.specs.Widths.{widths_of};
ghost use Rattle.stepping.specs.Arguments.{of_shape, of_numbers};

use zonotope::Cause;

// Document 01's limits: of the size of a constant, and of an entry of A or Q.
const MAX_CONSTANT: u64 = 1048576;

const MAX_ENTRY: u64 = widths::entries::MAX_ENTRY;

// The first cause that refuses a step's own numbers.
pub fn of_step(
    dimension: usize,
    m: usize,
    n: usize,
    c: &[i32],
    a: &[i32],
    q: &[i32],
) -> Result<(), Cause>
    ensures { result ≡ examined (first_of (of_step (step_of m n c.now a.now q.now) dimension)) }
{
    of_shape(m, n, c, a, q)?;
    of_numbers(dimension, n, c, a, q)
}

// The same with half-widths beside the entries of A and Q.
pub fn of_ranged_step(
    dimension: usize,
    m: usize,
    n: usize,
    c: &[i32],
    a: &[i32],
    q: &[i32],
    da: &[u32],
    dq: &[u32],
) -> Result<(), Cause>
    ensures { result ≡ examined (first_of (of_ranged_step (step_of m n c.now a.now q.now)
        (widths_of da.now dq.now) dimension)) }
{
    of_shape(m, n, c, a, q)?;
    if lengths_differ(m, n, da.len(), dq.len()) {
        return Err(Cause::Length);
    }
    of_numbers(dimension, n, c, a, q)?;
    if widths::entries::entries_beyond(a, da) | widths::entries::entries_beyond(q, dq) {
        return Err(Cause::Range);
    }
    Ok(())
}

// The counts and the lengths of the lists: 4, 3.
fn of_shape(m: usize, n: usize, c: &[i32], a: &[i32], q: &[i32]) -> Result<(), Cause>
    ensures { result ≡ examined (first_of (of_shape (step_of m n c.now a.now q.now))) }
{
    if zonotope::arguments::bad_dimension(m) | zonotope::arguments::bad_dimension(n) {
        return Err(Cause::Count);
    }
    if (c.len() != m) | lengths_differ(m, n, a.len(), q.len()) {
        return Err(Cause::Length);
    }
    Ok(())
}

// The set's dimension and the entries: 5, 6.
fn of_numbers(dimension: usize, n: usize, c: &[i32], a: &[i32], q: &[i32]) -> Result<(), Cause>
    ensures { result ≡ examined (first_of (of_numbers n c.now a.now q.now dimension)) }
{
    if n != dimension {
        return Err(Cause::Dimension);
    }
    if zonotope::arguments::entries_beyond(c, MAX_CONSTANT)
        | zonotope::arguments::entries_beyond(a, MAX_ENTRY)
        | zonotope::arguments::entries_beyond(q, MAX_ENTRY)
    {
        return Err(Cause::Range);
    }
    Ok(())
}

// 3: whether A's or Q's list, or that of their half-widths, hasn't the length that the counts give.
fn lengths_differ(m: usize, n: usize, linears: usize, quadratics: usize) -> bool
    requires { (m ≤ 6) × (n ≤ 6) }
    ensures { result ≡ (differs linears (m * n) || differs quadratics (m * n * n)) }
{
    (linears != m * n) | (quadratics != m * n * n)
}
