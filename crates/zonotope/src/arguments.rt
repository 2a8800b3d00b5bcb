// Tests of what a call is given beside a set.
ghost use Rattle.std.specs.Prelude.{◌≡◌};
ghost use Rattle.whole.specs.Tab.{any};
ghost use Rattle.model.specs.Field.{bad_dimension, beyond};

// 4: whether there can't be n coordinates.
pub fn bad_dimension(n: usize) -> bool
    ensures { result ≡ bad_dimension n }
{
    (n == 0) | (crate::MAX_DIMENSION < n)
}

// 6: whether the size of some entry exceeds the limit.
pub fn entries_beyond(xs: &[i32], limit: u64) -> bool
    ensures { result ≡ any (beyond limit) xs.now }
{
    xs.iter().any(|x| limit < u64::from(x.unsigned_abs()))
}
