// The work slices cleared: as many first places as a step may have used.
ghost use Rattle.std.specs.Prelude.{◌≡◌, ◌++◌, ◌≤◌, pos, length, drop, replicate};
ghost use Rattle.stepping.specs.Work.{work_numbers, work_exponents};

// The first 5,160 numbers are made 0.
pub fn clear_numbers(w: &mut [i64])
    requires { work_numbers ≤ length w.old }
    ensures { w.new ≡ replicate work_numbers (pos 0) ++ drop work_numbers w.old }
{
    w[..crate::WORK_NUMBERS].fill(0);
}

// The first 10,320 exponents are made 0.
pub fn clear_exponents(e: &mut [u8])
    requires { work_exponents ≤ length e.old }
    ensures { e.new ≡ replicate work_exponents 0 ++ drop work_exponents e.old }
{
    e[..crate::WORK_EXPONENTS].fill(0);
}
