// Which terms have an exponent that is too large.
ghost use Rattle.std.specs.Prelude.{◌≡◌, List, ℕ, ◌+◌, ◌*◌, ◌≤◌, ◌<◌, length, get_or, ℤ};
ghost use Rattle.whole.specs.Tab.{any};
ghost use Rattle.model.specs.Finish.{too_high};
ghost use Rattle.rows.specs.Rows.{exponent_row, terms, Places};
ghost use Rattle.fold.specs.Marks.{at};
ghost use Rattle.select.specs.Stage.{high};

// Whether one of the terms has an exponent that is too large.
pub fn any_high(e: &[u8], heads: &[u16]) -> bool
    requires { Places e.now heads.now }
    ensures { (s : List ℤ) → result ≡ any too_high (terms e.now heads.now s (length heads.now)) }
{
    for x in heads {
        if fold::is_high(e, usize::from(*x)) {
            return true;
        }
    }
    false
}

// The marks of those of the first terms that have such an exponent.
pub fn mark_high(e: &[u8], heads: &[u16], gone: &mut [bool])
    requires { (length gone.old ≤ length heads.now) × Places e.now heads.now }
    ensures { (k : ℕ) → k < length gone.old → at gone.new k ≡ high (exponent_row e.now (get_or heads.now k 0)) }
{
    for (k, gone) in gone.iter_mut().enumerate() {
        *gone = fold::is_high(e, usize::from(heads[k]));
    }
}
