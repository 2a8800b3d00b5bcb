// The test of entries with their half-widths.
ghost use Rattle.std.specs.Prelude.{◌≡◌, ◌≤◌, length};
ghost use Rattle.model.specs.Field.{beyond_with};

// Document 01's limit of the size of an entry of A or Q, also with its half-width.
pub const MAX_ENTRY: u64 = 32768;

// 6: whether some entry and its half-width are too large together.
pub fn entries_beyond(entries: &[i32], widths: &[u32]) -> bool
    requires { length entries.now ≤ length widths.now }
    ensures { result ≡ beyond_with entries.now widths.now }
{
    entries.iter().zip(widths).any(|(x, w)| MAX_ENTRY < u64::from(x.unsigned_abs()) + u64::from(*w))
}
