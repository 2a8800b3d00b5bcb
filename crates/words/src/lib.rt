// Numbers in bytes, the least byte first: one at a position, as many as a slice has places, and tests of some in a row.
#![tactic(auto)]

ghost use Rattle.std.specs.Prelude.{◌≡◌, map, ◌||◌, ◌+◌, ◌*◌, ◌≤◌, ◌<◌, ltb, length, nat_abs};
ghost use Rattle.whole.specs.Tab.{tab, any};
ghost use Rattle.model.specs.Bytes.{byte, number, word, long, words};
ghost use Rattle.model.specs.Field.{negative, beyond};
ghost use Rattle.words.specs.Filling.{Callable, Gives};

// ---- one number
// The byte at a position.
pub fn byte_at(b: &[u8], i: usize) -> usize
    requires { i < length b.now }
    ensures { (result ≡ byte b.now i) × (result < 256) }
{
    usize::from(b[i])
}

// An unsigned number of 2 bytes.
#[tactic(auto, using(crate::specs::Number::two_bytes))]
pub fn short_at(b: &[u8], i: usize) -> usize
    requires { i + 2 ≤ length b.now }
    ensures { (result ≡ number 2 b.now i) × (result < 65536) }
{
    usize::from(u16::from_le_bytes([b[i], b[i + 1]]))
}

// An unsigned number of 4 bytes.
#[tactic(auto, using(crate::specs::Number::four_bytes))]
pub fn unsigned_at(b: &[u8], i: usize) -> u32
    requires { i + 4 ≤ length b.now }
    ensures { result ≡ number 4 b.now i }
{
    u32::from_le_bytes([b[i], b[i + 1], b[i + 2], b[i + 3]])
}

// A signed number of 4 bytes.
#[tactic(auto, using(crate::specs::Number::signed_32), unfolding(model::specs::Bytes::word))]
pub fn word_at(b: &[u8], i: usize) -> i32
    requires { i + 4 ≤ length b.now }
    ensures { result ≡ word b.now i }
{
    unsigned_at(b, i).cast_signed()
}

// The size of a signed number of 4 bytes.
pub fn size_at(b: &[u8], i: usize) -> u32
    requires { i + 4 ≤ length b.now }
    ensures { result ≡ nat_abs (word b.now i) }
{
    word_at(b, i).unsigned_abs()
}

// A signed number of 8 bytes.
#[tactic(auto, using(crate::specs::Number::signed_64, crate::specs::Number::eight_bytes), unfolding(model::specs::Bytes::long))]
pub fn long_at(b: &[u8], i: usize) -> i64
    requires { i + 8 ≤ length b.now }
    ensures { result ≡ long b.now i }
{
    u64::from_le_bytes([
        b[i],
        b[i + 1],
        b[i + 2],
        b[i + 3],
        b[i + 4],
        b[i + 5],
        b[i + 6],
        b[i + 7],
    ])
    .cast_signed()
}

// ---- numbers one after the other
// Writes into each place of `out` what `read` gives for it.
pub fn fill<T: Copy, F: Fn(usize) -> T>(out: &mut [T], read: F)
    requires { Callable (F.pre read) (length out.old) }
    ensures { (f : _) → Gives (F.post read) (length out.old) f → out.new ≡ tab (length out.old) f }
{
    for (k, place) in out.iter_mut().enumerate() {
        *place = read(k);
    }
}

// As many words as `out` holds.
pub fn read_words(b: &[u8], i: usize, out: &mut [i32])
    requires { i + 4 * length out.old ≤ length b.now }
    ensures { out.new ≡ words b.now i (length out.old) }
{
    fill(out, |k| word_at(b, i + 4 * k));
}

// The sizes of as many words as `out` holds.
pub fn read_sizes(b: &[u8], i: usize, out: &mut [u32])
    requires { i + 4 * length out.old ≤ length b.now }
    ensures { out.new ≡ map nat_abs (words b.now i (length out.old)) }
{
    fill(out, |k| size_at(b, i + 4 * k));
}

// ---- tests
// Whether one of n words is negative or greater than the limit.
pub fn any_outside(b: &[u8], i: usize, n: usize, limit: u64) -> bool
    requires { i + 4 * n ≤ length b.now }
    ensures { result ≡ any (λ z. negative z || beyond limit z) (words b.now i n) }
{
    (0..n).any(|k| outside(word_at(b, i + 4 * k), limit))
}

// Whether one of n words is negative.
pub fn any_negative(b: &[u8], i: usize, n: usize) -> bool
    requires { i + 4 * n ≤ length b.now }
    ensures { result ≡ any negative (words b.now i n) }
{
    (0..n).any(|k| word_at(b, i + 4 * k) < 0)
}

// Whether one of n unsigned numbers of 4 bytes is greater than the limit.
pub fn any_above(b: &[u8], i: usize, n: usize, limit: u32) -> bool
    requires { i + 4 * n ≤ length b.now }
    ensures { result ≡ any (ltb limit) (tab n (λ k. number 4 b.now (i + 4 * k))) }
{
    (0..n).any(|k| limit < unsigned_at(b, i + 4 * k))
}

// Whether z is negative or greater than the limit.
fn outside(z: i32, limit: u64) -> bool
    ensures { result ≡ negative z || beyond limit z }
{
    z < 0 || limit < u64::from(z.unsigned_abs())
}
