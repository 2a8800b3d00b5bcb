// The pieces of a line: bytes and decimal numbers, put into a lent slice one after the other.
// Each function writes from the place `at` on and answers the place after its piece.
ghost use Rattle.std.specs.Prelude.{◌≡◌, [], ◌∷◌, List, ℕ, map, ◌+◌, ◌*◌, ◌≤◌, length};
ghost use Rattle.model.specs.Text.{decimal, signed_decimal, following, verdict_word, ends};
ghost use Rattle.text.specs.Appended.{Appended};
ghost use Rattle.text.specs.Pieces.{after_space, spaced};

use itoa::Buffer;

// A number that lines hold in decimal.
pub trait Number {
    // Its digits, after a minus sign where it is negative.
    ghost decimal: { Self → List ℕ };

    // These, in the buffer.
    fn format(self, buffer: &mut Buffer) -> &[u8]
        ensures digits { result.now ≡ decimal self }
        ensures short { length result.now ≤ 20 };
}

impl Number for u64 {
    ghost decimal = { decimal };

    #[tactic(auto, using(crate::proofs::Digits::same_digits))]
    fn format(self, buffer: &mut Buffer) -> &[u8] {
        buffer.format(self).as_bytes()
    }
}

impl Number for i64 {
    ghost decimal = { signed_decimal };

    #[tactic(auto, using(crate::proofs::Digits::same_signed_digits))]
    fn format(self, buffer: &mut Buffer) -> &[u8] {
        buffer.format(self).as_bytes()
    }
}

// These bytes.
pub fn append(out: &mut [u8], at: usize, piece: &[u8]) -> usize
    requires { at + length piece.now ≤ length out.old }
    ensures { Appended (length piece.now) out.old out.new at result piece.now }
{
    let end = at + piece.len();
    out[at..end].copy_from_slice(piece);
    end
}

// The number n.
pub fn append_number<N: Number>(out: &mut [u8], at: usize, n: N) -> usize
    requires { at + 20 ≤ length out.old }
    ensures { Appended 20 out.old out.new at result (N.decimal n) }
{
    append(out, at, n.format(&mut Buffer::new()))
}

// A space and the number n.
pub fn append_item<N: Number>(out: &mut [u8], at: usize, n: N) -> usize
    requires { at + 21 ≤ length out.old }
    ensures { Appended 21 out.old out.new at result (after_space (N.decimal n)) }
{
    let next = append(out, at, b" ");
    append_number(out, next, n)
}

// A space, the verdict and the end of the line.
pub fn append_verdict(out: &mut [u8], at: usize, safe: bool) -> usize
    requires { at + 9 ≤ length out.old }
    ensures { Appended 9 out.old out.new at result (following (verdict_word safe ∷ [])) }
{
    if safe {
        append(out, at, b" safe\n")
    } else {
        append(out, at, b" unknown\n")
    }
}

// The low and the high end of each coordinate, each after a space.
pub fn append_ends(out: &mut [u8], at: usize, lows: &[i64], highs: &[i64]) -> usize
    requires same { length highs.now ≡ length lows.now }
    requires room { at + 42 * length lows.now ≤ length out.old }
    ensures { Appended (42 * length lows.now) out.old out.new at result (spaced (ends lows.now highs.now)) }
{
    let mut next = at;
    for (low, high) in lows.iter().zip(highs) {
        next = append_item(out, next, *low);
        next = append_item(out, next, *high);
    }
    next
}

// Numbers, each after a space.
pub fn append_items(out: &mut [u8], at: usize, numbers: &[u64]) -> usize
    requires { at + 21 * length numbers.now ≤ length out.old }
    ensures { Appended (21 * length numbers.now) out.old out.new at result (spaced (map decimal numbers.now)) }
{
    let mut next = at;
    for number in numbers {
        next = append_item(out, next, *number);
    }
    next
}
