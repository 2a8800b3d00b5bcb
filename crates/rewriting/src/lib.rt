// What the program `rewrite` leaves of an input that comes in pieces: each byte goes on at once, but for those of a field that may still
// turn out to be an empty disturbance, of which at most 28 are held. A part of `rewrite`: what is held is what `begin` gives and `give`
// leaves. However an input is cut, what the calls hand over is what is left of it (specs/Pieces.antt).
#![tactic(auto)]

ghost use Rattle.std.specs.Prelude.{◌≡◌, true, ◌+◌, ◌-◌, ◌≤◌, ◌<◌, length};
ghost use Rattle.model.specs.Run.{field_length};
ghost use Rattle.model.specs.Rewrite.{empty_disturbance};
ghost use Rattle.text.specs.Appended.{Appended};
ghost use Rattle.rewriting.specs.Given.{held_bytes, starting, with_byte, with_bytes, undecided, still_open, zero_radii, byte_joined, many_bytes};
ghost use Rattle.rewriting.specs.Reached.{Reached};
ghost use Rattle.rewriting.specs.Done.{Done, Turned};

// A field's tag and length.
const HEADER: usize = 3;

// The tag of a disturbance.
const DISTURBANCE: u8 = 3;

// The longest body of an empty disturbance: n and six radii.
const LONGEST_BODY: usize = 25;

// What is held between pieces: the first `count` bytes, of a field that isn't decided yet; and how many bytes of a field that stays are
// still to come.
#[derive(Clone, Copy)]
pub struct Held {
    bytes: [u8; 28],
    count: usize,
    left: usize,
}

impl Held {
    // The bytes of the field that isn't decided yet.
    fn bytes(&self) -> &[u8]
        requires { self.now.count ≤ length self.now.bytes }
        ensures { result.now ≡ held_bytes self.now }
    {
        &self.bytes[..self.count]
    }
}

// What is held after some bytes, and up to where the lent slice is written.
#[derive(Drop)]
pub struct Given {
    pub held: Held,
    pub written: usize,
}

// The same, with how many bytes were taken.
#[derive(Drop)]
struct Taken {
    held: Held,
    used: usize,
    written: usize,
}

// Before the first byte.
pub fn begin() -> Held
    ensures { result ≡ starting }
{
    Held {
        bytes: [0; 28],
        count: 0,
        left: 0,
    }
}

// Takes a piece: what is known to be left of the input is written from the start of the lent slice on.
pub fn give(h: Held, piece: &[u8], out: &mut [u8]) -> Given
    requires { Reached h × (length piece.now + 28 ≤ length out.old) }
    ensures { Done (h.count + length piece.now) (many_bytes h piece.now) out.old
        out.new 0 result }
{
    let mut held = h;
    let mut used = 0;
    let mut written = 0;
    while used < piece.len() {
        let t = turn(held, &piece[used..], out, written);
        held = t.held;
        used += t.used;
        written = t.written;
    }
    Given { held, written }
}

// Writes, at the end of the input, the bytes of the field in which it ended.
pub fn close(h: Held, out: &mut [u8]) -> usize
    requires { Reached h × (28 ≤ length out.old) }
    ensures { Appended 28 out.old out.new 0 result (held_bytes h) }
{
    text::appending::append(out, 0, h.bytes())
}

// Takes a byte or more of what is left of a piece, where the lent slice is written up to `at`: all that came of a field that stays, or
// bytes that are held, of which only the last can decide their field.
fn turn(h: Held, rest: &[u8], out: &mut [u8], at: usize) -> Taken
    requires { Reached h × (0 < length rest.now) × (at + (h.count + length rest.now) ≤ length out.old) }
    ensures { Turned h rest.now out.old out.new at result }
{
    if h.left > 0 {
        return copy(h, rest, out, at);
    }
    let n = still_open(h.bytes()).min(rest.len() - 1);
    let g = join(gather(h, &rest[..n]), rest[n], out, at);
    Taken {
        held: g.held,
        used: n + 1,
        written: g.written,
    }
}

// Copies what came of a field that stays.
fn copy(h: Held, rest: &[u8], out: &mut [u8], at: usize) -> Taken
    requires { Reached h × (0 < h.left) × (0 < length rest.now) × (at + length rest.now ≤ length out.old) }
    ensures { Turned h rest.now out.old out.new at result }
{
    let n = h.left.min(rest.len());
    let written = text::appending::append(out, at, &rest[..n]);
    Taken {
        held: Held {
            left: h.left - n,
            ..h
        },
        used: n,
        written,
    }
}

// With bytes more.
fn gather(h: Held, more: &[u8]) -> Held
    requires { h.count + length more.now ≤ 28 }
    ensures { result ≡ with_bytes h more.now }
{
    let end = h.count + more.len();
    let mut held = h;
    held.bytes[h.count..end].copy_from_slice(more);
    held.count = end;
    held
}

// One byte more is held; where that decides its field, the held bytes are dropped or written.
fn join(h: Held, b: u8, out: &mut [u8], at: usize) -> Given
    requires { Reached h × (h.left ≡ 0) × (at + (h.count + 1) ≤ length out.old) }
    ensures { Done (h.count + 1) (byte_joined h b) out.old out.new at result }
{
    let held = with_byte(h, b);
    if is_open(held.bytes()) {
        return Given { held, written: at };
    }
    if is_empty(held.bytes()) {
        return Given {
            held: Held {
                count: 0,
                left: 0,
                ..held
            },
            written: at,
        };
    }
    let left = missing(held.bytes());
    let written = text::appending::append(out, at, held.bytes());
    Given {
        held: Held {
            count: 0,
            left,
            ..held
        },
        written,
    }
}

// With one byte more.
fn with_byte(h: Held, b: u8) -> Held
    requires { h.count < 28 }
    ensures { result ≡ with_byte h b }
{
    let mut held = h;
    held.bytes[h.count] = b;
    held.count += 1;
    held
}

// Whether the bytes of a field's start may still become an empty disturbance.
fn is_open(f: &[u8]) -> bool
    ensures { result ≡ undecided f.now }
{
    if f.len() < HEADER {
        return true;
    }
    if f[0] != DISTURBANCE {
        return false;
    }
    let n = words::short_at(f, 1);
    (n <= LONGEST_BODY) & (f.len() < HEADER + n)
}

// How many bytes more can't decide the field: all but the last of its header or, after that, of the field.
fn still_open(f: &[u8]) -> usize
    requires { undecided f.now ≡ true }
    ensures { result ≡ still_open f.now }
{
    if f.len() < HEADER {
        return HEADER - 1 - f.len();
    }
    missing(f) - 1
}

// Whether a field is an empty disturbance.
fn is_empty(f: &[u8]) -> bool
    ensures { result ≡ empty_disturbance f.now }
{
    if f.len() < HEADER {
        return false;
    }
    let n = words::short_at(f, 1);
    let end = HEADER + n;
    if f.len() < end {
        return false;
    }
    if f[0] != DISTURBANCE {
        return false;
    }
    no_radii(&f[HEADER..end])
}

// Whether a body is n, from 1 to 6, and n radii of 0.
fn no_radii(body: &[u8]) -> bool
    ensures { result ≡ zero_radii body.now }
{
    if body.len() == 0 {
        return false;
    }
    if bodies::radii_counts_out(body) {
        return false;
    }
    if body.len() != bodies::radii_length(body) {
        return false;
    }
    bodies::radii_empty(body)
}

// How many bytes of a field are still to come, by its header.
fn missing(f: &[u8]) -> usize
    requires { (3 ≤ length f.now) × (length f.now ≤ field_length f.now) }
    ensures { result ≡ field_length f.now - length f.now }
{
    HEADER + words::short_at(f, 1) - f.len()
}
