// A program that reads its input into a buffer, has a machine take the fields that are whole, and writes their text: what it knows between
// turns, and that it comes to its end. A part of `motion` and `laser`. Definitions in specs/, laws in proofs/; of the code only what moves the
// bytes that are left.
#![tactic(auto)]

ghost use Rattle.std.specs.Prelude.{◌≡◌, ◌-◌, ◌≤◌, length, take, drop};

// Moves the bytes from `from` up to `to` to the start.
pub fn shift(buf: &mut [u8], from: usize, to: usize)
    requires { (from ≤ to) × (to ≤ length buf.old) }
    ensures { take (to - from) buf.new ≡ drop from (take to buf.old) }
{
    buf.copy_within(from..to, 0);
}
