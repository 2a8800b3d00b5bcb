// The lines that a run prints, each written into a lent slice from the place `at` on. The slice has room for the longest line, for the
// last two lines for the longest of their kind; the answer is the place after the line.
#![tactic(auto)]

ghost use Rattle.std.specs.Prelude.{◌++◌, ◌+◌, ◌≤◌, length};
ghost use Rattle.model.specs.Text.{box_line, verdict_line, refusal_line, folded_line, end_line};
ghost use Rattle.text.specs.Appended.{Appended};
ghost use Rattle.text.specs.Pieces.{firsts};
ghost use Rattle.text.specs.Lines.{longest_line, longest_folded_line, longest_end_line};

pub mod appending;

use appending::{append, append_ends, append_item, append_items, append_number, append_verdict};

// No line is longer.
pub const LONGEST_LINE: usize = 320;

// The line of an accepted field that leaves a set: the ends of the first n coordinates of its box.
pub fn box_line(
    out: &mut [u8],
    at: usize,
    field: usize,
    tag: u8,
    n: usize,
    low: &[i64; 6],
    high: &[i64; 6],
) -> usize
    requires { (n ≤ 6) × (at + longest_line ≤ length out.old) }
    ensures { Appended longest_line out.old out.new at result
        (box_line field tag (firsts n low.now) (firsts n high.now)) }
{
    let at = append_number(out, at, field as u64);
    let at = append_item(out, at, u64::from(tag));
    let at = append_ends(out, at, &low[..n], &high[..n]);
    append(out, at, b"\n")
}

// The line of an accepted check.
pub fn verdict_line(out: &mut [u8], at: usize, field: usize, tag: u8, safe: bool) -> usize
    requires { at + longest_line ≤ length out.old }
    ensures { Appended longest_line out.old out.new at result (verdict_line field tag safe) }
{
    let at = append_number(out, at, field as u64);
    let at = append_item(out, at, u64::from(tag));
    append_verdict(out, at, safe)
}

// The line of a refused field whose first byte is at `place`.
pub fn refusal_line(out: &mut [u8], at: usize, field: usize, number: u8, place: usize) -> usize
    requires { at + longest_line ≤ length out.old }
    ensures { Appended longest_line out.old out.new at result (refusal_line field number place) }
{
    let at = append_number(out, at, field as u64);
    let at = append(out, at, b" refused");
    let at = append_item(out, at, u64::from(number));
    let at = append_item(out, at, place as u64);
    append(out, at, b"\n")
}

// The line before the last: for each coordinate what folding added to its radius.
pub fn folded_line(out: &mut [u8], at: usize, totals: &[u64; 6]) -> usize
    requires { at + longest_folded_line ≤ length out.old }
    ensures { Appended longest_folded_line out.old out.new at result (folded_line totals.now) }
{
    let at = append(out, at, b"folded");
    let at = append_items(out, at, totals);
    append(out, at, b"\n")
}

// The last line of a run in which no field was refused: the number of the last one.
pub fn end_line(out: &mut [u8], at: usize, field: usize) -> usize
    requires { at + longest_end_line ≤ length out.old }
    ensures { Appended longest_end_line out.old out.new at result (end_line field) }
{
    let at = append(out, at, b"end");
    let at = append_item(out, at, field as u64);
    append(out, at, b"\n")
}

// The two lines that close a run in which no field was refused; together they are no longer than a longest line.
pub fn closing_lines(out: &mut [u8], at: usize, totals: &[u64; 6], field: usize) -> usize
    requires { at + longest_line ≤ length out.old }
    ensures { Appended longest_line out.old out.new at result
        (folded_line totals.now ++ end_line field) }
{
    let at = folded_line(out, at, totals);
    end_line(out, at, field)
}
