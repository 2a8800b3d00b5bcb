// The line of an answer, written into a lent slice. A part of `feeding`.
#![tactic(auto)]

ghost use Rattle.std.specs.Prelude.{◌≡◌, ◌+◌, ◌≤◌, length};
ghost use Rattle.model.specs.Run.{tag as Run·tag};
ghost use Rattle.text.specs.Appended.{Appended};
ghost use Rattle.text.specs.Lines.{longest_line};
ghost use Rattle.printing.specs.Line.{answer_line};

use states::{Answer, Outcome};

// The tag of a field; one without bytes has tag 0.
pub fn tag_of(field: &[u8]) -> u8
    ensures { result ≡ Run·tag field.now }
{
    match field.first() {
        Some(tag) => *tag,
        None => 0,
    }
}

// The line of an answer to a field with this tag, from the place `at` on, where there is room for the longest line. The answer is the
// place after it.
pub fn answer_line(out: &mut [u8], at: usize, tag: u8, a: Answer) -> usize
    requires { (a.sides ≤ 6) × (at + longest_line ≤ length out.old) }
    ensures { Appended longest_line out.old out.new at result (answer_line tag a) }
{
    match a.outcome {
        Outcome::Inside => text::box_line(out, at, a.field, tag, a.sides, &a.low, &a.high),
        Outcome::Safe => text::verdict_line(out, at, a.field, tag, true),
        Outcome::Unknown => text::verdict_line(out, at, a.field, tag, false),
        Outcome::Refused(r) => text::refusal_line(out, at, a.field, r.cause.number(), r.place),
        Outcome::Skipped | Outcome::Unfit(_) => at,
    }
}
