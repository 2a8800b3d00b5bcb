// A run from input that comes in pieces: whole fields are taken from what was read so far, and their lines written into a lent slice. A
// part of `motion`: a progress is what `begin` gives and `feed` leaves. However an input is cut, what the calls hand over is what is
// printed for it (specs/Pieces.antt).
#![tactic(auto)]

ghost use Rattle.std.specs.Prelude.{◌≡◌, false, not, ◌+◌, ◌≤◌, ◌<◌, length};
ghost use Rattle.model.specs.Run.{cut, first_field};
ghost use Rattle.text.specs.Lines.{longest_line};
ghost use Rattle.stepping.specs.Work.{work_numbers, work_exponents};
ghost use Rattle.streams.specs.Machine.{ready, fed};
ghost use Rattle.feeding.specs.Fed.{starting, closed, field_taken, one_turn, feeder};
ghost use Rattle.feeding.specs.Reached.{Reached, Placed, longest_field};
ghost use Rattle.feeding.specs.Done.{Done};

use machine::{Fed, FieldMachine};
use states::State;

pub mod machine;

// How far a run has come: its state, the position of the next field's first byte, and whether its last line was given.
#[derive(Drop)]
pub struct Progress {
    pub state: State,
    pub place: usize,
    pub done: bool,
}

// Before the first field.
pub fn begin() -> Progress
    ensures { result ≡ starting }
{
    Progress {
        state: run::begin(),
        place: 0,
        done: false,
    }
}

// Takes fields from `rest`, which was read and not used yet, while one is whole, or after the end of the input while something follows,
// and while the lent slice has room for a longest line.
pub fn feed(
    p: Progress,
    rest: &[u8],
    ended: bool,
    out: &mut [u8],
    numbers: &mut [i64],
    exponents: &mut [u8],
) -> Fed<Progress>
    requires { Reached p × Placed p × (work_numbers ≤ length numbers.old) × (work_exponents ≤ length exponents.old) }
    ensures { Done (length out.old) (fed feeder ended (length out.old) p rest.now)
        out.old out.new 0 result × Placed result.progress }
{
    machine::feed(p, &[], rest, ended, out, numbers, exponents)
}

impl FieldMachine for Progress {
    ghost machine = { λ log. feeder };

    ghost reached = { Reached };

    ghost placed = { Placed };

    fn is_done(&self) -> bool {
        self.done
    }

    fn longest() -> usize {
        text::LONGEST_LINE
    }

    // The run is closed where nothing is left, else a field is taken.
    fn turn(
        self,
        _log: &[u8],
        rest: &[u8],
        out: &mut [u8],
        at: usize,
        numbers: &mut [i64],
        exponents: &mut [u8],
    ) -> Fed<Progress> {
        if (rest.len() == 0) & (self.state.count != 0) {
            return close(self, out, at);
        }
        let h = advance::headers::read(rest);
        take(self, rest, h.bytes, out, at, numbers, exponents)
    }
}

// The totals of what folding added, and the `end` line.
fn close(p: Progress, out: &mut [u8], at: usize) -> Fed<Progress>
    requires { (1 ≤ p.state.count) × (at + longest_line ≤ length out.old) }
    ensures { Done longest_line (closed p) out.old out.new at result }
{
    let written = text::closing_lines(out, at, &p.state.folded, p.state.count - 1);
    Fed {
        progress: Progress { done: true, ..p },
        used: 0,
        written,
    }
}

// The line of the first field, which has so many bytes.
fn take(
    p: Progress,
    rest: &[u8],
    bytes: usize,
    out: &mut [u8],
    at: usize,
    numbers: &mut [i64],
    exponents: &mut [u8],
) -> Fed<Progress>
    requires { Reached p × Placed p × (p.done ≡ false) × (bytes ≡ length (first_field rest.now)) × (bytes ≤ longest_field)
        × (at + longest_line ≤ length out.old) × (work_numbers ≤ length numbers.old) × (work_exponents ≤ length exponents.old) }
    ensures { Done longest_line (field_taken p (first_field rest.now)) out.old out.new at result
        × Placed result.progress }
{
    let r = advance::advance(p.state, p.place, rest, numbers, exponents);
    let written = printing::answer_line(out, at, printing::tag_of(rest), r.answer);
    Fed {
        progress: Progress {
            done: r.state.over,
            state: r.state,
            place: p.place + bytes,
        },
        used: bytes,
        written,
    }
}

// Whether the first field of `rest` is whole. One that isn't is shorter than the longest field.
pub fn is_whole(rest: &[u8]) -> bool
    ensures { (result ≡ not (cut rest.now)) × (result ≡ false → length rest.now < longest_field) }
{
    advance::headers::read(rest).whole
}
