// The state of a run and its answers. A part of `run`.
#![tactic(auto)]

ghost use Rattle.std.specs.Prelude.{◌≡◌};
ghost use Rattle.states.specs.Answer.{parts, no_box};

use zonotope::{Cause, PolyZonotope};

// The state of a run: the current set, the next fresh identifier (document 01: the mark), how many fields were accepted, whether one was
// refused, and for each coordinate what folding added to its radius in the accepted fields. Before the first accepted field there is no
// set, and what stands in its place doesn't matter.
#[derive(Clone, Copy)]
pub struct State {
    pub set: PolyZonotope,
    pub next: u32,
    pub count: usize,
    pub over: bool,
    pub folded: [u64; 6],
}

// A refused field: the cause, and the position of the field's first byte.
#[derive(Clone, Copy)]
pub struct Refusal {
    pub cause: Cause,
    pub place: usize,
}

// What is said of a field: a box (its ends stand beside this in the answer), a verdict, or a refusal. A field given to a run that is over is
// skipped. `Unfit` refuses the call and not the field: a work slice is too short or the state isn't one of a run.
#[derive(Clone, Copy)]
pub enum Outcome {
    Inside,
    Safe,
    Unknown,
    Refused(Refusal),
    Skipped,
    Unfit(Cause),
}

// An answer: the field's number, how many bytes it took, its outcome, and the box's ends for the first `sides` coordinates; every other
// place is 0.
#[derive(Clone, Copy)]
pub struct Answer {
    pub field: usize,
    pub bytes: usize,
    pub outcome: Outcome,
    pub sides: usize,
    pub low: [i64; 6],
    pub high: [i64; 6],
}

impl Answer {
    // An answer that has no box.
    #[tactic(auto, unfolding(whole::specs::Tab::tab))]
    pub fn without_box(field: usize, bytes: usize, outcome: Outcome) -> Answer
        ensures { result ≡ parts field bytes outcome no_box }
    {
        Answer {
            field,
            bytes,
            outcome,
            sides: 0,
            low: [0; 6],
            high: [0; 6],
        }
    }
}

// An answer, and the state that the field leaves.
#[derive(Clone, Copy)]
pub struct Fielded {
    pub answer: Answer,
    pub state: State,
}
