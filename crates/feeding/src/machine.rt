// What takes field after field of a run file, and the loop that makes its turns.
ghost use Rattle.std.specs.Prelude.{◌≡◌, List, ℕ, false, ◌+◌, ◌≤◌, length};
ghost use Rattle.text.specs.Appended.{Appended};
ghost use Rattle.stepping.specs.Work.{work_numbers, work_exponents};
ghost use Rattle.streams.specs.Machine.{Machine, ready, fed};
ghost use Rattle.streams.specs.Laws.{Lawful};
ghost use Rattle.feeding.specs.Done.{Done};

// What turns came to: how far the machine has come, how many bytes they used, and up to where the lent slice is written.
#[derive(Drop)]
pub struct Fed<M> {
    pub progress: M,
    pub used: usize,
    pub written: usize,
}

// How far what takes field after field has come. Beside the run file it may look at a log; a run alone has none.
pub trait FieldMachine: Drop + Sized {
    // how it goes
    ghost machine: { List ℕ → Machine Self };

    // what turns can lead to, and where the next field then stands
    ghost reached: { Self → Type 0 };

    ghost placed: { Self → Type 0 };

    // Whether the last line was given.
    fn is_done(&self) -> bool
        ensures { (log : List ℕ) → result ≡ (machine log).done self.now };

    // The room that a turn's text may need.
    fn longest() -> usize
        ensures { (log : List ℕ) → result ≡ (machine log).longest };

    // One turn, where the slice is written up to `at`.
    fn turn(
        self,
        log: &[u8],
        rest: &[u8],
        out: &mut [u8],
        at: usize,
        numbers: &mut [i64],
        exponents: &mut [u8],
    ) -> Fed<Self>
        requires { reached self × placed self × ((machine log.now).done self ≡ false)
            × (at + (machine log.now).longest ≤ length out.old)
            × (work_numbers ≤ length numbers.old) × (work_exponents ≤ length exponents.old) }
        ensures { Done (machine log.now).longest ((machine log.now).one_turn self rest.now) out.old out.new at result
            × placed result.progress };
}

// Makes turns with `rest`, which was read and not used yet, while a field is whole, or after the end of the input while something follows,
// and while the lent slice has room for a longest text.
pub fn feed<M: FieldMachine>(
    m: M,
    log: &[u8],
    rest: &[u8],
    ended: bool,
    out: &mut [u8],
    numbers: &mut [i64],
    exponents: &mut [u8],
) -> Fed<M>
    requires { ((remaining : M → List ℕ → List ℕ) × Lawful (M.machine log.now) M.reached remaining) × M.reached m × M.placed m
        × (work_numbers ≤ length numbers.old) × (work_exponents ≤ length exponents.old) }
    ensures { Done (length out.old) (fed (M.machine log.now) ended (length out.old) m rest.now) out.old out.new 0 result
        × M.placed result.progress }
{
    let mut progress = m;
    let mut used = 0;
    let mut written = 0;
    while can_turn(
        progress.is_done(),
        ended,
        &rest[used..],
        out.len() - written,
        M::longest(),
    ) {
        let t = progress.turn(log, &rest[used..], out, written, numbers, exponents);
        progress = t.progress;
        used += t.used;
        written = t.written;
    }
    Fed {
        progress,
        used,
        written,
    }
}

// Whether another turn can be made.
fn can_turn(done: bool, ended: bool, rest: &[u8], room: usize, longest: usize) -> bool
    ensures { result ≡ ready longest done ended room rest.now }
{
    !done & (ended | crate::is_whole(rest)) & !(room < longest)
}
