// Runs through Design's calls: document 01's listing and its variants, a refusal of each number that a file can give, runs with hulls and
// with ranged steps, and 4,096 fields after a start set with one more. Standard input holds the runs, each as the length of its bytes (2
// bytes), a byte that is 1 where only the end is shown, and the run file. Its `stdout` was worked out by other means: docs/EXAMPLES.md.
#![tactic(auto)]

ghost use Rattle.std.specs.Prelude.{◌≡◌, length};

mod told;

use std::io;
use std::io::Read;

// No more of standard input is read.
const ROOM: u64 = 65536;

// The work slices of a step.
fn numbers() -> [i64; 5160]
    ensures { 5160 ≡ length result }
{
    [0; 5160]
}

fn exponents() -> [u8; 10320]
    ensures { 10320 ≡ length result }
{
    [0; 10320]
}

// One run, field by field.
fn play(rt: &impl Print, input: &[u8], w: &mut [i64], e: &mut [u8]) -> io::Result<()> {
    let mut st = run::begin();
    let mut at: usize = 0;
    let mut fields: usize = 0;
    while fields < 4098 {
        let r = run::field(st, at, &input[at..], w, e);
        let a = r.answer;
        told::answer(rt, a, tag(input, at))?;
        let bytes = a.bytes;
        if input.len() - at < bytes {
            return Ok(());
        }
        at += bytes;
        st = r.state;
        if st.over | (at == input.len()) {
            return Ok(());
        }
        fields += 1;
    }
    Ok(())
}

// The byte at a place, 0 past the end.
fn tag(input: &[u8], at: usize) -> u8 {
    if at < input.len() {
        return input[at];
    }
    0
}

// One run as a whole: how many fields were accepted, the last answer, and what folding added.
fn finish(rt: &impl Print, input: &[u8], w: &mut [i64], e: &mut [u8]) -> io::Result<()> {
    let r = run::run(input, w, e);
    told::accepted(rt, r.accepted)?;
    told::outcome(rt, r.last)?;
    told::folded(rt, r.state.folded)
}

// One run: its end alone, or all of it.
fn show(rt: &impl Print, brief: bool, input: &[u8], w: &mut [i64], e: &mut [u8]) -> io::Result<()> {
    if !brief {
        play(rt, input, w, e)?;
    }
    finish(rt, input, w, e)
}

// Every run that is there whole.
fn show_all(rt: &impl Print, input: &[u8]) -> io::Result<()> {
    let mut w = numbers();
    let mut e = exponents();
    let mut at: usize = 0;
    while input.len() - at >= 3 {
        let length = words::short_at(input, at);
        let brief = input[at + 2] == 1;
        let from = at + 3;
        if input.len() - from < length {
            return Ok(());
        }
        let to = from + length;
        show(rt, brief, &input[from..to], &mut w, &mut e)?;
        at = to;
    }
    Ok(())
}

fn main(rt: HostRuntime) -> io::Result<()> {
    let mut input = Vec::new(rt.alloc());
    rt.reader().take(ROOM).read_to_end(&mut input)?;
    show_all(&rt, &input)
}
