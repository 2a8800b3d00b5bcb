// `rewrite`: copies a stored run file from standard input to standard output without its empty disturbances.
// What is decided stands in `rewriting`; here are the buffers, the reads and the writes. Proved is `Streamed` (specs/Streamed.antt): what
// was handed over to be written, call by call, is what is left of what was read, call by call, and the program ends. Trusted beyond the
// proofs: what `console` says of itself; that a read which asks for bytes and gets none, and did not fail, means the end of the input; and
// that nothing else reads or writes, which the gate asks (.ci/calls).
#![tactic(auto)]

ghost use Rattle.std.specs.Prelude.{◌≡◌, false, ◌+◌, ◌<◌, ◌≤◌, length};
ghost use Rattle.rewriting.specs.Reached.{Reached};
ghost use Rattle.rewriting.specs.Done.{Done};
ghost use Rattle.rewrite.specs.Streamed.{Streamed};
ghost use Rattle.rewrite.specs.Along.{starting_flow, passed, Along, TurnMade};

use console::{Input, Output};
use rewriting::{Given, Held};

// Room for what a read brings.
const ROOM: usize = 65536;

// Room for as many bytes and those held.
const PAGE: usize = 65564;

// How far the program has come: what is held; how many reads may still be made; whether the input has ended, a read failed, or a write
// failed; what was read and written.
#[derive(Drop)]
struct Flow {
    held: Held,
    allowed: u64,
    ended: bool,
    unread: bool,
    failed: bool,
    input: Input,
    output: Output,
}

fn main(rt: HostRuntime) {
    if console::has_arguments(&rt) {
        console::tell(&rt, b"usage: rewrite < OLD_RUN_FILE > NEW_RUN_FILE\n");
        return;
    }
    let flow = run(&rt);
    if flow.unread {
        console::tell(&rt, b"rewrite: standard input could not be read\n");
    }
    if flow.failed {
        console::tell(&rt, b"rewrite: standard output could not be written\n");
    }
}

// Reads and writes until the input has ended, or a read or a write fails. A proved loop has to end, and nothing says that an input does:
// so the loop counts its reads down, from a number that no run uses up.
fn run(rt: &HostRuntime) -> Flow
    ensures { Streamed result }
{
    let mut buf = [0; ROOM];
    let mut out = [0; PAGE];
    let mut flow = begin(rt);
    while !(flow.ended | flow.unread | flow.failed | (flow.allowed == 0)) {
        flow = turn(flow, &mut buf, &mut out);
    }
    flow
}

fn begin(rt: &HostRuntime) -> Flow
    ensures { result ≡ starting_flow }
{
    Flow {
        held: rewriting::begin(),
        allowed: u64::MAX,
        ended: false,
        unread: false,
        failed: false,
        input: console::nothing_read(rt),
        output: console::nothing_written(rt),
    }
}

// Reads once, and writes what is left of what came; nothing where the read failed.
fn turn(f: Flow, buf: &mut [u8], out: &mut [u8]) -> Flow
    requires { Along f × (f.ended ≡ false) × (0 < f.allowed) × (length buf.old ≡ 65536) × (length out.old ≡ 65564)
        × (f.unread ≡ false) × (f.failed ≡ false) }
    ensures { TurnMade f result }
{
    let got = console::fill(f.input, buf);
    let allowed = f.allowed - 1;
    if got.failed {
        return Flow {
            allowed,
            unread: true,
            input: got.input,
            ..f
        };
    }
    let given = pass(f.held, &buf[..got.count], out);
    let emitted = console::emit(f.output, &out[..given.written]);
    Flow {
        held: given.held,
        allowed,
        ended: got.count == 0,
        unread: false,
        failed: !emitted.whole,
        input: got.input,
        output: emitted.output,
    }
}

// Takes what came, or writes what is held where nothing came, at the end.
fn pass(h: Held, came: &[u8], out: &mut [u8]) -> Given
    requires { Reached h × (length came.now + 28 ≤ length out.old) }
    ensures { Done (length came.now + 28) (passed h came.now) out.old out.new 0 result }
{
    if came.is_empty() {
        let written = rewriting::close(h, out);
        return Given { held: h, written };
    }
    rewriting::give(h, came, out)
}
