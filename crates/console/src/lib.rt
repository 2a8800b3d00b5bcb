// Inputs and standard output with their history, and what a program has to say beside them. A token stands for everything that was read, or
// handed over to be written, up to now; `fill` and `emit` are the only functions that make a later one. What a token is made of is shut
// (specs/Trace.antt): a proof in another crate can only say of a token by which calls, with which bytes in which order, it came about, and
// whether it began with standard input or with the file that an argument names. A token can't be copied: each is read or written on once.
// Trusted, since the proofs' machine has no input and output: `named_file` opens that file, `fill` and `emit` pass exactly these bytes from
// and to the system, and a read fails where the system says so. Tokens can be made anew: that a program begins each history once, reads
// each input and writes at one place and by nothing else is asked by the gate (.ci/calls).
#![tactic(auto)]

ghost use Rattle.std.specs.Prelude.{◌≡◌, length};
ghost use Rattle.console.specs.Trace.{without_input, OfFile, without_output, wrote, FilledFrom, Answered, came};

use std::env::FillError;
use std::fs::File;
use std::io::{ErrorKind, Print, Read, Stdin, Stdout};
use std::os::fd::AsRawFd;
use std::rt::Env;
use std::{fs, io};

// The system opens no file by a path of more bytes.
const LONGEST_PATH: usize = 4096;

// Where the bytes of an input come from.
#[derive(Drop)]
enum Source {
    Standard(Stdin),
    Named(File),
    Nothing,
}

// What was read of an input: of standard input, or of the file that the argument of this number names.
#[derive(Drop)]
pub struct Input {
    argument: usize,
    source: Source,
    seen: u64,
}

// What was handed over to be written to standard output.
#[derive(Drop)]
pub struct Output {
    to: Stdout,
    sent: u64,
}

// How many bytes at the start of the buffer were read, whether the read failed, and the history with it.
#[derive(Drop)]
pub struct Filled {
    pub count: usize,
    pub failed: bool,
    pub input: Input,
}

// The history with the bytes that were handed over, and whether all of them went through.
#[derive(Drop)]
pub struct Emitted {
    pub output: Output,
    pub whole: bool,
}

// Nothing was read of standard input.
pub fn nothing_read(rt: &HostRuntime) -> Input
    ensures { result ≡ without_input }
{
    Input {
        argument: 0,
        source: Source::Standard(rt.stdin()),
        seen: 0,
    }
}

// Nothing was read of the file that the program's argument of this number names. One that isn't named or can't be opened is empty.
pub fn named_file(rt: &HostRuntime, argument: usize) -> Input
    ensures { OfFile argument result }
{
    Input {
        argument,
        source: named(rt, argument),
        seen: 0,
    }
}

// Nothing was written.
pub fn nothing_written(rt: &HostRuntime) -> Output
    ensures { result ≡ without_output }
{
    Output {
        to: rt.stdout(),
        sent: 0,
    }
}

// Reads once, as much as there is and the buffer has room for. No bytes, in a buffer that has room, are the end of the input, unless the
// read failed.
pub fn fill(i: Input, buf: &mut [u8]) -> Filled
    ensures { FilledFrom i buf.new result }
{
    let got = read(&i.source, buf);
    brought(i, got, buf)
}

// Hands the bytes over to be written. Where the output is closed or a write fails, some of them may have gone through.
pub fn emit(o: Output, bytes: &[u8]) -> Emitted
    ensures { result.output ≡ wrote o bytes.now result.whole }
{
    let whole = Print::write_all(&o.to, bytes).is_ok();
    Emitted {
        output: Output {
            sent: o.sent.wrapping_add(bytes.len() as u64),
            ..o
        },
        whole,
    }
}

// Writes to standard error, whose history is nobody's concern.
pub fn tell(rt: &HostRuntime, bytes: &[u8]) {
    let _ = Print::write_all(&rt.stderr(), bytes);
}

// Whether the program was started with arguments.
pub fn has_arguments(rt: &HostRuntime) -> bool {
    !matches!(rt.arg(1, &mut []), Err(FillError::NotPresent))
}

// The file that the argument of this number names. Nothing, where there is no such argument, where it is no text, as a path has to be, and
// where the file can't be opened.
fn named(rt: &HostRuntime, argument: usize) -> Source {
    let mut path = [0u8; LONGEST_PATH];
    let Ok(length) = rt.arg(argument, &mut path) else {
        return Source::Nothing;
    };
    let Ok(path) = str::from_utf8(&path[..length]) else {
        return Source::Nothing;
    };
    match open(rt, path) {
        Ok(file) => Source::Named(file),
        Err(_) => Source::Nothing,
    }
}

// The system gives the smallest descriptor that is free: where standard input isn't open, a file must not take its place.
fn open(rt: &HostRuntime, path: &str) -> io::Result<File> {
    let file = fs::open(rt, path)?;
    if file.as_raw_fd() == rt.stdin().as_raw_fd() {
        return file.try_clone();
    }
    Ok(file)
}

// What the system answers to a read. One that a signal interrupts before a byte has come is made again; a proved loop has to end, so it
// counts up to a number that no run reaches.
fn read(source: &Source, buf: &mut [u8]) -> io::Result<usize> {
    for _ in 0..u64::MAX {
        match read_once(source, buf) {
            Err(e) if e.kind() == ErrorKind::Interrupted => {}
            answer => return answer,
        }
    }
    Err(io::Error::from(ErrorKind::Interrupted))
}

fn read_once(source: &Source, buf: &mut [u8]) -> io::Result<usize> {
    match source {
        Source::Standard(stdin) => {
            let mut stdin = stdin;
            stdin.read(buf)
        }
        Source::Named(file) => {
            let mut file = file;
            file.read(buf)
        }
        Source::Nothing => Ok(0),
    }
}

// What was read, where the system answered this to a read into the buffer.
fn brought(i: Input, got: io::Result<usize>, buf: &[u8]) -> Filled
    ensures history { FilledFrom i buf.now result }
    ensures answer { Answered got buf.now result }
{
    let count = came(&got, buf.len());
    Filled {
        count,
        failed: got.is_err(),
        input: Input {
            seen: i.seen.wrapping_add(count as u64),
            ..i
        },
    }
}

// How many bytes came, where the system answered this to a read of at most so many.
fn came(got: &io::Result<usize>, room: usize) -> usize
    ensures { result ≡ came got.now room }
{
    match got {
        Ok(n) => (*n).min(room),
        Err(_) => 0,
    }
}
