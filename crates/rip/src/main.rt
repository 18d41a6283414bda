// The program for RIP monitors: `rip BASE <run >messages` writes the rows of a run's network as Response messages, and `rip -r BASE N <messages`
// prints the metrics of messages.
//
// `arguments` reads the arguments, `input` standard input, and `command` makes what is written.
#![tactic(auto)]

ghost use Rattle.std.specs.Prelude.{◌≤◌, length, IfOk};

use command::{Refusal, Said};
use std::env::{Env, FillError};
use std::io;
use std::io::Write;

// Rooms of fixed size are lent to readers: there is no heap. One byte more than the longest run, and than the most messages, so that a longer input is known without reading all of it.
const RUN_ROOM: usize = text::MAX_INPUT + 1;

const MESSAGES_ROOM: usize = response::MAX_MESSAGES + 1;

// The most bytes of an argument.
const ARGUMENT_ROOM: usize = 4096;

// ---- arguments; one that has no room can't be read

// How many arguments there are, the program's name among them; 5 where there are more than four.
fn argument_count(rt: &HostRuntime) -> usize {
    let mut text = [0u8; ARGUMENT_ROOM];
    for i in 0..5 {
        if let Err(FillError::NotPresent) = rt.arg(i, &mut text) {
            return i;
        }
    }
    5
}

// What an argument is read as.
fn argument<T, F: FnOnce(&[u8]) -> Option<T>>(rt: &HostRuntime, i: usize, read: F) -> Option<T>
    requires { F.IsAlwaysCallable read }
{
    let mut text = [0u8; ARGUMENT_ROOM];
    let n = rt.arg(i, &mut text).ok()?;
    read(&text[..n])
}

// ---- what is written

// What failed, on standard error; if that fails too, nothing is left to say. Here and in `routes` by itself; `input::fail` says the same for callers elsewhere.
fn fail(rt: &HostRuntime, what: &str, error: io::Error) {
    let _said = eprintln!(rt; "rip: {what}: {error}");
}

// Why there is no text, to standard error.
fn say_refusal(rt: &HostRuntime, refusal: Refusal) {
    if let Err(error) = rt.stderr().write_all(&command::line_of(refusal)) {
        fail(rt, "standard error", error);
    }
}

// Text to standard output, or why there is none.
fn say(rt: &HostRuntime, said: &Result<Said, Refusal>) {
    match said {
        Ok(text) => {
            if let Err(error) = rt.stdout().write_all(text) {
                fail(rt, "standard output", error);
            }
        }
        Err(refusal) => say_refusal(rt, *refusal),
    }
}

// ---- writing; this and reading each lend a room of their own size to a call of their own, which one function over closures would say no plainer. The
// runtime and a base stay two parameters: the calls that take both have nothing else in common.

// The run; nothing is read where the base is refused.
fn read_run(rt: &HostRuntime, base: u32, room: &mut [u8]) -> io::Result<usize>
    ensures { IfOk result (λ n. n ≤ length room.old) }
{
    if response::base_refused(base) {
        return Ok(0);
    }
    input::read_all(&mut rt.stdin(), room)
}

fn write_messages(rt: &HostRuntime, base: u32) {
    let mut room = [0u8; RUN_ROOM];
    match read_run(rt, base, &mut room) {
        Ok(end) => say(rt, &command::write_said(base, &room[..end])),
        Err(error) => fail(rt, "standard input", error),
    }
}

// `rip BASE`; None where it can't be read.
fn run_writing(rt: &HostRuntime) -> Option<()> {
    let base = argument(rt, 1, arguments::read_base)?;
    write_messages(rt, base);
    Some(())
}

// ---- reading

fn read_messages(rt: &HostRuntime, base: u32, count: u32) {
    let mut room = [0u8; MESSAGES_ROOM];
    match input::read_all(&mut rt.stdin(), &mut room) {
        Ok(end) => say(rt, &command::read_said(base, count, &room[..end])),
        Err(error) => fail(rt, "standard input", error),
    }
}

// `rip -r BASE N`; None where one can't be read.
fn run_reading(rt: &HostRuntime) -> Option<()> {
    argument(rt, 1, |text| arguments::is_flag(text).then_some(()))?;
    let base = argument(rt, 2, arguments::read_base)?;
    let count = argument(rt, 3, arguments::read_count)?;
    read_messages(rt, base, count);
    Some(())
}

fn main(rt: HostRuntime) {
    let done = match argument_count(&rt) {
        2 => run_writing(&rt),
        4 => run_reading(&rt),
        _ => None,
    };
    if done.is_none() {
        say_refusal(&rt, Refusal::Usage);
    }
}
