// The office program: reads a run from standard input and prints the table of its network.
//
// `input` reads, and `table` makes what is printed.
#![tactic(auto)]

use std::io;
use std::io::Write;

// A room of fixed size is lent to the reader: there is no heap. One byte more than the longest input, so that a longer one is known without reading all of it.
const ROOM: usize = text::MAX_INPUT + 1;

// What failed, on standard error; if that fails too, nothing is left to say. Here and in `rip` by itself; `input::fail` says the same for callers elsewhere.
fn fail(rt: &HostRuntime, what: &str, error: io::Error) {
    let _said = eprintln!(rt; "routes: {what}: {error}");
}

fn print_table(rt: &HostRuntime, run: &[u8]) {
    let text = table::write_text(run);
    if let Err(error) = rt.stdout().write_all(&text) {
        fail(rt, "standard output", error);
    }
}

fn main(rt: HostRuntime) {
    let mut room = [0u8; ROOM];
    match input::read_all(&mut rt.stdin(), &mut room) {
        Ok(end) => print_table(&rt, &room[..end]),
        Err(error) => fail(&rt, "standard input", error),
    }
}
