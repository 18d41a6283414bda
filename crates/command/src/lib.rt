// What the program `rip` writes, from a base, n and its input: every byte, and whether it is for standard output or for standard error.
//
// Contracts go by specs/Saying.antt and hold for any bytes. No public function has a precondition.
#![tactic(auto)]

ghost use Rattle.std.specs.Prelude.{◌≡◌, ◌++◌, false, ◌+◌, ◌*◌, ◌≤◌, length, [], IfOk, IfErr, OnOk};
ghost use Rattle.network.specs.Answered.{fault_number};
ghost use Rattle.text.specs.Text.{stop_line};
ghost use Rattle.records.specs.Running.{run_of};
ghost use Rattle.response.specs.Messages.{base_fault, count_fault, row_messages};
ghost use Rattle.memory.specs.Layout.{view};
ghost use Rattle.command.specs.Saying.{on_output, on_error, refused_line, metric_line, node_lines, refusal_text, run_text, write_text_of, read_text};
ghost use Rattle.command.specs.declared.Refusal.TheVariants.{Refused, Stopped};

use arrayvec::ArrayVec;
use memory::Network;
use network::Fault;
use records::Stop;

// The bytes of a text with room for all that the program writes to standard output.
pub const MAX_SAID: usize = 4096;

pub type Said = ArrayVec<u8, MAX_SAID>;

// The bytes of a text with room for each line for standard error.
pub const MAX_LINE: usize = 64;

pub type Line = ArrayVec<u8, MAX_LINE>;

// Why nothing is written to standard output: an error enum, with a case for each line that is said.
#[derive(Clone, Copy)]
pub enum Refusal {
    // Arguments that can't be read.
    Usage,
    TooLong,
    Refused(Fault),
    Stopped(Stop),
}

impl From<Fault> for Refusal {
    ghost from_gives = { λ fault refusal. refusal ≡ Refused fault };

    fn from(fault: Fault) -> Refusal {
        Refusal::Refused(fault)
    }
}

impl From<Stop> for Refusal {
    ghost from_gives = { λ stop refusal. refusal ≡ Stopped stop };

    fn from(stop: Stop) -> Refusal {
        Refusal::Stopped(stop)
    }
}

// ---- lines

// A line of these bytes.
#[tactic(auto, using(text::proofs::Adding::pushes))]
fn line(bytes: &[u8]) -> Line
    requires { length bytes.now ≤ 64 }
    ensures { result.items ≡ bytes.now }
{
    let mut line = Line::new();
    text::push_text(&mut line, bytes);
    line
}

// The number of a refusal.
#[tactic(auto, using(text::proofs::Adding::pushes), unfolding(crate::specs::Saying::refused_line, text::specs::Text::field))]
fn refused(fault: Fault) -> Line
    ensures { result.items ≡ refused_line (fault_number fault) }
{
    let mut line = Line::new();
    text::push_number(&mut line, b"refused ", usize::from(u8::from(fault)));
    text::push_text(&mut line, b"\n");
    line
}

// Number and place of a refusal.
#[tactic(auto, using(text::proofs::Adding::pushes, text::proofs::Stopping::stop_most))]
fn stopped(stop: Stop) -> Line
    ensures { result.items ≡ stop_line (fault_number stop.fault) stop.place }
{
    let mut line = Line::new();
    text::push_stop(&mut line, u8::from(stop.fault), stop.place);
    line
}

// The line of a refusal, for standard error.
pub fn line_of(refusal: Refusal) -> Line
    ensures { on_error result.items ≡ refusal_text refusal }
{
    match refusal {
        Refusal::Usage => line(b"usage: rip BASE <run >messages, or rip -r BASE N <messages\n"),
        Refusal::TooLong => line(b"too long\n"),
        Refusal::Refused(fault) => refused(fault),
        Refusal::Stopped(stop) => stopped(stop),
    }
}

// The line of a node.
#[tactic(auto, using(text::proofs::Adding::pushes), unfolding(crate::specs::Saying::metric_line, text::specs::Text::field))]
fn push_metric(said: &mut Said, node: usize, metric: u8)
    requires { length said.old.items + 42 ≤ 4096 }
    ensures items { said.new.items ≡ said.old.items ++ metric_line node metric }
    ensures most { length said.new.items ≤ length said.old.items + 42 }
{
    text::push_number(said, b"", node);
    text::push_number(said, b" ", usize::from(metric));
    text::push_text(said, b"\n");
}

// The lines of the nodes. This and `push_run` stay calls: where LLVM has all of them in `read_said` and `write_said`, it clears the text more often.
#[inline(never)]
fn push_metrics(said: &mut Said, metrics: &[u8])
    requires few { length metrics.now ≤ 32 }
    requires room { length said.old.items + 1344 ≤ 4096 }
    ensures { said.new.items ≡ said.old.items ++ node_lines metrics.now (length metrics.now) }
{
    for (node, &metric) in metrics.iter().enumerate() {
        push_metric(said, node, metric);
    }
}

// ---- what the program writes

// The messages of a network. They have room, so that the call is accepted.
fn push_messages(said: &mut Said, net: &Network, base: u32)
    requires room { length said.old.items + 648 ≤ 4096 }
    requires base_right { base_fault base ≡ false }
    requires count_right { count_fault (view net.now).nodes ≡ false }
    ensures { said.new.items ≡ said.old.items ++ row_messages base (view net.now) }
{
    // On the stack (no heap), for a writer into lent bytes.
    let mut room = [0u8; response::MAX_MESSAGES];
    let used = messages::write_messages(net, base, &mut room).unwrap_or(0);
    text::push_text(said, &room[..used]);
}

// A base and an input stay two parameters: one is an argument of the program and the other what it reads, and each function is called once.

// Of a run: its messages, onto no bytes.
#[inline(never)]
fn push_run(said: &mut Said, base: u32, input: &[u8]) -> Result<(), Refusal>
    requires empty { said.old.items ≡ [] }
    requires base_right { base_fault base ≡ false }
    ensures output { OnOk result (run_text base (run_of input.now) ≡ on_output said.new.items) }
    ensures line { IfErr result (λ refusal. run_text base (run_of input.now) ≡ refusal_text refusal) }
{
    // A network's words on the stack (no heap).
    let mut net = [0u32; memory::WORDS];
    running::run_into(&mut net, input)?.finished()?;
    push_messages(said, &net, base);
    Ok(())
}

// Of a base and a run: the messages; or why there are none.
pub fn write_said(base: u32, input: &[u8]) -> Result<Said, Refusal>
    ensures output { IfOk result (λ said. write_text_of base input.now ≡ on_output said.items) }
    ensures line { IfErr result (λ refusal. write_text_of base input.now ≡ refusal_text refusal) }
{
    if response::base_refused(base) {
        return Err(Refusal::Refused(Fault::Base));
    }
    if text::MAX_INPUT < input.len() {
        return Err(Refusal::TooLong);
    }
    let mut said = Said::new();
    push_run(&mut said, base, input)?;
    Ok(said)
}

// Of a base, n and messages: a line for each node; or why they are refused.
pub fn read_said(base: u32, n: u32, input: &[u8]) -> Result<Said, Refusal>
    ensures output { IfOk result (λ said. read_text base n input.now ≡ on_output said.items) }
    ensures line { IfErr result (λ refusal. read_text base n input.now ≡ refusal_text refusal) }
{
    let metrics = messages::read_messages(input, base, n)?;
    let mut said = Said::new();
    push_metrics(&mut said, &metrics);
    Ok(said)
}
