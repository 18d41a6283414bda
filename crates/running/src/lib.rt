// A run: an image, and then events to the input's end.
//
// Contracts go by `run_of` (crates/records/specs/Running.antt) and hold for any input. The public functions have no precondition.
#![tactic(auto)]

ghost use Rattle.std.specs.Prelude.{◌≡◌, [], ◌≤◌, length, IfOk};
ghost use Rattle.network.specs.Answered.{answered};
ghost use Rattle.records.specs.Numbers.{words_in};
ghost use Rattle.records.specs.Running.{event_done, rounds_in};
ghost use Rattle.memory.specs.Layout.{view};
ghost use Rattle.memory.specs.Answers.{Leaves};
ghost use Rattle.running.specs.Answers.{finished_of, Ends};
ghost use Rattle.running.specs.Inner.{marks_at, Inside, events_from, ran};

use memory::Network;
use network::{Fault, Pair};
use records::{ArcChange, Event, Stop};

// ---- marks

// The marks of a round from its body.
#[tactic(auto, using(crate::proofs::Marks::none_filled, crate::proofs::Marks::one_filled))]
fn marks_of(body: &[u8]) -> [u32; 32]
    ensures { result ≡ words_in 32 body.now }
{
    // On the stack (no heap), and all 32 at once, as `routing::round` takes them.
    let mut marks = [0u32; 32];
    for (r, mark) in marks.iter_mut().enumerate() {
        *mark = reading::word(body, 4 * r);
    }
    marks
}

// ---- an event

// A round with the marks of its body.
#[tactic(auto, unfolding(records::specs::Running::event_done))]
fn mark_round(net: &mut Network, body: &[u8]) -> Result<(), Fault>
    ensures { Leaves (event_done (view net.old) body.now Event.Round) (answered result) net.old net.new }
{
    let marks = marks_of(body);
    routing::round(net, &marks)
}

// A change of an arc: cost 0 removes it.
#[tactic(auto, unfolding(records::specs::Running::event_done))]
fn change_arc(net: &mut Network, change: ArcChange) -> Result<(), Fault>
    ensures { Leaves (event_done (view net.old) [] (Event.Change change)) (answered result) net.old net.new }
{
    match change {
        ArcChange::Set {
            sender,
            receiver,
            cost,
        } => memory::change(net, Pair { sender, receiver }, cost),
        ArcChange::Removed { sender, receiver } => memory::change(
            net,
            Pair { sender, receiver },
            0,
        ),
    }
}

// The bytes of a marked round's record: its kind byte and its body.
const ROUND_LENGTH: usize = 1 + records::ROUND_BODY;

// A network and an input stay two parameters: one is lent to be changed and the other to be read, and a struct of both would be taken apart at each call,
// no plainer.

// Does the event of the record at `at`. Accepted, the answer is the rounds for which it counts.
#[tactic(auto, using(crate::proofs::Events::still, crate::proofs::Events::marks_here, crate::proofs::Events::does_other), unfolding(records::specs::Running::event_done, records::specs::Running::rounds_in, records::specs::Records::body_length))]
fn do_event(net: &mut Network, input: &[u8], at: usize, event: Event) -> Result<usize, Fault>
    requires { Inside event at input.now }
    ensures does { Leaves (event_done (view net.old) (marks_at at input.now) event) (answered result) net.old net.new }
    ensures counts { IfOk result (λ rounds. rounds ≡ rounds_in event) }
{
    match event {
        Event::FullRound => {
            routing::full_round(net);
            Ok(1)
        }
        Event::Round => {
            mark_round(net, &input[at + 1..at + ROUND_LENGTH])?;
            Ok(1)
        }
        Event::Change(change) => {
            change_arc(net, change)?;
            Ok(0)
        }
        Event::Refusal { fault, place: _ } => Err(fault),
        _ => Err(Fault::Kind),
    }
}

// How the events of a run ended: the accepted rounds, and the refusal at which it stopped, if it did.
#[derive(Clone, Copy)]
pub struct Run {
    pub rounds: usize,
    pub stop: Option<Stop>,
}

impl Run {
    // The accepted rounds of a run that came to its end, or its refusal.
    #[tactic(auto, unfolding(crate::specs::Answers::finished_of))]
    pub fn finished(self) -> Result<usize, Stop>
        ensures { result ≡ finished_of self }
    {
        match self.stop {
            None => Ok(self.rounds),
            Some(stop) => Err(stop),
        }
    }
}

// Does the events from the place `start` to the input's end, or to the first that is refused.
#[tactic(auto, using(crate::proofs::Loop::round_at, crate::proofs::Loop::record_inside, crate::proofs::Loop::some_byte, crate::proofs::Events::one_round, crate::proofs::Loop::at_next))]
fn run_events(net: &mut Network, input: &[u8], start: usize) -> Run
    requires { start ≤ length input.now }
    ensures { ran result net.new ≡ events_from input.now (view net.old) start }
{
    let mut at = start;
    let mut rounds = 0;
    // A `while`, since a step is the length of a record.
    while at < input.len() {
        let record = reading::event_record(input, at);
        match do_event(net, input, at, record.event) {
            Ok(more) => rounds += more,
            Err(fault) => {
                let stop = Stop { fault, place: at };
                return Run {
                    rounds,
                    stop: Some(stop),
                };
            }
        }
        at += record.used;
    }
    Run { rounds, stop: None }
}

// Opens the image into lent words and does the events after it. With its image refused, answers as opening does.
#[tactic(auto, using(crate::proofs::Whole::image_refused, crate::proofs::Whole::events_inside))]
pub fn run_into(net: &mut Network, input: &[u8]) -> Result<Run, Stop>
    ensures { Ends input.now result net.new }
{
    let used = opening::open_into(net, input)?;
    Ok(run_events(net, input, used))
}
