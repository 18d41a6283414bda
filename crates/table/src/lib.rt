// The text that the program `routes` prints.
//
// Each part of the text is pushed after those before it. Contracts go by `text_of` (specs/Text.antt) and hold for any input.
// The public function has no precondition: a text has room for every one. What a writer asks for and uses at most is a number of bytes that goes by the
// sizes of numbers alone, so that it does not matter whether the words that it reads are a network within limits.
#![tactic(auto)]

ghost use Rattle.std.specs.Prelude.{◌≡◌, ◌++◌, ◌+◌, ◌*◌, ◌≤◌, ◌<◌, length};
ghost use Rattle.memory.specs.Layout.{view};
ghost use Rattle.network.specs.Answered.{fault_number};
ghost use Rattle.records.specs.Image.{each};
ghost use Rattle.text.specs.Text.{max_input, field, stop_line};
ghost use Rattle.table.specs.Text.{fields, line, table_text, text_of};

use arrayvec::ArrayVec;
use memory::{Network, RowRead};
use network::Route;
use records::Stop;

// The bytes of a text with room for every one.
pub const MAX_TEXT: usize = 4096;

pub type Text = ArrayVec<u8, MAX_TEXT>;

// ---- a line of the table

// A number is written from a `usize`, for which std has no `From<u32>`. The room that is asked for is another number in each contract, so that no type
// holds it.

// Label, predecessor and hops of a relay with a route.
#[tactic(auto, using(text::proofs::Adding::pushes), unfolding(text::specs::Text::field))]
fn push_route(text: &mut Text, route: Route, hops: u32)
    requires { length text.old.items + 63 ≤ 4096 }
    ensures items { text.new.items ≡ text.old.items ++ (field route.label ++ (field route.predecessor ++ field hops)) }
    ensures most { length text.new.items ≤ length text.old.items + 63 }
{
    text::push_number(text, b" ", route.label as usize);
    text::push_number(text, b" ", route.predecessor as usize);
    text::push_number(text, b" ", hops as usize);
}

// Label, predecessor and hops of a node.
#[tactic(auto, using(text::proofs::Adding::pushes))]
fn push_fields(text: &mut Text, net: &Network, node: u32)
    requires node_bound { node < (view net.now).nodes }
    requires room { length text.old.items + 63 ≤ 4096 }
    ensures items { text.new.items ≡ text.old.items ++ fields ((view net.now).row node) }
    ensures most { length text.new.items ≤ length text.old.items + 63 }
{
    let Ok(row) = memory::row(net, node) else {
        return;
    };
    match row {
        RowRead::NoRoute => text::push_text(text, b" - - -"),
        RowRead::Origin { list: _, hops } => text::push_number(text, b" 0 - ", hops as usize),
        RowRead::Relay { route, hops } => push_route(text, route, hops),
    }
}

// The line of a node.
#[tactic(auto, using(text::proofs::Adding::pushes), unfolding(crate::specs::Text::line))]
fn push_line(text: &mut Text, net: &Network, node: u32)
    requires node_bound { node < (view net.now).nodes }
    requires room { length text.old.items + 84 ≤ 4096 }
    ensures items { text.new.items ≡ text.old.items ++ line (view net.now) node }
    ensures most { length text.new.items ≤ length text.old.items + 84 }
{
    text::push_number(text, b"", node as usize);
    push_fields(text, net, node);
    text::push_text(text, b"\n");
}

// ---- the table

// The lines of the nodes.
fn push_lines(text: &mut Text, net: &Network)
    requires { length text.old.items + 2688 ≤ 4096 }
    ensures items { text.new.items ≡ text.old.items ++ each (line (view net.now)) 0 (view net.now).nodes }
    ensures most { length text.new.items ≤ length text.old.items + 2688 }
{
    for node in 0..memory::nodes(net) {
        push_line(text, net, node);
    }
}

// The header, the lines of the nodes and the accepted rounds.
#[tactic(auto, using(text::proofs::Adding::pushes), unfolding(crate::specs::Text::header, crate::specs::Text::rounds_line, crate::specs::Text::table_text, text::specs::Text::field))]
fn push_table(text: &mut Text, net: &Network, rounds: usize)
    requires { length text.old.items + 2736 ≤ 4096 }
    ensures items { text.new.items ≡ text.old.items ++ table_text (view net.now) rounds }
    ensures most { length text.new.items ≤ length text.old.items + 2736 }
{
    text::push_text(text, b"node cost from hops\n");
    push_lines(text, net);
    text::push_number(text, b"rounds ", rounds);
    text::push_text(text, b"\n");
}

// ---- the whole text

// The line of a refusal.
#[tactic(auto, using(text::proofs::Adding::pushes, text::proofs::Stopping::stop_most))]
fn push_stop(text: &mut Text, stop: Stop)
    requires { length text.old.items + 53 ≤ 4096 }
    ensures { text.new.items ≡ text.old.items ++ stop_line (fault_number stop.fault) stop.place }
{
    text::push_stop(text, u8::from(stop.fault), stop.place);
}

// The text of a run. It stays a call: where LLVM has all of it in `write_text`, it clears the text three times and moves it twice.
#[inline(never)]
fn push_run(text: &mut Text, input: &[u8])
    requires input_len_bound { length input.now ≤ max_input }
    requires room { length text.old.items + 2789 ≤ 4096 }
    ensures { text.new.items ≡ text.old.items ++ text_of input.now }
{
    // A network's words on the stack (no heap).
    let mut net = [0u32; memory::WORDS];
    match running::run_into(&mut net, input) {
        Ok(run) => {
            push_table(text, &net, run.rounds);
            if let Some(stop) = run.stop {
                push_stop(text, stop);
            }
        }
        Err(stop) => push_stop(text, stop),
    }
}

// The text that `routes` prints for an input.
#[tactic(auto, using(text::proofs::Adding::pushes, crate::proofs::Texts::text_long), unfolding(text::specs::Text::too_long, text::specs::Text::max_input))]
pub fn write_text(input: &[u8]) -> Text
    ensures { result.items ≡ text_of input.now }
{
    let mut text = Text::new();
    if text::MAX_INPUT < input.len() {
        text::push_text(&mut text, b"too long\n");
    } else {
        push_run(&mut text, input);
    }
    text
}
