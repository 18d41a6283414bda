// The calls under C names, for the benchmark in bench/ and the comparisons in tests/. C takes numbers and lent words: where the answer is a number it is
// the call itself, with its contract; the others hand out the answer in lent words, of a number that C knows: so calls with two, three or five words stay
// apart, and opening stays apart from a run.
//
// `as u64` is from a `usize`, for which std has no `From`.
#![tactic(auto)]

ghost use Rattle.std.specs.Prelude.{◌≡◌, ◌≤◌, ◌+◌, ◌∷◌, [], length};
ghost use Rattle.std.specs.Result.{result_unwrap_or};
ghost use Rattle.network.specs.Answered.{fault_number, answered};
ghost use Rattle.network.specs.Network.{fresh_of};
ghost use Rattle.network.specs.Placing.{place_row_of, place_report_of};
ghost use Rattle.network.specs.Round.{round_of, full_round_of};
ghost use Rattle.network.specs.Change.{change_of, grade_of};
ghost use Rattle.memory.specs.Layout.{view};
ghost use Rattle.memory.specs.Answers.{Leaves, Starts, read_row, row_means, read_arcs, arcs_means, read_cost, cost_means, read_held_of, held_means};
ghost use Rattle.network.specs.Route.{route_of};
ghost use Rattle.records.specs.Image.{image_of};
ghost use Rattle.records.specs.Opening.{open_of};
ghost use Rattle.records.specs.Running.{run_of};
ghost use Rattle.records.specs.Stopped.{stop_number, stop_place};
ghost use Rattle.response.specs.Messages.{write_of};
ghost use Rattle.response.specs.Reading.{read_of};
ghost use Rattle.network.specs.Faults.{max_nodes};
ghost use Rattle.bench.specs.Handed.{places, OpensTo, RunsTo, WritesTo, row_words_of, arcs_words_of, cost_words_of, held_words_of, read_words};

use memory::{Network, RowRead};
use network::{Fault, HeldReport, Pair, Route};
use records::Stop;

// The number of an answer.
fn number(answer: Result<(), Fault>) -> u8
    ensures { result ≡ answered answer }
{
    match answer {
        Ok(()) => 0,
        Err(fault) => u8::from(fault),
    }
}

#[unsafe(no_mangle)]
pub extern "C" fn bench_fresh(net: &mut Network, n: u32, origin: u32) -> u8
    ensures { Starts (fresh_of n origin) result net.new }
{
    number(memory::make_fresh(net, n, origin))
}

#[unsafe(no_mangle)]
pub extern "C" fn bench_place_row(
    net: &mut Network,
    node: u32,
    label: u32,
    predecessor: u32,
    list: u32,
) -> u8
    ensures { Leaves (place_row_of (view net.old) node label predecessor list) result net.old net.new }
{
    let route = Route {
        label,
        predecessor,
        list,
    };
    number(memory::place_row(net, node, route))
}

#[unsafe(no_mangle)]
pub extern "C" fn bench_place_report(
    net: &mut Network,
    sender: u32,
    receiver: u32,
    label: u32,
    list: u32,
) -> u8
    ensures { Leaves (place_report_of (view net.old) sender receiver label list) result net.old net.new }
{
    number(memory::place_report(net, Pair { sender, receiver }, HeldReport { label, list }))
}

#[unsafe(no_mangle)]
pub extern "C" fn bench_change(net: &mut Network, sender: u32, receiver: u32, cost: u32) -> u8
    ensures { Leaves (change_of (view net.old) sender receiver cost) result net.old net.new }
{
    number(memory::change(net, Pair { sender, receiver }, cost))
}

#[unsafe(no_mangle)]
pub extern "C" fn bench_grade(net: &mut Network, sender: u32, receiver: u32, value: u32) -> u8
    ensures { Leaves (grade_of (view net.old) sender receiver value) result net.old net.new }
{
    number(memory::grade(net, Pair { sender, receiver }, value))
}

#[unsafe(no_mangle)]
pub extern "C" fn bench_round(net: &mut Network, marks: &[u32]) -> u8
    ensures { Leaves (round_of (view net.old) marks.now) result net.old net.new }
{
    number(routing::round(net, marks))
}

#[unsafe(no_mangle)]
pub extern "C" fn bench_full_round(net: &mut Network) -> u8
    ensures { Leaves (full_round_of (view net.old)) result net.old net.new }
{
    routing::full_round(net);
    0
}

// The number of a refusal in a word.
fn refusal(fault: Fault) -> u64
    ensures { result ≡ fault_number fault }
{
    u64::from(u8::from(fault))
}

// Number and place of a refusal, or 0 and 0, and another number.
fn three(stop: Option<Stop>, last: usize) -> [u64; 3]
    ensures { result ≡ (stop_number stop ∷ stop_place stop ∷ last ∷ []) }
{
    match stop {
        None => [0, 0, last as u64],
        Some(stop) => [refusal(stop.fault), stop.place as u64, last as u64],
    }
}

// Opening: number, place and bytes used in answer, and the network.
#[unsafe(no_mangle)]
pub extern "C" fn bench_open(input: &[u8], answer: &mut [u64; 3], net: &mut Network)
    ensures { OpensTo (open_of input.now) answer.new net.new }
{
    *answer = match opening::open_into(net, input) {
        Ok(used) => three(None, used),
        Err(stop) => three(Some(stop), 0),
    };
}

// A run: number, place and accepted rounds in answer, and the network.
#[unsafe(no_mangle)]
pub extern "C" fn bench_run(input: &[u8], answer: &mut [u64; 3], net: &mut Network)
    ensures { RunsTo (run_of input.now) answer.new net.new }
{
    *answer = match running::run_into(net, input) {
        Ok(run) => three(run.stop, run.rounds),
        Err(stop) => three(Some(stop), 0),
    };
}

// Number and length of what was written.
fn two(written: Result<usize, Fault>) -> [u64; 2]
    ensures { result ≡ (answered written ∷ result_unwrap_or written 0 ∷ []) }
{
    match written {
        Ok(used) => [0, used as u64],
        Err(fault) => [refusal(fault), 0],
    }
}

// Image writing: number and bytes written in answer.
#[unsafe(no_mangle)]
pub extern "C" fn bench_image(net: &Network, out: &mut [u8], answer: &mut [u64; 2])
    ensures { WritesTo (image_of (view net.now) out.old) answer.new out.new }
{
    *answer = two(image::write_image(net, out));
}

// A route: number and bytes written in answer.
#[unsafe(no_mangle)]
pub extern "C" fn bench_route(net: &Network, node: u32, out: &mut [u8], answer: &mut [u64; 2])
    ensures { WritesTo (route_of (view net.now) node out.old) answer.new out.new }
{
    *answer = two(route::route(net, node, out));
}

// Message writing: number and bytes written in answer.
#[unsafe(no_mangle)]
pub extern "C" fn bench_write_messages(
    net: &Network,
    base: u32,
    out: &mut [u8],
    answer: &mut [u64; 2],
)
    ensures { WritesTo (write_of base (view net.now) out.old) answer.new out.new }
{
    *answer = two(messages::write_messages(net, base, out));
}

// ---- reading

// The words of what reading messages answers.
const READ_WORDS: usize = network::NODES + 2;

// Number 0, how many metrics there are, and the metrics in the places of 32 nodes.
fn put_metrics(metrics: &[u8], out: &mut [u64])
    requires few { length metrics.now ≤ max_nodes }
    requires out_len { length out.old ≡ max_nodes + 2 }
    ensures { out.new ≡ (0 ∷ length metrics.now ∷ places metrics.now) }
{
    out[0] = 0;
    out[1] = metrics.len() as u64;
    for y in 0..metrics.len() {
        out[y + 2] = u64::from(metrics[y]);
    }
    for y in metrics.len()..network::NODES {
        out[y + 2] = 0;
    }
}

// Message reading: number, nodes and the metrics of 32 nodes in answer, 0 where there are fewer.
#[unsafe(no_mangle)]
pub extern "C" fn bench_read_messages(
    bytes: &[u8],
    base: u32,
    n: u32,
    answer: &mut [u64; READ_WORDS],
)
    ensures { answer.new ≡ read_words (read_of base n bytes.now) }
{
    match messages::read_messages(bytes, base, n) {
        Ok(metrics) => put_metrics(&metrics, answer),
        Err(fault) => {
            put_metrics(&[], answer);
            answer[0] = refusal(fault);
        }
    }
}

// Stands for a predecessor where there is none.
const NO_NODE: u64 = network::NODES as u64;

fn some_row_words(row: RowRead) -> [u64; 5]
    ensures { result ≡ row_words_of (row_means (Ok row)) }
{
    match row {
        RowRead::NoRoute => [0, 0, NO_NODE, 0, 0],
        RowRead::Origin { list, hops } => [0, 0, NO_NODE, u64::from(list), u64::from(hops)],
        RowRead::Relay { route, hops } => [
            0,
            u64::from(route.label),
            u64::from(route.predecessor),
            u64::from(route.list),
            u64::from(hops),
        ],
    }
}

fn row_words(read: Result<RowRead, Fault>) -> [u64; 5]
    ensures { result ≡ row_words_of (row_means read) }
{
    match read {
        Ok(row) => some_row_words(row),
        Err(fault) => [refusal(fault), 0, NO_NODE, 0, 0],
    }
}

// A row: number, label, predecessor, list and hops in answer.
#[unsafe(no_mangle)]
pub extern "C" fn bench_row(net: &Network, node: u32, answer: &mut [u64; 5])
    ensures { answer.new ≡ row_words_of (read_row (view net.now) node) }
{
    *answer = row_words(memory::row(net, node));
}

// Number and value of what was read. Not `two`: std has no conversion to 64 bits that `usize` and `u32` share.
fn value_words(read: Result<u32, Fault>) -> [u64; 2]
    ensures { result ≡ (answered read ∷ result_unwrap_or read 0 ∷ []) }
{
    match read {
        Ok(value) => [0, u64::from(value)],
        Err(fault) => [refusal(fault), 0],
    }
}

// A receiver's arcs: number and word in answer.
#[unsafe(no_mangle)]
pub extern "C" fn bench_arcs(net: &Network, receiver: u32, answer: &mut [u64; 2])
    ensures { answer.new ≡ arcs_words_of (read_arcs (view net.now) receiver) }
{
    *answer = value_words(memory::arcs(net, receiver));
}

// A pair's cost: number and cost in answer.
#[unsafe(no_mangle)]
pub extern "C" fn bench_cost(net: &Network, sender: u32, receiver: u32, answer: &mut [u64; 2])
    ensures { answer.new ≡ cost_words_of (read_cost (view net.now) sender receiver) }
{
    *answer = value_words(memory::arc_cost(net, Pair { sender, receiver }));
}

fn report_words(report: Option<HeldReport>) -> [u64; 3]
    ensures { result ≡ held_words_of (held_means (Ok report)) }
{
    match report {
        None => [0, 0, 0],
        Some(report) => [0, u64::from(report.label), u64::from(report.list)],
    }
}

fn held_words(read: Result<Option<HeldReport>, Fault>) -> [u64; 3]
    ensures { result ≡ held_words_of (held_means read) }
{
    match read {
        Ok(report) => report_words(report),
        Err(fault) => [refusal(fault), 0, 0],
    }
}

// A held report: number, label and list in answer.
#[unsafe(no_mangle)]
pub extern "C" fn bench_held(net: &Network, sender: u32, receiver: u32, answer: &mut [u64; 3])
    ensures { answer.new ≡ held_words_of (read_held_of (view net.now) sender receiver) }
{
    *answer = held_words(memory::held(net, Pair { sender, receiver }));
}
