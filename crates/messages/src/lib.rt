// The calls on RIP version 2 Response messages (RFC 2453): a network's rows written into an output that the caller lends, and messages read back.
//
// Contracts go by change request Three's definitions (crates/response/specs) and hold for any words and bytes. The network is read by calls of `memory`.
// A refused call writes nothing. No public function has a precondition. An index is a `usize`, for which std has no `From<u32>`.
#![tactic(auto)]

ghost use Rattle.std.specs.Prelude.{◌≡◌, cond, IfOk, OnOk, ◌++◌, ◌+◌, ◌*◌, ◌<◌, ◌≤◌, length};
ghost use Rattle.network.specs.Faults.{max_nodes};
ghost use Rattle.network.specs.Answered.{answered};
ghost use Rattle.network.specs.Writing.{Writes};
ghost use Rattle.memory.specs.Layout.{view};
ghost use Rattle.arrayvec.specs.ArrayVec.{array_vec_len};
ghost use Rattle.filling.specs.Filling.{Wrote};
ghost use Rattle.response.specs.Messages.{address, entry_length, header_length, message, first_node, entry_count_of, message_count_of, given_then, write_of};
ghost use Rattle.response.specs.Reading.{message_fault, message_metrics, read_of};
ghost use Rattle.messages.specs.Inner.{Sound, row_metric_of};

use memory::Network;
use network::Fault;
use response::Metrics;

// Command 2, version 2 and two bytes of 0 as one number.
const HEADER_WORD: u32 = 0x0202_0000;

// A base whose last byte is 0, and a number of nodes.
#[derive(Clone, Copy)]
struct Given {
    base: u32,
    nodes: u32,
    ghost sound: { Sound base },
    ghost few: { nodes ≤ max_nodes },
}

impl Given {
    // Refused as Base, then as Range.
    #[tactic(auto, unfolding(response::specs::Messages::given_then, response::specs::Messages::base_fault, response::specs::Messages::count_fault))]
    fn check(base: u32, nodes: u32) -> Result<Self, Fault>
        ensures number { answered result ≡ given_then base nodes 0 }
        ensures given { IfOk result (λ g. (g.base ≡ base) × (g.nodes ≡ nodes)) }
    {
        response::check_given(base, nodes)?;
        Ok(Given { base, nodes })
    }

    // The address of a node.
    #[tactic(auto, unfolding(response::specs::Messages::address))]
    fn address(self, node: u32) -> u32
        requires { node < max_nodes }
        ensures { result ≡ address self.base node }
    {
        self.base + node + 1
    }
}

// ---- writing

// The metric of a node's row.
fn row_metric(net: &Network, node: u32) -> u8
    requires { node < (view net.now).nodes }
    ensures { result ≡ row_metric_of (view net.now) node }
{
    if node == memory::origin(net) {
        return response::hops_metric(0);
    }
    let list = memory::list_word(net, node);
    if list == 0 {
        return response::INFINITY;
    }
    response::hops_metric(ancestors::count_hops(list))
}

// Message k, at the front of the output.
#[tactic(auto, unfolding(response::specs::Messages::message_count_of, response::specs::Messages::entry_count_of))]
fn put_message(net: &Network, given: Given, k: u32, out: &mut [u8]) -> usize
    requires nodes { given.nodes ≡ (view net.now).nodes }
    requires k_bound { k < message_count_of given.nodes }
    requires room { header_length + entry_count_of given.nodes k * entry_length ≤ length out.old }
    ensures { Wrote (message given.base (row_metric_of (view net.now)) (first_node k) (entry_count_of given.nodes k)) out.old out.new result }
{
    let first = k * response::MOST_ENTRIES;
    let mut at = filling::copy(&[2, 2, 0, 0], &mut out[..response::HEADER_LENGTH]);
    for i in 0..response::entry_count(given.nodes, k) {
        let node = first + i;
        at += response::put_entry(
            given.address(node),
            row_metric(net, node),
            &mut out[at..at + response::ENTRY_LENGTH],
        );
    }
    at
}

// Writes a network's rows as messages, and answers how many bytes they are. Refused as Base for a base whose last byte isn't 0, as Range for n, and
// as Room for an output shorter than the messages; then nothing is written.
pub fn write_messages(net: &Network, base: u32, out: &mut [u8]) -> Result<usize, Fault>
    ensures { Writes (write_of base (view net.now) out.old) result out.new }
{
    let given = Given::check(base, memory::nodes(net))?;
    if out.len() < response::messages_length(given.nodes) {
        return Err(Fault::Room);
    }
    let mut at = 0;
    for k in 0..response::message_count(given.nodes) {
        at += put_message(net, given, k, &mut out[at..]);
    }
    Ok(at)
}

// ---- reading

// The metrics of message k, at the front of a part, are added to those of the messages before it. Refused as Message where a field is wrong.
#[tactic(auto, unfolding(response::specs::Messages::message_count_of, response::specs::Messages::entry_count_of))]
fn read_message(part: &[u8], given: Given, k: u32, metrics: &mut Metrics) -> Result<(), Fault>
    requires k_bound { k < message_count_of given.nodes }
    requires long_enough { header_length + entry_count_of given.nodes k * entry_length ≤ length part.now }
    requires before { array_vec_len metrics.old ≡ first_node k }
    ensures number { answered result ≡ cond (message_fault given.base (first_node k) (entry_count_of given.nodes k) part.now) 14 0 }
    ensures metrics { OnOk result (metrics.new.items ≡ metrics.old.items ++ message_metrics (entry_count_of given.nodes k) part.now) }
{
    if reading::word(&part[..response::HEADER_LENGTH], 0) != HEADER_WORD {
        return Err(Fault::Message);
    }
    let first = k * response::MOST_ENTRIES;
    for i in 0..response::entry_count(given.nodes, k) {
        let at = response::HEADER_LENGTH + i as usize * response::ENTRY_LENGTH;
        let entry = &part[at..at + response::ENTRY_LENGTH];
        let metric = response::read_entry(entry, given.address(first + i)).ok_or(Fault::Message)?;
        metrics.push(metric);
    }
    Ok(())
}

// Reads messages back, given base and n: the metrics of nodes 0 to n-1. Refused as Base for a base whose last byte isn't 0, as Range for n of 0 or
// above 32, and as Message for a wrong length or field.
#[tactic(auto, unfolding(response::specs::Messages::message_count_of, response::specs::Messages::entry_count_of, response::specs::Messages::messages_length_of))]
pub fn read_messages(bytes: &[u8], base: u32, n: u32) -> Result<Metrics, Fault>
    ensures number { answered result ≡ (read_of base n bytes.now).number }
    ensures metrics { IfOk result (λ m. m.items ≡ (read_of base n bytes.now).metrics) }
{
    let given = Given::check(base, n)?;
    if bytes.len() != response::messages_length(given.nodes) {
        return Err(Fault::Message);
    }
    let mut metrics = Metrics::new();
    for k in 0..response::message_count(given.nodes) {
        let at = k as usize * response::FULL_LENGTH;
        read_message(&bytes[at..], given, k, &mut metrics)?;
    }
    Ok(metrics)
}
