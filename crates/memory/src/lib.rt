// A network in words that the caller lends: fresh networks, changes and grades, and the reading and placing of arcs, rows and reports.
//
// Contracts go through `view`, the network that the words give (specs/Layout.antt), and hold for any words. A refused call leaves every word as it
// stood, but for `make_fresh`: refused or not, it makes the words give a fresh network, and says nothing of words that play no part in it. Of
// the public functions only `list_word`, `cost_word`, `held_label_word` and `held_list_word` read such words. No public function has a precondition.
#![tactic(auto)]

ghost use Rattle.std.specs.Prelude.{◌≡◌, ◌+◌, ◌*◌, cond, ◌<◌, ◌≤◌, length};
ghost use Rattle.network.specs.Answered.{answered};
ghost use Rattle.network.specs.Faults.{max_nodes, max_cost, size_fault, pair_fault_of};
ghost use Rattle.network.specs.Network.{fresh_net, fresh_of};
ghost use Rattle.network.specs.Arcs.{arcs_to, arc_words_of};
ghost use Rattle.network.specs.Placing.{place_row_number, place_row_of, place_report_number, place_report_of};
ghost use Rattle.network.specs.Change.{changed, change_of, grade_of};
ghost use Rattle.memory.specs.Layout.{word_count, held_lists, view, list_word_of, pair_word_of, cost_word_of, held_label_word_of, held_list_word_of};
ghost use Rattle.memory.specs.Inner.{PairOf, Blank};
ghost use Rattle.memory.specs.Answers.{Leaves, Starts, read_row, row_means, read_arcs, arcs_means, read_cost, cost_means, read_held_of, held_means};

use network::{Fault, HeldReport, Pair, Route};

// Nodes are numbers of 32 bits and an index is a `usize`, for which std has no `From<u32>`: `as usize` below.

// Words for something of each node, and of each pair.
const BY_NODE: usize = network::NODES;

const BY_PAIR: usize = BY_NODE * BY_NODE;

// Where what lies in the words of a network, as specs/Layout.antt says: for this crate and `routing` alone.
pub const NODES: usize = 0;

pub const ORIGIN: usize = 1;
// By node.
pub const ROW_LABELS: usize = 32;

pub const ROW_PREDECESSORS: usize = ROW_LABELS + BY_NODE;

pub const ROW_LISTS: usize = ROW_PREDECESSORS + BY_NODE;
// By receiver: bit s for the arc from s.
pub const ARCS: usize = ROW_LISTS + BY_NODE;
// By receiver times 32 plus sender; costs are stored less one.
pub const COSTS: usize = ARCS + BY_NODE;

pub const HELD_LABELS: usize = COSTS + BY_PAIR;

pub const HELD_LISTS: usize = HELD_LABELS + BY_PAIR;

// How many words there are.
pub const WORDS: usize = HELD_LISTS + BY_PAIR;

// The words of a network: an array and no struct, since callers lend them, C too, as words in fixed memory; so calls on them are functions.
pub type Network = [u32; WORDS];

// A node's row as it is read, with its hops.
#[derive(Clone, Copy)]
pub enum RowRead {
    NoRoute,
    // Label 0 and no predecessor.
    Origin { list: u32, hops: u32 },
    Relay { route: Route, hops: u32 },
}

// The number of nodes.
#[tactic(auto, unfolding(crate::specs::Layout::view, crate::specs::Layout::net_of, crate::specs::Layout::frame_in))]
pub fn nodes(net: &Network) -> u32
    ensures { result ≡ (view net.now).nodes }
{
    net[NODES].min(network::MAX_NODES)
}

// The origin.
#[tactic(auto, using(crate::proofs::Store::read_first))]
pub fn origin(net: &Network) -> u32
    ensures { result ≡ (view net.now).origin }
{
    net[ORIGIN]
}

// ---- fresh

#[tactic(auto, using(crate::proofs::Starting::blank_words))]
fn zeros() -> Network
    ensures { Blank result }
{
    [0u32; WORDS]
}

#[tactic(auto, using(crate::proofs::Starting::fresh_view))]
fn fresh_words(n: u32, origin: u32) -> Network
    requires n_bound { n ≤ 32 }
    requires origin_lt_n { origin < n }
    ensures { view result ≡ fresh_net n origin }
{
    let mut net = zeros();
    net[NODES] = n;
    net[ORIGIN] = origin;
    net
}

// Makes the lent words a network of n nodes with no arcs and no routes but the origin's. Refused as Range for n or an origin, and then they are
// the fresh network of one node.
#[tactic(auto, using(crate::proofs::Laws::starts_refused, crate::proofs::Laws::starts_accepted, network::proofs::FaultLaws::size_says), unfolding(network::specs::Network::fresh_of, network::specs::Network::fresh_number, network::specs::Faults::size_fault))]
pub fn make_fresh(net: &mut Network, n: u32, origin: u32) -> Result<(), Fault>
    ensures { Starts (fresh_of n origin) (answered result) net.new }
{
    // Three tests and not one: the compiler would clear the words before it, also where a caller has no use for them.
    if n == 0 {
        *net = fresh_words(1, 0);
        return Err(Fault::Range);
    }
    if network::MAX_NODES < n {
        *net = fresh_words(1, 0);
        return Err(Fault::Range);
    }
    if n <= origin {
        *net = fresh_words(1, 0);
        return Err(Fault::Range);
    }
    *net = fresh_words(n, origin);
    Ok(())
}

// Whether a pair of nodes is bad for the network.
fn bad_pair(net: &Network, pair: Pair) -> bool
    ensures { result ≡ pair_fault_of (view net.now).nodes pair.sender pair.receiver }
{
    faults::pair_fault(nodes(net), pair)
}

// Where a pair lies among the words of pairs.
fn place(pair: Pair) -> usize
    ensures { result ≡ pair.receiver * 32 + pair.sender }
{
    pair.receiver as usize * BY_NODE + pair.sender as usize
}

// ---- change and grade

#[tactic(auto, using(crate::proofs::Changing::removed_words))]
fn remove_arc(net: &mut Network, pair: Pair)
    requires { PairOf net.old pair.sender pair.receiver }
    ensures { view net.new ≡ changed (view net.old) pair.sender pair.receiver 0 }
{
    let of = ARCS + pair.receiver as usize;
    net[of] = ancestors::left_out(net[of], pair.sender);
}

#[tactic(auto, using(crate::proofs::Changing::new_arc, crate::proofs::Changing::kept_arc))]
fn set_arc(net: &mut Network, pair: Pair, cost: u32)
    requires pair { PairOf net.old pair.sender pair.receiver }
    requires cost_nonzero { 0 < cost }
    requires cost_le_max_cost { cost ≤ max_cost }
    ensures { view net.new ≡ changed (view net.old) pair.sender pair.receiver cost }
{
    let of = ARCS + pair.receiver as usize;
    let at = place(pair);
    let arcs = net[of];
    // A new arc holds an empty report.
    if !ancestors::listed(arcs, pair.sender) {
        net[HELD_LISTS + at] = 0;
    }
    net[of] = ancestors::joined(arcs, pair.sender);
    net[COSTS + at] = cost - 1;
}

// What a change and a grade do with a cost within the limit.
#[tactic(auto, using(crate::proofs::Store::pair_found, crate::proofs::Laws::leaves_refused, crate::proofs::Laws::leaves_accepted), unfolding(network::specs::Change::change_of, network::specs::Change::change_number, network::specs::Faults::cost_fault))]
fn set_cost(net: &mut Network, pair: Pair, cost: u32) -> Result<(), Fault>
    requires { cost ≤ max_cost }
    ensures { Leaves (change_of (view net.old) pair.sender pair.receiver cost) (answered result) net.old net.new }
{
    if bad_pair(net, pair) {
        return Err(Fault::Range);
    }
    if cost == 0 {
        remove_arc(net, pair);
    } else {
        set_arc(net, pair, cost);
    }
    Ok(())
}

// A change and a grade share `set_cost`; what is left of each is its own limit and what its number stands for, so that one function would be no plainer.

// Sets the cost of a pair; cost 0 removes the arc. Refused as Range for a bad pair or a cost above 65,535.
#[tactic(auto, using(crate::proofs::Laws::leaves_refused), unfolding(network::specs::Change::change_of, network::specs::Change::change_number, network::specs::Faults::cost_fault))]
pub fn change(net: &mut Network, pair: Pair, cost: u32) -> Result<(), Fault>
    ensures { Leaves (change_of (view net.old) pair.sender pair.receiver cost) (answered result) net.old net.new }
{
    if network::MAX_COST < cost {
        return Err(Fault::Range);
    }
    set_cost(net, pair, cost)
}

// Sets the cost of a pair to that of a grade; grade 0 removes the arc. Refused as Range for a bad pair or a grade above 15.
#[tactic(auto, using(crate::proofs::Laws::leaves_refused, network::proofs::Grades::grade_small), unfolding(network::specs::Change::grade_of, network::specs::Change::grade_number, network::specs::Faults::grade_fault, network::specs::Change::change_of, network::specs::Change::change_number, network::specs::Faults::cost_fault))]
pub fn grade(net: &mut Network, pair: Pair, grade: u32) -> Result<(), Fault>
    ensures { Leaves (grade_of (view net.old) pair.sender pair.receiver grade) (answered result) net.old net.new }
{
    if network::MAX_GRADE < grade {
        return Err(Fault::Range);
    }
    set_cost(net, pair, faults::grade_cost(grade))
}

// ---- reading

// A node's row. Refused as Range for a node not below n.
#[tactic(auto, unfolding(crate::specs::Answers::read_row, crate::specs::Answers::row_means, crate::specs::Answers::row_hops, network::specs::Faults::node_fault, crate::specs::Layout::view, crate::specs::Layout::net_of, crate::specs::Layout::frame_in, crate::specs::Layout::node_row, crate::specs::Layout::row_of, crate::specs::Layout::word))]
pub fn row(net: &Network, node: u32) -> Result<RowRead, Fault>
    ensures { row_means result ≡ read_row (view net.now) node }
{
    if nodes(net) <= node {
        return Err(Fault::Range);
    }
    if node == net[ORIGIN] {
        let own = ancestors::joined(0, node);
        return Ok(RowRead::Origin {
            list: own,
            hops: ancestors::count_hops(own),
        });
    }
    let y = node as usize;
    let list = net[ROW_LISTS + y];
    if list == 0 {
        return Ok(RowRead::NoRoute);
    }
    Ok(RowRead::Relay {
        route: Route {
            label: net[ROW_LABELS + y],
            predecessor: net[ROW_PREDECESSORS + y],
            list,
        },
        hops: ancestors::count_hops(list),
    })
}

// The arcs of any of 32 nodes, as a word; 0 where it is not below n.
#[tactic(auto, using(crate::proofs::ArcLaws::arcs_word))]
fn arc_word(net: &Network, n: u32, receiver: u32) -> u32
    requires n_value { n ≡ (view net.now).nodes }
    requires receiver_lt_max_nodes { receiver < max_nodes }
    ensures { result ≡ arcs_to (view net.now) receiver }
{
    net[ARCS + receiver as usize] & faults::senders(n, receiver)
}

// A receiver's arcs: bit s is 1 where the arc from s is present. Refused as Range for a receiver not below n.
#[tactic(auto, using(crate::proofs::Laws::few, network::proofs::FaultLaws::node_bad, network::proofs::FaultLaws::node_free), unfolding(crate::specs::Answers::arcs_means, crate::specs::Answers::read_arcs))]
pub fn arcs(net: &Network, receiver: u32) -> Result<u32, Fault>
    ensures { arcs_means result ≡ read_arcs (view net.now) receiver }
{
    let n = nodes(net);
    if n <= receiver {
        return Err(Fault::Range);
    }
    Ok(arc_word(net, n, receiver))
}

// Puts the arcs of each of 32 nodes into lent words, in the order of marks; 0 from n on.
pub fn arc_words(net: &Network, words: &mut [u32; BY_NODE])
    ensures { words.new ≡ arc_words_of (view net.now) }
{
    let n = nodes(net);
    *words = [0u32; BY_NODE];
    // By number and not by `iter_mut().enumerate()`: passing all 32 words takes longer with few nodes.
    for r in 0u32..n {
        words[r as usize] = arc_word(net, n, r);
    }
}

// What the words hold of any of 32 nodes, or of any pair of them, whatever n and the origin are and whether or not there is an arc: the next four calls.
// n is not read, so that a caller that keeps to nodes below n, and to arcs that it knows, does not have it read each time.

// The word of a node's list; 0 for other numbers. For a relay it is the list of its row, 0 where it has no route; the origin's plays no part.
#[tactic(auto, unfolding(crate::specs::Layout::list_word_of, crate::specs::Layout::word))]
pub fn list_word(net: &Network, node: u32) -> u32
    ensures { result ≡ list_word_of net.now node }
{
    if network::MAX_NODES <= node {
        return 0;
    }
    net[ROW_LISTS + node as usize]
}

// The word of a pair among those from a place on; 0 for other numbers.
#[tactic(auto, unfolding(crate::specs::Layout::pair_word_of))]
fn pair_word(net: &Network, from: usize, pair: Pair) -> u32
    requires { from ≤ held_lists }
    ensures { result ≡ pair_word_of net.now from pair.sender pair.receiver }
{
    if network::MAX_NODES <= pair.sender || network::MAX_NODES <= pair.receiver {
        return 0;
    }
    net[from + place(pair)]
}

// The cost of the pair's arc, where there is one.
#[tactic(auto, unfolding(network::specs::Words::cost_of))]
pub fn cost_word(net: &Network, pair: Pair) -> u32
    ensures { result ≡ cost_word_of net.now pair.sender pair.receiver }
{
    pair_word(net, COSTS, pair) % 65536 + 1
}

// The label of the report that it holds.
pub fn held_label_word(net: &Network, pair: Pair) -> u32
    ensures { result ≡ held_label_word_of net.now pair.sender pair.receiver }
{
    pair_word(net, HELD_LABELS, pair)
}

// The list of the report that it holds; 0 where that report is empty.
pub fn held_list_word(net: &Network, pair: Pair) -> u32
    ensures { result ≡ held_list_word_of net.now pair.sender pair.receiver }
{
    pair_word(net, HELD_LISTS, pair)
}

// The cost of the arc from sender to receiver, 0 where there is no arc. Refused as Range for a bad pair.
#[tactic(auto, unfolding(crate::specs::Answers::read_cost, crate::specs::Answers::cost_means, crate::specs::Layout::view, crate::specs::Layout::net_of, crate::specs::Layout::frame_in, crate::specs::Layout::at_arc, crate::specs::Layout::present, crate::specs::Layout::pair_word_of, network::specs::Faults::pair_fault_of))]
pub fn arc_cost(net: &Network, pair: Pair) -> Result<u32, Fault>
    ensures { cost_means result ≡ read_cost (view net.now) pair.sender pair.receiver }
{
    if bad_pair(net, pair) {
        return Err(Fault::Range);
    }
    if !ancestors::listed(net[ARCS + pair.receiver as usize], pair.sender) {
        return Ok(0);
    }
    Ok(cost_word(net, pair))
}

// The report that the arc from sender to receiver holds, if it isn't empty. Refused as Range for a bad pair.
#[tactic(auto, unfolding(crate::specs::Answers::read_held_of, crate::specs::Answers::held_means, network::specs::Words::report_of, crate::specs::Layout::view, crate::specs::Layout::net_of, crate::specs::Layout::frame_in, crate::specs::Layout::at_arc, crate::specs::Layout::present, crate::specs::Layout::pair_word_of, network::specs::Faults::pair_fault_of))]
pub fn held(net: &Network, pair: Pair) -> Result<Option<HeldReport>, Fault>
    ensures { held_means result ≡ read_held_of (view net.now) pair.sender pair.receiver }
{
    if bad_pair(net, pair) {
        return Err(Fault::Range);
    }
    let list = held_list_word(net, pair);
    if list == 0 || !ancestors::listed(net[ARCS + pair.receiver as usize], pair.sender) {
        return Ok(None);
    }
    Ok(Some(HeldReport {
        label: held_label_word(net, pair),
        list,
    }))
}

// ---- placing

// Whether `place_row` would be accepted.
#[tactic(auto, using(crate::proofs::Store::read_first), unfolding(network::specs::Placing::place_row_number, network::specs::Faults::node_fault))]
fn check_row(net: &Network, node: u32, route: Route) -> Result<(), Fault>
    ensures { answered result ≡ place_row_number (view net.now) node route.label route.predecessor route.list }
{
    let n = nodes(net);
    if n <= node {
        return Err(Fault::Range);
    }
    faults::check_row(n, net[ORIGIN], node, route)
}

// Sets a relay's row. Refused as Range for a node not below n; then, of its form, as Form for a row for the origin, and for label, predecessor or
// list.
#[tactic(auto, using(crate::proofs::Placing::row_beyond, crate::proofs::Placing::placed_row))]
pub fn place_row(net: &mut Network, node: u32, route: Route) -> Result<(), Fault>
    ensures { Leaves (place_row_of (view net.old) node route.label route.predecessor route.list) (answered result) net.old net.new }
{
    check_row(net, node, route)?;
    let y = node as usize;
    net[ROW_LABELS + y] = route.label;
    net[ROW_PREDECESSORS + y] = route.predecessor;
    net[ROW_LISTS + y] = route.list;
    Ok(())
}

// Whether `place_report` would be accepted.
#[tactic(auto, unfolding(network::specs::Placing::place_report_number, crate::specs::Answers::read_cost, crate::specs::Answers::cost_means))]
fn check_report(net: &Network, pair: Pair, report: HeldReport) -> Result<(), Fault>
    ensures { answered result ≡ place_report_number (view net.now) pair.sender pair.receiver report.label report.list }
{
    let cost = arc_cost(net, pair)?;
    faults::check_report(nodes(net), cost, pair.sender, report)
}

// Sets the report that an arc holds. Refused as Range for a bad pair; then, of its form, as Form for a pair without an arc, and for label or list.
#[tactic(auto, using(crate::proofs::Placing::report_beyond, crate::proofs::Placing::placed_report))]
pub fn place_report(net: &mut Network, pair: Pair, report: HeldReport) -> Result<(), Fault>
    ensures { Leaves (place_report_of (view net.old) pair.sender pair.receiver report.label report.list) (answered result) net.old net.new }
{
    check_report(net, pair, report)?;
    let at = place(pair);
    net[HELD_LABELS + at] = report.label;
    net[HELD_LISTS + at] = report.list;
    Ok(())
}
