// Opening an image: its records are read one after another and placed on a fresh network.
//
// Contracts go through `memory`'s `view`. Refused or not, `open_into` says which network the lent words give, and nothing of words that play no part in
// it. No public function has a precondition; the private ones ask for small nodes and ranks and for a start within the input.
#![tactic(auto)]

ghost use Rattle.std.specs.Prelude.{◌≡◌, ◌<◌, ◌≤◌, length, drop};
ghost use Rattle.network.specs.Faults.{pair_count};
ghost use Rattle.memory.specs.Layout.{view};
ghost use Rattle.records.specs.Opening.{rank_count, arc_rank, read_records_of, open_of};
ghost use Rattle.records.specs.declared.ArcChange.TheVariants.{Set};
ghost use Rattle.records.specs.declared.Event.TheVariants.{Change, Row, Report};
ghost use Rattle.opening.specs.Answers.{ranks_above, Places, read_means, Opens};

use memory::Network;
use network::{Fault, HeldReport, NODES, Pair, Route};
use records::{ArcChange, Event, Stop};

// ---- placing

// Image order (records/specs/Opening.antt): a place for each pair of nodes, then one for each node, then one for each pair.
const FIRST_ROW: usize = NODES * NODES;

const FIRST_REPORT: usize = FIRST_ROW + NODES;

// The rank of a pair among pairs. Std has no `From<u32>` for `usize`.
#[tactic(auto, unfolding(records::specs::Opening::arc_rank))]
fn pair_rank(pair: Pair) -> usize
    requires sender_bound { pair.sender < 32 }
    requires receiver_bound { pair.receiver < 32 }
    ensures { (result ≡ arc_rank pair.sender pair.receiver) × (result < pair_count) }
{
    pair.sender as usize * NODES + pair.receiver as usize
}

// The ranks from the answer on are above this one. Refused as Order for a rank below `next`.
fn in_order(next: usize, rank: usize) -> Result<usize, Fault>
    requires { rank < rank_count }
    ensures { result ≡ ranks_above next rank }
{
    if rank < next {
        return Err(Fault::Order);
    }
    Ok(rank + 1)
}

// The next functions place a record and answer the ranks above it, None for the end of the image. Each has a test, a rank and a call of its own, so that one
// function over closures, or a struct of the network and `next`, would be no plainer. Nor would one of the network, lent to be changed, and the input.

// Sets an arc of the image: Range for the pair or the cost, then Order.
#[tactic(auto, using(memory::proofs::Laws::few, network::proofs::FaultLaws::pair_says), unfolding(records::specs::Opening::placed, records::specs::Opening::judged, records::specs::Opening::order_number, network::specs::Faults::first_number, network::specs::Network::outcome, records::specs::Opening::arc_number, network::specs::Faults::cost_fault, network::specs::Change::change_number, network::specs::Change::change_of))]
fn place_arc(net: &mut Network, next: usize, pair: Pair, cost: u32) -> Result<Option<usize>, Fault>
    ensures { Places (view net.old) next (Change (Set pair.sender pair.receiver cost)) result (view net.new) }
{
    if faults::pair_fault(memory::nodes(net), pair) || network::MAX_COST < cost {
        return Err(Fault::Range);
    }
    let above = in_order(next, pair_rank(pair))?;
    memory::change(net, pair, cost)?;
    Ok(Some(above))
}

// Sets a row of the image: Range, Order, then the fault of its form.
#[tactic(auto, using(memory::proofs::Laws::few), unfolding(records::specs::Opening::placed, records::specs::Opening::judged, records::specs::Opening::order_number, network::specs::Faults::first_number, network::specs::Network::outcome, records::specs::Opening::row_number_of, records::specs::Opening::row_rank, network::specs::Faults::node_fault, network::specs::Placing::place_row_of))]
fn place_row(
    net: &mut Network,
    next: usize,
    node: u32,
    route: Route,
) -> Result<Option<usize>, Fault>
    ensures { Places (view net.old) next (Row node route.label route.predecessor route.list) result (view net.new) }
{
    if memory::nodes(net) <= node {
        return Err(Fault::Range);
    }
    let above = in_order(next, FIRST_ROW + node as usize)?;
    memory::place_row(net, node, route)?;
    Ok(Some(above))
}

// Sets a held report of the image: Range, Order, then the fault of its form.
#[tactic(auto, using(memory::proofs::Laws::few, network::proofs::FaultLaws::pair_says), unfolding(records::specs::Opening::placed, records::specs::Opening::judged, records::specs::Opening::order_number, network::specs::Faults::first_number, network::specs::Network::outcome, records::specs::Opening::report_number_of, records::specs::Opening::report_rank, network::specs::Placing::place_report_of))]
fn place_report(
    net: &mut Network,
    next: usize,
    pair: Pair,
    report: HeldReport,
) -> Result<Option<usize>, Fault>
    ensures { Places (view net.old) next (Report pair.sender pair.receiver report.label report.list) result (view net.new) }
{
    if faults::pair_fault(memory::nodes(net), pair) {
        return Err(Fault::Range);
    }
    let above = in_order(next, FIRST_REPORT + pair_rank(pair))?;
    memory::place_report(net, pair, report)?;
    Ok(Some(above))
}

// Places a record of an image on the network; in an image cost 0 is refused as Range.
#[tactic(auto, unfolding(records::specs::Opening::placed))]
fn place_event(net: &mut Network, next: usize, event: Event) -> Result<Option<usize>, Fault>
    ensures { Places (view net.old) next event result (view net.new) }
{
    match event {
        Event::End => Ok(None),
        Event::Change(
            ArcChange::Set {
                sender,
                receiver,
                cost,
            },
        ) => place_arc(net, next, Pair { sender, receiver }, cost),
        Event::Change(ArcChange::Removed { .. }) => Err(Fault::Range),
        Event::Row {
            node,
            label,
            predecessor,
            list,
        } => place_row(
            net,
            next,
            node,
            Route {
                label,
                predecessor,
                list,
            },
        ),
        Event::Report {
            sender,
            receiver,
            label,
            list,
        } => place_report(
            net,
            next,
            Pair { sender, receiver },
            HeldReport { label, list },
        ),
        Event::Refusal { fault, .. } => Err(fault),
        Event::Header { .. } | Event::Round | Event::FullRound => Err(Fault::Kind),
    }
}

// ---- opening

// Reads the records from `start` on and places each, up to the end of the image; the answer is the bytes up to there.
fn read_records(net: &mut Network, input: &[u8], start: usize) -> Result<usize, Stop>
    requires start_nonzero { 0 < start }
    requires start_in_bounds { start ≤ length input.now }
    ensures { read_means result (view net.new) ≡ read_records_of (length input.now) (view net.old) 0 start (drop start input.now) }
{
    let mut next = 0usize;
    let mut at = start;
    // A `loop`: each record has its own length, and one of them is the image's end.
    loop {
        let record = reading::image_record(input, at);
        match place_event(net, next, record.event) {
            Err(fault) => return Err(Stop { fault, place: at }),
            Ok(None) => return Ok(at + 1),
            Ok(Some(above)) => {
                next = above;
                at += record.used;
            }
        }
    }
}

// Opens an image into lent words: they become its network, and the answer is the bytes used; or, refused, they are the fresh network of one node.
#[tactic(auto, using(records::proofs::Reading::length_within, records::proofs::Reading::length_some), unfolding(records::specs::Opening::open_of, records::specs::Opening::started, records::specs::Opening::headed, network::specs::Network::fresh_of, network::specs::Network::outcome))]
pub fn open_into(net: &mut Network, input: &[u8]) -> Result<usize, Stop>
    ensures { Opens (open_of input.now) result net.new }
{
    let first = reading::start_record(input);
    let opened = match first.event {
        Event::Header { nodes, origin } => {
            // Refused, the words are the fresh network of one node already.
            memory::make_fresh(net, nodes, origin).map_err(|fault| Stop { fault, place: 0 })?;
            read_records(net, input, first.used)
        }
        Event::Refusal { fault, place } => Err(Stop { fault, place }),
        _ => Err(Stop {
            fault: Fault::Kind,
            place: 0,
        }),
    };
    if opened.is_err() {
        // One node and the origin 0 are in range.
        let _ = memory::make_fresh(net, 1, 0);
    }
    opened
}
