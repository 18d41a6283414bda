// The route call: the nodes from the origin to a named node, one byte each, by following predecessors back.
//
// The contract goes through `memory`'s `view` and holds for any words. A refused call writes nothing. The public function has no
// precondition.
#![tactic(auto)]

ghost use Rattle.std.specs.Prelude.{◌≡◌};
ghost use Rattle.network.specs.Answered.{answered};
ghost use Rattle.network.specs.Route.{start_number_of, walk_back_of, route_of};
ghost use Rattle.network.specs.Writing.{Writes};
ghost use Rattle.memory.specs.Layout.{view};
ghost use Rattle.route.specs.Inner.{walked};

use memory::{Network, RowRead};
use network::{Fault, NODES};

// Refused as Range for a node not below n, and as NoRoute for a node without a route.
fn check_start(net: &Network, node: u32) -> Result<(), Fault>
    ensures { answered result ≡ start_number_of (view net.now) node }
{
    match memory::row(net, node)? {
        RowRead::NoRoute => Err(Fault::NoRoute),
        _ => Ok(()),
    }
}

// Follows predecessors back from the node and stores the nodes met from the end of the bytes on, so that the origin comes first. Answers
// the part with the route; none where the walk meets a node without a route or one already met.
fn walk_back<'a>(net: &Network, node: u32, bytes: &'a mut [u8; NODES]) -> Option<&'a [u8]>
    ensures { walked result ≡ walk_back_of (view net.now) node }
{
    let mut met = 0u32;
    let mut y = node;
    for left in (0..NODES).rev() {
        if ancestors::listed(met, y) {
            return None;
        }
        let Ok(row) = memory::row(net, y) else {
            return None;
        };
        match row {
            RowRead::NoRoute => return None,
            RowRead::Origin { list: _, hops: _ } => {
                // A node that has a row is below 32.
                bytes[left] = y as u8;
                return Some(&bytes[left..]);
            }
            RowRead::Relay { route, hops: _ } => {
                bytes[left] = y as u8;
                met = ancestors::joined(met, y);
                y = route.predecessor;
            }
        }
    }
    None
}

// Writes the nodes from the origin to the node into the output. Refused as Range for a node not below n; as NoRoute for a node without a
// route; as Broken where the walk meets a node without a route or one already met; as Room for an output shorter than the route.
pub fn route(net: &Network, node: u32, out: &mut [u8]) -> Result<usize, Fault>
    ensures { Writes (route_of (view net.now) node out.old) result out.new }
{
    check_start(net, node)?;
    // The nodes on the stack (no heap): whether the output has room is known at the walk's end.
    let mut bytes = [0u8; NODES];
    let Some(nodes) = walk_back(net, node, &mut bytes) else {
        return Err(Fault::Broken);
    };
    if out.len() < nodes.len() {
        return Err(Fault::Room);
    }
    Ok(filling::copy(nodes, out))
}
