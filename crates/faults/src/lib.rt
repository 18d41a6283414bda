// Document 01's tests of numbers: a pair of nodes, and a row or a report of an image, by the fault of its form; what is in range for a receiver, as a
// word; and the cost of a grade.
//
// The crate `network` has the definitions. No public function has a precondition.
#![tactic(auto)]

ghost use Rattle.std.specs.Prelude.{◌≡◌, cond, ◌^◌, ltb, leb};
ghost use Rattle.network.specs.Answered.{answered};
ghost use Rattle.network.specs.Faults.{max_label, pair_fault_of, list_fault_of, row_form_number, report_form_number};
ghost use Rattle.network.specs.Arcs.{senders};
ghost use Rattle.network.specs.Change.{grade_cost_of};

use network::{Fault, HeldReport, Pair, Route};

// The cost of each grade; grade 0 removes the arc.
const GRADES: [u32; 16] = [
    0, 600, 480, 380, 300, 240, 190, 150, 120, 95, 75, 60, 48, 38, 30, 24,
];

// Whether the sender or the receiver is not below n, or they are equal.
pub fn pair_fault(n: u32, pair: Pair) -> bool
    ensures { result ≡ pair_fault_of n pair.sender pair.receiver }
{
    if n <= pair.sender.max(pair.receiver) {
        return true;
    }
    pair.sender == pair.receiver
}

// A list of 32 nodes.
const ALL: u32 = u32::MAX;

// What is in range for a receiver among n nodes: a bit for every node but itself, and none where it is not below n.
pub fn senders(n: u32, receiver: u32) -> u32
    ensures { result ≡ senders n receiver }
{
    if n <= receiver {
        return 0;
    }
    ancestors::left_out(ancestors::below(ALL, n), receiver)
}

// A list among n nodes: it has no bit not below n, and the node's. Both are one comparison: the list is its nodes below n but this one, and this one.
fn check_list(n: u32, node: u32, list: u32) -> Result<(), Fault>
    ensures { answered result ≡ cond (list_fault_of n node list) 12 0 }
{
    if n <= node || network::MAX_NODES <= node {
        return Err(Fault::List);
    }
    let others = ancestors::left_out(ancestors::below(ALL, n), node);
    if ancestors::joined(list & others, node) == list {
        return Ok(());
    }
    Err(Fault::List)
}

// Whether a label is above the largest.
fn label_above(label: u32) -> bool
    ensures { result ≡ ltb max_label label }
{
    network::MAX_LABEL < label
}

// A relay's row among n nodes: not for the origin, and then its label, its predecessor and its list within their limits.
pub fn check_row(n: u32, origin: u32, node: u32, route: Route) -> Result<(), Fault>
    ensures { answered result ≡ row_form_number n origin node route.label route.predecessor route.list }
{
    if node == origin {
        return Err(Fault::Form);
    }
    if route.label == 0 {
        return Err(Fault::Label);
    }
    if label_above(route.label) {
        return Err(Fault::Label);
    }
    if n <= route.predecessor {
        return Err(Fault::Predecessor);
    }
    if route.predecessor == node {
        return Err(Fault::Predecessor);
    }
    check_list(n, node, route.list)
}

// A report over an arc of this cost among n nodes: not without an arc, and then its label and its list within their limits.
pub fn check_report(n: u32, cost: u32, sender: u32, report: HeldReport) -> Result<(), Fault>
    ensures { answered result ≡ report_form_number n cost sender report.label report.list }
{
    if cost == 0 {
        return Err(Fault::Form);
    }
    if label_above(report.label) {
        return Err(Fault::Label);
    }
    check_list(n, sender, report.list)
}

// The cost that a grade stands for; 0 above grade 15, as a call that can't fail.
pub fn grade_cost(grade: u32) -> u32
    ensures { result ≡ grade_cost_of grade }
{
    if network::MAX_GRADE < grade {
        return 0;
    }
    // An index is a `usize`, for which std has no `From<u32>`.
    GRADES[grade as usize]
}
