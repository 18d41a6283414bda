// State files: the bytes of each kind, what reading a record finds, and with what an input is refused. Definitions in specs/, the acceptance theorem in
// proofs/. There are no functions.
#![tactic(auto)]

use network::Fault;

// The body bytes of each kind that has a body.
pub const HEADER_BODY: usize = 2;

pub const ARC_BODY: usize = 4;

pub const ROW_BODY: usize = 10;

pub const REPORT_BODY: usize = 10;

pub const ROUND_BODY: usize = 128;

pub const GRADE_BODY: usize = 3;

// A change of an arc.
#[derive(Clone, Copy, PartialEq, Eq)]
pub enum ArcChange {
    Set {
        sender: u32,
        receiver: u32,
        cost: u32,
    },
    Removed {
        sender: u32,
        receiver: u32,
    },
}

// A record that was read: a change, a round or a refusal with its fault and place, and what else an image has. A refusal is a case and no `Err`: the
// definitions of records go by events, and a refused grade has its record's length, so that a `Result` would be no plainer.
#[derive(Clone, Copy, PartialEq, Eq)]
pub enum Event {
    End,
    Header {
        nodes: u32,
        origin: u32,
    },
    Change(ArcChange),
    Row {
        node: u32,
        label: u32,
        predecessor: u32,
        list: u32,
    },
    Report {
        sender: u32,
        receiver: u32,
        label: u32,
        list: u32,
    },
    // The marks are the record's body and stay there.
    Round,
    FullRound,
    Refusal {
        fault: Fault,
        place: usize,
    },
}

// A record that was read, and the bytes that it takes, its kind byte among them; 0 where it was refused for its kind or was cut.
#[derive(Clone, Copy, PartialEq, Eq)]
pub struct Record {
    pub event: Event,
    pub used: usize,
}

// With what an input is refused, and where.
#[derive(Clone, Copy, PartialEq, Eq)]
pub struct Stop {
    pub fault: Fault,
    pub place: usize,
}
