// The network: limits, the reasons for which a call is refused, and the types of a pair of nodes, a row with a route and a held report. specs/ has
// document 01's definitions, proofs/ their laws. The rule on numbers and slices is in the crate `rule`, the calls on a network in `memory` and
// `routing`.
#![tactic(auto)]

ghost use Rattle.std.specs.Prelude.{◌≡◌};
ghost use Rattle.network.specs.Answered.{fault_number};

// The most nodes, as a size and as a number (a cast, since a constant can't call `try_from`); and the largest label: 31 times the largest cost.
pub const NODES: usize = 32;

pub const MAX_NODES: u32 = NODES as u32;

pub const MAX_COST: u32 = 65535;

pub const MAX_LABEL: u32 = 31 * 65535;

pub const MAX_GRADE: u32 = 15;

// Why a call is refused.
#[derive(Clone, Copy, PartialEq, Eq)]
pub enum Fault {
    Cut,
    Kind,
    Range,
    Order,
    Form,
    Room,
    Mark,
    NoRoute,
    Broken,
    Label,
    Predecessor,
    List,
    Base,
    Message,
}

// Its number.
impl From<Fault> for u8 {
    ghost from_gives = { λ fault number. number ≡ fault_number fault };

    fn from(fault: Fault) -> u8 {
        match fault {
            Fault::Cut => 1,
            Fault::Kind => 2,
            Fault::Range => 3,
            Fault::Order => 4,
            Fault::Form => 5,
            Fault::Room => 6,
            Fault::Mark => 7,
            Fault::NoRoute => 8,
            Fault::Broken => 9,
            Fault::Label => 10,
            Fault::Predecessor => 11,
            Fault::List => 12,
            Fault::Base => 13,
            Fault::Message => 14,
        }
    }
}

// An ordered pair of nodes.
#[derive(Clone, Copy)]
pub struct Pair {
    pub sender: u32,
    pub receiver: u32,
}

// What a relay's row with a route has.
#[derive(Clone, Copy)]
pub struct Route {
    pub label: u32,
    pub predecessor: u32,
    pub list: u32,
}

// What a held report has that isn't empty.
#[derive(Clone, Copy)]
pub struct HeldReport {
    pub label: u32,
    pub list: u32,
}
