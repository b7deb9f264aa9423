// The records that the lists of the state hold (book.rs of the Rust) and, in a module of its own, the configuration. Each kind of list is a crate of its own above this one.
// Each enum has the blank's case first, so that a slot of zeros and first cases is the blank entry.
#![tactic(auto)]

pub mod config;

ghost use Rattle.std.specs.Prelude.{◌≡◌};
ghost use Rattle.book.specs.Entries.{remaining, in_state, is_terminal, is_open, is_later, is_activation, is_expiry, blank_order, blank_msg, blank_delivery, blank_obs, blank_open};
ghost use Rattle.book.specs.Numbers.{side_number, exec_number, origin_number};

use lists::Blank;

// The Rust's Dir.
#[derive(Clone, Copy, PartialEq, Eq, Default)]
pub enum Side {
    #[default]
    Buy,
    Sell,
}

// The paper's number, beside its case here and in the others of this kind: as a discriminant it would be part of the type, and an enum of which a case holds something, as `runtext::Fault`, could not be cast.
impl From<Side> for u64 {
    ghost from_gives = { λ side n. n ≡ side_number side };

    fn from(side: Side) -> u64 {
        match side {
            Side::Buy => 0,
            Side::Sell => 1,
        }
    }
}

#[derive(Clone, Copy, PartialEq, Eq, Default)]
pub enum OrderState {
    #[default]
    Submitted,
    Active,
    Filled,
    Canceled,
    Rejected,
}

impl OrderState {
    pub fn is_terminal(self) -> bool
        ensures { result ≡ is_terminal self }
    {
        matches!(
            &self,
            OrderState::Filled | OrderState::Canceled | OrderState::Rejected
        )
    }
}

// An order at the venue: resting, pending activation or awaiting a cancel's outcome.
#[derive(Clone, Copy, Default)]
pub struct VenueOrder {
    pub id: u64,
    pub price: u64,
    pub qty: u64,
    pub filled: u64,
    pub active_after_ns: u64,
    pub side: Side,
    pub state: OrderState,
    pub cancel_inflight: bool,
}

impl Blank for VenueOrder {
    ghost blank = { blank_order };

    fn blank() -> Self {
        Self::default()
    }
}

impl VenueOrder {
    pub fn remaining(&self) -> u64
        ensures { result ≡ remaining self.now }
    {
        self.qty.saturating_sub(self.filled)
    }

    // The order in another state.
    pub fn in_state(self, state: OrderState) -> Self
        ensures { result ≡ in_state self state }
    {
        VenueOrder { state, ..self }
    }

    // Whether it has this number and is not terminal.
    pub fn is_open(&self, id: u64) -> bool
        ensures { result ≡ is_open id self.now }
    {
        self.id == id && !self.state.is_terminal()
    }
}

// A message holds one of three kinds. An activation carries a whole order and its life, 0 for none, as the papers have it.
#[derive(Clone, Copy)]
pub enum MsgKind {
    Cancel { id: u64 },
    Activate { order: VenueOrder, life: u64 },
    Expire { id: u64 },
}

// A venue message, keyed by (eff_ns, seq).
#[derive(Clone, Copy)]
pub struct VenueMsg {
    pub eff_ns: u64,
    pub seq: u64,
    pub kind: MsgKind,
}

impl Blank for VenueMsg {
    ghost blank = { blank_msg };

    // By hand: `Default` is derived of an enum only by a case that holds nothing, and each kind of message holds something.
    fn blank() -> Self {
        VenueMsg {
            eff_ns: 0,
            seq: 0,
            kind: MsgKind::Cancel { id: 0 },
        }
    }
}

impl VenueMsg {
    // Whether its pair is greater than (eff_ns, seq).
    pub fn is_later(&self, eff_ns: u64, seq: u64) -> bool
        ensures { result ≡ is_later eff_ns seq self.now }
    {
        (self.eff_ns, self.seq) > (eff_ns, seq)
    }

    pub fn is_activation(&self, id: u64) -> bool
        ensures { result ≡ is_activation id self.now }
    {
        matches!(&self.kind, MsgKind::Activate { order, .. } if order.id == id)
    }

    pub fn is_expiry(&self, id: u64) -> bool
        ensures { result ≡ is_expiry id self.now }
    {
        matches!(&self.kind, MsgKind::Expire { id: target } if *target == id)
    }
}

#[derive(Clone, Copy, PartialEq, Eq, Default)]
pub enum ExecKind {
    #[default]
    Accepted,
    Rejected,
    Canceled,
    CancelRejected,
    PartialFill,
    Fill,
}

// The paper's number.
impl From<ExecKind> for u64 {
    ghost from_gives = { λ kind n. n ≡ exec_number kind };

    fn from(kind: ExecKind) -> u64 {
        match kind {
            ExecKind::Accepted => 0,
            ExecKind::Rejected => 1,
            ExecKind::Canceled => 2,
            ExecKind::CancelRejected => 3,
            ExecKind::PartialFill => 4,
            ExecKind::Fill => 5,
        }
    }
}

// Where a report was produced.
#[derive(Clone, Copy, PartialEq, Eq, Default)]
pub enum Origin {
    #[default]
    Local,
    Venue,
}

// The paper's number.
impl From<Origin> for u64 {
    ghost from_gives = { λ origin n. n ≡ origin_number origin };

    fn from(origin: Origin) -> u64 {
        match origin {
            Origin::Local => 0,
            Origin::Venue => 1,
        }
    }
}

#[derive(Clone, Copy, Default)]
pub struct ReportRec {
    pub ts_ns: u64,
    pub seq: u64,
    pub order_id: u64,
    pub side: Side,
    pub kind: ExecKind,
    pub origin: Origin,
    pub cancel_pending: bool,
    pub price: u64,
    pub qty: u64,
    pub last: u64,
    pub cum: u64,
}

#[derive(Clone, Copy)]
pub struct FillRec {
    pub ts_ns: u64,
    pub exec_id: u64,
    pub order_id: u64,
    pub side: Side,
    pub price: u64,
    pub qty: u64,
}

// A report on its way to the agent, with the fill's record if it came from a match.
#[derive(Clone, Copy, Default)]
pub struct Delivery {
    pub at_ns: u64,
    pub report: ReportRec,
    pub fill: Option<FillRec>,
}

impl Blank for Delivery {
    ghost blank = { blank_delivery };

    fn blank() -> Self {
        Self::default()
    }
}

// An observation on its way to the agent.
#[derive(Clone, Copy, Default)]
pub struct ObsEntry {
    pub ready_ns: u64,
    pub row: u64,
}

impl Blank for ObsEntry {
    ghost blank = { blank_obs };

    fn blank() -> Self {
        Self::default()
    }
}

// An order that the agent submitted and has not seen closed.
#[derive(Clone, Copy, Default)]
pub struct OpenOrder {
    pub order_id: u64,
    pub awaiting_cancel_outcome: bool,
}

impl Blank for OpenOrder {
    ghost blank = { blank_open };

    fn blank() -> Self {
        Self::default()
    }
}
