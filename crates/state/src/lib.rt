// The state of the advance (state.rs of the Rust, with the gate's of gate.rs and the agent's of ledger.rs), and the events that it raises.
// The fields and names are the Rust's. Those of one purpose are grouped.
#![tactic(auto)]

ghost use Rattle.std.specs.Prelude.{◌≡◌, Some};
ghost use Rattle.state.specs.Numbers.{is_terminal_phase};
ghost use Rattle.state.specs.Numbers.{halt_number, refusal_number};
ghost use Rattle.state.specs.With.{control_phase, control_resume, control_cursor, control_cur_row, control_status};
ghost use Rattle.state.specs.declared.Phase.TheVariants.{BeforeMatch, AwaitDecision, Terminal};
ghost use Rattle.state.specs.declared.HaltReason.TheVariants.{CounterOverflow};

use account::AgentAccount;
use book::{FillRec, ReportRec};
use deliveries::Deliveries;
use lists::Full;
use msgs::Msgs;
use numbers::position::Position;
use observed::Observed;
use orders::Orders;

#[derive(Clone, Copy, PartialEq, Eq, Default)]
pub enum Phase {
    #[default]
    BeforeMatch,
    ObsQueued,
    AwaitDecision,
    Terminal,
}

impl Phase {
    pub fn is_terminal(self) -> bool
        ensures { result ≡ is_terminal_phase self }
    {
        self == Phase::Terminal
    }
}

// What is printed of it is the paper's number.
#[derive(Clone, Copy, Debug, PartialEq, Eq)]
pub enum HaltReason {
    LedgerOverflow,
    TimeOverflow,
    CounterOverflow,
}

// A list is full: the halt 7.
impl From<Full> for HaltReason {
    ghost from_gives = { λ _ reason. reason ≡ CounterOverflow };

    fn from(_: Full) -> HaltReason {
        HaltReason::CounterOverflow
    }
}

// The paper's number, beside its case, as in `book`.
impl From<HaltReason> for u64 {
    ghost from_gives = { λ reason n. n ≡ halt_number reason };

    fn from(reason: HaltReason) -> u64 {
        match reason {
            HaltReason::LedgerOverflow => 5,
            HaltReason::TimeOverflow => 6,
            HaltReason::CounterOverflow => 7,
        }
    }
}

#[derive(Clone, Copy, PartialEq, Eq, Default)]
pub enum Status {
    #[default]
    Running,
    EndOfData,
    Truncated,
    Halted(HaltReason),
}

// Where the advance stands.
#[derive(Clone, Copy, Default)]
pub struct Control {
    pub phase: Phase,
    pub resume: Phase,
    pub cursor: u64,
    pub cur_row: Option<u64>,
    pub step: u64,
    pub status: Status,
}

impl Control {
    // The run is over.
    pub fn end(&mut self, status: Status)
        ensures { self.new ≡ control_status (control_phase self.old Terminal) status }
    {
        self.phase = Phase::Terminal;
        self.status = status;
    }

    // The run waits for a decision, and goes on from its phase.
    pub fn pause(&mut self)
        ensures { self.new ≡ control_phase (control_resume self.old self.old.phase) AwaitDecision }
    {
        self.resume = self.phase;
        self.phase = Phase::AwaitDecision;
    }

    // The cursor's row becomes the current one.
    pub fn to_row(&mut self, next: u64)
        ensures { self.new ≡ control_phase (control_cursor (control_cur_row self.old (Some self.old.cursor)) next) BeforeMatch }
    {
        self.cur_row = Some(self.cursor);
        self.cursor = next;
        self.phase = Phase::BeforeMatch;
    }
}

// The time, and the times of the last delivery and the last observation that were queued.
#[derive(Clone, Copy, Default)]
pub struct Clock {
    pub now_ns: u64,
    pub last_delivery_ns: u64,
    pub last_observed_ns: u64,
}

// The next number of each kind that the venue gives out.
#[derive(Clone, Copy, Default)]
pub struct Seqs {
    pub stamp_seq: u64,
    pub next_msg_seq: u64,
    pub next_exec_id: u64,
}

// The venue's position, the live lots of each side and the last mark, in half ticks. The lots of the two sides are fields of their own, as in the Rust.
#[derive(Clone, Copy, Default)]
pub struct GateState {
    pub venue_pos: Position,
    pub live_buy_lots: u64,
    pub live_sell_lots: u64,
    pub mark2: Option<u64>,
}

// What the agent knows: updated by each delivery and each observation.
#[derive(Clone, Copy, Default)]
pub struct AgentView {
    pub pos: Position,
    pub last_obs_row: Option<u64>,
    pub delivered_local_rejects: u64,
    pub delivered_fills: u64,
}

#[derive(Clone, Copy, Default)]
pub struct Counters {
    pub halts: u64,
    pub venue_fills: u64,
    pub eof_dropped_msgs: u64,
    pub eof_dropped_obs: u64,
}

#[derive(Clone, Copy, Default)]
pub struct KernelState {
    pub control: Control,
    pub clock: Clock,
    pub rng_latency: u64,
    pub seqs: Seqs,
    pub orders: Orders,
    pub msgs: Msgs,
    pub awaiting: Orders,
    pub gate: GateState,
    pub deliveries: Deliveries,
    pub observed: Observed,
    pub agent: AgentView,
    pub account: AgentAccount,
    pub counters: Counters,
}

// The events, in the order of the paper's numbers, 1 to 10.
#[derive(Clone, Copy)]
pub enum KernelEvent {
    Report(ReportRec),
    Fill(FillRec),
    Delivered(ReportRec),
    Observed { row: u64, at_ns: u64 },
    RowEnd { row: u64, ts_ns: u64 },
    EndOfData { dropped_msgs: u64, dropped_obs: u64 },
    Halted(HaltReason),
    DroppedMsg { order_id: u64, cancel: bool },
    Expired { order_id: u64, at_ns: u64 },
    DroppedExpiry { order_id: u64 },
}

// Why a call is refused, in the order of the paper's numbers, from 101. What is printed of it is that number.
#[derive(Clone, Copy, Debug, PartialEq, Eq)]
pub enum Refusal {
    RowWords,
    ListCount,
    NotPaused,
    NoResume,
    StepLimit,
    QueueMinimum,
}

// The paper's number, beside its case, as in `book`.
impl From<Refusal> for u64 {
    ghost from_gives = { λ refusal n. n ≡ refusal_number refusal };

    fn from(refusal: Refusal) -> u64 {
        match refusal {
            Refusal::RowWords => 101,
            Refusal::ListCount => 102,
            Refusal::NotPaused => 103,
            Refusal::NoResume => 104,
            Refusal::StepLimit => 105,
            Refusal::QueueMinimum => 115,
        }
    }
}
