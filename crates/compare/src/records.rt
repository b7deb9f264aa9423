// The kernel's enums and records as entries. An enum is read where its line is, which is bad where no case has the number; the numbers are the case text's, and no other reader has a use for a `TryFrom`.
use super::entries::{Entry, Optional, write_unused};
use super::reader::{Lines, ReadError};
use book::{
    Delivery, ExecKind, FillRec, MsgKind, ObsEntry, OpenOrder, OrderState, Origin, ReportRec, Side,
    VenueMsg, VenueOrder,
};
use numbers::position::Position;
use state::{HaltReason, Phase, Status};
use std::io::{self, BufRead, Write};

impl Entry for Position {
    fn parse<R: BufRead>(lines: &mut Lines<R>) -> Result<Self, ReadError> {
        let lots = lines.take()?;
        Ok(Position { lots })
    }

    fn write<W: Write>(&self, out: &mut W) -> io::Result<()> {
        self.lots.write(out)
    }
}

// The enums by their numbers.

impl Entry for Side {
    fn parse<R: BufRead>(lines: &mut Lines<R>) -> Result<Self, ReadError> {
        match lines.number()? {
            0 => Ok(Side::Buy),
            1 => Ok(Side::Sell),
            _ => Err(lines.bad()),
        }
    }

    fn write<W: Write>(&self, out: &mut W) -> io::Result<()> {
        u64::from(*self).write(out)
    }
}

impl Entry for Origin {
    fn parse<R: BufRead>(lines: &mut Lines<R>) -> Result<Self, ReadError> {
        match lines.number()? {
            0 => Ok(Origin::Local),
            1 => Ok(Origin::Venue),
            _ => Err(lines.bad()),
        }
    }

    fn write<W: Write>(&self, out: &mut W) -> io::Result<()> {
        u64::from(*self).write(out)
    }
}

impl Entry for OrderState {
    fn parse<R: BufRead>(lines: &mut Lines<R>) -> Result<Self, ReadError> {
        match lines.number()? {
            1 => Ok(OrderState::Submitted),
            2 => Ok(OrderState::Active),
            3 => Ok(OrderState::Filled),
            4 => Ok(OrderState::Canceled),
            5 => Ok(OrderState::Rejected),
            _ => Err(lines.bad()),
        }
    }

    fn write<W: Write>(&self, out: &mut W) -> io::Result<()> {
        let number: u64 = match self {
            OrderState::Submitted => 1,
            OrderState::Active => 2,
            OrderState::Filled => 3,
            OrderState::Canceled => 4,
            OrderState::Rejected => 5,
        };
        number.write(out)
    }
}

impl Entry for ExecKind {
    fn parse<R: BufRead>(lines: &mut Lines<R>) -> Result<Self, ReadError> {
        match lines.number()? {
            0 => Ok(ExecKind::Accepted),
            1 => Ok(ExecKind::Rejected),
            2 => Ok(ExecKind::Canceled),
            3 => Ok(ExecKind::CancelRejected),
            4 => Ok(ExecKind::PartialFill),
            5 => Ok(ExecKind::Fill),
            _ => Err(lines.bad()),
        }
    }

    fn write<W: Write>(&self, out: &mut W) -> io::Result<()> {
        u64::from(*self).write(out)
    }
}

// No phase has the number 2.
impl Entry for Phase {
    fn parse<R: BufRead>(lines: &mut Lines<R>) -> Result<Self, ReadError> {
        match lines.number()? {
            1 => Ok(Phase::BeforeMatch),
            3 => Ok(Phase::ObsQueued),
            4 => Ok(Phase::AwaitDecision),
            5 => Ok(Phase::Terminal),
            _ => Err(lines.bad()),
        }
    }

    fn write<W: Write>(&self, out: &mut W) -> io::Result<()> {
        let number: u64 = match self {
            Phase::BeforeMatch => 1,
            Phase::ObsQueued => 3,
            Phase::AwaitDecision => 4,
            Phase::Terminal => 5,
        };
        number.write(out)
    }
}

impl Entry for HaltReason {
    fn parse<R: BufRead>(lines: &mut Lines<R>) -> Result<Self, ReadError> {
        match lines.number()? {
            5 => Ok(HaltReason::LedgerOverflow),
            6 => Ok(HaltReason::TimeOverflow),
            7 => Ok(HaltReason::CounterOverflow),
            _ => Err(lines.bad()),
        }
    }

    fn write<W: Write>(&self, out: &mut W) -> io::Result<()> {
        u64::from(*self).write(out)
    }
}

// The status and, if halted, the halt's number.
impl Entry for Status {
    fn parse<R: BufRead>(lines: &mut Lines<R>) -> Result<Self, ReadError> {
        let status = match lines.number()? {
            0 => Status::Running,
            1 => Status::EndOfData,
            2 => Status::Truncated,
            3 => return Ok(Status::Halted(lines.take()?)),
            _ => return Err(lines.bad()),
        };
        lines.unused(1)?;
        Ok(status)
    }

    fn write<W: Write>(&self, out: &mut W) -> io::Result<()> {
        match self {
            Status::Running => [0, 0].write(out),
            Status::EndOfData => [1, 0].write(out),
            Status::Truncated => [2, 0].write(out),
            Status::Halted(reason) => {
                3u64.write(out)?;
                reason.write(out)
            }
        }
    }
}

impl Entry for VenueOrder {
    fn parse<R: BufRead>(lines: &mut Lines<R>) -> Result<Self, ReadError> {
        Ok(VenueOrder {
            id: lines.take()?,
            side: lines.take()?,
            price: lines.take()?,
            qty: lines.take()?,
            filled: lines.take()?,
            state: lines.take()?,
            active_after_ns: lines.take()?,
            cancel_inflight: lines.take()?,
        })
    }

    fn write<W: Write>(&self, out: &mut W) -> io::Result<()> {
        self.id.write(out)?;
        self.side.write(out)?;
        self.price.write(out)?;
        self.qty.write(out)?;
        self.filled.write(out)?;
        self.state.write(out)?;
        self.active_after_ns.write(out)?;
        self.cancel_inflight.write(out)
    }
}

// The numbers of an activation behind the order's id, its life among them.
const UNUSED_BEHIND_ID: usize = 8;

// The kind's number, then the order and its life, or an id alone.
impl Entry for MsgKind {
    fn parse<R: BufRead>(lines: &mut Lines<R>) -> Result<Self, ReadError> {
        let kind = match lines.number()? {
            0 => {
                return Ok(MsgKind::Activate {
                    order: lines.take()?,
                    life: lines.take()?,
                });
            }
            1 => MsgKind::Cancel { id: lines.take()? },
            2 => MsgKind::Expire { id: lines.take()? },
            _ => return Err(lines.bad()),
        };
        lines.unused(UNUSED_BEHIND_ID)?;
        Ok(kind)
    }

    fn write<W: Write>(&self, out: &mut W) -> io::Result<()> {
        match self {
            MsgKind::Activate { order, life } => {
                0u64.write(out)?;
                order.write(out)?;
                life.write(out)
            }
            MsgKind::Cancel { id } => {
                [1, *id].write(out)?;
                write_unused(out, UNUSED_BEHIND_ID)
            }
            MsgKind::Expire { id } => {
                [2, *id].write(out)?;
                write_unused(out, UNUSED_BEHIND_ID)
            }
        }
    }
}

impl Entry for VenueMsg {
    fn parse<R: BufRead>(lines: &mut Lines<R>) -> Result<Self, ReadError> {
        Ok(VenueMsg {
            eff_ns: lines.take()?,
            seq: lines.take()?,
            kind: lines.take()?,
        })
    }

    fn write<W: Write>(&self, out: &mut W) -> io::Result<()> {
        self.eff_ns.write(out)?;
        self.seq.write(out)?;
        self.kind.write(out)
    }
}

impl Entry for ReportRec {
    fn parse<R: BufRead>(lines: &mut Lines<R>) -> Result<Self, ReadError> {
        Ok(ReportRec {
            ts_ns: lines.take()?,
            seq: lines.take()?,
            order_id: lines.take()?,
            side: lines.take()?,
            kind: lines.take()?,
            origin: lines.take()?,
            cancel_pending: lines.take()?,
            price: lines.take()?,
            qty: lines.take()?,
            last: lines.take()?,
            cum: lines.take()?,
        })
    }

    fn write<W: Write>(&self, out: &mut W) -> io::Result<()> {
        self.ts_ns.write(out)?;
        self.seq.write(out)?;
        self.order_id.write(out)?;
        self.side.write(out)?;
        self.kind.write(out)?;
        self.origin.write(out)?;
        self.cancel_pending.write(out)?;
        self.price.write(out)?;
        self.qty.write(out)?;
        self.last.write(out)?;
        self.cum.write(out)
    }
}

impl Entry for FillRec {
    fn parse<R: BufRead>(lines: &mut Lines<R>) -> Result<Self, ReadError> {
        Ok(FillRec {
            ts_ns: lines.take()?,
            exec_id: lines.take()?,
            order_id: lines.take()?,
            side: lines.take()?,
            price: lines.take()?,
            qty: lines.take()?,
        })
    }

    fn write<W: Write>(&self, out: &mut W) -> io::Result<()> {
        self.ts_ns.write(out)?;
        self.exec_id.write(out)?;
        self.order_id.write(out)?;
        self.side.write(out)?;
        self.price.write(out)?;
        self.qty.write(out)
    }
}

impl Optional for FillRec {
    const WIDTH: usize = 6;
}

impl Entry for Delivery {
    fn parse<R: BufRead>(lines: &mut Lines<R>) -> Result<Self, ReadError> {
        Ok(Delivery {
            at_ns: lines.take()?,
            report: lines.take()?,
            fill: lines.take()?,
        })
    }

    fn write<W: Write>(&self, out: &mut W) -> io::Result<()> {
        self.at_ns.write(out)?;
        self.report.write(out)?;
        self.fill.write(out)
    }
}

impl Entry for ObsEntry {
    fn parse<R: BufRead>(lines: &mut Lines<R>) -> Result<Self, ReadError> {
        Ok(ObsEntry {
            ready_ns: lines.take()?,
            row: lines.take()?,
        })
    }

    fn write<W: Write>(&self, out: &mut W) -> io::Result<()> {
        self.ready_ns.write(out)?;
        self.row.write(out)
    }
}

impl Entry for OpenOrder {
    fn parse<R: BufRead>(lines: &mut Lines<R>) -> Result<Self, ReadError> {
        Ok(OpenOrder {
            order_id: lines.take()?,
            awaiting_cancel_outcome: lines.take()?,
        })
    }

    fn write<W: Write>(&self, out: &mut W) -> io::Result<()> {
        self.order_id.write(out)?;
        self.awaiting_cancel_outcome.write(out)
    }
}
