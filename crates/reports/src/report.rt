// Stamps, and a report with its delivery. What a step takes stands apart: see the crate's head.
ghost use Rattle.std.specs.Prelude.{◌≡◌, ℕ, IfOk};
ghost use Rattle.state.specs.declared.KernelState.{KernelState};
ghost use Rattle.rules.specs.Run.{Run};
ghost use Rattle.rules.specs.Report.{stamp, report_at, delayed, queue_delivery};
ghost use Rattle.reports.specs.Log.{log_of, expected, actual, halting, run_of};
ghost use Rattle.reports.specs.Report.{stamp_of, at_time};

use super::log::Log;
use book::config::Config;
use book::{Delivery, ExecKind, FillRec, Origin, ReportRec, VenueOrder};
use models::latency;
use numbers::words::checked_add;
use state::{HaltReason, KernelEvent, KernelState};

// The time and the number that a report carries. Of which state they are stands in each contract that takes them: a ghost field says what is so of the fields beside it, and cannot hold that state.
#[derive(Clone, Copy)]
pub struct Stamped {
    pub ts_ns: u64,
    pub seq: u64,
}

// A stamp takes a number.
#[tactic(auto, unfolding(rules::specs::Report::stamp, numbers::specs::Choice::on_some))]
pub fn stamp(s: &mut KernelState) -> Result<Stamped, HaltReason>
    ensures rule { run_of result s.new ≡ stamp s.old }
    ensures answer { IfOk result (λ stamped. stamped ≡ stamp_of s.old) }
{
    let stamped = Stamped {
        ts_ns: s.clock.now_ns,
        seq: s.seqs.stamp_seq,
    };
    s.seqs.stamp_seq = checked_add(stamped.seq, 1).ok_or(HaltReason::CounterOverflow)?;
    Ok(stamped)
}

// The report on an order by its stamp.
pub fn status_report(
    stamped: Stamped,
    order: &VenueOrder,
    kind: ExecKind,
    cancel_pending: bool,
    last: u64,
) -> ReportRec
    ensures { result ≡ report_at stamped.ts_ns stamped.seq order.now kind cancel_pending last }
{
    ReportRec {
        ts_ns: stamped.ts_ns,
        seq: stamped.seq,
        order_id: order.id,
        side: order.side,
        kind,
        origin: Origin::Venue,
        cancel_pending,
        price: order.price,
        qty: order.qty,
        last,
        cum: order.filled,
    }
}

// The time that is a delay of `base_q` quanta and the jitter after `from`. The generator has moved also where that halts.
pub fn delayed(cfg: &Config, s: &mut KernelState, from: u64, base_q: u64) -> Result<u64, HaltReason>
    ensures { (k : ℕ → KernelState → Run) → at_time result s.new k ≡ delayed cfg.now from base_q s.old k }
{
    latency::delayed(cfg, &mut s.rng_latency, from, base_q).ok_or(HaltReason::TimeOverflow)
}

// A report: its event, and its delivery behind those that wait. The jitter delays a report but never lets it overtake an earlier one.
pub fn queue_delivery(
    cfg: &Config,
    s: &mut KernelState,
    report: ReportRec,
    fill: Option<FillRec>,
    log: &mut Log,
) -> Result<(), HaltReason>
    ensures { actual (halting result) s.new (log_of log.new) ≡ expected (log_of log.old) (queue_delivery cfg.now report fill s.old) }
{
    let at_ns = delayed(cfg, s, report.ts_ns, cfg.ack_q)?.max(s.clock.last_delivery_ns);
    s.clock.last_delivery_ns = at_ns;
    log.emit(KernelEvent::Report(report));
    let delivery = Delivery {
        at_ns,
        report,
        fill,
    };
    s.deliveries.push(delivery).answer?;
    Ok(())
}
