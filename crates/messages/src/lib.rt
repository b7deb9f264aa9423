// The venue's messages: the first one leaves, then acts. What a step takes stands apart, as in `reports`.
#![tactic(auto)]

ghost use Rattle.std.specs.Prelude.{◌≡◌};
ghost use Rattle.rules.specs.Messages.{apply_next_msg};
ghost use Rattle.reports.specs.Log.{log_of, expected, actual, halting};
ghost use Rattle.messages.specs.Acts.{life_of, expiry_of};

use book::config::Config;
use book::{MsgKind, VenueMsg, VenueOrder};
use deeds::activation::{activate, is_valid};
use deeds::cancel::cancel;
use deeds::expiry::expire;
use numbers::words::checked_add;
use reports::log::Log;
use state::{HaltReason, KernelState};

// The time of the expiry of an order with a life, if it is valid. There is to be a number for it, too.
#[tactic(auto, unfolding(numbers::specs::Choice::pick, numbers::specs::Choice::on_some, numbers::specs::Words::fitting))]
fn expiry_after(s: &KernelState, order: &VenueOrder, life: u64) -> Result<Option<u64>, HaltReason>
    ensures { result ≡ life_of order.now life s.now.seqs.next_msg_seq }
{
    if !is_valid(order) || life == 0 {
        return Ok(None);
    }
    let at = checked_add(order.active_after_ns, life).ok_or(HaltReason::TimeOverflow)?;
    checked_add(s.seqs.next_msg_seq, 1).ok_or(HaltReason::CounterOverflow)?;
    Ok(Some(at))
}

// When the order that a message activates expires, if it does.
fn expiry_of(s: &KernelState, msg: &VenueMsg) -> Result<Option<u64>, HaltReason>
    ensures { result ≡ expiry_of msg.now.kind s.now.seqs.next_msg_seq }
{
    match msg.kind {
        MsgKind::Activate { order, life } => expiry_after(s, &order, life),
        MsgKind::Cancel { .. } | MsgKind::Expire { .. } => Ok(None),
    }
}

// The expiry's time, and room for its number, are tested before the message leaves: a halt there leaves it in the queue, and no active order lacks the expiry that its quote asked for.
// Not inlined: most walks find no message, and would pay at their start for what this one takes.
#[inline(never)]
pub fn apply_next_msg(cfg: &Config, s: &mut KernelState, log: &mut Log) -> Result<(), HaltReason>
    ensures { actual (halting result) s.new (log_of log.new) ≡ expected (log_of log.old) (apply_next_msg cfg.now s.old) }
{
    let Some(first) = s.msgs.get(0) else {
        return Ok(());
    };
    let expiry = expiry_of(s, &first)?;
    s.msgs.pop_front();
    match first.kind {
        MsgKind::Activate { order, .. } => activate(cfg, s, order, expiry, log),
        MsgKind::Cancel { id } => cancel(cfg, s, id, log),
        MsgKind::Expire { id } => expire(cfg, s, id, log),
    }
}
