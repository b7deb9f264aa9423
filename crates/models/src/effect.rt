// The agent's account after a delivered report.
ghost use Rattle.std.specs.Prelude.{◌≡◌};
ghost use Rattle.numbers.specs.Choice.{pick};
ghost use Rattle.rules.specs.Delivery.{awaits, closes, effect, on_delivery};
ghost use Rattle.models.specs.Rules.{rule_effect};

use account::{AgentAccount, position};
use book::{ExecKind, OpenOrder, Origin, ReportRec};

// What a report does to its order's entry: a name of the rules, which say it of the report alone, so that what is done has one `match` and this has one equation.
#[derive(Clone, Copy)]
pub enum Effect {
    Stands,
    Closes,
    Awaits,
}

#[tactic(auto, unfolding(numbers::specs::Choice::pick))]
fn unless_pending(pending: bool) -> Effect
    ensures { rule_effect result ≡ pick pending awaits closes }
{
    if pending {
        Effect::Awaits
    } else {
        Effect::Closes
    }
}

fn effect_of(kind: ExecKind, origin: Origin, pending: bool) -> Effect
    ensures { rule_effect result ≡ effect kind origin pending }
{
    match kind {
        ExecKind::Accepted | ExecKind::PartialFill => Effect::Stands,
        ExecKind::CancelRejected => Effect::Closes,
        ExecKind::Rejected => match origin {
            Origin::Local => Effect::Closes,
            Origin::Venue => unless_pending(pending),
        },
        ExecKind::Canceled | ExecKind::Fill => unless_pending(pending),
    }
}

// The search found the entry, so it is there to be stored to.
#[tactic(auto, unfolding(rules::specs::Delivery::on_delivery, numbers::specs::Choice::on_some))]
pub fn on_delivery(account: &mut AgentAccount, report: &ReportRec)
    ensures { account.new ≡ on_delivery report.now account.old }
{
    let id = report.order_id;
    let Some(index) = position(account, id) else {
        return;
    };
    match effect_of(report.kind, report.origin, report.cancel_pending) {
        Effect::Stands => {}
        Effect::Closes => {
            account.remove(index);
        }
        Effect::Awaits => {
            let _ = account.store(
                index,
                OpenOrder {
                    order_id: id,
                    awaiting_cancel_outcome: true,
                },
            );
        }
    }
}
