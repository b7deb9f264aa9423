// What a line of a run file says, wherever it stands: the kinds of lines.
#![tactic(auto)]

ghost use Rattle.std.specs.Prelude.{◌≡◌, drop, OnSome};
ghost use Rattle.text.specs.Cursor.{left};
ghost use Rattle.text.specs.Fields.{fields};
ghost use Rattle.runline.specs.Lines.{side_of, config_line, fill_line, order_line, cancel_line, row_line, line_of, queue_line};
ghost use Rattle.runline.specs.Numbers.{numbers, only_numbers};

use book::config::{Config, FillMode, KernelTick, ROW_WORDS};
use book::{Side, VenueOrder};
use text::Fields;

#[derive(Clone, Copy)]
pub enum Line {
    // c quantum observation ack jitter seed s_max
    Config { cfg: Config, seed: u64 },
    // f now, or f queue rate per min
    Fill(FillMode),
    // o eff id B|S price qty life
    Order { order: VenueOrder, life: u64 },
    // x eff id
    Cancel { eff_ns: u64, id: u64 },
    // r ts bid bid_lots ask ask_lots
    Row(KernelTick),
}

#[tactic(auto, using(crate::proofs::Words::letters), unfolding(crate::specs::Lines::side_of, numbers::specs::Choice::pick))]
fn side_of(field: &[u8]) -> Option<Side>
    ensures { result ≡ side_of field.now }
{
    match field {
        b"B" => Some(Side::Buy),
        b"S" => Some(Side::Sell),
        _ => None,
    }
}

// The numbers in the next N fields, where each of them writes one.
fn numbers<const N: usize>(fields: &mut Fields) -> Option<[u64; N]>
    ensures words { result ≡ numbers N (left fields.old) }
    ensures rest { OnSome result (left fields.new ≡ drop N (left fields.old)) }
{
    let mut words = [0; N];
    for word in &mut words {
        *word = fields.next_number()?;
    }
    Some(words)
}

// The numbers in the fields that are left, if they are N and each of them writes one.
#[tactic(auto, using(crate::proofs::NumbersLaws::only))]
fn only_numbers<const N: usize>(fields: &mut Fields) -> Option<[u64; N]>
    ensures { result ≡ only_numbers N (left fields.old) }
{
    let words = numbers(fields)?;
    fields.is_empty().then_some(words)
}

// A line of each kind, from the field behind its letter.
#[tactic(auto, using(crate::proofs::LineLaws::config_is), unfolding(numbers::specs::Choice::on_some))]
fn config_line(fields: &mut Fields) -> Option<Line>
    ensures { result ≡ config_line (left fields.old) }
{
    let [quantum_ns, observation_q, ack_q, jitter_q, seed, s_max] = only_numbers::<6>(fields)?;
    let cfg = Config {
        quantum_ns,
        observation_q,
        ack_q,
        jitter_q,
        ceiling_ns: 0,
        s_max,
        fill: FillMode::Immediate,
    };
    Some(Line::Config { cfg, seed })
}

#[tactic(auto, using(crate::proofs::LineLaws::queue_is), unfolding(numbers::specs::Choice::on_some))]
fn queue_line(fields: &mut Fields) -> Option<Line>
    ensures { result ≡ queue_line (left fields.old) }
{
    let [rate_lots, per_ms, min_queue_ms] = only_numbers::<3>(fields)?;
    Some(Line::Fill(FillMode::QueuePosition {
        rate_lots,
        per_ms,
        min_queue_ms,
    }))
}

#[tactic(auto, using(crate::proofs::Words::words), unfolding(crate::specs::Lines::fill_line, numbers::specs::Choice::pick))]
fn fill_line(fields: &mut Fields) -> Option<Line>
    ensures { result ≡ fill_line (left fields.old) }
{
    match fields.next_field()? {
        b"now" => fields.is_empty().then_some(Line::Fill(FillMode::Immediate)),
        b"queue" => queue_line(fields),
        _ => None,
    }
}

#[tactic(auto, using(crate::proofs::LineLaws::order), unfolding(numbers::specs::Choice::on_some))]
fn order_line(fields: &mut Fields) -> Option<Line>
    ensures { result ≡ order_line (left fields.old) }
{
    let [active_after_ns, id] = numbers::<2>(fields)?;
    let side = side_of(fields.next_field()?)?;
    let [price, qty, life] = only_numbers::<3>(fields)?;
    let order = VenueOrder {
        id,
        price,
        qty,
        active_after_ns,
        side,
        ..VenueOrder::default()
    };
    Some(Line::Order { order, life })
}

#[tactic(auto, using(crate::proofs::LineLaws::cancel_is), unfolding(numbers::specs::Choice::on_some))]
fn cancel_line(fields: &mut Fields) -> Option<Line>
    ensures { result ≡ cancel_line (left fields.old) }
{
    let [eff_ns, id] = only_numbers::<2>(fields)?;
    Some(Line::Cancel { eff_ns, id })
}

#[tactic(auto, using(crate::proofs::LineLaws::row_is), unfolding(numbers::specs::Choice::on_some))]
fn row_line(fields: &mut Fields) -> Option<Line>
    ensures { result ≡ row_line (left fields.old) }
{
    let words = only_numbers::<ROW_WORDS>(fields)?;
    Some(Line::Row(KernelTick::from(words)))
}

// What a line says, wherever it stands, or none of a bad line. Its first field is its letter.
#[tactic(auto, using(crate::proofs::Words::letters), unfolding(crate::specs::Lines::line_of, numbers::specs::Choice::pick))]
pub fn line_of(line: &[u8]) -> Option<Line>
    ensures { result ≡ line_of (fields line.now) }
{
    let mut fields = Fields::new(line);
    match fields.next_field()? {
        b"c" => config_line(&mut fields),
        b"f" => fill_line(&mut fields),
        b"o" => order_line(&mut fields),
        b"x" => cancel_line(&mut fields),
        b"r" => row_line(&mut fields),
        _ => None,
    }
}
