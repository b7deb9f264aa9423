// A line of a run file, taken into what the lines before it have said: its place among them, and the limits.
#![tactic(auto)]

ghost use Rattle.std.specs.Prelude.{◌≡◌, OnErr, map};
ghost use Rattle.runtake.specs.Take.{reading_of, blank_reading, taken, Takes, reserved, is_message_due, queued, marked, take_config, take_fill, take_order, take_cancel, take_row, take_line};

use account::AgentAccount;
use book::config::{Config, FillMode, KernelTick, ROW_WORDS};
use book::{MsgKind, OpenOrder, Side, VenueMsg, VenueOrder};
use lists::Full;
use msgs::{Msgs, insert_by_key};
use runline::Line;

// The first lines of a run file, its configuration and its fill mode: all others stand behind both.
pub const HEAD_LINES: u64 = 2;

// The most rows of a run file, and the words of all.
pub const MOST_ROWS: usize = 512;

pub const MOST_WORDS: usize = MOST_ROWS * ROW_WORDS;

// A line that may not stand where it stands, or is one too many. What is printed is the line's number, which the caller counts.
#[derive(Clone, Copy, Debug, PartialEq, Eq)]
pub struct BadLine;

impl From<Full> for BadLine {
    fn from(_: Full) -> BadLine {
        BadLine
    }
}

// The lots of each side, all quantities together within 64 bits.
#[derive(Clone, Copy, Default)]
pub struct Lots {
    pub buy: u64,
    pub sell: u64,
}

impl Lots {
    // The lots of an order are reserved, if all quantities together stay within 64 bits.
    #[tactic(auto, using(std::proofs::lemmas::Bool::Decides::nat_tests), unfolding(crate::specs::Take::reserved, numbers::specs::Words::fits, book::specs::Entries::on_side, numbers::specs::Choice::pick))]
    fn reserve(mut self, side: Side, qty: u64) -> Option<Lots>
        ensures { result ≡ reserved self side qty }
    {
        let live = self.buy.checked_add(self.sell)?;
        live.checked_add(qty)?;
        match side {
            Side::Buy => self.buy += qty,
            Side::Sell => self.sell += qty,
        }
        Some(self)
    }
}

// The message takes the number of those before it.
#[tactic(auto, unfolding(crate::specs::Take::queued, numbers::specs::Choice::pick))]
fn queue(msgs: &mut Msgs, eff_ns: u64, kind: MsgKind) -> Result<(), BadLine>
    ensures takes { taken result msgs.new ≡ queued eff_ns kind msgs.old }
    ensures keeps { OnErr result (msgs.new ≡ msgs.old) }
{
    let seq = msgs.count as u64;
    insert_by_key(msgs, VenueMsg { eff_ns, seq, kind }).answer?;
    Ok(())
}

// An order of this number that the message activates has a cancel in flight.
#[tactic(auto, using(std::proofs::lemmas::Bool::Decides::nat_tests), unfolding(crate::specs::Take::marked, numbers::specs::Choice::pick))]
fn mark(msg: &mut VenueMsg, id: u64)
    ensures { msg.new ≡ marked id msg.old }
{
    if let MsgKind::Activate { order, .. } = &mut msg.kind
        && order.id == id
    {
        order.cancel_inflight = true;
    }
}

fn mark_all(msgs: &mut [VenueMsg], id: u64)
    ensures { msgs.new ≡ map (marked id) msgs.old }
{
    for msg in msgs {
        mark(msg, id);
    }
}

// What the lines so far have said; of the rows, how many there are.
#[derive(Clone, Copy)]
pub struct Reading {
    pub cfg: Config,
    pub seed: u64,
    pub lots: Lots,
    pub msgs: Msgs,
    pub account: AgentAccount,
    pub rows: usize,
}

// The same, with the words that the caller lent, in whose front the rows stand.
#[derive(Drop)]
pub struct Reader<'a> {
    pub reading: Reading,
    pub words: &'a mut [u64; MOST_WORDS],
}

// Each line stands behind n others, as the caller counts them: its text bounds n, and a count in here would have no bound. A bad line changes nothing: what can fail comes first, or goes on a copy.
impl<'a> Reader<'a> {
    // Before the first line.
    pub fn new(words: &'a mut [u64; MOST_WORDS]) -> Reader<'a>
        ensures blank { reading_of result ≡ blank_reading words.old }
        ensures lent { result.words.ghost_name ≡ words.entry.ghost_name }
    {
        Reader {
            reading: Reading {
                cfg: Config::default(),
                seed: 0,
                lots: Lots::default(),
                msgs: Msgs::new(),
                account: AgentAccount::new(),
                rows: 0,
            },
            words,
        }
    }

    #[tactic(auto, using(std::proofs::lemmas::Bool::Decides::nat_tests), unfolding(crate::specs::Take::take_config, numbers::specs::Choice::pick))]
    fn take_config(&mut self, n: u64, cfg: Config, seed: u64) -> Result<(), BadLine>
        ensures { Takes result self.old self.new (take_config n cfg seed (reading_of self.old)) }
    {
        if n != 0 {
            return Err(BadLine);
        }
        self.reading.cfg = cfg;
        self.reading.seed = seed;
        Ok(())
    }

    #[tactic(auto, using(std::proofs::lemmas::Bool::Decides::nat_tests), unfolding(crate::specs::Take::take_fill, numbers::specs::Choice::pick))]
    fn take_fill(&mut self, n: u64, fill: FillMode) -> Result<(), BadLine>
        ensures { Takes result self.old self.new (take_fill n fill (reading_of self.old)) }
    {
        if n != 1 {
            return Err(BadLine);
        }
        self.reading.cfg.fill = fill;
        Ok(())
    }

    // Orders and cancels stand behind the first two lines and before the first row.
    #[tactic(auto, using(std::proofs::lemmas::Bool::Decides::nat_tests), unfolding(crate::specs::Take::is_message_due, numbers::specs::Choice::pick))]
    fn is_message_due(&self, n: u64) -> bool
        ensures { result ≡ is_message_due n self.now.reading.rows }
    {
        n >= HEAD_LINES && self.reading.rows == 0
    }

    // An order's lots are reserved, its account opened and its activation queued.
    #[tactic(auto, unfolding(crate::specs::Take::take_order, numbers::specs::Choice::pick, numbers::specs::Choice::on_some))]
    fn take_order(&mut self, n: u64, order: VenueOrder, life: u64) -> Result<(), BadLine>
        ensures { Takes result self.old self.new (take_order n order life (reading_of self.old)) }
    {
        if !self.is_message_due(n) {
            return Err(BadLine);
        }
        let reading = &mut self.reading;
        let lots = reading.lots.reserve(order.side, order.qty).ok_or(BadLine)?;
        let mut account = reading.account;
        let opened = OpenOrder {
            order_id: order.id,
            awaiting_cancel_outcome: false,
        };
        account.push(opened).answer?;
        let activation = MsgKind::Activate { order, life };
        queue(&mut reading.msgs, order.active_after_ns, activation)?;
        reading.lots = lots;
        reading.account = account;
        Ok(())
    }

    // Each earlier order of the cancel's number has it in flight, and it is queued.
    #[tactic(auto, unfolding(crate::specs::Take::take_cancel, crate::specs::Take::marked_in, numbers::specs::Choice::pick, numbers::specs::Choice::on_some))]
    fn take_cancel(&mut self, n: u64, eff_ns: u64, id: u64) -> Result<(), BadLine>
        ensures { Takes result self.old self.new (take_cancel n eff_ns id (reading_of self.old)) }
    {
        if !self.is_message_due(n) {
            return Err(BadLine);
        }
        let mut msgs = self.reading.msgs;
        mark_all(&mut msgs.slots, id);
        queue(&mut msgs, eff_ns, MsgKind::Cancel { id })?;
        self.reading.msgs = msgs;
        Ok(())
    }

    // The row's words are stored behind those of the other rows: at one place; by `as_chunks_mut` it would be shorter, but std does not say of it what the words end as.
    #[tactic(auto, using(std::proofs::lemmas::Bool::Decides::nat_tests), unfolding(crate::specs::Take::take_row, numbers::specs::Choice::pick))]
    fn take_row(&mut self, n: u64, tick: KernelTick) -> Result<(), BadLine>
        ensures { Takes result self.old self.new (take_row n tick (reading_of self.old)) }
    {
        if n < HEAD_LINES || self.reading.rows >= MOST_ROWS {
            return Err(BadLine);
        }
        let at = self.reading.rows * ROW_WORDS;
        let words = &mut *self.words;
        words[at..at + ROW_WORDS].copy_from_slice(&<[u64; ROW_WORDS]>::from(tick));
        self.reading.rows += 1;
        Ok(())
    }

    // A line of any kind.
    #[tactic(auto, unfolding(crate::specs::Take::take_line))]
    pub fn take_line(&mut self, n: u64, line: Line) -> Result<(), BadLine>
        ensures { Takes result self.old self.new (take_line n line (reading_of self.old)) }
    {
        match line {
            Line::Config { cfg, seed } => self.take_config(n, cfg, seed),
            Line::Fill(fill) => self.take_fill(n, fill),
            Line::Order { order, life } => self.take_order(n, order, life),
            Line::Cancel { eff_ns, id } => self.take_cancel(n, eff_ns, id),
            Line::Row(tick) => self.take_row(n, tick),
        }
    }
}
