// The line that `replay` prints of a record of the log.
#![tactic(auto)]

ghost use Rattle.std.specs.Prelude.{◌≡◌};
ghost use Rattle.write.specs.Write.{written};
ghost use Rattle.logline.specs.Record.{kind_name, report_line, fill_line, short_line, one_line, event_line};

use write::Writer;

// How many words a record has. `reports` has the same number for the writer of the log: what prints stands on nothing of the kernel.
pub const WORDS: usize = 12;

// The words of a record, as the log has them.
pub type Record = [u64; WORDS];

// The name of a report's kind. The log holds words, so the kind is the log's own number; an enum would only give it the name that its arm has here.
#[tactic(auto, unfolding(numbers::specs::Choice::pick, crate::specs::Record::kind_name))]
fn kind_name(kind: u64) -> &'static [u8]
    ensures { result.now ≡ kind_name kind }
{
    match kind {
        0 => b"accepted",
        1 => b"rejected",
        2 => b"canceled",
        3 => b"cancelrejected",
        4 => b"partial",
        _ => b"fill",
    }
}

// A report of the venue, or its delivery.
#[tactic(auto, using(crate::proofs::LineLaws::pieces), unfolding(crate::specs::Record::report_line))]
fn put_report(text: &mut Writer, name: &[u8], words: &Record)
    ensures { text.new ≡ written text.old (report_line name.now words.now) }
{
    let [_, ts, seq, order, _, kind, .., cum] = *words;
    text.put_bytes(name);
    text.put_field(ts);
    text.put_field(seq);
    text.put_field(order);
    text.put_byte(b' ');
    text.put_bytes(kind_name(kind));
    text.put_field(cum);
    text.put_byte(b'\n');
}

// Lots that trade.
#[tactic(auto, using(crate::proofs::LineLaws::pieces), unfolding(crate::specs::Record::fill_line))]
fn put_fill(text: &mut Writer, words: &Record)
    ensures { text.new ≡ written text.old (fill_line words.now) }
{
    let [_, ts, exec, order, _, price, qty, ..] = *words;
    text.put_bytes(b"fill");
    text.put_field(ts);
    text.put_field(exec);
    text.put_field(order);
    text.put_field(qty);
    text.put_field(price);
    text.put_byte(b'\n');
}

// An event of two words.
#[tactic(auto, using(crate::proofs::LineLaws::pieces), unfolding(crate::specs::Record::short_line))]
fn put_short(text: &mut Writer, name: &[u8], words: &Record)
    ensures { text.new ≡ written text.old (short_line name.now words.now) }
{
    text.put_bytes(name);
    text.put_field(words[1]);
    text.put_field(words[2]);
    text.put_byte(b'\n');
}

// An event of one word.
#[tactic(auto, using(crate::proofs::LineLaws::pieces), unfolding(crate::specs::Record::one_line))]
fn put_one(text: &mut Writer, name: &[u8], words: &Record)
    ensures { text.new ≡ written text.old (one_line name.now words.now) }
{
    text.put_bytes(name);
    text.put_field(words[1]);
    text.put_byte(b'\n');
}

// The line of a record of the log. The event is the log's own number, as a report's kind, and its name is at its arm.
#[tactic(auto, using(crate::proofs::LineLaws::no_line), unfolding(numbers::specs::Choice::pick, crate::specs::Record::line_on, crate::specs::Record::event_line))]
pub fn put_event(text: &mut Writer, words: &Record)
    ensures { text.new ≡ written text.old (event_line words.now) }
{
    match words[0] {
        1 => put_report(text, b"report", words),
        2 => put_fill(text, words),
        3 => put_report(text, b"delivered", words),
        4 => put_short(text, b"observed", words),
        5 => put_short(text, b"rowend", words),
        6 => put_short(text, b"eod", words),
        7 => put_one(text, b"halt", words),
        8 => put_short(text, b"dropped", words),
        9 => put_short(text, b"expired", words),
        10 => put_one(text, b"dropexp", words),
        _ => {}
    }
}

// The line of words that may be fewer or more than a record's: those that are missing are 0, and those past a record are not read.
#[tactic(auto, using(crate::proofs::LineLaws::line_padded))]
pub fn put_words(text: &mut Writer, words: &[u64])
    ensures { text.new ≡ written text.old (event_line words.now) }
{
    let n = words.len().min(WORDS);
    let mut record = [0; WORDS];
    record[..n].copy_from_slice(&words[..n]);
    put_event(text, &record);
}
