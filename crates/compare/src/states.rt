// The state's part of a case and of an outcome: the lines from its phase to the count of observations dropped.
use super::entries::{Entry, put};
use super::reader::{Lines, ReadError};
use lists::{Arr, Blank};
use state::{AgentView, Clock, Control, Counters, GateState, KernelState, Seqs};
use std::io::{self, BufRead, Write};

// What the lines before the lists say; the rest is blank.
fn read_head<R: BufRead>(lines: &mut Lines<R>) -> Result<KernelState, ReadError> {
    let phase = lines.entry("phase")?;
    let resume = lines.entry("resume")?;
    let cursor = lines.entry("cursor")?;
    let cur_row = lines.entry("currow")?;
    let now_ns = lines.entry("now")?;
    let step = lines.entry("step")?;
    let status = lines.entry("status")?;
    let rng_latency = lines.entry("rng")?;
    let stamp_seq = lines.entry("stampseq")?;
    let next_msg_seq = lines.entry("nextmsg")?;
    let next_exec_id = lines.entry("nextexec")?;
    let last_delivery_ns = lines.entry("lastdelivery")?;
    let last_observed_ns = lines.entry("lastobserved")?;
    Ok(KernelState {
        control: Control {
            phase,
            resume,
            cursor,
            cur_row,
            step,
            status,
        },
        clock: Clock {
            now_ns,
            last_delivery_ns,
            last_observed_ns,
        },
        rng_latency,
        seqs: Seqs {
            stamp_seq,
            next_msg_seq,
            next_exec_id,
        },
        ..KernelState::default()
    })
}

// A list: its count, and a line for each entry that there is room for.
fn read_list<R: BufRead, T: Entry + Blank, const N: usize>(
    lines: &mut Lines<R>,
    name: &str,
    entry: &str,
) -> Result<Arr<T, N>, ReadError> {
    let count: u64 = lines.entry(name)?;
    let mut list = Arr::new();
    list.count = count as usize;
    for slot in list.slots.iter_mut().take(count as usize) {
        *slot = lines.entry(entry)?;
    }
    Ok(list)
}

fn read_gate<R: BufRead>(lines: &mut Lines<R>) -> Result<GateState, ReadError> {
    Ok(GateState {
        venue_pos: lines.entry("position")?,
        live_buy_lots: lines.entry("livebuy")?,
        live_sell_lots: lines.entry("livesell")?,
        mark2: lines.entry("mark2")?,
    })
}

fn read_agent<R: BufRead>(lines: &mut Lines<R>) -> Result<AgentView, ReadError> {
    Ok(AgentView {
        pos: lines.entry("agent")?,
        last_obs_row: lines.entry("lastobsrow")?,
        delivered_local_rejects: lines.entry("localrejects")?,
        delivered_fills: lines.entry("deliveredfills")?,
    })
}

fn read_counters<R: BufRead>(lines: &mut Lines<R>) -> Result<Counters, ReadError> {
    Ok(Counters {
        halts: lines.entry("halts")?,
        venue_fills: lines.entry("venuefills")?,
        eof_dropped_msgs: lines.entry("eofmsgs")?,
        eof_dropped_obs: lines.entry("eofobs")?,
    })
}

pub fn read_state<R: BufRead>(lines: &mut Lines<R>) -> Result<KernelState, ReadError> {
    let head = read_head(lines)?;
    Ok(KernelState {
        orders: read_list(lines, "orders", "order")?,
        msgs: read_list(lines, "msgs", "msg")?,
        awaiting: read_list(lines, "awaiting", "order")?,
        deliveries: read_list(lines, "deliveries", "delivery")?,
        observed: read_list(lines, "observed", "obs")?,
        account: read_list(lines, "account", "open")?,
        gate: read_gate(lines)?,
        agent: read_agent(lines)?,
        counters: read_counters(lines)?,
        ..head
    })
}

fn write_head<W: Write>(out: &mut W, s: &KernelState) -> io::Result<()> {
    put(out, "phase", &s.control.phase)?;
    put(out, "resume", &s.control.resume)?;
    put(out, "cursor", &s.control.cursor)?;
    put(out, "currow", &s.control.cur_row)?;
    put(out, "now", &s.clock.now_ns)?;
    put(out, "step", &s.control.step)?;
    put(out, "status", &s.control.status)?;
    put(out, "rng", &s.rng_latency)?;
    put(out, "stampseq", &s.seqs.stamp_seq)?;
    put(out, "nextmsg", &s.seqs.next_msg_seq)?;
    put(out, "nextexec", &s.seqs.next_exec_id)?;
    put(out, "lastdelivery", &s.clock.last_delivery_ns)?;
    put(out, "lastobserved", &s.clock.last_observed_ns)
}

fn write_list<W: Write, T: Entry, const N: usize>(
    out: &mut W,
    name: &str,
    entry: &str,
    list: &Arr<T, N>,
) -> io::Result<()> {
    put(out, name, &(list.count as u64))?;
    for slot in list.slots.iter().take(list.count) {
        put(out, entry, slot)?;
    }
    Ok(())
}

fn write_lists<W: Write>(out: &mut W, s: &KernelState) -> io::Result<()> {
    write_list(out, "orders", "order", &s.orders)?;
    write_list(out, "msgs", "msg", &s.msgs)?;
    write_list(out, "awaiting", "order", &s.awaiting)?;
    write_list(out, "deliveries", "delivery", &s.deliveries)?;
    write_list(out, "observed", "obs", &s.observed)?;
    write_list(out, "account", "open", &s.account)
}

fn write_tail<W: Write>(out: &mut W, s: &KernelState) -> io::Result<()> {
    put(out, "position", &s.gate.venue_pos)?;
    put(out, "livebuy", &s.gate.live_buy_lots)?;
    put(out, "livesell", &s.gate.live_sell_lots)?;
    put(out, "mark2", &s.gate.mark2)?;
    put(out, "agent", &s.agent.pos)?;
    put(out, "lastobsrow", &s.agent.last_obs_row)?;
    put(out, "localrejects", &s.agent.delivered_local_rejects)?;
    put(out, "deliveredfills", &s.agent.delivered_fills)?;
    put(out, "halts", &s.counters.halts)?;
    put(out, "venuefills", &s.counters.venue_fills)?;
    put(out, "eofmsgs", &s.counters.eof_dropped_msgs)?;
    put(out, "eofobs", &s.counters.eof_dropped_obs)
}

pub fn write_state<W: Write>(out: &mut W, s: &KernelState) -> io::Result<()> {
    write_head(out, s)?;
    write_lists(out, s)?;
    write_tail(out, s)
}
