// The phases of a row (advance_inner of step.rs of the Rust).
// What a step takes, the rows too, stands apart, as in `reports`. The rows are words, as a rule of the project has them.
#![tactic(auto)]

ghost use Rattle.std.specs.Prelude.{◌≡◌};
ghost use Rattle.rules.specs.Phases.{row_at, queue_observation, before_match, settle, next_row, obs_queued, phases};
ghost use Rattle.reports.specs.Log.{log_of, expected, actual, run_of};

use book::ObsEntry;
use book::config::{Config, KernelTick};
use delivery::end_of_data;
use matching::match_row;
use numbers::words::checked_add;
use reports::Stop;
use reports::log::Log;
use reports::report::delayed;
use state::{HaltReason, KernelEvent, KernelState, Phase, Status};
use walk::run_events;

// The row of this number.
fn row_at(rows: &[u64], index: u64) -> Option<KernelTick>
    ensures { result ≡ row_at rows.now index }
{
    let (rows, _) = rows.as_chunks();
    let words = rows.get(index as usize)?;
    Some(KernelTick::from(*words))
}

// A row's observation comes after a delay, never before an earlier one.
fn queue_observation(
    cfg: &Config,
    index: u64,
    row: &KernelTick,
    s: &mut KernelState,
) -> Result<(), HaltReason>
    ensures { run_of result s.new ≡ queue_observation cfg.now index row.now s.old }
{
    let at_ns = delayed(cfg, s, row.ts_ns, cfg.observation_q)?;
    let ready_ns = at_ns.max(s.clock.last_observed_ns);
    s.clock.last_observed_ns = ready_ns;
    let entry = ObsEntry {
        ready_ns,
        row: index,
    };
    s.observed.push(entry).answer?;
    s.control.phase = Phase::ObsQueued;
    Ok(())
}

// The events up to the row's time, the row itself, and its observation.
fn before_match(cfg: &Config, rows: &[u64], s: &mut KernelState, log: &mut Log) -> Result<(), Stop>
    ensures { actual result s.new (log_of log.new) ≡ expected (log_of log.old) (before_match cfg.now rows.now s.old) }
{
    let index = s.control.cur_row.ok_or(HaltReason::CounterOverflow)?;
    let row = row_at(rows, index).ok_or(HaltReason::CounterOverflow)?;
    run_events(cfg, row.ts_ns, s, log)?;
    s.clock.now_ns = row.ts_ns.max(s.clock.now_ns);
    match_row(cfg, &row, s, log)?;
    queue_observation(cfg, index, &row, s)?;
    Ok(())
}

// The end of the current row, if there is one.
fn settle(cfg: &Config, rows: &[u64], s: &mut KernelState, log: &mut Log) -> Result<(), Stop>
    ensures { actual result s.new (log_of log.new) ≡ expected (log_of log.old) (settle cfg.now rows.now s.old) }
{
    let Some(index) = s.control.cur_row else {
        return Ok(());
    };
    let row = row_at(rows, index).ok_or(HaltReason::CounterOverflow)?;
    run_events(cfg, row.ts_ns, s, log)?;
    checked_add(row.bid, row.ask).ok_or(HaltReason::LedgerOverflow)?;
    log.emit(KernelEvent::RowEnd {
        row: index,
        ts_ns: row.ts_ns,
    });
    Ok(())
}

// The row at the cursor, if the run is not truncated before it.
fn next_row(cfg: &Config, rows: &[u64], s: &mut KernelState, log: &mut Log) -> Result<(), Stop>
    ensures { actual result s.new (log_of log.new) ≡ expected (log_of log.old) (next_row cfg.now rows.now s.old) }
{
    let cursor = s.control.cursor;
    if row_at(rows, cursor).is_none() {
        return end_of_data(s, log);
    }
    if s.control.step >= cfg.s_max {
        s.control.end(Status::Truncated);
        return Ok(());
    }
    s.control.to_row(cursor + 1);
    Ok(())
}

fn obs_queued(cfg: &Config, rows: &[u64], s: &mut KernelState, log: &mut Log) -> Result<(), Stop>
    ensures { actual result s.new (log_of log.new) ≡ expected (log_of log.old) (obs_queued cfg.now rows.now s.old) }
{
    settle(cfg, rows, s, log)?;
    next_row(cfg, rows, s, log)
}

// Runs phase by phase until the run waits for a decision or is over, or a step stops it. A label leaves the loop, as a rule of the project has it.
pub fn phases(cfg: &Config, rows: &[u64], s: &mut KernelState, log: &mut Log) -> Result<(), Stop>
    ensures { actual result s.new (log_of log.new) ≡ expected (log_of log.old) (phases cfg.now rows.now s.old) }
{
    'phases: loop {
        let went = match s.control.phase {
            Phase::BeforeMatch => before_match(cfg, rows, s, log),
            Phase::ObsQueued => obs_queued(cfg, rows, s, log),
            Phase::AwaitDecision | Phase::Terminal => break 'phases Ok(()),
        };
        if went.is_err() {
            break 'phases went;
        }
    }
}
