#![tactic(auto)]
//! A log of a million steps over a million clauses is read, made and judged. Time it from outside.

ghost use Rattle.std.specs.Prelude.{◌<◌, ◌^◌};

use dsv_base::{Failed, MemSink, NoMemory, put_all, put_line, put_number};
use dsv_cnf::{Lit, read_dimacs};
use dsv_hints::{HintList, LitList, Log, Step, Verdict, check};
use std::alloc::Global;

/// How many implications the chain has.
const LENGTH: u32 = 1_000_000;

/// Room for its text.
const TEXT_ROOM: usize = 32_000_000;

/// The clause by which this variable implies the next one.
fn put_implication(sink: &mut MemSink, var: u32) -> Result<(), Failed>
    requires { var < 2 ^ 30 }
{
    put_all(sink, b"-")?;
    put_number(sink, var + 1)?;
    put_all(sink, b" ")?;
    put_number(sink, var + 2)?;
    put_all(sink, b" 0\n")
}

/// The text of a chain: the first variable is true, each one implies the next, and the last is
/// false.
fn put_chain(sink: &mut MemSink, length: u32) -> Result<(), Failed>
    requires { length < 2 ^ 30 }
{
    put_line(sink, b"p cnf", &[length + 1, length + 2])?;
    put_all(sink, b"1 0\n")?;
    for i in 0..length {
        put_implication(sink, i)?;
    }
    put_all(sink, b"-")?;
    put_number(sink, length + 1)?;
    put_all(sink, b" 0\n")
}

/// Adds the step that derives these literals by these hints.
fn push_step(
    alloc: Global,
    log: &mut Log,
    id: u64,
    lits: &[Lit],
    hints: &[u64],
) -> Result<(), NoMemory> {
    let lits = LitList::from_slice(alloc, lits)?;
    let hints = HintList::from_slice(alloc, hints)?;
    log.push(Step::Add { id, lits, hints })
}

/// The derivation: each variable is true by the one before it, and then the last is both.
fn chain_log(alloc: Global, length: u32) -> Result<Log, NoMemory>
    requires { length < 2 ^ 30 }
{
    let mut log = Log::new(alloc);
    let clauses = u64::from(length) + 2;
    for i in 0..length {
        let place = u64::from(i);
        let before = if i == 0 { 1 } else { clauses + place };
        let implied = [Lit::new(i + 1, true)];
        push_step(
            alloc,
            &mut log,
            clauses + 1 + place,
            &implied,
            &[before, place + 2],
        )?;
    }
    let last = clauses + u64::from(length);
    push_step(alloc, &mut log, last + 1, &[], &[last, clauses])?;
    Ok(log)
}

/// Whether the log is accepted; none where the text isn't written or read, or the log is too long.
fn accepts_chain(alloc: Global, length: u32) -> Result<Option<bool>, NoMemory>
    requires { length < 2 ^ 30 }
{
    let mut text = MemSink::new(alloc, TEXT_ROOM)?;
    if put_chain(&mut text, length).is_err() {
        return Ok(None);
    }
    let Ok(formula) = read_dimacs(alloc, text.bytes()) else {
        return Ok(None);
    };
    let log = chain_log(alloc, length)?;
    if log.as_slice().len() >= u32::MAX as usize {
        return Ok(None);
    }
    Ok(Some(check(alloc, &formula, &log)? == Verdict::Accepted))
}

fn main(rt: HostRuntime) {
    let text = match accepts_chain(rt.alloc(), LENGTH) {
        Ok(Some(true)) => "accepted",
        Ok(Some(false)) => "refused",
        Ok(None) => "not read",
        Err(NoMemory) => "no memory",
    };
    let _ = println!(&rt; "{text}");
}
