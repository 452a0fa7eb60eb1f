// Reading a formula from DIMACS text.
ghost use Rattle.std.specs.Prelude.{◌≡◌, ◌+◌, ◌^◌, ◌<◌, ◌≤◌, [], Ok, Err};
ghost use Rattle.std.specs.Prelude.{Some, false, length, drop};
ghost use Rattle.std.specs.Prelude.{IfOk, IfErr, IfSome, OnOk};
ghost use Rattle.dsv_cnf.specs.Reading.{clauses_from, comments_end, header_of, number_end};
ghost use Rattle.dsv_cnf.specs.Reading.{number_of, part_of, part_of_number, reading, end_clause};
ghost use Rattle.dsv_cnf.specs.Reading.{take_part, word_end, IsPartOver, IsRefusal, finish};
ghost use Rattle.dsv_cnf.specs.TextFaults.{IsRefusalOf};
ghost use Rattle.dsv_cnf.specs.Texts.{IsTextOf};

use crate::{Formula, Lit};
use dsv_base::NoMemory;
use dsv_text::{is_blank, is_digit};
use std::alloc::{AllocFailed, Global};
use std::marker::Model;
use thiserror::Error;

/// Why a text isn't a formula. The offsets count bytes from 0.
#[derive(Clone, Copy, Debug, PartialEq, Eq, Error)]
pub enum CnfRefusal {
    /// The first byte that breaks the header line, or the header's number that is too large.
    #[error("the header is broken at byte {at}")]
    Header { at: u64 },
    /// The first piece that is neither a literal nor 0, or whose variable is over the header's
    /// number.
    #[error("no literal at byte {at}")]
    Literal { at: u64 },
    /// The end, where the number of clauses isn't the header's or the last clause has no 0.
    #[error("another number of clauses at the end, byte {at}")]
    Count { at: u64 },
    #[error("out of memory")]
    NoMemory,
}

impl From<NoMemory> for CnfRefusal {
    ghost use Rattle.std.specs.Prelude.{◌≡◌};
    ghost use Rattle.dsv_cnf.specs.declared.reader.CnfRefusal.TheVariants as refusal;

    ghost from_gives = { λ _ r. r ≡ refusal.NoMemory };

    fn from(_: NoMemory) -> Self {
        CnfRefusal::NoMemory
    }
}

impl<T: Drop> From<AllocFailed<T>> for CnfRefusal {
    ghost use Rattle.std.specs.Prelude.{◌≡◌};
    ghost use Rattle.dsv_cnf.specs.declared.reader.CnfRefusal.TheVariants as refusal;

    ghost from_gives = { λ _ r. r ≡ refusal.NoMemory };

    fn from(_: AllocFailed<T>) -> Self {
        CnfRefusal::NoMemory
    }
}

// ---- the header

fn comments_end(bytes: &[u8]) -> usize
    ensures end { result ≡ comments_end false bytes.now 0 }
    ensures inside { result ≤ length bytes.now }
{
    let mut inside = false;
    for (i, byte) in bytes.iter().enumerate() {
        if inside {
            inside = *byte != b'\n';
        } else if *byte == b'c' {
            inside = true;
        } else {
            return i;
        }
    }
    bytes.len()
}

fn word_end(bytes: &[u8], at: usize, word: &[u8]) -> Result<usize, CnfRefusal>
    requires { at ≤ length bytes.now }
    ensures end { result ≡ word_end word.now (drop at bytes.now) at }
    ensures inside { IfOk result (λ end. end ≤ length bytes.now) }
{
    let mut end = at;
    for byte in word {
        if end >= bytes.len() {
            return Err(CnfRefusal::Header { at: end as u64 });
        }
        if bytes[end] != *byte {
            return Err(CnfRefusal::Header { at: end as u64 });
        }
        end += 1;
    }
    Ok(end)
}

/// A number and where it ends.
#[derive(Clone, Copy)]
struct Number {
    value: u32,
    end: usize,
}

fn number_end(bytes: &[u8], at: usize, limit: u32) -> Result<Number, CnfRefusal>
    requires { at ≤ length bytes.now }
    ensures end { result ≡ number_end limit (drop at bytes.now) at }
    ensures small { IfOk result (λ n. (n.value ≤ limit) × (n.end ≤ length bytes.now)) }
{
    if at >= bytes.len() || !is_digit(bytes[at]) {
        return Err(CnfRefusal::Header { at: at as u64 });
    }
    if bytes[at] == b'0' {
        return Ok(Number {
            value: 0,
            end: at + 1,
        });
    }
    let mut value = 0;
    for i in at..bytes.len() {
        if !is_digit(bytes[i]) {
            return Ok(Number { value, end: i });
        }
        let more = 10 * u64::from(value) + u64::from(bytes[i] - b'0');
        if more > u64::from(limit) {
            return Err(CnfRefusal::Header { at: at as u64 });
        }
        value = more as u32;
    }
    Ok(Number {
        value,
        end: bytes.len(),
    })
}

/// The numbers of the header, and where it ends.
#[derive(Clone, Copy)]
struct Header {
    vars: u32,
    clauses: u32,
    end: usize,
}

fn read_header(bytes: &[u8], at: usize) -> Result<Header, CnfRefusal>
    requires { at ≤ length bytes.now }
    ensures header { result ≡ header_of bytes.now at }
    ensures small { IfOk result (λ h. (h.vars ≤ 2 ^ 31) × (h.end ≤ length bytes.now)) }
{
    let at = word_end(bytes, at, b"p cnf ")?;
    let vars = number_end(bytes, at, 1 << 31)?;
    let at = word_end(bytes, vars.end, b" ")?;
    let clauses = number_end(bytes, at, u32::MAX)?;
    let end = word_end(bytes, clauses.end, b"\n")?;
    Ok(Header {
        vars: vars.value,
        clauses: clauses.value,
        end,
    })
}

// ---- the clauses

/// What stands between two blanks.
#[derive(Clone, Copy)]
enum Piece {
    Nothing,
    End,
    Is(Lit),
    Wrong,
}

/// The number that a text writes without a sign or leading zeros, where it is at most the limit.
fn number_of(text: &[u8], limit: u32) -> Option<u32>
    ensures value { result ≡ number_of limit text.now }
    ensures small { IfSome result (λ n. n ≤ limit) }
{
    let first = *text.first()?;
    if first == b'0' && text.len() > 1 {
        return None;
    }
    let mut value = 0;
    for byte in text {
        if !is_digit(*byte) {
            return None;
        }
        let more = 10 * u64::from(value) + u64::from(*byte - b'0');
        if more > u64::from(limit) {
            return None;
        }
        value = more as u32;
    }
    Some(value)
}

fn part_of_number(number: u32, positive: bool) -> Piece
    requires { number ≤ 2 ^ 31 }
    ensures { result ≡ part_of_number positive (Some number) }
{
    if number > 0 {
        Piece::Is(Lit::new(number - 1, positive))
    } else if positive {
        Piece::End
    } else {
        Piece::Wrong
    }
}

fn part_of(text: &[u8], vars: u32) -> Piece
    requires { vars ≤ 2 ^ 31 }
    ensures value { result ≡ part_of vars text.now }
    ensures over { IsPartOver vars result }
{
    let Some(first) = text.first() else {
        return Piece::Nothing;
    };
    let positive = *first != b'-';
    let digits = if positive { text } else { &text[1..] };
    match number_of(digits, vars) {
        None => Piece::Wrong,
        Some(n) => part_of_number(n, positive),
    }
}

/// The clauses that were read, at most as many as are wanted, and the literals of the clause that
/// has no 0 yet.
#[derive(Drop)]
struct Reading {
    formula: Formula,
    wanted: u32,
    open: Vec<Lit>,
    over: bool,
}

impl Model for Reading {
    ghost use Rattle.dsv_cnf.specs.ReadingView.{ReadingView};

    ghost Value = { ReadingView };

    ghost use Rattle.dsv_cnf.specs.ReadingInside.{view_of, IsReading};

    ghost view = { view_of };

    ghost invariant = { IsReading };
}

impl Reading {
    fn end_clause(&mut self) -> Result<(), NoMemory>
        ensures { OnOk result (self.new ≡ end_clause self.old) }
    {
        if self.formula.len() < self.wanted {
            self.formula.push_clause(self.open.as_slice())?;
        } else {
            self.over = true;
        }
        self.open.clear();
        Ok(())
    }

    /// Takes what stands between two blanks, the first byte of it at this offset.
    fn take(&mut self, text: &[u8], at: usize) -> Result<(), CnfRefusal>
        ensures ok { OnOk result (take_part self.old text.now at ≡ Ok self.new) }
        ensures refused { IfErr result (IsRefusal (take_part self.old text.now at)) }
    {
        match part_of(text, self.formula.vars()) {
            Piece::Nothing => Ok(()),
            Piece::End => Ok(self.end_clause()?),
            Piece::Is(literal) => Ok(self.open.push(literal)?),
            Piece::Wrong => Err(CnfRefusal::Literal { at: at as u64 }),
        }
    }

    /// The formula, where the text ends at this offset.
    fn finish(self, at: usize) -> Result<Formula, CnfRefusal>
        ensures { result ≡ finish self at }
    {
        if self.formula.len() == self.wanted && !self.over && self.open.is_empty() {
            return Ok(self.formula);
        }
        Err(CnfRefusal::Count { at: at as u64 })
    }
}

fn read_clauses(reading: &mut Reading, bytes: &[u8], from: usize) -> Result<(), CnfRefusal>
    requires { from ≤ length bytes.now }
    ensures ok { OnOk result (clauses_from (drop from bytes.now) [] from reading.old
        ≡ Ok reading.new) }
    ensures refused { IfErr result
        (IsRefusal (clauses_from (drop from bytes.now) [] from reading.old)) }
{
    let mut start = from;
    for i in from..bytes.len() {
        if is_blank(bytes[i]) {
            reading.take(&bytes[start..i], start)?;
            start = i + 1;
        }
    }
    reading.take(&bytes[start..], start)
}

// ---- the formula

/// Reads DIMACS text: comment lines, the header `p cnf V C`, and C clauses over V variables, each
/// ended by 0. It takes time in proportion to the text.
///
/// A text of a formula is comment lines, its header line and, between blanks, the literals of each
/// clause with a 0 after them; exactly these texts are read, each to its one formula
/// ([`texts_are_read`](crate::texts_are_read)). An `Err` names the one fault of a text that is of
/// no formula, or there was no memory.
pub fn read_dimacs(alloc: Global, bytes: &[u8]) -> Result<Formula, CnfRefusal>
    ensures ok { IfOk result (λ f. reading bytes.now ≡ Ok f) }
    ensures text { IfOk result (λ f. IsTextOf f bytes.now) }
    ensures refused { IfErr result (IsRefusal (reading bytes.now)) }
    ensures fault { IfErr result (IsRefusalOf bytes.now) }
{
    let header = read_header(bytes, comments_end(bytes))?;
    let mut reading = Reading {
        formula: Formula::new(alloc, header.vars)?,
        wanted: header.clauses,
        open: Vec::new(alloc),
        over: false,
    };
    read_clauses(&mut reading, bytes, header.end)?;
    reading.finish(bytes.len())
}
