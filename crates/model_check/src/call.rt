// What refuses a call before any loop is looked for: 12, then 1 and 14.
ghost use Rattle.std.specs.Prelude.{◌≡◌, ◌&&◌, [], ◌≤◌, min, leb, ltb, length, take};
ghost use Rattle.std.specs.Prelude.{None, Some};
ghost use Rattle.bits.specs.Bits.{pick};
ghost use Rattle.simulation.specs.Model.{lists_of};
ghost use Rattle.recorder.specs.Read.{only};
ghost use Rattle.simulation.specs.Wellformed.{or_else};
ghost use Rattle.simulation.specs.Run.{answer_of, fired_of, no_bit, wrong_count, wrong_fired, first_of, zeroed};
ghost use Rattle.model_check.specs.Works.{SameWorks, OthersKept};
ghost use Rattle.simulation.specs.Fault.{width_total, input_field, input_total, length_causes, tick_causes, bit_causes, call_causes, call_of, checked_by};

use crate::check::malformed;
use recorder::read::word;
use refusal::Refusal;
use simulation::index::{count, sum_to, wide};
use simulation::records::Records;
use simulation::{Edge, Model};

// What a call works in: a byte for each bit of all expressions, for each expression, for each signal.
#[derive(Drop)]
pub struct Works<'a> {
    pub bits: &'a mut [u8],
    pub exprs: &'a mut [u8],
    pub signals: &'a mut [u8],
}

impl Works<'_> {
    pub fn clear(&mut self)
        ensures cleared { (self.new.bits.now ≡ zeroed self.old.bits.now) × (self.new.exprs.now ≡ zeroed self.old.exprs.now) × (self.new.signals.now ≡ zeroed self.old.signals.now) }
        ensures same { SameWorks self.old self.new }
    {
        self.bits.fill(0);
        self.exprs.fill(0);
        self.signals.fill(0);
    }

    // `call_lengths` with these works.
    pub fn lengths(&self, m: Model, bytes: &[u8]) -> Result<(), Refusal>
        ensures { answer_of result ≡ first_of (length_causes m.entry.signals.now m.entry.exprs.now bytes.now self.now.bits.now self.now.exprs.now self.now.signals.now) }
    {
        call_lengths(m, bytes, self.bits, self.exprs, self.signals)
    }

    // `check_call` with these works.
    pub fn check(
        &mut self,
        m: Model,
        signal_table: &mut [u32],
        expr_table: &mut [u32],
        bytes: &[u8],
        ticks: &[u8],
        fired: Option<Edge>,
        widest: u32,
    ) -> Result<(), Refusal>
        ensures answer { answer_of result ≡ checked_by widest (call_of (lists_of m.entry) bytes.now ticks.now (fired_of fired) self.old.bits.now self.old.exprs.now self.old.signals.now) }
        ensures zeros { (signal_table.new ≡ zeroed signal_table.old) × (expr_table.new ≡ zeroed expr_table.old) × (self.new.signals.now ≡ zeroed self.old.signals.now) }
        ensures kept { OthersKept self.old self.new }
        ensures same { SameWorks self.old self.new }
    {
        let bits: &mut [u8] = self.bits;
        let exprs: &mut [u8] = self.exprs;
        check_call(
            m,
            signal_table,
            expr_table,
            bytes,
            ticks,
            fired,
            bits,
            exprs,
            self.signals,
            widest,
        )
    }
}

fn too_short(n: usize, buffer: &[u8]) -> Result<(), Refusal>
    ensures { answer_of result ≡ only (ltb (length buffer.now) n) (Some (1, n)) }
{
    if buffer.len() < n {
        return Err(Refusal::BufferTooShort(n));
    }
    Ok(())
}

// The widths of all records, as far as their sum can be named.
fn width_total(list: &[u32]) -> usize
    ensures { result ≡ min (width_total list.now) 18446744073709551615 }
{
    sum_to(list, list.len())
}

// Refusal 1: the first buffer that is too short.
pub fn call_lengths(
    m: Model,
    bytes: &[u8],
    work_bits: &[u8],
    work_exprs: &[u8],
    work_signals: &[u8],
) -> Result<(), Refusal>
    ensures { answer_of result ≡ first_of (length_causes m.entry.signals.now m.entry.exprs.now bytes.now work_bits.now work_exprs.now work_signals.now) }
{
    too_short(width_total(m.signals), bytes)?;
    too_short(width_total(m.exprs), work_bits)?;
    too_short(count(m.exprs), work_exprs)?;
    too_short(count(m.signals), work_signals)
}

// The first byte that is no bit.
fn no_bit(bytes: &[u8]) -> Result<(), Refusal>
    ensures { answer_of result ≡ no_bit 0 bytes.now }
{
    for (i, b) in bytes.iter().enumerate() {
        if *b > 1 {
            return Err(Refusal::BadTick(i));
        }
    }
    Ok(())
}

// 14 for a signal byte: the first of them, as far as there are any, that is no bit.
pub fn byte_fault(signals: &[u32], bytes: &[u8]) -> Result<(), Refusal>
    ensures { answer_of result ≡ no_bit 0 (take (width_total signals.now) bytes.now) }
{
    let n = width_total(signals).min(bytes.len());
    no_bit(&bytes[..n])
}

fn input_width(fields: &[u32]) -> usize
    ensures { result ≡ input_field fields.now }
{
    if word(fields, 0) == 0 {
        wide(word(fields, 1))
    } else {
        0
    }
}

// The widths of all inputs, as far as their sum can be named.
pub fn input_total(signals: &[u32]) -> usize
    ensures { result ≡ min (input_total signals.now) 18446744073709551615 }
{
    let mut sum: usize = 0;
    for fields in Records::new(signals) {
        sum = sum.saturating_add(input_width(fields));
    }
    sum
}

fn wrong_count(n: usize, ticks: &[u8]) -> Result<(), Refusal>
    ensures { answer_of result ≡ wrong_count n ticks.now }
{
    if ticks.len() == n {
        return Ok(());
    }
    Err(Refusal::BadTick(n))
}

fn wrong_edge(signals: usize, s: usize, edge: u32) -> Result<(), Refusal>
    ensures { answer_of result ≡ pick (ltb s signals && leb edge 1) None (Some (14, 0)) }
{
    if s >= signals {
        return Err(Refusal::BadTick(0));
    }
    if edge > 1 {
        return Err(Refusal::BadTick(0));
    }
    Ok(())
}

fn wrong_fired(signals: usize, fired: Option<Edge>) -> Result<(), Refusal>
    ensures { answer_of result ≡ wrong_fired signals (fired_of fired) }
{
    match fired {
        None => Ok(()),
        Some(e) => wrong_edge(signals, wide(e.signal.0), e.edge),
    }
}

// 14 for one tick on a model of so many signals and input bits: a wrong count of tick bits, the first that is no bit, an edge that is none.
pub fn tick_fault(
    count: usize,
    bits: usize,
    ticks: &[u8],
    fired: Option<Edge>,
) -> Result<(), Refusal>
    ensures { answer_of result ≡ first_of (tick_causes count bits ticks.now (fired_of fired)) }
{
    wrong_count(bits, ticks)?;
    no_bit(ticks)?;
    wrong_fired(count, fired)
}

// Refusal 14, for bytes that are enough.
fn bits(signals: &[u32], bytes: &[u8], ticks: &[u8], fired: Option<Edge>) -> Result<(), Refusal>
    requires { width_total signals.now ≤ length bytes.now }
    ensures { answer_of result ≡ first_of (bit_causes signals.now bytes.now ticks.now (fired_of fired)) }
{
    byte_fault(signals, bytes)?;
    tick_fault(count(signals), input_total(signals), ticks, fired)
}

// Refusals 1 and 14, for a model without a fault.
fn call_fault(
    m: Model,
    bytes: &[u8],
    ticks: &[u8],
    fired: Option<Edge>,
    work_bits: &[u8],
    work_exprs: &[u8],
    work_signals: &[u8],
) -> Result<(), Refusal>
    ensures { answer_of result ≡ call_causes (call_of (lists_of m.entry) bytes.now ticks.now (fired_of fired) work_bits.now work_exprs.now work_signals.now) }
{
    call_lengths(m, bytes, work_bits, work_exprs, work_signals)?;
    bits(m.signals, bytes, ticks, fired)
}

// Refusals 12, 1 and 14. The tables are work, for widths.
pub fn check_call(
    m: Model,
    signal_table: &mut [u32],
    expr_table: &mut [u32],
    bytes: &[u8],
    ticks: &[u8],
    fired: Option<Edge>,
    work_bits: &[u8],
    work_exprs: &[u8],
    work_signals: &mut [u8],
    widest: u32,
) -> Result<(), Refusal>
    ensures answer { answer_of result ≡ checked_by widest (call_of (lists_of m.entry) bytes.now ticks.now (fired_of fired) work_bits.now work_exprs.now work_signals.old) }
    ensures zeros { (signal_table.new ≡ zeroed signal_table.old) × (expr_table.new ≡ zeroed expr_table.old) × (work_signals.new ≡ zeroed work_signals.old) }
{
    match malformed(m, signal_table, expr_table, work_signals, widest) {
        Some(n) => Err(Refusal::MalformedModel(n)),
        None => call_fault(m, bytes, ticks, fired, work_bits, work_exprs, work_signals),
    }
}
