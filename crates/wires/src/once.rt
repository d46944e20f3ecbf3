// What a cell reads: a wire that it reads a second time is not recorded again. A refused call leaves a table of zeros.
ghost use Rattle.std.specs.Prelude.{◌≡◌, get_or, is_err};
ghost use Rattle.netlist.specs.Fields.{bits_at};
ghost use Rattle.netlist.specs.declared.Bit.TheVariants.{Wire};
ghost use Rattle.recorder.specs.Calls.{emitted};
ghost use Rattle.recorder.specs.Words.{zeroed};
ghost use Rattle.wires.specs.Wires.{wires_in};
ghost use Rattle.wires.specs.Once.{begun, seen_in, Once, Plain, Sweeps, Begins, Notes};
ghost use Rattle.wires.specs.Expressions.{bit_expression, bit_once, asserted_once, vector_bit, vector_once, roomy};

use crate::Emitter;
use crate::expressions::{concat_parts, levelled};
use netlist::fields::{Fields, word};
use netlist::{Bit, Control};
use recorder::{ExprId, Tapes};
use refusal::Refusal;

// The number of the cell's first expression, or of the next one if there are not so many yet.
pub fn begun(first: u32, t: Tapes) -> u32
    ensures { result ≡ begun first t }
{
    first.min(t.exprs.count)
}

// Bit i of the n bits that a record has from a field on; zeros behind them.
fn vector_bit(fields: Fields, n: usize, i: usize) -> Bit
    ensures { result ≡ vector_bit (bits_at fields.entry.words.now fields.entry.at n) i }
{
    if i < n { fields.bit(i) } else { Bit::Zero }
}

impl Emitter<'_, '_, '_, '_> {
    // A cell begins: what was read before does not count.
    pub fn begin(&mut self)
        ensures { Begins self.old self.new }
    {
        self.first = self.recorder.tapes.exprs.count;
    }

    // Hands on how a call on the recorder went. If it was refused, the table is cleared.
    pub fn swept<T>(&mut self, r: Result<T, Refusal>) -> Result<T, Refusal>
        ensures same { result ≡ r }
        ensures left { Sweeps (is_err r) self.old self.new }
    {
        if r.is_err() {
            self.seen.fill(0);
        }
        r
    }

    // A wire has been read, by the last expression. A wire past the table is not kept.
    fn note(&mut self, wire: u32)
        ensures { Notes wire self.old self.new }
    {
        let i = wire as usize;
        if i < self.seen.len() {
            self.seen[i] = self.recorder.tapes.exprs.count;
        }
    }

    // A read that shares nothing.
    fn bit_expression(&mut self, bit: Bit) -> Result<ExprId, Refusal>
        ensures { Plain self.old (bit_expression (wires_in self.old.map) bit) (emitted result) self.new }
    {
        let r = self.map.bit_expression(self.recorder, bit);
        self.swept(r)
    }

    // The number plus 1 of the expression that read a wire last.
    fn known(&self, wire: u32) -> u32
        ensures { result ≡ get_or self.now.seen.now wire 0 }
    {
        word(self.seen, wire as usize)
    }

    fn wire_once(&mut self, wire: u32) -> Result<ExprId, Refusal>
        ensures { Once self.old (bit_once (wires_in self.old.map) (seen_in self.old) (Wire wire)) (emitted result) self.new }
    {
        let known = self.known(wire);
        if known > self.first {
            return Ok(ExprId(known - 1));
        }
        let e = self.bit_expression(Bit::Wire(wire))?;
        self.note(wire);
        Ok(e)
    }

    pub fn bit_once(&mut self, bit: Bit) -> Result<ExprId, Refusal>
        ensures { Once self.old (bit_once (wires_in self.old.map) (seen_in self.old) bit) (emitted result) self.new }
    {
        match bit {
            Bit::Zero => Ok(ExprId::ZERO),
            Bit::One => Ok(ExprId::ONE),
            Bit::Wire(wire) => self.wire_once(wire),
        }
    }

    pub fn asserted_once(&mut self, control: Control) -> Result<ExprId, Refusal>
        ensures { Once self.old (asserted_once (wires_in self.old.map) (seen_in self.old) control) (emitted result) self.new }
    {
        let e = self.bit_once(control.signal)?;
        let r = levelled(self.recorder, control.active, e);
        self.swept(r)
    }

    // The vector of the n bits that a record has from a field on, widened by zeros; the highest bit is read first.
    fn vector_once(
        &mut self,
        parts: &mut [u32],
        fields: Fields,
        n: usize,
        width: u32,
    ) -> Result<ExprId, Refusal>
        ensures { Once self.old (roomy width parts.old (vector_once (wires_in self.old.map) (seen_in self.old) (bits_at fields.entry.words.now fields.entry.at n) 0 width)) (emitted result) self.new }
    {
        let end = width as usize;
        if parts.len() < end {
            return self.swept(Err(Refusal::BufferTooShort(end)));
        }
        for (i, part) in parts[..end].iter_mut().enumerate() {
            let bit = vector_bit(fields, n, end - 1 - i);
            *part = self.bit_once(bit)?.0;
        }
        let r = concat_parts(self.recorder, parts, width);
        self.swept(r)
    }

    // The same, with the work cleared again.
    pub fn bits_once(
        &mut self,
        parts: &mut [u32],
        fields: Fields,
        n: usize,
        width: u32,
    ) -> Result<ExprId, Refusal>
        ensures wrote { Once self.old (roomy width parts.old (vector_once (wires_in self.old.map) (seen_in self.old) (bits_at fields.entry.words.now fields.entry.at n) 0 width)) (emitted result) self.new }
        ensures work { parts.new ≡ zeroed parts.old }
    {
        let r = self.vector_once(parts, fields, n, width);
        parts.fill(0);
        r
    }
}
