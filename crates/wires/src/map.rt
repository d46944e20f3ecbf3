ghost use Rattle.std.specs.Prelude.{◌≡◌};
ghost use Rattle.bits.specs.Bits.{pick};
ghost use Rattle.recorder.specs.Writer.{End.ok, End.no};
ghost use Rattle.recorder.specs.Calls.{Writes, declared, emitted, stated};
ghost use Rattle.wires.specs.Wires.{wires_in, ref_in, found_in};
ghost use Rattle.wires.specs.Expressions.{bit_expression, bit_signal, asserted_expression, assign_wire, whole, Reads, referred, wire_ref};

use crate::expressions::levelled;
use crate::{WireMap, WireRef};
use netlist::fields::word;
use netlist::{Bit, Control};
use recorder::{ExprId, Recorder, SignalId};
use refusal::Refusal;

// A control must be a whole signal of one bit.
fn scalar(r: WireRef, wire: u32) -> Result<SignalId, Refusal>
    ensures { declared result ≡ pick (whole (ref_in r)) (ok r.signal.0) (no 9 wire) }
{
    if r.lsb == 0 && r.width == 1 {
        Ok(r.signal)
    } else {
        Err(Refusal::NonScalarControl(wire as usize))
    }
}

impl WireMap<'_> {
    // What the tables hold for a wire.
    pub fn wire_ref(self, wire: u32) -> Option<WireRef>
        ensures { found_in result ≡ wires_in self.entry wire }
    {
        let i = wire as usize;
        let signal = word(self.wires, i);
        if signal == 0 {
            return None;
        }
        let place = word(self.places, i);
        Some(WireRef {
            signal: SignalId(signal - 1),
            lsb: place / 65536,
            width: place % 65536,
        })
    }

    // The same of a wire that must be there.
    pub fn find(self, wire: u32) -> Result<WireRef, Refusal>
        ensures { Reads (wire_ref (wires_in self.entry) wire) (referred result) }
    {
        match self.wire_ref(wire) {
            Some(r) => Ok(r),
            None => Err(Refusal::MissingWire(wire as usize)),
        }
    }

    // The signal of a control, which must be a whole signal of one bit.
    pub fn bit_signal(self, bit: Bit) -> Result<SignalId, Refusal>
        ensures { Reads (bit_signal (wires_in self.entry) self.entry.constants bit) (declared result) }
    {
        match bit {
            Bit::Zero => Ok(self.constants.zero),
            Bit::One => Ok(self.constants.one),
            Bit::Wire(wire) => scalar(self.find(wire)?, wire),
        }
    }

    pub fn bit_expression(self, recorder: &mut Recorder, bit: Bit) -> Result<ExprId, Refusal>
        ensures { Writes recorder.old (bit_expression (wires_in self.entry) bit) (emitted result) recorder.new }
    {
        match bit {
            Bit::Zero => Ok(ExprId::ZERO),
            Bit::One => Ok(ExprId::ONE),
            Bit::Wire(wire) => {
                let r = self.find(wire)?;
                recorder.read(1, r.signal, r.lsb)
            }
        }
    }

    pub fn asserted_expression(
        self,
        recorder: &mut Recorder,
        control: Control,
    ) -> Result<ExprId, Refusal>
        ensures { Writes recorder.old (asserted_expression (wires_in self.entry) control) (emitted result) recorder.new }
    {
        let e = self.bit_expression(recorder, control.signal)?;
        levelled(recorder, control.active, e)
    }

    // The whole signal of a wire is assigned a value.
    pub fn assign_wire(
        self,
        recorder: &mut Recorder,
        wire: u32,
        value: ExprId,
    ) -> Result<(), Refusal>
        ensures { Writes recorder.old (assign_wire (wires_in self.entry) wire value.0) (stated result) recorder.new }
    {
        let r = self.find(wire)?;
        recorder.assign(r.signal, value)
    }
}
