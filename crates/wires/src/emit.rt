// What a cell records besides its reads. A refused call leaves a table of zeros.
ghost use Rattle.std.specs.Prelude.{◌≡◌};
ghost use Rattle.recorder.specs.Record.{Expr.and as and_e, Expr.mul as mul_e};
ghost use Rattle.recorder.specs.Writer.{emit};
ghost use Rattle.recorder.specs.Calls.{emitted, stated};
ghost use Rattle.optimize.specs.Rewrite.{xor_of, mux_of};
ghost use Rattle.optimize.specs.Lut.{numbers, lut_cofactor};
ghost use Rattle.wires.specs.Wires.{wires_in};
ghost use Rattle.wires.specs.Once.{Plain};
ghost use Rattle.wires.specs.Expressions.{assign_wire};

use crate::Emitter;
use optimize::lut::lut;
use optimize::optimizer::{mux, xor};
use recorder::ExprId;
use refusal::Refusal;

impl Emitter<'_, '_, '_, '_> {
    // A truth table of four inputs, the first the lowest.
    pub fn lut_expression(&mut self, inputs: [ExprId; 4], table: u16) -> Result<ExprId, Refusal>
        ensures { Plain self.old (lut_cofactor (numbers inputs) table) (emitted result) self.new }
    {
        let r = lut(self.recorder, inputs, table);
        self.swept(r)
    }

    // A multiplexer of one bit, reduced.
    pub fn mux(
        &mut self,
        select: ExprId,
        when_true: ExprId,
        when_false: ExprId,
    ) -> Result<ExprId, Refusal>
        ensures { Plain self.old (mux_of select.0 when_true.0 when_false.0) (emitted result) self.new }
    {
        let r = mux(self.recorder, select, when_true, when_false);
        self.swept(r)
    }

    // An exclusive or of two bits, reduced.
    pub fn xor(&mut self, lhs: ExprId, rhs: ExprId) -> Result<ExprId, Refusal>
        ensures { Plain self.old (xor_of lhs.0 rhs.0) (emitted result) self.new }
    {
        let r = xor(self.recorder, lhs, rhs);
        self.swept(r)
    }

    pub fn and(&mut self, lhs: ExprId, rhs: ExprId) -> Result<ExprId, Refusal>
        ensures { Plain self.old (emit (and_e lhs.0 rhs.0)) (emitted result) self.new }
    {
        let r = self.recorder.and(lhs, rhs);
        self.swept(r)
    }

    pub fn multiply(&mut self, lhs: ExprId, rhs: ExprId) -> Result<ExprId, Refusal>
        ensures { Plain self.old (emit (mul_e lhs.0 rhs.0)) (emitted result) self.new }
    {
        let r = self.recorder.multiply(lhs, rhs);
        self.swept(r)
    }

    // The whole signal of a wire is assigned a value.
    pub fn assign_wire(&mut self, wire: u32, value: ExprId) -> Result<(), Refusal>
        ensures { Plain self.old (assign_wire (wires_in self.old.map) wire value.0) (stated result) self.new }
    {
        let r = self.map.assign_wire(self.recorder, wire, value);
        self.swept(r)
    }
}
