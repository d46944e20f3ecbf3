// A method for each kind of record. Each answers with the record's number, or that its list is full.
ghost use Rattle.std.specs.Prelude.{◌≡◌, ◌++◌};
ghost use Rattle.recorder.specs.Record.{sized, Expr.const as const_e, Expr.read as read_e, Expr.concat as concat_e, Expr.not as not_e, Expr.and as and_e, Expr.or as or_e, Expr.xor as xor_e, Expr.mux as mux_e, Expr.eq as eq_e, Expr.mul as mul_e, Stmt.assign as assign_s, Stmt.reg as reg_s};
ghost use Rattle.recorder.specs.Lists.{lists, tapes, unwritten};
ghost use Rattle.recorder.specs.Writer.{declare, emit, state};
ghost use Rattle.recorder.specs.Calls.{Writes, PushedSignal, PushedExpr, PushedStmt, emitted, declared, stated, reset_of, enable_of, lists_in, tapes_in};

use crate::list::put_record;
use crate::{AsyncReset, Enable, ExprId, Recorder, SignalId, Tape, Tapes};
use refusal::Refusal;

impl<'a> Recorder<'a> {
    // Nothing is recorded yet.
    pub fn new(signals: &'a mut [u32], exprs: &'a mut [u32], stmts: &'a mut [u32]) -> Recorder<'a>
        ensures same_signals { result.signals.ghost_name ≡ signals.entry.ghost_name }
        ensures same_exprs { result.exprs.ghost_name ≡ exprs.entry.ghost_name }
        ensures same_stmts { result.stmts.ghost_name ≡ stmts.entry.ghost_name }
        ensures held { lists_in result ≡ lists signals.old exprs.old stmts.old }
        ensures begun { tapes_in result ≡ tapes unwritten unwritten unwritten }
    {
        let tape = Tape { used: 0, count: 0 };
        let tapes = Tapes {
            signals: tape,
            exprs: tape,
            stmts: tape,
        };
        Recorder {
            signals,
            exprs,
            stmts,
            tapes,
        }
    }

    // A signal of these fields, which are some record's.
    fn push_signal(&mut self, fields: &[u32]) -> Result<SignalId, Refusal>
        ensures { PushedSignal (sized fields.now) self.old (declared result) self.new }
    {
        let tape = self.tapes.signals;
        let Some(behind) = put_record(self.signals, tape, fields, &[]) else {
            return Err(Refusal::ListFull(0));
        };
        self.tapes.signals = behind;
        Ok(SignalId(tape.count))
    }

    // An expression of these fields, which are some record's.
    fn push_expr(&mut self, fields: &[u32], more: &[u32]) -> Result<ExprId, Refusal>
        ensures { PushedExpr (sized (fields.now ++ more.now)) self.old (emitted result) self.new }
    {
        let tape = self.tapes.exprs;
        let Some(behind) = put_record(self.exprs, tape, fields, more) else {
            return Err(Refusal::ListFull(1));
        };
        self.tapes.exprs = behind;
        Ok(ExprId(tape.count))
    }

    // A statement of these fields, which are some record's.
    fn push_stmt(&mut self, fields: &[u32]) -> Result<(), Refusal>
        ensures { PushedStmt (sized fields.now) self.old (stated result) self.new }
    {
        let Some(behind) = put_record(self.stmts, self.tapes.stmts, fields, &[]) else {
            return Err(Refusal::ListFull(2));
        };
        self.tapes.stmts = behind;
        Ok(())
    }

    fn push_fixed(&mut self, fields: &[u32]) -> Result<ExprId, Refusal>
        ensures { PushedExpr (sized fields.now) self.old (emitted result) self.new }
    {
        self.push_expr(fields, &[])
    }

    // Any number may stand as a label, though only a `Label`'s has a name.
    pub fn signal(&mut self, label: u32, width: u32, owner: u32) -> Result<SignalId, Refusal>
        ensures { Writes self.old (declare (record { label = label; width = width; owner = owner })) (declared result) self.new }
    {
        self.push_signal(&[label, width, owner])
    }

    pub fn constant(&mut self, width: u32, value: u32) -> Result<ExprId, Refusal>
        ensures { Writes self.old (emit (const_e width value)) (emitted result) self.new }
    {
        self.push_fixed(&[0, width, value])
    }

    // A part of a signal, from its lowest bit.
    pub fn read(&mut self, width: u32, signal: SignalId, lsb: u32) -> Result<ExprId, Refusal>
        ensures { Writes self.old (emit (read_e width signal.0 lsb)) (emitted result) self.new }
    {
        self.push_fixed(&[1, width, signal.0, lsb])
    }

    // The parts are expression numbers, the highest first.
    pub fn concat(&mut self, width: u32, parts: &[u32]) -> Result<ExprId, Refusal>
        ensures { Writes self.old (emit (concat_e width parts.now)) (emitted result) self.new }
    {
        self.push_expr(&[2, width], parts)
    }

    pub fn not(&mut self, value: ExprId) -> Result<ExprId, Refusal>
        ensures { Writes self.old (emit (not_e value.0)) (emitted result) self.new }
    {
        self.push_fixed(&[3, 1, value.0])
    }

    pub fn and(&mut self, lhs: ExprId, rhs: ExprId) -> Result<ExprId, Refusal>
        ensures { Writes self.old (emit (and_e lhs.0 rhs.0)) (emitted result) self.new }
    {
        self.push_fixed(&[4, 1, lhs.0, rhs.0])
    }

    pub fn or(&mut self, lhs: ExprId, rhs: ExprId) -> Result<ExprId, Refusal>
        ensures { Writes self.old (emit (or_e lhs.0 rhs.0)) (emitted result) self.new }
    {
        self.push_fixed(&[5, 1, lhs.0, rhs.0])
    }

    pub fn xor(&mut self, lhs: ExprId, rhs: ExprId) -> Result<ExprId, Refusal>
        ensures { Writes self.old (emit (xor_e lhs.0 rhs.0)) (emitted result) self.new }
    {
        self.push_fixed(&[6, 1, lhs.0, rhs.0])
    }

    pub fn mux(
        &mut self,
        width: u32,
        select: ExprId,
        when_true: ExprId,
        when_false: ExprId,
    ) -> Result<ExprId, Refusal>
        ensures { Writes self.old (emit (mux_e width select.0 when_true.0 when_false.0)) (emitted result) self.new }
    {
        self.push_fixed(&[7, width, select.0, when_true.0, when_false.0])
    }

    pub fn equal(&mut self, lhs: ExprId, rhs: ExprId) -> Result<ExprId, Refusal>
        ensures { Writes self.old (emit (eq_e lhs.0 rhs.0)) (emitted result) self.new }
    {
        self.push_fixed(&[8, 1, lhs.0, rhs.0])
    }

    // A product of 36 bits.
    pub fn multiply(&mut self, lhs: ExprId, rhs: ExprId) -> Result<ExprId, Refusal>
        ensures { Writes self.old (emit (mul_e lhs.0 rhs.0)) (emitted result) self.new }
    {
        self.push_fixed(&[9, 36, lhs.0, rhs.0])
    }

    pub fn assign(&mut self, target: SignalId, value: ExprId) -> Result<(), Refusal>
        ensures { Writes self.old (state (assign_s target.0 value.0)) (stated result) self.new }
    {
        self.push_stmt(&[0, target.0, value.0])
    }

    pub fn register(
        &mut self,
        target: SignalId,
        next: ExprId,
        clock: SignalId,
        edge: u32,
        reset: Option<AsyncReset>,
        enable: Option<Enable>,
    ) -> Result<(), Refusal>
        ensures { Writes self.old (state (reg_s target.0 next.0 clock.0 edge (reset_of reset) (enable_of enable))) (stated result) self.new }
    {
        match (reset, enable) {
            (None, None) => self.push_stmt(&[1, target.0, next.0, clock.0, edge, 0, 0]),
            (None, Some(e)) => self.push_stmt(&[
                1, target.0, next.0, clock.0, edge, 0, 1, e.signal.0, e.active,
            ]),
            (Some(r), None) => self.push_stmt(&[
                1, target.0, next.0, clock.0, edge, 1, r.signal.0, r.active, r.value.0, 0,
            ]),
            (Some(r), Some(e)) => self.push_stmt(&[
                1, target.0, next.0, clock.0, edge, 1, r.signal.0, r.active, r.value.0, 1, e
                    .signal
                    .0, e.active,
            ]),
        }
    }
}
