// Emits reduced one-bit expressions. (mod.rs of the Rust, whose BitOptimizer these functions are.)
//
// Cell conversion describes the hardware operation; this layer selects a reduced expression and records it. It goes by
// expression numbers, the two constants and truth tables alone: it looks into no expression, and must not be used for
// muxes of words.
ghost use Rattle.recorder.specs.Calls.{Writes, emitted};
ghost use Rattle.optimize.specs.Rewrite.{emit_rewrite, xor_of, mux_of};

use crate::{bitwise, mux};
use recorder::{ExprId, Recorder};
use refusal::Refusal;

// The result of a local rewrite, before anything is recorded.
#[derive(Clone, Copy, Debug, PartialEq, Eq)]
pub enum Rewrite {
    Value(ExprId),
    Not(ExprId),
    And(ExprId, ExprId),
    Or(ExprId, ExprId),
    Xor(ExprId, ExprId),
    AndNot(ExprId, ExprId),
    OrNot(ExprId, ExprId),
    Mux(ExprId, ExprId, ExprId),
}

// A multiplexer of one bit, reduced.
pub fn mux(
    recorder: &mut Recorder,
    select: ExprId,
    when_true: ExprId,
    when_false: ExprId,
) -> Result<ExprId, Refusal>
    ensures { Writes recorder.old (mux_of select.0 when_true.0 when_false.0) (emitted result) recorder.new }
{
    emit(recorder, mux::simplify(select, when_true, when_false))
}

// An exclusive or of two bits, reduced.
pub fn xor(recorder: &mut Recorder, lhs: ExprId, rhs: ExprId) -> Result<ExprId, Refusal>
    ensures { Writes recorder.old (xor_of lhs.0 rhs.0) (emitted result) recorder.new }
{
    emit(recorder, bitwise::simplify_xor(lhs, rhs))
}

fn emit(recorder: &mut Recorder, rewrite: Rewrite) -> Result<ExprId, Refusal>
    ensures { Writes recorder.old (emit_rewrite rewrite) (emitted result) recorder.new }
{
    match rewrite {
        Rewrite::Value(value) => Ok(value),
        Rewrite::Not(value) => recorder.not(value),
        Rewrite::And(lhs, rhs) => recorder.and(lhs, rhs),
        Rewrite::Or(lhs, rhs) => recorder.or(lhs, rhs),
        Rewrite::Xor(lhs, rhs) => recorder.xor(lhs, rhs),
        Rewrite::AndNot(lhs, rhs) => {
            let inverted = recorder.not(lhs)?;
            recorder.and(inverted, rhs)
        }
        Rewrite::OrNot(lhs, rhs) => {
            let inverted = recorder.not(lhs)?;
            recorder.or(inverted, rhs)
        }
        Rewrite::Mux(select, when_true, when_false) => {
            recorder.mux(1, select, when_true, when_false)
        }
    }
}
