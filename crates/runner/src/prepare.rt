// What is prepared once for a model without a fault: an order of its expressions, and whether it has a loop.
ghost use Rattle.std.specs.Prelude.{◌≡◌, ◌≤◌, Some, None, IfOk, IfErr, length, take};
ghost use Rattle.simulation.specs.Tick.{looped};
ghost use Rattle.evaluation.specs.Ready.{model_in};
ghost use Rattle.evaluation.specs.Ticks.{Ordered};

use crate::loops::lowest_on_loop;
use crate::sort::sort;
use crate::tables::CheckedModel;

// Fills the order: how many expressions it has, all or none, or the lowest signal on a loop.
pub fn prepare(m: &CheckedModel, order: &mut [u32], marks: &mut [u8]) -> Result<usize, usize>
    requires { m.now.expr_count ≤ length marks.old }
    ensures looped { IfErr result (λ s. looped (model_in m.now.signals.now m.now.exprs.now m.now.stmts.now) ≡ Some s) }
    ensures unlooped { IfOk result (λ _. looped (model_in m.now.signals.now m.now.exprs.now m.now.stmts.now) ≡ None) }
    ensures inside { IfOk result (λ k. k ≤ length order.new) }
    ensures ordered { IfOk result (λ k. Ordered (model_in m.now.signals.now m.now.exprs.now m.now.stmts.now) m.now.expr_count (take k order.new)) }
{
    let n = m.expr_count;
    if n < 4294967296 {
        marks.fill(0);
        if sort(m, marks, order) == n {
            if n <= order.len() {
                return Ok(n);
            }
            return Ok(0);
        }
    }
    match lowest_on_loop(m, marks) {
        Some(s) => Err(s),
        None => Ok(0),
    }
}
