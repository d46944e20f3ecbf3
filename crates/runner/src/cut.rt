// The checks of a model and of a call, lent no more of the tables than the lists can need: what is lent is cleared.
ghost use Rattle.std.specs.Prelude.{◌≡◌};
ghost use Rattle.simulation.specs.Wellformed.{largest, malformed as malformed_by};
ghost use Rattle.simulation.specs.Fault.{call_of, checked_by};
ghost use Rattle.simulation.specs.Model.{lists_of};
ghost use Rattle.simulation.specs.Run.{answer_of, fired_of, zeroed};
ghost use Rattle.model_check.specs.Works.{SameWorks, OthersKept};

use crate::WIDEST;
use model_check::call::Works;
use model_check::check;
use refusal::Refusal;
use simulation::{Edge, Model};

// Refusal 12: the first faulty record.
pub fn malformed(
    m: Model,
    signal_table: &mut [u32],
    expr_table: &mut [u32],
    bytes: &mut [u8],
) -> Option<usize>
    ensures fault { result ≡ malformed_by largest (lists_of m.entry) }
    ensures zeros { bytes.new ≡ zeroed bytes.old }
{
    let s = m.signals.len().min(signal_table.len());
    let e = m.exprs.len().min(expr_table.len());
    check::malformed(
        m,
        &mut signal_table[..s],
        &mut expr_table[..e],
        bytes,
        WIDEST,
    )
}

// Refusals 12, 1 and 14.
pub fn check_call(
    m: Model,
    signal_table: &mut [u32],
    expr_table: &mut [u32],
    bytes: &[u8],
    ticks: &[u8],
    fired: Option<Edge>,
    works: &mut Works,
) -> Result<(), Refusal>
    ensures answer { answer_of result ≡ checked_by largest (call_of (lists_of m.entry) bytes.now ticks.now (fired_of fired) works.old.bits.now works.old.exprs.now works.old.signals.now) }
    ensures zeros { works.new.signals.now ≡ zeroed works.old.signals.now }
    ensures kept { OthersKept works.old works.new }
    ensures same { SameWorks works.old works.new }
{
    let s = m.signals.len().min(signal_table.len());
    let e = m.exprs.len().min(expr_table.len());
    works.check(
        m,
        &mut signal_table[..s],
        &mut expr_table[..e],
        bytes,
        ticks,
        fired,
        WIDEST,
    )
}
