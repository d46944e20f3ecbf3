// Lowering with works of its own, for programs.

#![tactic(auto)]

ghost use Rattle.recorder.specs.Lists.{lists};
ghost use Rattle.lower_words.specs.Entry.{LowersWords};

use converter::{WORK, lower};
use recorder::Tapes;
use refusal::Refusal;

// The model's lists, or the refusal.
pub fn lower_words(
    words: &[u32],
    signals: &mut [u32],
    exprs: &mut [u32],
    stmts: &mut [u32],
) -> Result<Tapes, Refusal>
    ensures { LowersWords words.now (lists signals.old exprs.old stmts.old) result (lists signals.new exprs.new stmts.new) }
{
    let mut wires = [0u32; WORK];
    let mut places = [0u32; WORK];
    let mut parts = [0u32; WORK];
    let mut values = [0u32; WORK];
    let mut banks = [0u32; WORK];
    lower(
        words,
        signals,
        exprs,
        stmts,
        &mut wires,
        &mut places,
        &mut parts,
        &mut values,
        &mut banks,
    )
}
