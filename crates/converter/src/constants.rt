// The constants: two signals, the first two expressions, and a statement for each.
ghost use Rattle.recorder.specs.Calls.{Writes, ended};
ghost use Rattle.lowering.specs.Lower.{emit_constants};
ghost use Rattle.wires.specs.declared.Constants.{Constants};

use recorder::{Label, Recorder};
use refusal::Refusal;
use wires::Constants;

pub fn emit_constants(recorder: &mut Recorder) -> Result<Constants, Refusal>
    ensures { Writes recorder.old emit_constants (ended (λ (z : Constants). z) result) recorder.new }
{
    let zero = recorder.signal(Label::Zero as u32, 1, 0)?;
    let one = recorder.signal(Label::One as u32, 1, 0)?;
    let low = recorder.constant(1, 0)?;
    let high = recorder.constant(1, 1)?;
    recorder.assign(zero, low)?;
    recorder.assign(one, high)?;
    Ok(Constants { zero, one })
}
