// The answer, once all is recorded: 11 comes last.
ghost use Rattle.std.specs.Prelude.{◌≡◌};
ghost use Rattle.recorder.specs.Lists.{Lists};
ghost use Rattle.lowering.specs.Lower.{judged as judged_of};
ghost use Rattle.converter.specs.Entry.{AnswersTo, answer_of};

use conflict::overdriven;
use recorder::Tapes;
use refusal::Refusal;

fn judged(t: Tapes, found: Option<usize>) -> Result<Tapes, Refusal>
    ensures { (l : Lists) → answer_of result ≡ (judged_of found t l l).answer }
{
    match found {
        Some(s) => Err(Refusal::StatementConflict(s)),
        None => Ok(t),
    }
}

// What was recorded from lists of zeros on, judged.
pub fn answered(
    signals: &mut [u32],
    stmts: &[u32],
    r: Result<Tapes, Refusal>,
) -> Result<Tapes, Refusal>
    ensures { AnswersTo signals.old stmts.now r result signals.new }
{
    match r {
        Ok(t) => judged(t, overdriven(signals, stmts)),
        Err(x) => Err(x),
    }
}
