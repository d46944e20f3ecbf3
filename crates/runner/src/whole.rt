// The run of a whole list of ticks: what refuses it, and then the ticks.
ghost use Rattle.std.specs.Prelude.{◌≡◌, ◌≤◌, [], length};
ghost use Rattle.simulation.specs.Wellformed.{largest};
ghost use Rattle.simulation.specs.Index.{records_in, widths_in, offset as sum_to};
ghost use Rattle.simulation.specs.Model.{lists_of};
ghost use Rattle.simulation.specs.Run.{answer_of, first_of, zeroed};
ghost use Rattle.evaluation.specs.Ticks.{ReadSignals};
ghost use Rattle.model_check.specs.Works.{SameWorks, OthersKept};
ghost use Rattle.runner.specs.Tables.{SameTables};
ghost use Rattle.runner.specs.Calls.{list_answer};
ghost use Rattle.runner.specs.Whole.{list_call, shown_causes, fault_causes, ListFits, ListUnrefused, Leaves};
ghost use Rattle.runner.specs.Parts.{RunsTicks};

use crate::code::encode;
use crate::cut::malformed;
use crate::list::{TickList, run_ticks};
use crate::prepare::prepare;
use crate::refused::refuse_ticks;
use crate::show::output_total;
use crate::tables::{CheckedModel, Tables};
use model_check::call::{Works, byte_fault, input_total};
use refusal::Refusal;
use simulation::Model;

// 1 for the two buffers of what is shown.
fn shown_lengths(
    signals: &[u32],
    heads: &[u32],
    answers: &[u64],
    shown: &[u8],
) -> Result<(), Refusal>
    requires { ReadSignals signals.now × (sum_to (widths_in signals.now) (length (records_in signals.now)) ≤ 18446744073709551615) }
    ensures { answer_of result ≡ first_of (shown_causes signals.now heads.now answers.now shown.now) }
{
    let k = heads.len() / 3;
    if answers.len() < 2 * k {
        return Err(Refusal::BufferTooShort(2 * k));
    }
    let needed = output_total(signals).saturating_mul(k);
    if shown.len() < needed {
        return Err(Refusal::BufferTooShort(needed));
    }
    Ok(())
}

// 1.
fn list_fault(
    m: Model,
    heads: &[u32],
    bytes: &[u8],
    works: &Works,
    answers: &[u64],
    shown: &[u8],
) -> Result<(), Refusal>
    requires { ReadSignals m.signals.now }
    ensures { answer_of result ≡ fault_causes (list_call (lists_of m.entry) heads.now [] bytes.now works.now.bits.now works.now.exprs.now works.now.signals.now answers.now shown.now) }
{
    works.lengths(m, bytes)?;
    shown_lengths(m.signals, heads, answers, shown)
}

// 12 and 1. The tables and the work on signals are left as they come.
fn check_list(
    m: Model,
    tables: &mut Tables,
    list: TickList,
    bytes: &[u8],
    works: &mut Works,
    answers: &[u64],
    shown: &[u8],
) -> Result<(), Refusal>
    ensures answer { answer_of result ≡ list_answer largest (list_call (lists_of m.entry) list.entry.heads.now list.entry.bits.now bytes.now works.old.bits.now works.old.exprs.now works.old.signals.now answers.now shown.now) }
    ensures zeros { works.new.signals.now ≡ zeroed works.old.signals.now }
    ensures kept { OthersKept works.old works.new }
    ensures same { SameWorks works.old works.new }
    ensures same_tables { SameTables tables.old tables.new }
{
    match malformed(m, tables.signal_table, tables.expr_table, works.signals) {
        Some(n) => Err(Refusal::MalformedModel(n)),
        None => list_fault(m, list.heads, bytes, works, answers, shown),
    }
}

// The ticks of a list that nothing refuses as a whole and whose signal bytes are bits. The tables are work.
fn run_unrefused(
    m: Model,
    list: TickList,
    bytes: &mut [u8],
    works: &mut Works,
    tables: &mut Tables,
    order: &mut [u32],
    answers: &mut [u64],
    shown: &mut [u8],
)
    requires { ListUnrefused (lists_of m) list.heads.now bytes.old works.old.bits.now works.old.exprs.now works.old.signals.now answers.old shown.old }
    ensures runs { RunsTicks (lists_of m.entry) list.entry.heads.now list.entry.bits.now bytes.old bytes.new answers.old answers.new shown.old shown.new }
    ensures same { SameWorks works.old works.new }
    ensures same_tables { SameTables tables.old tables.new }
{
    tables.fill_for(m);
    let checked = CheckedModel::new(m, tables);
    match prepare(&checked, order, works.exprs) {
        Err(s) => refuse_ticks(
            m,
            list,
            bytes,
            Ok(()),
            Err(Refusal::CombinationalLoop(s)),
            answers,
            shown,
        ),
        Ok(ordered) => {
            let plan = encode(
                &checked,
                ordered,
                order,
                works.bits,
                works.exprs,
                works.signals,
            );
            let used = plan.used;
            let inputs = input_total(checked.signals);
            works.bits.fill(0);
            run_ticks(
                &checked,
                &order[..used],
                plan.code,
                inputs,
                list,
                bytes,
                works,
                answers,
                shown,
            );
        }
    }
}

// The ticks of a list that nothing refuses as a whole. A signal byte that is no bit refuses each of them.
fn run_fitting(
    m: Model,
    list: TickList,
    bytes: &mut [u8],
    works: &mut Works,
    tables: &mut Tables,
    order: &mut [u32],
    answers: &mut [u64],
    shown: &mut [u8],
)
    requires { ListFits (lists_of m) list.heads.now bytes.old works.old.bits.now works.old.exprs.now works.old.signals.now answers.old shown.old }
    ensures runs { RunsTicks (lists_of m.entry) list.entry.heads.now list.entry.bits.now bytes.old bytes.new answers.old answers.new shown.old shown.new }
    ensures same { SameWorks works.old works.new }
    ensures same_tables { SameTables tables.old tables.new }
{
    let stopped = byte_fault(m.signals, bytes);
    match stopped {
        Err(x) => {
            refuse_ticks(m, list, bytes, Err(x), Ok(()), answers, shown);
        }
        Ok(()) => {
            run_unrefused(m, list, bytes, works, tables, order, answers, shown);
        }
    }
}

// 12 and 1, then the ticks.
pub fn run_list_with(
    m: Model,
    list: TickList,
    bytes: &mut [u8],
    works: &mut Works,
    tables: &mut Tables,
    order: &mut [u32],
    answers: &mut [u64],
    shown: &mut [u8],
) -> Result<(), Refusal>
    ensures leaves { Leaves (list_call (lists_of m.entry) list.entry.heads.now list.entry.bits.now bytes.old works.old.bits.now works.old.exprs.now works.old.signals.now answers.old shown.old) (list_answer largest (list_call (lists_of m.entry) list.entry.heads.now list.entry.bits.now bytes.old works.old.bits.now works.old.exprs.now works.old.signals.now answers.old shown.old)) result bytes.new answers.new shown.new }
    ensures same { SameWorks works.old works.new }
    ensures same_tables { SameTables tables.old tables.new }
{
    check_list(m, tables, list, bytes, works, answers, shown)?;
    run_fitting(m, list, bytes, works, tables, order, answers, shown);
    Ok(())
}
