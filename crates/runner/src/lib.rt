// The run of a model. All but its entries is private: it asks what they have checked.

#![tactic(auto)]

mod bytes; // bytes.rt: copies, tests, numbers
mod code; // code.rt: the plan of a list of ticks
mod coded; // coded.rt: the values of expressions along code
mod commit; // commit.rt: the registers load
mod cut; // cut.rt: the checks of a model and of a call, on parts of the tables
mod expression; // expression.rt: the value of one expression
mod kinds; // kinds.rt: the numbers of kinds
mod late; // late.rt: one tick by a plan
mod list; // list.rt: a list of ticks
mod lists; // lists.rt: what a plan lists
mod loops; // loops.rt: the lowest signal on a loop
mod marks; // marks.rt: what an expression needs, marked
mod prepare; // prepare.rt: order and loop of a model
mod refused; // refused.rt: a list of ticks of which none is made
mod settling; // settling.rt: the values of all expressions
mod show; // show.rt: what a list of ticks reads and shows
mod sort; // sort.rt: an order of all expressions
mod store; // store.rt: inputs and values in the signals' bytes
mod tables; // tables.rt: the lent tables; a model and where its records and values stand
mod ticks; // ticks.rt: one tick
mod whole; // whole.rt: a whole list's run

ghost use Rattle.std.specs.Prelude.{◌≡◌};
ghost use Rattle.recorder.specs.Lists.{lists};
ghost use Rattle.simulation.specs.Fault.{call_of};
ghost use Rattle.simulation.specs.Model.{lists_of};
ghost use Rattle.simulation.specs.Run.{fired_of, zeroed};
ghost use Rattle.model_check.specs.Works.{SameWorks};
ghost use Rattle.runner.specs.Calls.{fired_by, Runs, Answers, RunsList};
ghost use Rattle.runner.specs.Parts.{Unrefused, Tries};
ghost use Rattle.runner.specs.Whole.{list_call};

use cut::check_call;
use list::TickList;
use model_check::call::Works;
use prepare::prepare;
use recorder::SignalId;
use refusal::Refusal;
use simulation::{Edge, Model};
use tables::{CheckedModel, Tables};
use ticks::tick;
use whole::run_list_with;

// The largest width of a signal or an expression.
pub const WIDEST: u32 = 4096;

// What fires: nothing (0), or an edge (1 rises, 2 falls) of a signal.
pub fn fired_by(fires: u32, signal: u32) -> Option<Edge>
    ensures { fired_of result ≡ fired_by fires signal }
{
    let edge = fires.checked_sub(1)?;
    Some(Edge {
        signal: SignalId(signal),
        edge,
    })
}

// The tick of a call that nothing refuses but maybe a loop (13). The tables are work.
fn run_checked(
    m: Model,
    bytes: &mut [u8],
    ticks: &[u8],
    fired: Option<Edge>,
    works: &mut Works,
    tables: &mut Tables,
    order: &mut [u32],
) -> Result<(), Refusal>
    requires { Unrefused (lists_of m) bytes.old ticks.now (fired_of fired) works.old.bits.now works.old.exprs.now works.old.signals.now }
    ensures tries { Tries (lists_of m.entry) bytes.old ticks.now (fired_of fired) result bytes.new }
    ensures same { SameWorks works.old works.new }
{
    tables.fill_for(m);
    let checked = CheckedModel::new(m, tables);
    match prepare(&checked, order, works.exprs) {
        Err(s) => Err(Refusal::CombinationalLoop(s)),
        Ok(ordered) => {
            works.bits.fill(0);
            tick(
                &checked,
                &order[..ordered],
                ticks,
                fired,
                bytes,
                works.bits,
                works.exprs,
                works.signals,
            );
            Ok(())
        }
    }
}

// 12, 1 and 14, then 13 and the tick.
fn run_with(
    m: Model,
    bytes: &mut [u8],
    ticks: &[u8],
    fired: Option<Edge>,
    works: &mut Works,
    tables: &mut Tables,
    order: &mut [u32],
) -> Result<(), Refusal>
    ensures answers { Answers (call_of (lists_of m.entry) bytes.old ticks.now (fired_of fired) works.old.bits.now works.old.exprs.now works.old.signals.now) result bytes.new }
    ensures same { SameWorks works.old works.new }
{
    check_call(
        m,
        tables.signal_table,
        tables.expr_table,
        bytes,
        ticks,
        fired,
        works,
    )?;
    run_checked(m, bytes, ticks, fired, works, tables, order)
}

// One tick. Tables of 65,536 records and signals are this call's own; what lies behind them is found by walking the lists.
// The buffers stand one by one, as the C interface hands them over.
pub fn run(
    signals: &[u32],
    exprs: &[u32],
    stmts: &[u32],
    bytes: &mut [u8],
    ticks: &[u8],
    fired: Option<Edge>,
    work_bits: &mut [u8],
    work_exprs: &mut [u8],
    work_signals: &mut [u8],
) -> Result<(), Refusal>
    ensures { Runs (call_of (lists signals.now exprs.now stmts.now) bytes.old ticks.now (fired_of fired) work_bits.old work_exprs.old work_signals.old) result bytes.new work_bits.new work_exprs.new work_signals.new }
{
    let mut starts = [0u32; 65536];
    let mut expr_table = [0u32; 65536];
    let mut signal_table = [0u32; 65536];
    let mut driver_table = [0u32; 65536];
    let mut order = [0u32; 65536];
    let mut tables = Tables {
        starts: &mut starts,
        expr_table: &mut expr_table,
        signal_table: &mut signal_table,
        driver_table: &mut driver_table,
    };
    let mut works = Works {
        bits: work_bits,
        exprs: work_exprs,
        signals: work_signals,
    };
    let m = Model {
        signals,
        exprs,
        stmts,
    };
    let r = run_with(m, bytes, ticks, fired, &mut works, &mut tables, &mut order);
    works.bits.fill(0);
    works.exprs.fill(0);
    works.signals.fill(0);
    r
}

// A list of ticks on one model, checked and prepared once: three words a tick in `heads`, the bits of all in `bits`. The lent tables
// are work: what they have no room for is found by walking the lists.
// The buffers stand one by one, as the C interface hands them over.
pub fn run_list(
    signals: &[u32],
    exprs: &[u32],
    stmts: &[u32],
    heads: &[u32],
    bits: &[u8],
    bytes: &mut [u8],
    work_bits: &mut [u8],
    work_exprs: &mut [u8],
    work_signals: &mut [u8],
    starts: &mut [u32],
    expr_table: &mut [u32],
    signal_table: &mut [u32],
    driver_table: &mut [u32],
    order: &mut [u32],
    answers: &mut [u64],
    shown: &mut [u8],
) -> Result<(), Refusal>
    ensures runs { RunsList (list_call (lists signals.now exprs.now stmts.now) heads.now bits.now bytes.old work_bits.old work_exprs.old work_signals.old answers.old shown.old) result bytes.new answers.new shown.new }
    ensures works { (work_bits.new ≡ zeroed work_bits.old) × (work_exprs.new ≡ zeroed work_exprs.old) × (work_signals.new ≡ zeroed work_signals.old) }
    ensures tables { (starts.new ≡ zeroed starts.old) × (expr_table.new ≡ zeroed expr_table.old) × (signal_table.new ≡ zeroed signal_table.old) × (driver_table.new ≡ zeroed driver_table.old) × (order.new ≡ zeroed order.old) }
{
    answers.fill(0);
    shown.fill(0);
    let m = Model {
        signals,
        exprs,
        stmts,
    };
    let list = TickList { heads, bits };
    let mut works = Works {
        bits: work_bits,
        exprs: work_exprs,
        signals: work_signals,
    };
    let mut tables = Tables {
        starts,
        expr_table,
        signal_table,
        driver_table,
    };
    let r = run_list_with(
        m,
        list,
        bytes,
        &mut works,
        &mut tables,
        order,
        answers,
        shown,
    );
    works.clear();
    tables.clear();
    order.fill(0);
    r
}
