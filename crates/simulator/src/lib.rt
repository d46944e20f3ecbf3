// A netlist and a list of ticks: lowered once, checked once, run tick by tick. What is shown is what the netlist's own cells show.

#![tactic(auto)]

ghost use Rattle.std.specs.Prelude.{◌≡◌, [], ◌∷◌, take};
ghost use Rattle.netlist.specs.Reader.{base};
ghost use Rattle.recorder.specs.Lists.{lists};
ghost use Rattle.runner.specs.Calls.{RunsList};
ghost use Rattle.simulator.specs.Entry.{simulation, Simulates, Zeroed};
ghost use Rattle.simulator.specs.Parts.{lists_in, call_in, works_in, tables_in, shown_in, SameLists, SameTicks, SameTables, StaysZero, on_used, Blanked, RunsAccepted, RunsLowered};

use converter::lower;
use recorder::{Tape, Tapes};
use refusal::Refusal;
use runner::run_list;

// A model's three lists.
#[derive(Drop)]
struct Lists<'a> {
    signals: &'a mut [u32],
    exprs: &'a mut [u32],
    stmts: &'a mut [u32],
}

// A list of ticks, what it works in, and what it shows.
#[derive(Drop)]
struct Ticks<'a> {
    heads: &'a [u32],
    bits: &'a [u8],
    bytes: &'a mut [u8],
    work_bits: &'a mut [u8],
    work_exprs: &'a mut [u8],
    work_signals: &'a mut [u8],
    answers: &'a mut [u64],
    shown: &'a mut [u8],
}

// The run's tables, which are work.
#[derive(Drop)]
struct Tables<'a> {
    starts: &'a mut [u32],
    expr_table: &'a mut [u32],
    signal_table: &'a mut [u32],
    driver_table: &'a mut [u32],
    order: &'a mut [u32],
}

impl Lists<'_> {
    fn clear(&mut self)
        ensures { Blanked self.old self.new }
    {
        self.signals.fill(0);
        self.exprs.fill(0);
        self.stmts.fill(0);
    }
}

// The words of a list that lowering used. (`listing::written` is the same for programs; the crates below both are not changed for it.)
fn used(list: &[u32], tape: Tape) -> &[u32]
    ensures { result.now ≡ take tape.used list.now }
{
    &list[..tape.used.min(list.len())]
}

impl Ticks<'_> {
    // On the words that lowering used.
    fn run_used(&mut self, tapes: Tapes, lists: &Lists, tables: &mut Tables) -> Result<(), Refusal>
        ensures runs { RunsList (on_used (call_in (lists_in lists.now) self.old) tapes) result self.new.bytes.now self.new.answers.now self.new.shown.now }
        ensures works { Zeroed (works_in self.old) (works_in self.new) }
        ensures tables { Zeroed (tables_in tables.old) (tables_in tables.new) }
        ensures same { SameTicks self.old self.new }
        ensures same_tables { SameTables tables.old tables.new }
    {
        run_list(
            used(lists.signals, tapes.signals),
            used(lists.exprs, tapes.exprs),
            used(lists.stmts, tapes.stmts),
            self.heads,
            self.bits,
            self.bytes,
            self.work_bits,
            self.work_exprs,
            self.work_signals,
            tables.starts,
            tables.expr_table,
            tables.signal_table,
            tables.driver_table,
            tables.order,
            self.answers,
            self.shown,
        )
    }

    // On a model that lowering accepted. A refusal leaves no model.
    fn run_accepted(
        &mut self,
        tapes: Tapes,
        lists: &mut Lists,
        tables: &mut Tables,
    ) -> Result<Tapes, Refusal>
        ensures runs { RunsAccepted (call_in (lists_in lists.old) self.old) tapes result (lists_in lists.new) self.new.answers.now self.new.shown.now }
        ensures works { Zeroed (works_in self.old) (works_in self.new) }
        ensures tables { Zeroed (tables_in tables.old) (tables_in tables.new) }
        ensures same { SameTicks self.old self.new }
        ensures same_tables { SameTables tables.old tables.new }
        ensures same_lists { SameLists lists.old lists.new }
    {
        match self.run_used(tapes, lists, tables) {
            Ok(()) => Ok(tapes),
            Err(x) => {
                lists.clear();
                Err(x)
            }
        }
    }

    // The works, and what would have been shown, of a call that is refused.
    fn clear(&mut self)
        ensures cleared { Zeroed (shown_in self.old) (shown_in self.new) }
        ensures same { SameTicks self.old self.new }
    {
        self.work_bits.fill(0);
        self.work_exprs.fill(0);
        self.work_signals.fill(0);
        self.answers.fill(0);
        self.shown.fill(0);
    }

    // What follows lowering.
    fn run_lowered(
        &mut self,
        lowered: Result<Tapes, Refusal>,
        lists: &mut Lists,
        tables: &mut Tables,
    ) -> Result<Tapes, Refusal>
        ensures runs { RunsLowered (call_in (lists_in lists.old) self.old) lowered result (lists_in lists.new) self.new.answers.now self.new.shown.now }
        ensures works { Zeroed (works_in self.old) (works_in self.new) }
        ensures tables { StaysZero (tables_in tables.old) (tables_in tables.new) }
        ensures same { SameTicks self.old self.new }
        ensures same_tables { SameTables tables.old tables.new }
        ensures same_lists { SameLists lists.old lists.new }
    {
        match lowered {
            Ok(tapes) => self.run_accepted(tapes, lists, tables),
            Err(x) => {
                self.clear();
                Err(x)
            }
        }
    }
}

// Lowers a netlist and runs a list of ticks on its model: three words a tick in `heads` (how many bits, what fires: 0 nothing, 1 rising,
// 2 falling; of which signal), the bits of all ticks in `bits`. Answers of two numbers a tick (0 and 0: made) and the output ports' bits
// after each. The five works of lowering are the run's tables too: the longer they are, the larger a model runs in linear time.
// The buffers stand one by one, as the C interface hands them over.
pub fn simulate(
    words: &[u32],
    heads: &[u32],
    bits: &[u8],
    signals: &mut [u32],
    exprs: &mut [u32],
    stmts: &mut [u32],
    wires: &mut [u32],
    places: &mut [u32],
    parts: &mut [u32],
    values: &mut [u32],
    banks: &mut [u32],
    bytes: &mut [u8],
    work_bits: &mut [u8],
    work_exprs: &mut [u8],
    work_signals: &mut [u8],
    answers: &mut [u64],
    shown: &mut [u8],
) -> Result<Tapes, Refusal>
    ensures simulates { Simulates base (simulation words.now heads.now bits.now (lists signals.old exprs.old stmts.old) (wires.old ∷ places.old ∷ parts.old ∷ values.old ∷ banks.old ∷ []) bytes.old work_bits.old work_exprs.old work_signals.old answers.old shown.old) result (lists signals.new exprs.new stmts.new) answers.new shown.new }
    ensures works { Zeroed (wires.old ∷ places.old ∷ parts.old ∷ values.old ∷ banks.old ∷ bytes.old ∷ work_bits.old ∷ work_exprs.old ∷ work_signals.old ∷ []) (wires.new ∷ places.new ∷ parts.new ∷ values.new ∷ banks.new ∷ bytes.new ∷ work_bits.new ∷ work_exprs.new ∷ work_signals.new ∷ []) }
{
    let lowered = lower(
        words, signals, exprs, stmts, wires, places, parts, values, banks,
    );
    bytes.fill(0); // the ticks start from zeros
    let mut lists = Lists {
        signals,
        exprs,
        stmts,
    };
    let mut tables = Tables {
        starts: wires,
        expr_table: places,
        signal_table: parts,
        driver_table: values,
        order: banks,
    };
    let mut ticks = Ticks {
        heads,
        bits,
        bytes,
        work_bits,
        work_exprs,
        work_signals,
        answers,
        shown,
    };
    let r = ticks.run_lowered(lowered, &mut lists, &mut tables);
    ticks.bytes.fill(0); // and no state is left
    r
}
