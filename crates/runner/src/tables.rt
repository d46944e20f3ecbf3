// The tables of a run, which are lent and are work; and a model without a fault, in words, with tables of where its records and values stand and of what is assigned to a signal. What a
// table has no room for is found by walking the lists. All ports begin before word `ports`.
ghost use Rattle.std.specs.Prelude.{◌≡◌, ◌≤◌, ◌<◌, None, length};
ghost use Rattle.std.proofs.Props.{props};
ghost use Rattle.recorder.specs.Lists.{lists};
ghost use Rattle.recorder.specs.Words.{raw_of};
ghost use Rattle.simulation.specs.Wellformed.{largest, first_fault};
ghost use Rattle.simulation.specs.Index.{records_in, widths_in, offset as sum_to, start_of, Indexed, Starts, stmts_in, Driven};
ghost use Rattle.simulation.specs.Model.{lists_of};
ghost use Rattle.simulation.specs.Tick.{given, assigns as by_assign};
ghost use Rattle.evaluation.specs.Late.{PortsBefore};
ghost use Rattle.runner.specs.Tables.{SameTables, TablesOf, ZeroedTables};

use crate::show::ports_end;
use simulation::index::{count, fill_drivers, fill_offsets, fill_starts};
use simulation::{Model, index};

// (The order stands apart: it is written while a `CheckedModel` reads these, and a borrow of one field takes the whole struct.)
#[derive(Drop)]
pub struct Tables<'a> {
    pub starts: &'a mut [u32],
    pub expr_table: &'a mut [u32],
    pub signal_table: &'a mut [u32],
    pub driver_table: &'a mut [u32],
}

impl Tables<'_> {
    pub fn fill_for(&mut self, m: Model)
        ensures filled { TablesOf m.entry self.new }
        ensures same { SameTables self.old self.new }
    {
        fill_starts(m.exprs, self.starts);
        fill_offsets(m.exprs, self.expr_table);
        fill_offsets(m.signals, self.signal_table);
        fill_drivers(m.stmts, self.driver_table);
    }

    pub fn clear(&mut self)
        ensures cleared { ZeroedTables self.old self.new }
        ensures same { SameTables self.old self.new }
    {
        self.starts.fill(0);
        self.expr_table.fill(0);
        self.signal_table.fill(0);
        self.driver_table.fill(0);
    }
}

#[derive(Clone, Copy)]
pub struct CheckedModel<'a> {
    pub signals: &'a [u32],
    pub exprs: &'a [u32],
    pub stmts: &'a [u32],
    pub starts: &'a [u32],
    pub expr_table: &'a [u32],
    pub signal_table: &'a [u32],
    pub driver_table: &'a [u32],
    pub expr_count: usize,
    pub signal_count: usize,
    pub ports: usize,
    pub ghost faultless: { first_fault largest (raw_of (lists signals.now exprs.now stmts.now)) ≡ None } by { Prim.hlevel props },
    pub ghost started: { Starts exprs.now starts.now },
    pub ghost expr_offsets: { Indexed (widths_in exprs.now) expr_table.now },
    pub ghost signal_offsets: { Indexed (widths_in signals.now) signal_table.now },
    pub ghost driven: { Driven stmts.now driver_table.now },
    pub ghost expr_counted: { expr_count ≡ length (records_in exprs.now) },
    pub ghost signal_counted: { signal_count ≡ length (records_in signals.now) },
    pub ghost ports_before: { PortsBefore signals.now ports },
}

impl<'a> CheckedModel<'a> {
    // Of a model without a fault, by the tables that were filled for it.
    pub fn new(m: Model<'a>, tables: &'a Tables) -> CheckedModel<'a>
        requires { (first_fault largest (raw_of (lists_of m)) ≡ None) × TablesOf m tables.now }
        ensures { lists result.signals.now result.exprs.now result.stmts.now ≡ lists_of m.entry }
    {
        CheckedModel {
            signals: m.signals,
            exprs: m.exprs,
            stmts: m.stmts,
            starts: tables.starts,
            expr_table: tables.expr_table,
            signal_table: tables.signal_table,
            driver_table: tables.driver_table,
            expr_count: count(m.exprs),
            signal_count: count(m.signals),
            ports: ports_end(m.signals),
        }
    }
}

impl CheckedModel<'_> {
    // The word at which expression e begins.
    pub fn start(&self, e: usize) -> usize
        requires { e < length (records_in self.now.exprs.now) }
        ensures { result ≡ start_of self.now.exprs.now e }
    {
        index::start(self.exprs, self.starts, e)
    }

    // Where the value of expression e begins.
    pub fn expr_offset(&self, e: usize) -> usize
        requires { (e ≤ length (records_in self.now.exprs.now)) × (sum_to (widths_in self.now.exprs.now) (length (records_in self.now.exprs.now)) ≤ 18446744073709551615) }
        ensures { result ≡ sum_to (widths_in self.now.exprs.now) e }
    {
        index::offset(self.exprs, self.expr_table, e)
    }

    // Where the value of signal s begins.
    pub fn signal_offset(&self, s: usize) -> usize
        requires { (s ≤ length (records_in self.now.signals.now)) × (sum_to (widths_in self.now.signals.now) (length (records_in self.now.signals.now)) ≤ 18446744073709551615) }
        ensures { result ≡ sum_to (widths_in self.now.signals.now) s }
    {
        index::offset(self.signals, self.signal_table, s)
    }

    // The expression that is assigned to signal s.
    pub fn driver(&self, s: usize) -> Option<u32>
        ensures { result ≡ given by_assign (stmts_in self.now.stmts.now) s }
    {
        index::driver(self.stmts, self.driver_table, s)
    }
}
