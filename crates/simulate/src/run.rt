// A netlist and a list of ticks, lowered, run and printed, with buffers of its own: some thousand cells, 4,096 ticks.
use crate::input::Filled;
use crate::print::{Outcome, Printer};
use simulator::simulate;
use std::io::Write;

// The start of a list, as far as it goes.
fn start<T>(list: &[T], n: usize) -> &[T] {
    list.get(..n).unwrap_or(list)
}

// Lowers, runs and prints what a session has read (lent by `&mut`, as it holds it): a line for each tick, or a VCD file. The five works of lowering are the run's tables too: they have room for 98,304 expressions and
// 16,384 signals.
pub fn run<W: Write>(
    printer: &mut Printer<'_, W>,
    words: &mut [u32],
    heads: &mut [u32],
    bits: &mut [u8],
    filled: Filled,
    vcd: bool,
) {
    let words = start(words, filled.words);
    let heads = start(heads, filled.heads);
    let bits = start(bits, filled.bits);
    let mut signals = [0u32; 65536];
    let mut exprs = [0u32; 1000000];
    let mut stmts = [0u32; 98304];
    let mut wires = [0u32; 98304];
    let mut places = [0u32; 98304];
    let mut parts = [0u32; 16384];
    let mut values = [0u32; 16384];
    let mut banks = [0u32; 131072];
    let mut bytes = [0u8; 65536];
    let mut work_bits = [0u8; 327680];
    let mut work_exprs = [0u8; 98304];
    let mut work_signals = [0u8; 16384];
    let mut answers = [0u64; 8192];
    let mut shown = [0u8; 393216];
    let answer = simulate(
        words,
        heads,
        bits,
        &mut signals,
        &mut exprs,
        &mut stmts,
        &mut wires,
        &mut places,
        &mut parts,
        &mut values,
        &mut banks,
        &mut bytes,
        &mut work_bits,
        &mut work_exprs,
        &mut work_signals,
        &mut answers,
        &mut shown,
    );
    let outcome = Outcome {
        signals: &signals,
        heads,
        bits,
        answers: &answers,
        shown: &shown,
    };
    printer.print_answer(answer, outcome, vcd);
}
