// Flip-flops of one clock, edge and asynchronous reset control make a bank, whose signal has a bit for each, in cell order.
//
// A bank is not stored: a word for each cell has its bank's number, counted from 1. Its members are found by scanning the cells.
// While banks are collected, their keys stand in two works: clocks and edges in `parts`, resets in `values`.
ghost use Rattle.std.specs.Prelude.{◌≡◌, set};
ghost use Rattle.converter.specs.Banked.{KeyOf, ResetKeyOf, key_is, find_key, larger as larger_of, Joins, Collects};

use netlist::Kind;
use netlist::fields::{Fields, word};

// A bit word and a flag as one number.
fn key(word: u32, flag: u32) -> u32
    ensures { KeyOf word flag result }
{
    if 1073741823 < word || 1 < flag {
        return 0;
    }
    word * 2 + flag
}

// 0 where a flip-flop has no asynchronous reset; else 1 and its control's key.
fn reset_key(flop: Fields) -> u32
    ensures { ResetKeyOf flop.entry.words.now flop.entry.at result }
{
    if flop.word(8) == 0 || flop.word(11) != 1 {
        return 0;
    }
    key(flop.word(9), flop.word(10)) + 1
}

fn key_is(parts: &[u32], values: &[u32], i: usize, a: u32, b: u32) -> bool
    ensures { result ≡ key_is parts.now values.now i a b }
{
    word(parts, i) == a && word(values, i) == b
}

// The first of the banks that has a key; their number if none has it.
fn find_key(parts: &[u32], values: &[u32], count: u32, a: u32, b: u32) -> u32
    ensures { result ≡ find_key parts.now values.now a b count 0 }
{
    for i in 0..count {
        if key_is(parts, values, i as usize, a, b) {
            return i;
        }
    }
    count
}

fn store(list: &mut [u32], i: usize, value: u32)
    ensures { list.new ≡ set list.old i value }
{
    if i < list.len() {
        list[i] = value;
    }
}

// The bank of a cell, counted from 1, among those whose keys are noted; 0 for a cell that is no flip-flop.
// A new bank's key is noted.
fn join_bank(cell: Fields, parts: &mut [u32], values: &mut [u32], count: u32) -> u32
    ensures { Joins cell.entry.words.now cell.entry.at parts.old values.old count result parts.new values.new }
{
    let Kind::FlipFlop = cell.kind() else {
        return 0;
    };
    let a = key(cell.word(3), cell.word(4));
    let b = reset_key(cell);
    let bank = find_key(parts, values, count, a, b);
    if bank == 4294967295 {
        return 0;
    }
    if bank == count {
        store(parts, count as usize, a);
        store(values, count as usize, b);
    }
    bank + 1
}

fn larger(a: u32, b: u32) -> u32
    ensures { result ≡ larger_of a b }
{
    if a < b { b } else { a }
}

// Writes each cell's bank, counted from 1, and returns the number of banks.
pub fn collect_flip_flop_banks(
    cells: Fields,
    n: u32,
    numbers: &mut [u32],
    parts: &mut [u32],
    values: &mut [u32],
) -> u32
    ensures { Collects cells.entry.words.now cells.entry.at n numbers.old parts.old values.old result numbers.new }
{
    let mut count = 0;
    let mut cell = cells;
    for i in 0..n {
        let bank = join_bank(cell, parts, values, count);
        store(numbers, i as usize, bank);
        count = larger(count, bank);
        cell = cell.from(cell.cell_size());
    }
    count
}
