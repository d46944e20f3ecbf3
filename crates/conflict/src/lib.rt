// 11: the lowest signal with two statements, or with one if it is an input.
//
// Lists may be of any length, so the statements are counted in the signal list itself: the first word of a signal's record, its
// length 4, becomes 5 and then 6, and is 4 again in the end.

#![tactic(auto)]

ghost use Rattle.std.specs.Prelude.{◌≡◌};
ghost use Rattle.conflict.specs.Counting.{more, raised, counted, lowest_from, restored, exceeds};

use recorder::Label;
use recorder::read::word;
use recorder::records::Records;

// One statement more: 6 stands for two or more.
fn more(count: u32) -> u32
    ensures { result ≡ more count }
{
    match count {
        4 => 5,
        5 => 6,
        n => n,
    }
}

// One statement more on the signal whose record begins at an index.
fn raise(signals: &mut [u32], at: usize)
    ensures { signals.new ≡ raised signals.old at }
{
    if at < signals.len() {
        signals[at] = more(signals[at]);
    }
}

// A statement's target is its second field.
fn count_statements(signals: &mut [u32], stmts: &[u32])
    ensures { signals.new ≡ counted signals.old stmts.now }
{
    for fields in Records::new(stmts) {
        raise(signals, 4 * word(fields, 1) as usize);
    }
}

// An input may have no statement, another signal one.
fn exceeding(count: u32, label: u32) -> bool
    ensures { result ≡ exceeds count label }
{
    if label == Label::Input as u32 {
        4 < count
    } else {
        5 < count
    }
}

fn lowest(signals: &[u32]) -> Option<usize>
    ensures { result ≡ lowest_from 0 signals.now }
{
    for i in 0..signals.len() / 4 {
        let count = signals[4 * i];
        if count < 4 {
            return None;
        }
        if exceeding(count, signals[4 * i + 1]) {
            return Some(i);
        }
    }
    None
}

fn restore(signals: &mut [u32])
    ensures { signals.new ≡ restored signals.old }
{
    for i in 0..signals.len() / 4 {
        if signals[4 * i] < 4 {
            return;
        }
        signals[4 * i] = 4;
    }
}

// The lowest overdriven signal: where lists hold a model, its own (proofs/Marked). The signals are then left as they were.
pub fn overdriven(signals: &mut [u32], stmts: &[u32]) -> Option<usize>
    ensures found { result ≡ lowest_from 0 (counted signals.old stmts.now) }
    ensures left { signals.new ≡ restored (counted signals.old stmts.now) }
{
    count_statements(signals, stmts);
    let found = lowest(signals);
    restore(signals);
    found
}
