// Truth tables by cofactors, before expressions are recorded. (lut.rs of the Rust.)
ghost use Rattle.std.specs.Prelude.{◌≡◌, ◌≤◌, ◌<◌, ◌-◌, ◌/◌, drop};
ghost use Rattle.recorder.specs.Calls.{Writes, emitted};
ghost use Rattle.optimize.specs.Lut.{evens, full_table, numbers, lut_cofactor};

use crate::optimizer::{mux, xor};
use recorder::{ExprId, Recorder};
use refusal::Refusal;

// Each byte's even bits drawn together.
const EVEN_BITS: [u8; 256] = [
    0, 1, 0, 1, 2, 3, 2, 3, 0, 1, 0, 1, 2, 3, 2, 3, 4, 5, 4, 5, 6, 7, 6, 7, 4, 5, 4, 5, 6, 7, 6, 7,
    0, 1, 0, 1, 2, 3, 2, 3, 0, 1, 0, 1, 2, 3, 2, 3, 4, 5, 4, 5, 6, 7, 6, 7, 4, 5, 4, 5, 6, 7, 6, 7,
    8, 9, 8, 9, 10, 11, 10, 11, 8, 9, 8, 9, 10, 11, 10, 11, 12, 13, 12, 13, 14, 15, 14, 15, 12, 13,
    12, 13, 14, 15, 14, 15, 8, 9, 8, 9, 10, 11, 10, 11, 8, 9, 8, 9, 10, 11, 10, 11, 12, 13, 12, 13,
    14, 15, 14, 15, 12, 13, 12, 13, 14, 15, 14, 15, 0, 1, 0, 1, 2, 3, 2, 3, 0, 1, 0, 1, 2, 3, 2, 3,
    4, 5, 4, 5, 6, 7, 6, 7, 4, 5, 4, 5, 6, 7, 6, 7, 0, 1, 0, 1, 2, 3, 2, 3, 0, 1, 0, 1, 2, 3, 2, 3,
    4, 5, 4, 5, 6, 7, 6, 7, 4, 5, 4, 5, 6, 7, 6, 7, 8, 9, 8, 9, 10, 11, 10, 11, 8, 9, 8, 9, 10, 11,
    10, 11, 12, 13, 12, 13, 14, 15, 14, 15, 12, 13, 12, 13, 14, 15, 14, 15, 8, 9, 8, 9, 10, 11, 10,
    11, 8, 9, 8, 9, 10, 11, 10, 11, 12, 13, 12, 13, 14, 15, 14, 15, 12, 13, 12, 13, 14, 15, 14, 15,
];

fn even_bits(byte: u8) -> u8
    ensures { result ≡ evens 4 byte }
{
    EVEN_BITS[byte as usize]
}

// The even bits of a truth table drawn together.
fn even_half(table: u16) -> u16
    ensures { result ≡ evens 8 table }
{
    let low = even_bits((table % 256) as u8);
    let high = even_bits((table / 256) as u8);
    (low as u16) + 16 * (high as u16)
}

// The tables that are left when the first input is 0 and when it is 1.
fn cofactors(table: u16) -> (u16, u16)
    ensures { (result.0 ≡ evens 8 table) × (result.1 ≡ evens 8 (table / 2)) }
{
    (even_half(table), even_half(table / 2))
}

// The table of so many inputs that is 1 everywhere.
fn full_table(inputs: usize) -> u16
    requires { inputs ≤ 4 }
    ensures { result ≡ full_table inputs }
{
    match inputs {
        0 => 1,
        1 => 3,
        2 => 15,
        3 => 255,
        _ => 65535,
    }
}

// A table over the inputs that are left, which are the last ones: by cofactors on the first of them.
fn lut_cofactor(
    recorder: &mut Recorder,
    inputs: [ExprId; 4],
    left: usize,
    table: u16,
) -> Result<ExprId, Refusal>
    requires { left ≤ 4 }
    ensures { Writes recorder.old (lut_cofactor (numbers (drop (4 - left) inputs)) table) (emitted result) recorder.new }
{
    if table == 0 {
        return Ok(ExprId::ZERO);
    }
    if left == 0 {
        return Ok(ExprId::ONE);
    }
    if table == full_table(left) {
        return Ok(ExprId::ONE);
    }
    let select = inputs[4 - left];
    let remaining = left - 1;
    let (low, high) = cofactors(table);
    if select == ExprId::ZERO {
        return lut_cofactor(recorder, inputs, remaining, low);
    }
    if select == ExprId::ONE {
        return lut_cofactor(recorder, inputs, remaining, high);
    }
    // Equal cofactors do not depend on this input. Complementary ones
    // toggle exactly when the input does, including parity LUTs.
    let low_expr = lut_cofactor(recorder, inputs, remaining, low)?;
    if low == high {
        return Ok(low_expr);
    }
    if low ^ high == full_table(remaining) {
        return xor(recorder, select, low_expr);
    }
    let high_expr = lut_cofactor(recorder, inputs, remaining, high)?;
    mux(recorder, select, high_expr, low_expr)
}

// A truth table of four inputs, the first the lowest.
pub fn lut(recorder: &mut Recorder, inputs: [ExprId; 4], table: u16) -> Result<ExprId, Refusal>
    ensures { Writes recorder.old (lut_cofactor (numbers inputs) table) (emitted result) recorder.new }
{
    lut_cofactor(recorder, inputs, 4, table)
}
