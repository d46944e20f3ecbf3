// Bits in bytes: copies, tests, numbers.
ghost use Rattle.std.specs.Prelude.{◌≡◌, ◌⊎◌, Bool, map, ℕ, ◌+◌, ◌*◌, ◌≤◌, ◌<◌, length, get_or, set};
ghost use Rattle.bits.specs.Bits.{digit, binary};
ghost use Rattle.bits.specs.Bits as bits;
ghost use Rattle.recorder.specs.Lists.{over};
ghost use Rattle.simulation.specs.Run.{is_one};
ghost use Rattle.evaluation.specs.Bytes.{part, same_bytes, gate_of};

use crate::kinds::{AND, OR, XOR};

// Copies n bytes from one slice to another. Most are one bit, for which a loop is slow.
pub fn copy(to: &mut [u8], at: usize, from: &[u8], start: usize, n: usize)
    requires { (at + n ≤ length to.old) × (start + n ≤ length from.now) }
    ensures { to.new ≡ over to.old at (part from.now start n) }
{
    if n == 1 {
        to[at] = from[start];
        return;
    }
    // Not by `copy_from_slice`: an archive for C would need memmove from outside.
    for i in 0..n {
        to[at + i] = from[start + i];
    }
}

// Copies n bytes within a slice.
pub fn copy_within(bytes: &mut [u8], at: usize, start: usize, n: usize)
    requires { (at + n ≤ length bytes.old) × (start + n ≤ length bytes.old) }
    ensures { bytes.new ≡ over bytes.old at (part bytes.old start n) }
{
    if n == 1 {
        bytes[at] = bytes[start];
        return;
    }
    bytes.copy_within(start..start + n, at);
}

// The lowest n bits of a number.
pub fn put_number(bytes: &mut [u8], at: usize, n: usize, v: u64)
    requires { at + n ≤ length bytes.old }
    ensures { bytes.new ≡ over bytes.old at (map digit (binary n v)) }
{
    let mut x = v;
    for i in 0..n {
        bytes[at + i] = (x % 2) as u8;
        x = x / 2;
    }
}

// Whether n bytes at two places are the same.
pub fn equal(bytes: &[u8], a: usize, b: usize, n: usize) -> bool
    requires { (a + n ≤ length bytes.now) × (b + n ≤ length bytes.now) }
    ensures { result ≡ same_bytes (part bytes.now a n) (part bytes.now b n) }
{
    bytes[a..a + n] == bytes[b..b + n]
}

fn bit(b: u8) -> u64
    ensures { result ≡ digit (is_one b) }
{
    if b == 1 { 1 } else { 0 }
}

// The number that 36 bits make.
pub fn number(bytes: &[u8], at: usize) -> u64
    requires { at + 36 ≤ length bytes.now }
    ensures { result ≡ bits.number (map is_one (part bytes.now at 36)) }
{
    let mut n: u64 = 0;
    for i in (0..36).rev() {
        n = n * 2 + bit(bytes[at + i]);
    }
    n
}

// The lowest 36 bits of a product of two numbers of 36 bits, in halves of 18 bits.
pub fn product(a: u64, b: u64) -> u64
    requires { (a < 68719476736) × (b < 68719476736) }
    ensures { binary 36 result ≡ binary 36 (a * b) }
{
    let a0 = a % 262144;
    let a1 = a / 262144;
    let b0 = b % 262144;
    let b1 = b / 262144;
    let middle = (a1 * b0 + a0 * b1) % 262144;
    a0 * b0 + middle * 262144
}

// One bit by a gate.
pub fn gate(bytes: &mut [u8], kind: u32, at: usize, a: usize, b: usize)
    requires { (at < length bytes.old) × (a < length bytes.old) × (b < length bytes.old) }
    ensures { (x y : Bool) → get_or bytes.old a 0 ≡ digit x → get_or bytes.old b 0 ≡ digit y → bytes.new ≡ set bytes.old at (digit (gate_of kind x y)) }
{
    let x = bytes[a];
    let y = bytes[b];
    if kind == AND {
        bytes[at] = x & y;
    } else if kind == OR {
        bytes[at] = x | y;
    } else if kind == XOR {
        bytes[at] = x ^ y;
    } else {
        bytes[at] = x ^ 1;
    }
}
