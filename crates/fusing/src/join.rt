// The table of a gate whose operands are tables.
ghost use Rattle.std.specs.Prelude.{◌≡◌, true, List, ℕ, ◌+◌, ◌*◌, ◌<◌};
ghost use Rattle.std.specs.Option.{IfSome};
ghost use Rattle.bits.specs.Bits.{digit, table_bit};
ghost use Rattle.fusing.specs.Form.{form_bit};
ghost use Rattle.fusing.specs.Join.{form_of, gate_bit, look_in, row_bit, among, flat_table, Tabled, Covers, Joins, Alone};

// A table of 16 bits and the positions of its four inputs.
#[derive(Clone, Copy)]
pub struct Lut {
    pub table: u32,
    pub inputs: [u32; 4],
}

// The bit at one position.
pub fn alone(p: u32) -> Lut
    ensures { Alone p result }
{
    Lut {
        table: 43690,
        inputs: [p; 4],
    }
}

fn bit_at(table: u32, i: u32) -> bool
    requires { i < 32 }
    ensures { result ≡ table_bit table i }
{
    (table >> i) % 2 == 1
}

// What row i has at position p.
fn look(s: [u32; 4], i: u32, p: u32) -> u32
    ensures { (result ≡ digit (look_in s i p)) × (result < 2) }
{
    if p == s[0] {
        return i % 2;
    }
    if p == s[1] {
        return i / 2 % 2;
    }
    if p == s[2] {
        return i / 4 % 2;
    }
    if p == s[3] {
        return i / 8 % 2;
    }
    0
}

// What a table shows in row i.
fn bit(s: [u32; 4], v: Lut, i: u32) -> bool
    ensures { result ≡ form_bit (look_in s i) (form_of v) }
{
    let a = look(s, i, v.inputs[0]);
    let b = look(s, i, v.inputs[1]);
    let c = look(s, i, v.inputs[2]);
    let d = look(s, i, v.inputs[3]);
    bit_at(v.table, a + 2 * b + 4 * c + 8 * d)
}

// Gates on single bits, by the kind in an expression's record: an enum would add a conversion where that word is passed on.
fn gate(kind: u32, p: bool, q: bool, r: bool) -> bool
    ensures { result ≡ gate_bit kind p q r }
{
    match kind {
        4 => p && q,
        5 => p || q,
        6 => p != q,
        7 => if p { q } else { r },
        8 => p == q,
        _ => !p,
    }
}

fn row(kind: u32, s: [u32; 4], p: Lut, q: Lut, r: Lut, i: u32) -> bool
    ensures { result ≡ row_bit kind s p q r i }
{
    let x = bit(s, p, i);
    let y = bit(s, q, i);
    let z = bit(s, r, i);
    gate(kind, x, y, z)
}

// The number that a bit and those above it make.
fn above(b: bool, t: u32) -> u32
    requires { t < 65536 }
    ensures { result ≡ digit b + 2 * t }
{
    if b { 2 * t + 1 } else { 2 * t }
}

// All 16 rows, the last first.
fn table(kind: u32, s: [u32; 4], p: Lut, q: Lut, r: Lut) -> u32
    ensures { Tabled (row_bit kind s p q r) result 0 }
{
    let mut t: u32 = 0;
    for i in (0..16).rev() {
        t = above(row(kind, s, p, q, r, i), t);
    }
    t
}

fn has(s: [u32; 4], p: u32) -> bool
    ensures { result ≡ among s p }
{
    p == s[0] || p == s[1] || p == s[2] || p == s[3]
}

// It shows the same in every row.
fn flat(v: Lut) -> bool
    ensures { result ≡ flat_table v.table }
{
    v.table == 0 || v.table == 65535
}

// One position more, if there is room: up to four different ones, and the places that are free repeat the first.
fn add(mut s: [u32; 4], p: u32) -> [u32; 4] {
    if has(s, p) {
        return s;
    }
    for k in 1..4 {
        if s[k] == s[0] {
            s[k] = p;
            return s;
        }
    }
    s
}

// What a flat table stands on does not matter.
fn add_all(s: [u32; 4], v: Lut) -> [u32; 4] {
    if flat(v) {
        return s;
    }
    let [a, b, c, d] = v.inputs;
    add(add(add(add(s, a), b), c), d)
}

// A row of these positions decides what a table shows.
fn covers(s: [u32; 4], v: Lut) -> bool
    ensures { result ≡ true → Covers s v }
{
    if flat(v) {
        return true;
    }
    let [a, b, c, d] = v.inputs;
    has(s, a) && has(s, b) && has(s, c) && has(s, d)
}

// The gate of three tables as one, if four positions are enough.
pub fn joined(kind: u32, p: Lut, q: Lut, r: Lut) -> Option<Lut>
    ensures { IfSome result (λ (z : Lut). Joins kind p q r z) }
{
    let first = if !flat(p) {
        p
    } else if !flat(q) {
        q
    } else {
        r
    };
    let s = add_all(add_all(add_all([first.inputs[0]; 4], p), q), r);
    if !covers(s, p) || !covers(s, q) || !covers(s, r) {
        return None;
    }
    Some(Lut {
        table: table(kind, s, p, q, r),
        inputs: s,
    })
}
