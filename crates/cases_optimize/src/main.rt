// What the optimizer emits, as hashes, against what the Rust emits.
//
// The stored lines (stdout of this crate, answers/optimizer.txt of oracle/) are the Rust's: its four files, unchanged, ran on
// the same calls over a recorder that stands in for ModuleBuilder. oracle/README.md, "optimizer", says which calls make
// up a line, and oracle/build.sh and oracle/check.sh make the lines again.

#![tactic(auto)]

use hashes::{hash_word, hash_words};
use optimize::lut::lut;
use optimize::optimizer::{mux, xor};
use recorder::{ExprId, Recorder, Tape};
use refusal::Refusal;
use std::io;
use std::io::Write;
use text::{Full, Text};

// CALLS

// The expressions recorded from there on: how many, and their words.
fn hash_added(recorder: &Recorder<'_>, from: Tape, h: u32) -> u32 {
    let to = recorder.tapes.exprs;
    let h = hash_word(h, to.count.wrapping_sub(from.count));
    hash_words(h, recorder.exprs.get(from.used..to.used).unwrap_or(&[]))
}

// The constants and four expressions more, and where the list of expressions ends then: each call begins there.
#[derive(Drop)]
struct Calls<'a> {
    recorder: Recorder<'a>,
    from: Tape,
}

impl<'a> Calls<'a> {
    fn new(exprs: &'a mut [u32]) -> Calls<'a> {
        let mut recorder = Recorder::new(&mut [], exprs, &mut []);
        for n in 0..6 {
            let _ = recorder.constant(1, n % 2); // there is room for six
        }
        Calls {
            from: recorder.tapes.exprs,
            recorder,
        }
    }

    // An answer: how many records it added, their words, its expression. They are given up for the next call.
    fn hash(&mut self, r: Result<ExprId, Refusal>, h: u32) -> u32 {
        let added = hash_added(&self.recorder, self.from, h);
        self.recorder.tapes.exprs = self.from;
        match r {
            Ok(e) => hash_word(added, e.0),
            Err(_) => h,
        }
    }

    // So many tables, each a step behind the one before.
    fn luts(&mut self, inputs: [ExprId; 4], first: u16, step: u16, count: u32) -> u32 {
        let mut h = 0;
        let mut table = first;
        for _ in 0..count {
            let r = lut(&mut self.recorder, inputs, table);
            h = self.hash(r, h);
            table = table.wrapping_add(step);
        }
        h
    }

    fn muxes(&mut self, select: u32) -> u32 {
        let mut h = 0;
        for arms in 0..36 {
            let r = mux(
                &mut self.recorder,
                ExprId(select),
                ExprId(arms / 6),
                ExprId(arms % 6),
            );
            h = self.hash(r, h);
        }
        h
    }

    fn xors(&mut self, lhs: u32) -> u32 {
        let mut h = 0;
        for rhs in 0..6 {
            let r = xor(&mut self.recorder, ExprId(lhs), ExprId(rhs));
            h = self.hash(r, h);
        }
        h
    }
}

// LINES

// Numbers with spaces between them, as a line.
fn put_line(text: &mut Text<'_>, numbers: &[u32], last: u32) -> Result<(), Full> {
    for n in numbers {
        text.put_decimal(*n as u64)?;
        text.put_byte(b' ')?;
    }
    text.put_decimal(last as u64)?;
    text.put_byte(b'\n')
}

// All tables over four inputs.
fn put_tables(text: &mut Text<'_>, calls: &mut Calls<'_>) -> Result<(), Full> {
    let inputs = [ExprId(2), ExprId(3), ExprId(4), ExprId(5)];
    for k in 0..256u16 {
        let h = calls.luts(inputs, 256 * k, 1, 256);
        put_line(text, &[k as u32], h)?;
    }
    Ok(())
}

// Some tables over all inputs, constants and repeated ones among them.
fn put_inputs(text: &mut Text<'_>, calls: &mut Calls<'_>) -> Result<(), Full> {
    for code in 0..1296u32 {
        let digits = [code / 216, code / 36 % 6, code / 6 % 6, code % 6];
        let h = calls.luts(digits.map(ExprId), 12345, 40503, 16);
        put_line(text, &digits, h)?;
    }
    Ok(())
}

fn put_muxes_and_xors(text: &mut Text<'_>, calls: &mut Calls<'_>) -> Result<(), Full> {
    for select in 0..6 {
        let h = calls.muxes(select);
        text.put(b"mux ")?;
        put_line(text, &[select], h)?;
    }
    for lhs in 0..6 {
        let h = calls.xors(lhs);
        text.put(b"xor ")?;
        put_line(text, &[lhs], h)?;
    }
    Ok(())
}

fn print<W: Write>(to: &mut W) -> io::Result<()> {
    let mut exprs = [0u32; 256];
    let mut out = [0u8; 32768];
    let mut calls = Calls::new(&mut exprs);
    let mut text = Text::new(&mut out);
    put_tables(&mut text, &mut calls)?;
    put_inputs(&mut text, &mut calls)?;
    put_muxes_and_xors(&mut text, &mut calls)?;
    text.flush(to)
}

fn main(rt: HostRuntime) {
    // Output that cannot be written is not reported.
    let _ = print(&mut rt.stdout());
}
