// The records that the balanced address mux makes of up to five nodes, and a count that the work slices have no room for: by the
// function on a lent slice of nodes, then by the one on two number slices.
//
// A line has the words of the records and the number of the result. The stored lines were written by a transliteration of the
// Rust's balanced_address_mux (lib.rs), not by this program.

#![tactic(auto)]

use address_mux::{AddressMuxNode, Works, balanced_address_mux};
use nodes::balanced_address_mux_of_array;
use recorder::{ExprId, Recorder};
use refusal::Refusal;
use std::io;
use std::io::Write;
use text::{Full, Text};

// The words of the expressions that are recorded.
fn written<'a>(recorder: &'a Recorder<'_>) -> &'a [u32] {
    recorder
        .exprs
        .get(..recorder.tapes.exprs.used)
        .unwrap_or(&[])
}

// The answer's words, and its number.
fn put_line(text: &mut Text<'_>, exprs: &[u32], r: Result<ExprId, Refusal>) -> Result<(), Full> {
    let Ok(e) = r else {
        return text.put(b"refused\n");
    };
    for word in exprs {
        text.put_decimal(*word as u64)?;
        text.put_byte(b' ')?;
    }
    text.put_decimal(e.0 as u64)?;
    text.put_byte(b'\n')
}

fn by_nodes(recorder: &mut Recorder<'_>, n: usize) -> Result<ExprId, Refusal> {
    let none = AddressMuxNode {
        matched: ExprId(0),
        value: ExprId(0),
    };
    let mut nodes = [none; 64];
    for i in 0..5 {
        nodes[i] = AddressMuxNode {
            matched: ExprId(10 + i as u32),
            value: ExprId(20 + i as u32),
        };
    }
    let mut works = Works {
        parts: &mut [0; 8],
        values: &mut [0; 8],
    };
    balanced_address_mux_of_array(recorder, nodes, n, &mut works, 4, ExprId(99))
}

fn by_numbers(recorder: &mut Recorder<'_>, n: usize) -> Result<ExprId, Refusal> {
    let mut works = Works {
        parts: &mut [10, 11, 12, 13, 14, 0, 0, 0],
        values: &mut [20, 21, 22, 23, 24, 0, 0, 0],
    };
    balanced_address_mux(recorder, &mut works, n, 4, ExprId(99))
}

fn put_all(text: &mut Text<'_>, exprs: &mut [u32]) -> Result<(), Full> {
    for n in [0, 1, 3, 5, 9] {
        let mut recorder = Recorder::new(&mut [], exprs, &mut []);
        let r = by_nodes(&mut recorder, n);
        put_line(text, written(&recorder), r)?;
        let mut recorder = Recorder::new(&mut [], exprs, &mut []);
        let r = by_numbers(&mut recorder, n);
        put_line(text, written(&recorder), r)?;
    }
    Ok(())
}

fn print<W: Write>(to: &mut W) -> io::Result<()> {
    let mut exprs = [0u32; 256];
    let mut out = [0u8; 4096];
    let mut text = Text::new(&mut out);
    put_all(&mut text, &mut exprs)?;
    text.flush(to)
}

fn main(rt: HostRuntime) {
    // Output that cannot be written is not reported.
    let _ = print(&mut rt.stdout());
}
