// Reads a netlist in words from standard input and prints its model, or `refused` with number and place.

#![tactic(auto)]

ghost use Rattle.recorder.specs.Lists.{lists};
ghost use Rattle.lower.specs.Entry.{Unread, LowersBytes};

use lines::records::{Expression, Signal, Statement};
use listing::{put_first_line, put_list, put_refused_line, written};
use lower_words::lower_words;
use recorder::Tapes;
use refusal::Refusal;
use std::io::Write;
use text::{Full, Text};
use words::{read_full, words_of};

// Bytes that are no words: the lists are left zeros, as with any refusal. (Three lists stand one by one, as `lower_words` takes them.)
fn refuse_bytes(signals: &mut [u32], exprs: &mut [u32], stmts: &mut [u32]) -> Result<Tapes, Refusal>
    ensures { Unread (lists signals.old exprs.old stmts.old) result (lists signals.new exprs.new stmts.new) }
{
    signals.fill(0);
    exprs.fill(0);
    stmts.fill(0);
    Err(Refusal::BadTrailer)
}

// A netlist has 65,536 bytes at most, in whole words.
fn lower_bytes(
    bytes: &[u8],
    signals: &mut [u32],
    exprs: &mut [u32],
    stmts: &mut [u32],
) -> Result<Tapes, Refusal>
    ensures { LowersBytes bytes.now (lists signals.old exprs.old stmts.old) result (lists signals.new exprs.new stmts.new) }
{
    if 65536 < bytes.len() || bytes.len() % 4 != 0 {
        return refuse_bytes(signals, exprs, stmts);
    }
    let mut words = [0u32; 16384];
    let n = words_of(bytes, &mut words);
    lower_words(&words[..n], signals, exprs, stmts)
}

// Writes a text that fitted, and begins anew. Output that cannot be written is not reported, and what follows is still tried:
// no `?`, which would end the program's output there.
fn print<W: Write>(to: &mut W, text: &mut Text<'_>, put: Result<(), Full>) {
    if put.is_ok() {
        let _ = text.flush(to);
    }
    text.clear();
}

fn put_head(text: &mut Text<'_>, t: Tapes, signals: &[u32]) -> Result<(), Full> {
    put_first_line(text, t.signals.count, t.exprs.count, t.stmts.count)?;
    put_list::<Signal>(text, written(signals, t.signals))
}

fn print_model<W: Write>(
    to: &mut W,
    text: &mut Text<'_>,
    t: Tapes,
    signals: &[u32],
    exprs: &[u32],
    stmts: &[u32],
) {
    let head = put_head(text, t, signals);
    print(to, text, head);
    let middle = put_list::<Expression>(text, written(exprs, t.exprs));
    print(to, text, middle);
    let tail = put_list::<Statement>(text, written(stmts, t.stmts));
    print(to, text, tail);
}

// A word of a list prints as 12 bytes at most, so that 262,144 hold the text of any of the three lists.
fn main(rt: HostRuntime) {
    let mut bytes = [0u8; 65537];
    let mut signals = [0u32; 16384];
    let mut exprs = [0u32; 16384];
    let mut stmts = [0u32; 16384];
    let mut out = [0u8; 262144];
    let mut text = Text::new(&mut out);
    let n = read_full(&mut rt.stdin(), &mut bytes);
    let mut to = rt.stdout();
    match lower_bytes(&bytes[..n], &mut signals, &mut exprs, &mut stmts) {
        Ok(t) => print_model(&mut to, &mut text, t, &signals, &exprs, &stmts),
        Err(x) => {
            let line = put_refused_line(&mut text, x.number(), x.place());
            print(&mut to, &mut text, line);
        }
    }
}
