// Replays netlists from standard input: per netlist a count of words, the lengths of the three lists, and the words, all
// little-endian. Prints a line for each: the refusal, or the model's records, words, and hashes of its words and of its listing.
// oracle/README.md, "generate and bulk", has the format; stdout is what the Rust answers.

#![tactic(auto)]

use hashes::{hash_bytes, hash_words};
use lines::fields::put_fields;
use lines::records::{Expression, Record, Signal, Statement};
use listing::{put_first_line, put_list, put_refused_line, written};
use lower_words::lower_words;
use recorder::Tapes;
use std::io;
use std::io::{Read, Write};
use text::{Full, Text};
use words::read_words;

// An accepted netlist's model.
#[derive(Clone, Copy)]
struct Model<'a> {
    signals: &'a [u32],
    exprs: &'a [u32],
    stmts: &'a [u32],
    tapes: Tapes,
}

impl Model<'_> {
    fn hash_words(self) -> u32 {
        let h = hash_words(0, written(self.signals, self.tapes.signals));
        let h = hash_words(h, written(self.exprs, self.tapes.exprs));
        hash_words(h, written(self.stmts, self.tapes.stmts))
    }

    // Its listing's bytes, a list at a time through the text's buffer.
    fn hash_text(self, text: &mut Text<'_>) -> u32 {
        let Tapes {
            signals,
            exprs,
            stmts,
        } = self.tapes;
        let first = put_first_line(text, signals.count, exprs.count, stmts.count);
        let h = take_text(text, first, 0);
        let h = hash_list::<Signal>(text, written(self.signals, signals), h);
        let h = hash_list::<Expression>(text, written(self.exprs, exprs), h);
        hash_list::<Statement>(text, written(self.stmts, stmts), h)
    }
}

// A text that fitted is hashed, and the buffer is empty again.
fn take_text(text: &mut Text<'_>, put: Result<(), Full>, h: u32) -> u32 {
    let h = match put {
        Ok(()) => hash_bytes(h, text.bytes()),
        Err(Full) => h,
    };
    text.clear();
    h
}

fn hash_list<R: Record>(text: &mut Text<'_>, list: &[u32], h: u32) -> u32 {
    let put = put_list::<R>(text, list);
    take_text(text, put, h)
}

// LINES

fn print_model<W: Write>(to: &mut W, text: &mut Text<'_>, model: Model<'_>) -> io::Result<()> {
    let words = model.hash_words();
    let listing = model.hash_text(text);
    let Tapes {
        signals,
        exprs,
        stmts,
    } = model.tapes;
    text.put(b"model")?;
    let numbers = [
        signals.count,
        exprs.count,
        stmts.count,
        low(signals.used),
        low(exprs.used),
        low(stmts.used),
        words,
        listing,
    ];
    put_fields(text, b"", b'-', &numbers)?;
    text.put_byte(b'\n')?;
    text.flush(to)
}

fn low(x: usize) -> u32 {
    (x & 0xffffffff) as u32
}

// REPLAY

// Where netlists come from and lines go, and buffers.
#[derive(Drop)]
struct Replay<'a, R, W> {
    from: R,
    to: W,
    bytes: &'a mut [u8],
    words: &'a mut [u32],
    signals: &'a mut [u32],
    exprs: &'a mut [u32],
    stmts: &'a mut [u32],
    text: Text<'a>,
}

impl<R: Read, W: Write> Replay<'_, R, W> {
    // The next netlist; false where the input ends, or where lists of its lengths are not to be had.
    fn next(&mut self) -> io::Result<bool> {
        let mut head = [0u32; 4];
        if read_words(&mut self.from, self.bytes, &mut head, 4) != 4 {
            return Ok(false);
        }
        let n = head[0] as usize;
        if read_words(&mut self.from, self.bytes, self.words, n) != n {
            return Ok(false);
        }
        lower_one(
            &mut self.to,
            &mut self.text,
            self.words,
            self.signals,
            self.exprs,
            self.stmts,
            head,
        )
    }
}

// A netlist of so many words (lent by `&mut`, as the replay holds them), with lists of these lengths.
fn lower_one<W: Write>(
    to: &mut W,
    text: &mut Text<'_>,
    words: &mut [u32],
    signals: &mut [u32],
    exprs: &mut [u32],
    stmts: &mut [u32],
    head: [u32; 4],
) -> io::Result<bool> {
    let [n, a, b, c] = head;
    let (Some(words), Some(signals), Some(exprs), Some(stmts)) = (
        words.get(..n as usize),
        signals.get_mut(..a as usize),
        exprs.get_mut(..b as usize),
        stmts.get_mut(..c as usize),
    ) else {
        return Ok(false);
    };
    match lower_words(words, signals, exprs, stmts) {
        Ok(tapes) => {
            let model = Model {
                signals,
                exprs,
                stmts,
                tapes,
            };
            print_model(to, text, model)?;
        }
        Err(x) => {
            put_refused_line(text, x.number(), x.place())?;
            text.flush(to)?;
        }
    }
    Ok(true)
}

fn main(rt: HostRuntime) {
    let mut bytes = [0u8; 65536];
    let mut words = [0u32; 16384];
    let mut signals = [0u32; 65536];
    let mut exprs = [0u32; 65536];
    let mut stmts = [0u32; 65536];
    let mut text = [0u8; 524288];
    let mut replay = Replay {
        from: rt.stdin(),
        to: rt.stdout(),
        bytes: &mut bytes,
        words: &mut words,
        signals: &mut signals,
        exprs: &mut exprs,
        stmts: &mut stmts,
        text: Text::new(&mut text),
    };
    for _ in 0..u32::MAX {
        // Output that cannot be written ends the replay, and is not reported.
        let Ok(true) = replay.next() else {
            break;
        };
    }
}
