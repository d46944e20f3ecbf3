// Prints what a list of ticks shows: a line for each tick, written in pieces through a lent buffer.
pub mod vcd; // vcd.rt: the same as a VCD file

use listing::{put_refused_line, written};
use recorder::Tapes;
use recorder::records::Records;
use refusal::Refusal;
use std::io::Write;
use text::Text;

// A list of ticks and what came of it. The signals are a model's.
#[derive(Clone, Copy)]
pub struct Outcome<'a> {
    pub signals: &'a [u32],
    pub heads: &'a [u32],
    pub bits: &'a [u8],
    pub answers: &'a [u64],
    pub shown: &'a [u8],
}

impl Outcome<'_> {
    // The bytes that a tick shows.
    fn outputs(self) -> usize {
        let mut sum: usize = 0;
        for fields in Records::new(self.signals) {
            if let [1, width, _] = fields {
                sum = sum.saturating_add(*width as usize);
            }
        }
        sum
    }

    // Number and place of tick i's refusal; 0 where it was made.
    fn answer(self, i: usize) -> (u64, u64) {
        let at = i.saturating_mul(2);
        let number = self.answers.get(at).copied().unwrap_or(0);
        let place = self.answers.get(at.saturating_add(1)).copied().unwrap_or(0);
        (number, place)
    }
}

// The signals up to the last port's: each tick goes through them, and there may be many behind them.
fn ports(signals: &[u32]) -> &[u32] {
    let mut at: usize = 0;
    let mut end: usize = 0;
    for fields in Records::new(signals) {
        at = at.saturating_add(fields.len()).saturating_add(1);
        if let [0 | 1, _, _] = fields {
            end = at;
        }
    }
    signals.get(..end).unwrap_or(signals)
}

// A bit of a list as a digit; none that is missing is one.
fn digit(bits: &[u8], i: usize) -> u8 {
    match bits.get(i) {
        Some(1) => b'1',
        _ => b'0',
    }
}

// Text that is written out whenever its buffer is full.
#[derive(Drop)]
pub struct Printer<'a, W> {
    pub to: W,
    pub text: Text<'a>,
}

impl<W: Write> Printer<'_, W> {
    // Writes out what the buffer holds, and begins anew. Output that cannot be written is not reported, and the program goes on to
    // what follows: no `?`, which would end it there.
    fn flush(&mut self) {
        let _ = self.text.flush(&mut self.to);
        self.text.clear();
    }

    // Makes room for n bytes, if the buffer has that: what is put behind has at most so many, and so is never `Full`.
    fn reserve(&mut self, n: usize) {
        if self.text.room() < n {
            self.flush();
        }
    }

    fn byte(&mut self, byte: u8) {
        self.reserve(1);
        let _ = self.text.put_byte(byte);
    }

    fn bytes(&mut self, bytes: &[u8]) {
        self.reserve(bytes.len());
        let _ = self.text.put(bytes);
    }

    fn number(&mut self, n: u64) {
        self.reserve(20);
        let _ = self.text.put_decimal(n);
    }

    // Bits from an index on, the highest first.
    fn digits(&mut self, bits: &[u8], from: usize, width: usize) {
        for i in (0..width).rev() {
            self.byte(digit(bits, from.saturating_add(i)));
        }
    }

    // A refusal as a line of its own.
    fn refusal(&mut self, number: usize, place: usize) {
        self.reserve(64);
        let _ = put_refused_line(&mut self.text, number, place);
    }

    // The output ports after one tick, as a line; what they show begins at `from`, and ends where the answer says.
    fn ports(&mut self, outcome: Outcome<'_>, from: usize) -> usize {
        let mut next = from;
        for fields in Records::new(outcome.signals) {
            if let [1, width, _] = fields {
                if next != from {
                    self.byte(b' ');
                }
                self.digits(outcome.shown, next, *width as usize);
                next = next.saturating_add(*width as usize);
            }
        }
        self.byte(b'\n');
        next
    }

    // All ticks, a line each: what the ports show, or the tick's refusal.
    pub fn print_ticks(&mut self, outcome: Outcome<'_>) {
        let outputs = outcome.outputs();
        let mut next: usize = 0;
        for i in 0..outcome.heads.len() / 3 {
            let (number, place) = outcome.answer(i);
            if number == 0 {
                next = self.ports(outcome, next);
            } else {
                self.refusal(number as usize, place as usize);
                next = next.saturating_add(outputs);
            }
        }
        self.flush();
    }

    // What is shown, as lines or as a VCD file, or one line for the refusal.
    pub fn print_answer(
        &mut self,
        answer: Result<Tapes, Refusal>,
        outcome: Outcome<'_>,
        vcd: bool,
    ) {
        match answer {
            Ok(tapes) => {
                let outcome = Outcome {
                    signals: ports(written(outcome.signals, tapes.signals)),
                    ..outcome
                };
                if vcd {
                    self.print_vcd(outcome)
                } else {
                    self.print_ticks(outcome)
                }
            }
            Err(x) => self.print_refusal(x.number(), x.place()),
        }
    }

    // A refusal of the whole, as a line.
    pub fn print_refusal(&mut self, number: usize, place: usize) {
        self.refusal(number, place);
        self.flush();
    }
}
