// A list of ticks and its netlist, read into lent buffers. One session reads all lists of a batch: the stack has no room for two of
// each buffer.
use crate::print::Printer;
use crate::run::run;
use std::io::{Read, Write};
use words::{read_full, read_words, words_of};

#[derive(Drop)]
pub struct Session<'a, R, W> {
    pub from: &'a mut R,
    pub printer: Printer<'a, W>,
    pub input: &'a mut [u8],
    pub words: &'a mut [u32],
    pub heads: &'a mut [u32],
    pub bits: &'a mut [u8],
}

// How much of each buffer a list and its netlist fill.
#[derive(Clone, Copy)]
pub struct Filled {
    pub words: usize,
    pub heads: usize,
    pub bits: usize,
}

// What is left of the input, at most 65,536 words, in whole words.
fn read_netlist<R: Read>(from: &mut R, input: &mut [u8], words: &mut [u32]) -> Option<usize> {
    let n = read_full(from, input);
    if 262144 < n || n % 4 != 0 {
        return None;
    }
    Some(words_of(&input[..n], words))
}

impl<R: Read, W: Write> Session<'_, R, W> {
    // The two leading words: the number of ticks, and of all their bits.
    pub fn read_lead(&mut self) -> Option<(usize, usize)> {
        let mut lead = [0u32; 2];
        if read_words(self.from, self.input, &mut lead, 2) == 2 {
            Some((lead[0] as usize, lead[1] as usize))
        } else {
            None
        }
    }

    // Three words for each tick, 4,096 ticks at most.
    pub fn read_heads(&mut self, ticks: usize) -> Option<usize> {
        if 4096 < ticks {
            return None;
        }
        let n = 3 * ticks;
        if read_words(self.from, self.input, self.heads, n) == n {
            Some(n)
        } else {
            None
        }
    }

    // The bits of all ticks, and the bytes behind them up to a whole word.
    pub fn read_bits(&mut self, n: usize) -> Option<usize> {
        let bits = self.bits.get_mut(..n)?;
        if read_full(self.from, bits) < n {
            return None;
        }
        let mut rest = [0u8; 4];
        let more = (4 - n % 4) % 4;
        if read_full(self.from, &mut rest[..more]) < more {
            return None;
        }
        Some(n)
    }

    fn read_one(&mut self) -> Option<Filled> {
        let (ticks, count) = self.read_lead()?;
        let heads = self.read_heads(ticks)?;
        let bits = self.read_bits(count)?;
        let words = read_netlist(self.from, self.input, self.words)?;
        Some(Filled { words, heads, bits })
    }

    // One list, the whole input.
    pub fn run_one(&mut self, vcd: bool) {
        match self.read_one() {
            Some(filled) => self.run(filled, vcd),
            None => self.refuse(),
        }
    }

    pub fn run(&mut self, filled: Filled, vcd: bool) {
        run(
            &mut self.printer,
            self.words,
            self.heads,
            self.bits,
            filled,
            vcd,
        );
    }

    // Input that is too long, too short or not in whole words.
    pub fn refuse(&mut self) {
        self.printer.print_refusal(3, 0);
    }
}
