// Several lists of ticks, each with its netlist, behind one another: per case a count of words, then what the program reads of a single one.
// Prints what it prints of each. oracle/README.md says where the cases that the gate replays, and their answers, come from.
use crate::input::{Filled, Session};
use std::io::{Read, Write};
use words::read_words;

// Why a case is not run. (No `Option` of what is left: both are refusals.)
#[derive(Clone, Copy)]
enum Fault {
    TooLong { left: usize }, // or too short; so many of its words are left
    CutOff, // the input ends within it
}

impl<R: Read, W: Write> Session<'_, R, W> {
    // Whether n words more were there, which are passed over.
    fn pass_over(&mut self, n: usize) -> bool {
        for _ in 0..n / 1024 {
            if read_words(self.from, self.input, self.words, 1024) < 1024 {
                return false;
            }
        }
        read_words(self.from, self.input, self.words, n % 1024) == n % 1024
    }

    // A case of n words.
    fn read_case(&mut self, n: usize) -> Result<Filled, Fault> {
        if n < 2 {
            return Err(Fault::TooLong { left: n });
        }
        let (ticks, count) = self.read_lead().ok_or(Fault::CutOff)?;
        let left = n - 2;
        if 4096 < ticks || 262144 < count || self.bits.len() < count {
            return Err(Fault::TooLong { left });
        }
        let ahead = 3 * ticks + (count + 3) / 4;
        if left < ahead || 65536 < left - ahead {
            return Err(Fault::TooLong { left });
        }
        let heads = self.read_heads(ticks).ok_or(Fault::CutOff)?;
        let bits = self.read_bits(count).ok_or(Fault::CutOff)?;
        let words = read_words(self.from, self.input, self.words, left - ahead);
        if words == left - ahead {
            Ok(Filled { words, heads, bits })
        } else {
            Err(Fault::CutOff)
        }
    }

    // The next case; false where the input ends.
    fn replay_next(&mut self) -> bool {
        let mut size = [0u32; 1];
        if read_words(self.from, self.input, &mut size, 1) != 1 {
            return false;
        }
        match self.read_case(size[0] as usize) {
            Ok(filled) => {
                self.run(filled, false);
                true
            }
            Err(Fault::TooLong { left }) => {
                self.refuse();
                self.pass_over(left)
            }
            Err(Fault::CutOff) => {
                self.refuse();
                false
            }
        }
    }

    pub fn replay_all(&mut self) {
        for _ in 0..u32::MAX {
            if !self.replay_next() {
                break;
            }
        }
    }
}
