// The same as a VCD file: one scope, a variable for each input and output port and one that marks refused ticks; ten units of time a tick.
use crate::print::{Outcome, Printer, digit};
use recorder::records::Records;
use std::io::Write;

// The next byte of the ticks' bits and of what is shown.
#[derive(Clone, Copy)]
struct Spots {
    bit: usize,
    next: usize,
}

impl<W: Write> Printer<'_, W> {
    // The name of the variable of a port.
    fn name(&mut self, owner: u32) {
        self.byte(b'p');
        self.number(owner as u64);
    }

    // The declarations of all ports.
    fn vars(&mut self, signals: &[u32]) {
        for fields in Records::new(signals) {
            match fields {
                [0, width, owner] => self.var(b" in", *width, *owner),
                [1, width, owner] => self.var(b" out", *width, *owner),
                _ => (),
            }
        }
    }

    fn var(&mut self, sort: &[u8], width: u32, owner: u32) {
        self.bytes(b"$var wire ");
        self.number(width as u64);
        self.byte(b' ');
        self.name(owner);
        self.bytes(sort);
        self.number(owner as u64);
        self.bytes(b" $end\n");
    }

    // A variable's value; a single bit stands alone.
    fn value(&mut self, bits: &[u8], from: usize, width: u32, owner: u32) {
        if width == 1 {
            self.byte(digit(bits, from));
        } else {
            self.byte(b'b');
            self.digits(bits, from, width as usize);
            self.byte(b' ');
        }
        self.name(owner);
        self.byte(b'\n');
    }

    // The values of all ports.
    fn values(&mut self, signals: &[u32], bits: &[u8], shown: &[u8], from: Spots) -> Spots {
        let mut spots = from;
        for fields in Records::new(signals) {
            match fields {
                [0, width, owner] => {
                    self.value(bits, spots.bit, *width, *owner);
                    spots.bit = spots.bit.saturating_add(*width as usize);
                }
                [1, width, owner] => {
                    self.value(shown, spots.next, *width, *owner);
                    spots.next = spots.next.saturating_add(*width as usize);
                }
                _ => (),
            }
        }
        spots
    }

    // The head, and zeros before the first tick.
    fn head(&mut self, signals: &[u32]) {
        self.bytes(b"$timescale 1ns $end\n$scope module netlist $end\n");
        self.vars(signals);
        self.bytes(b"$var wire 1 r refused $end\n$upscope $end\n");
        self.bytes(b"$enddefinitions $end\n#0\n$dumpvars\n");
        self.values(signals, b"", b"", Spots { bit: 0, next: 0 });
        self.bytes(b"0r\n$end\n");
    }

    // All ticks: three words each in `heads`, their bits one after the other.
    pub fn print_vcd(&mut self, outcome: Outcome<'_>) {
        let outputs = outcome.outputs();
        self.head(outcome.signals);
        let mut spots = Spots { bit: 0, next: 0 };
        for i in 0..outcome.heads.len() / 3 {
            self.byte(b'#');
            self.number(i as u64 + 1);
            self.bytes(b"0\n");
            let bit = spots.bit.saturating_add(outcome.heads[3 * i] as usize);
            let (number, _) = outcome.answer(i);
            if number == 0 {
                self.bytes(b"0r\n");
                let next = self
                    .values(outcome.signals, outcome.bits, outcome.shown, spots)
                    .next;
                spots = Spots { bit, next };
            } else {
                self.bytes(b"1r\n");
                let next = spots.next.saturating_add(outputs);
                spots = Spots { bit, next };
            }
        }
        self.flush();
    }
}
