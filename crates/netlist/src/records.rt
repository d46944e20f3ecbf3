// The fields of a cell by kind, but for its vectors, which start at fixed offsets: `bits` reads those. That the kind fits is the caller's to know.
ghost use Rattle.std.specs.Prelude.{◌≡◌, [], ◌∷◌, ◌+◌, min, length};
ghost use Rattle.netlist.specs.Fields.{word_at, bits_at, first_size, pfumx_at, l6mux21_at, ccu2c_at, io_at};
ghost use Rattle.netlist.specs.Records.{pfumx_of, l6mux21_of, ccu2c_with, io_of};

use super::Bit;
use super::fields::Fields;

#[derive(Clone, Copy)]
pub struct Pfumx {
    pub lut_true: Bit,
    pub lut_false: Bit,
    pub select: Bit,
    pub output: u32,
}

// The same shape as `Pfumx`; one type for both would lose the names that the two cells' inputs have.
#[derive(Clone, Copy)]
pub struct L6mux21 {
    pub data_zero: Bit,
    pub data_one: Bit,
    pub select: Bit,
    pub output: u32,
}

// The two rows of inputs: `ccu2c_inputs`.
#[derive(Clone, Copy)]
pub struct Ccu2c {
    pub carry_in: Bit,
    pub sum0: u32,
    pub sum1: u32,
    pub carry: u32,
    pub init0: u32,
    pub init1: u32,
    pub inject0: u32,
    pub inject1: u32,
}

#[derive(Clone, Copy)]
pub struct Io {
    pub pad: u32,
    pub fabric_output: Bit,
    pub fabric_input: u32,
    pub tristate: Bit,
}

impl<'a> Fields<'a> {
    pub fn pfumx(self) -> Pfumx
        ensures { pfumx_of result ≡ pfumx_at self.entry.words.now self.entry.at }
    {
        Pfumx {
            lut_true: self.bit(1),
            lut_false: self.bit(2),
            select: self.bit(3),
            output: self.word(4),
        }
    }

    pub fn l6mux21(self) -> L6mux21
        ensures { l6mux21_of result ≡ l6mux21_at self.entry.words.now self.entry.at }
    {
        L6mux21 {
            data_zero: self.bit(1),
            data_one: self.bit(2),
            select: self.bit(3),
            output: self.word(4),
        }
    }

    pub fn ccu2c(self) -> Ccu2c
        ensures { ccu2c_with self.entry.words.now self.entry.at result ≡ ccu2c_at self.entry.words.now self.entry.at }
    {
        Ccu2c {
            carry_in: self.bit(9),
            sum0: self.word(10),
            sum1: self.word(11),
            carry: self.word(12),
            init0: self.word(13),
            init1: self.word(14),
            inject0: self.word(15),
            inject1: self.word(16),
        }
    }

    // The two rows of four inputs of a CCU2C.
    pub fn ccu2c_inputs(self) -> [[Bit; 4]; 2]
        ensures { result ≡ bits_at self.entry.words.now (self.entry.at + 1) 4 ∷ bits_at self.entry.words.now (self.entry.at + 5) 4 ∷ [] }
    {
        [self.bits(1), self.bits(5)]
    }

    // The second port of a block RAM.
    pub fn second_port(self) -> Fields<'a>
        ensures { result ≡ record self.entry { at = min (self.entry.at + first_size self.entry.words.now (word_at self.entry.words.now (self.entry.at + 2))) (length self.entry.words.now) } }
    {
        let width = self.word(2) as usize;
        self.from(43 + width + width)
    }

    pub fn io(self) -> Io
        ensures { io_of result ≡ io_at self.entry.words.now self.entry.at }
    {
        Io {
            pad: self.word(1),
            fabric_output: self.bit(2),
            fabric_input: self.word(3),
            tristate: self.bit(4),
        }
    }
}
