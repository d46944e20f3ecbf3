// Readers of fields. Nothing is checked here: what the words of an unchecked netlist say is read all the same, and past the last word all is 0.
ghost use Rattle.std.specs.Prelude.{◌≡◌, [], ◌∷◌, ◌+◌, min, length, slice_get, slice_index};
ghost use Rattle.netlist.specs.Fields.{word_at, bit_at, bits_at, control_at, optional_control_at, optional_reset_at, kind_at, block_ram_size, cell_size, cell_end, port_end};

use super::{Bit, Control, Kind, Reset};

// The word at an index.
pub fn word(words: &[u32], i: usize) -> u32
    ensures { result ≡ word_at words.now i }
{
    words.get(i).copied().unwrap_or(0)
}

// The fields of a record of the netlist, a cell or a port, from its kind or direction on. They are numbered from there,
// so that no caller adds indices.
#[derive(Clone, Copy)]
pub struct Fields<'a> {
    pub words: &'a [u32],
    pub at: usize,
}

impl<'a> Fields<'a> {
    pub fn word(self, offset: usize) -> u32
        ensures { result ≡ word_at self.entry.words.now (self.entry.at + offset) }
    {
        word(self.words, self.at.saturating_add(offset))
    }

    // The index of a field, or the number of words if it is larger.
    pub fn ahead(self, offset: usize) -> usize
        ensures { result ≡ min (self.entry.at + offset) (length self.entry.words.now) }
    {
        self.at.saturating_add(offset).min(self.words.len())
    }

    // The fields from an offset on.
    pub fn from(self, offset: usize) -> Fields<'a>
        ensures { result ≡ record self.entry { at = min (self.entry.at + offset) (length self.entry.words.now) } }
    {
        Fields {
            words: self.words,
            at: self.ahead(offset),
        }
    }

    pub fn kind(self) -> Kind
        ensures { result ≡ kind_at self.entry.words.now self.entry.at }
    {
        Kind::from(self.word(0))
    }

    pub fn bit(self, offset: usize) -> Bit
        ensures { result ≡ bit_at self.entry.words.now (self.entry.at + offset) }
    {
        Bit::from(self.word(offset))
    }

    pub fn bits<const N: usize>(self, offset: usize) -> [Bit; N]
        ensures { result ≡ bits_at self.entry.words.now (self.entry.at + offset) N }
    {
        let fields = self.from(offset);
        let mut bits = [Bit::Zero; N];
        for (k, bit) in bits.iter_mut().enumerate() {
            *bit = fields.bit(k);
        }
        bits
    }

    pub fn control(self, offset: usize) -> Control
        ensures { result ≡ control_at self.entry.words.now (self.entry.at + offset) }
    {
        let fields = self.from(offset);
        Control {
            signal: fields.bit(0),
            active: fields.word(1),
        }
    }

    pub fn optional_control(self, offset: usize) -> Option<Control>
        ensures { result ≡ optional_control_at self.entry.words.now (self.entry.at + offset) }
    {
        let fields = self.from(offset);
        if fields.word(0) == 0 {
            return None;
        }
        Some(fields.control(1))
    }

    pub fn optional_reset(self, offset: usize) -> Option<Reset>
        ensures { result ≡ optional_reset_at self.entry.words.now (self.entry.at + offset) }
    {
        let fields = self.from(offset);
        if fields.word(0) == 0 {
            return None;
        }
        Some(Reset {
            signal: fields.bit(1),
            active: fields.word(2),
            asynchronous: fields.word(3),
            value: fields.word(4),
        })
    }

    // The index after a port, or the number of words if that is past them.
    #[tactic(auto, unfolding(crate::specs::Fields::port_size))]
    pub fn port_end(self) -> usize
        ensures { result ≡ min (port_end self.entry.words.now self.entry.at) (length self.entry.words.now) }
    {
        self.ahead(2 + self.word(1) as usize)
    }

    fn block_ram_size(self) -> usize
        ensures { result ≡ block_ram_size self.entry.words.now self.entry.at }
    {
        let width = self.word(2) as usize;
        let first = 43 + width + width;
        if self.word(42) == 0 {
            first
        } else {
            first + (24 + width + width)
        }
    }

    // How many words a cell has.
    #[tactic(auto, unfolding(crate::specs::Fields::cell_size))]
    pub fn cell_size(self) -> usize
        ensures { result ≡ cell_size self.entry.words.now self.entry.at }
    {
        match self.kind() {
            Kind::Lut4 => 7,
            Kind::Pfumx | Kind::L6mux21 | Kind::Io => 5,
            Kind::Ccu2c => 17,
            Kind::Multiplier => 73,
            Kind::FlipFlop => 13,
            Kind::BlockRam => self.block_ram_size(),
            Kind::DistributedRam => 22,
            Kind::Jtagg => 10,
            Kind::Pll => 6 + self.word(5) as usize,
        }
    }

    // The index after a cell, or the number of words if that is past them.
    pub fn cell_end(self) -> usize
        ensures { result ≡ min (cell_end self.entry.words.now self.entry.at) (length self.entry.words.now) }
    {
        self.ahead(self.cell_size())
    }
}
