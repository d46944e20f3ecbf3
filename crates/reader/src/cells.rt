// One record, checked field by field as it stands in the words.
ghost use Rattle.netlist.specs.Reader;
ghost use Rattle.netlist.specs.Reader.{base};
ghost use Rattle.reader.specs.Passed.{Passed};

use super::section::Section;
use netlist::Kind;
use netlist::fields::word;
use netlist::ram::shift_fits;
use refusal::Refusal;

impl Section<'_> {
    fn lut4(&self, at: usize) -> Result<usize, Refusal>
        ensures { Passed (Reader.read_lut4 self.now.limits self.now.words.now self.now.end) at result }
    {
        let at = self.bits(at, 4)?;
        let at = self.wire(at)?;
        self.below(at, 65536)
    }

    // PFUMX and L6MUX21 have the same form.
    fn mux(&self, at: usize) -> Result<usize, Refusal>
        ensures pfumx { Passed (Reader.read_pfumx self.now.limits self.now.words.now self.now.end) at result }
        ensures l6mux21 { Passed (Reader.read_l6mux21 self.now.limits self.now.words.now self.now.end) at result }
    {
        let at = self.bit(at)?;
        let at = self.bit(at)?;
        let at = self.bit(at)?;
        self.wire(at)
    }

    fn ccu2c(&self, at: usize) -> Result<usize, Refusal>
        ensures { Passed (Reader.read_ccu2c self.now.limits self.now.words.now self.now.end) at result }
    {
        let at = self.bits(at, 4)?;
        let at = self.bits(at, 4)?;
        let at = self.bit(at)?;
        let at = self.wire(at)?;
        let at = self.wire(at)?;
        let at = self.wire(at)?;
        let at = self.below(at, 65536)?;
        let at = self.below(at, 65536)?;
        let at = self.below(at, 2)?;
        self.below(at, 2)
    }

    fn multiplier(&self, at: usize) -> Result<usize, Refusal>
        ensures { Passed (Reader.read_multiplier self.now.limits self.now.words.now self.now.end) at result }
    {
        let at = self.bits(at, 18)?;
        let at = self.bits(at, 18)?;
        self.wires(at, 36)
    }

    fn flip_flop(&self, at: usize) -> Result<usize, Refusal>
        ensures { Passed (Reader.read_flip_flop self.now.limits self.now.words.now self.now.end) at result }
    {
        let at = self.bit(at)?;
        let at = self.wire(at)?;
        let at = self.bit(at)?;
        let at = self.below(at, 2)?;
        let at = self.optional_control(at)?;
        self.optional_reset(at)
    }

    // The physical width; that the shift leaves too few address bits is its fault too.
    fn physical(&self, at: usize, depth: u32) -> Result<usize, Refusal>
        ensures { Passed (Reader.physical_for base self.now.words.now self.now.end depth) at result }
    {
        self.word(at, shift_fits(depth, word(self.words, at)))
    }

    fn second_port(&self, at: usize, flag: u32, width: usize) -> Result<usize, Refusal>
        ensures { Passed (Reader.second_if self.now.limits self.now.words.now self.now.end flag width) at result }
    {
        if flag == 0 {
            return Ok(at);
        }
        let at = self.bits(at, 14)?;
        let at = self.control(at)?;
        let at = self.optional_control(at)?;
        let at = self.optional_control(at)?;
        let at = self.bit(at)?;
        let at = self.below(at, 2)?;
        let at = self.bits(at, width)?;
        self.wires(at, width)
    }

    fn block_ram(&self, at: usize) -> Result<usize, Refusal>
        ensures { Passed (Reader.read_block_ram self.now.limits self.now.words.now self.now.end) at result }
    {
        let depth = word(self.words, at);
        let at = self.within(at, 1, 16384)?;
        let width = word(self.words, at) as usize;
        let at = self.within(at, 1, 18)?;
        let at = self.physical(at, depth)?;
        let at = self.bits(at, 14)?;
        let at = self.control(at)?;
        let at = self.bits(at, 14)?;
        let at = self.optional_control(at)?;
        let at = self.optional_control(at)?;
        let at = self.bit(at)?;
        let at = self.below(at, 2)?;
        let flag = word(self.words, at);
        let at = self.below(at, 2)?;
        let at = self.bits(at, width)?;
        let at = self.wires(at, width)?;
        self.second_port(at, flag, width)
    }

    fn distributed_ram(&self, at: usize) -> Result<usize, Refusal>
        ensures { Passed (Reader.read_distributed_ram self.now.limits self.now.words.now self.now.end) at result }
    {
        let at = self.bits(at, 4)?;
        let at = self.bits(at, 4)?;
        let at = self.control(at)?;
        let at = self.bits(at, 4)?;
        let at = self.wires(at, 4)?;
        let at = self.bit(at)?;
        let at = self.below(at, 2)?;
        self.below(at, 2)
    }

    fn io(&self, at: usize) -> Result<usize, Refusal>
        ensures { Passed (Reader.read_io self.now.limits self.now.words.now self.now.end) at result }
    {
        let at = self.wire(at)?;
        let at = self.bit(at)?;
        let at = self.wire(at)?;
        self.bit(at)
    }

    fn jtagg(&self, at: usize) -> Result<usize, Refusal>
        ensures { Passed (Reader.read_jtagg self.now.limits self.now.words.now self.now.end) at result }
    {
        self.wires(at, 9)
    }

    fn pll(&self, at: usize) -> Result<usize, Refusal>
        ensures { Passed (Reader.read_pll self.now.limits self.now.words.now self.now.end) at result }
    {
        let at = self.bit(at)?;
        let at = self.wire(at)?;
        let at = self.wire(at)?;
        let at = self.wire(at)?;
        let count = word(self.words, at) as usize;
        let at = self.below(at, 5)?;
        self.wires(at, count)
    }

    pub fn cell(&self, at: usize) -> Result<usize, Refusal>
        ensures { Passed (Reader.read_cell self.now.limits self.now.words.now self.now.end) at result }
    {
        let kind = Kind::from(word(self.words, at));
        let at = self.below(at, 11)?;
        match kind {
            Kind::Lut4 => self.lut4(at),
            Kind::Pfumx => self.mux(at),
            Kind::L6mux21 => self.mux(at),
            Kind::Ccu2c => self.ccu2c(at),
            Kind::Multiplier => self.multiplier(at),
            Kind::FlipFlop => self.flip_flop(at),
            Kind::BlockRam => self.block_ram(at),
            Kind::DistributedRam => self.distributed_ram(at),
            Kind::Io => self.io(at),
            Kind::Jtagg => self.jtagg(at),
            Kind::Pll => self.pll(at),
        }
    }

    pub fn port(&self, at: usize) -> Result<usize, Refusal>
        ensures { Passed (Reader.read_port self.now.limits self.now.words.now self.now.end) at result }
    {
        let at = self.below(at, 3)?;
        let width = word(self.words, at) as usize;
        let at = self.within(at, 1, self.limits.width)?;
        self.bits(at, width)
    }
}
