// Wires put into the wire map: two tables by wire.
//
// A number that a table can't hold is none that a checked netlist has; it is answered 1, and the contracts speak of the others.
ghost use Rattle.std.specs.Prelude.{◌≡◌, ◌+◌, ◌<◌};
ghost use Rattle.netlist.specs.declared.Bit.TheVariants.{Wire};
ghost use Rattle.netlist.specs.Shape.{Each, FitsBit, FitsWire};
ghost use Rattle.wires.specs.Wires.{ref_in};
ghost use Rattle.lowering.specs.Reserve.{insert_wire, insert_bits};
ghost use Rattle.converter.specs.Tables.{map_in, Reserves, Small, held_bit, held_bits};

use crate::{Content, Reserver};
use netlist::Bit;
use netlist::fields::Fields;
use recorder::SignalId;
use refusal::Refusal;
use wires::WireRef;

impl Content {
    // The bit in a field.
    fn bit(self, fields: Fields, i: usize) -> Bit
        ensures { result ≡ held_bit fields.entry.words.now self (fields.entry.at + i) }
    {
        match self {
            Content::Bits => fields.bit(i),
            Content::Wires => Bit::Wire(fields.word(i)),
        }
    }
}

impl Reserver<'_, '_> {
    // A wire that is there already is refused.
    pub fn insert_wire(&mut self, wire: u32, held: WireRef) -> Result<(), Refusal>
        ensures { Reserves (λ limits. FitsWire limits wire × Small held) self.old (insert_wire (map_in self.old) (Wire wire) (ref_in held)) result self.new }
    {
        let i = wire as usize;
        if self.wires.len() <= i || self.places.len() <= i {
            return Err(Refusal::BufferTooShort(0));
        }
        // A number of which one more does not fit a word.
        if held.lsb > 65535 || held.width > 65535 || held.signal.0 == 4294967295 {
            return Err(Refusal::BufferTooShort(0));
        }
        if self.wires[i] != 0 {
            return Err(Refusal::DuplicateWire(i));
        }
        self.wires[i] = held.signal.0 + 1;
        self.places[i] = held.lsb * 65536 + held.width;
        Ok(())
    }

    // A constant is no wire.
    fn insert_bit(&mut self, bit: Bit, held: WireRef) -> Result<(), Refusal>
        ensures { Reserves (λ limits. FitsBit limits bit × Small held) self.old (insert_wire (map_in self.old) bit (ref_in held)) result self.new }
    {
        match bit {
            Bit::Zero | Bit::One => Ok(()),
            Bit::Wire(wire) => self.insert_wire(wire, held),
        }
    }

    // A signal holds the bits of n fields, the lowest first.
    pub fn insert_bits(
        &mut self,
        fields: Fields,
        content: Content,
        signal: SignalId,
        n: u32,
    ) -> Result<(), Refusal>
        ensures { Reserves (λ limits. Each (FitsBit limits) (held_bits fields.entry.words.now content fields.entry.at n) × (signal.0 < 4294967295) × (n < 65536)) self.old (insert_bits (map_in self.old) signal.0 n 0 (held_bits fields.entry.words.now content fields.entry.at n)) result self.new }
    {
        for lsb in 0..n {
            let bit = content.bit(fields, lsb as usize);
            self.insert_bit(
                bit,
                WireRef {
                    signal,
                    lsb,
                    width: n,
                },
            )?;
        }
        Ok(())
    }
}
