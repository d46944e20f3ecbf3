// A signal for a wire, for each of several wires, or for all of them.
ghost use Rattle.std.specs.Prelude.{◌≡◌, ◌<◌, get_or};
ghost use Rattle.netlist.specs.Fields.{wires_at};
ghost use Rattle.netlist.specs.Shape.{Each, FitsBit, FitsWire};
ghost use Rattle.recorder.specs.Calls.{label_of};
ghost use Rattle.lowering.specs.Reserve.{signal_of, reserve_scalar, reserve_scalars, reserve_unless, reserve_absent};
ghost use Rattle.converter.specs.Tables.{map_in, Reserves, held_bits, reserve_bits, signalled, Declares};

use crate::{Content, Reserver};
use netlist::fields::{Fields, word};
use recorder::{Label, SignalId};
use refusal::Refusal;
use wires::WireRef;

impl Reserver<'_, '_> {
    // The next signal. It holds no wires yet.
    pub fn signal(&mut self, label: Label, width: u32, owner: u32) -> Result<SignalId, Refusal>
        ensures { Declares self.old (signal_of (label_of label) width owner) (signalled result) self.new }
    {
        self.recorder.signal(label as u32, width, owner)
    }

    // A signal of one bit for a wire.
    pub fn reserve_scalar(&mut self, label: Label, owner: u32, wire: u32) -> Result<(), Refusal>
        ensures { Reserves (λ limits. FitsWire limits wire) self.old (reserve_scalar (map_in self.old) (label_of label) owner wire) result self.new }
    {
        let signal = self.signal(label, 1, owner)?;
        self.insert_wire(
            wire,
            WireRef {
                signal,
                lsb: 0,
                width: 1,
            },
        )
    }

    // A signal of the bits of n fields.
    pub fn reserve_vector(
        &mut self,
        label: Label,
        owner: u32,
        fields: Fields,
        content: Content,
        n: u32,
    ) -> Result<(), Refusal>
        ensures { Reserves (λ limits. Each (FitsBit limits) (held_bits fields.entry.words.now content fields.entry.at n) × (n < 65536)) self.old (reserve_bits (map_in self.old) (label_of label) owner n (held_bits fields.entry.words.now content fields.entry.at n)) result self.new }
    {
        let signal = self.signal(label, n, owner)?;
        self.insert_bits(fields, content, signal, n)
    }

    // A signal for each of the wires in n fields.
    pub fn reserve_scalars(
        &mut self,
        label: Label,
        owner: u32,
        fields: Fields,
        n: u32,
    ) -> Result<(), Refusal>
        ensures { Reserves (λ limits. Each (FitsWire limits) (wires_at fields.entry.words.now fields.entry.at n)) self.old (reserve_scalars (map_in self.old) (label_of label) owner (wires_at fields.entry.words.now fields.entry.at n)) result self.new }
    {
        for i in 0..n {
            self.reserve_scalar(label, owner, fields.word(i as usize))?;
        }
        Ok(())
    }

    // The number plus 1 of the signal that holds a wire, or 0.
    fn held(&self, wire: u32) -> u32
        ensures { result ≡ get_or self.now.wires.now wire 0 }
    {
        word(self.wires, wire as usize)
    }

    // A signal for a wire that is not there yet.
    fn reserve_unless(&mut self, label: Label, owner: u32, wire: u32) -> Result<(), Refusal>
        ensures { Reserves (λ limits. FitsWire limits wire) self.old (reserve_unless (map_in self.old wire) (map_in self.old) (label_of label) owner wire) result self.new }
    {
        if self.held(wire) != 0 {
            return Ok(());
        }
        self.reserve_scalar(label, owner, wire)
    }

    // A signal for each of the wires in n fields that is not there yet. Not one function with `reserve_scalars`: a flag for what a wire that is
    // there already means would be no plainer.
    pub fn reserve_absent(
        &mut self,
        label: Label,
        owner: u32,
        fields: Fields,
        n: u32,
    ) -> Result<(), Refusal>
        ensures { Reserves (λ limits. Each (FitsWire limits) (wires_at fields.entry.words.now fields.entry.at n)) self.old (reserve_absent (map_in self.old) (label_of label) owner (wires_at fields.entry.words.now fields.entry.at n)) result self.new }
    {
        for i in 0..n {
            self.reserve_unless(label, owner, fields.word(i as usize))?;
        }
        Ok(())
    }
}
