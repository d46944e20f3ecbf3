// The signals of banks and the wires that they hold.
ghost use Rattle.std.specs.Prelude.{◌≡◌, ◌<◌, ◌≤◌, length};
ghost use Rattle.netlist.specs.Shape.{Each, FitsWire};
ghost use Rattle.netlist.specs.Fields.{cells_at};
ghost use Rattle.behaviour.specs.Banks.{outputs_of, collect_flip_flop_banks};
ghost use Rattle.lowering.specs.Reserve.{insert_wires, reserve_vector, reserve_flip_flop_banks};
ghost use Rattle.converter.specs.Tables.{map_in, Reserves};
ghost use Rattle.converter.specs.Members.{members_left};
ghost use Rattle.converter.specs.Reserved.{BanksFit};

use crate::Reserver;
use crate::members::{Banks, Members};
use recorder::{Label, SignalId};
use refusal::Refusal;
use wires::WireRef;

impl Reserver<'_, '_> {
    // A signal holds the outputs of a bank's members, the first in its lowest bit.
    fn insert_members(
        &mut self,
        members: Members,
        signal: SignalId,
        width: u32,
    ) -> Result<(), Refusal>
        ensures { Reserves (λ limits. Each (FitsWire limits) (outputs_of (members_left members.entry)) × (signal.0 < 4294967295) × (width < 65536) × (length (members_left members.entry) ≤ width)) self.old (insert_wires (map_in self.old) signal.0 width 0 (outputs_of (members_left members.entry))) result self.new }
    {
        let mut lsb = 0;
        for cell in members {
            let wire = cell.fields.word(2);
            self.insert_wire(wire, WireRef { signal, lsb, width })?;
            lsb += 1;
        }
        Ok(())
    }

    // The signal of one bank.
    fn reserve_flip_flop_bank(&mut self, owner: u32, members: Members) -> Result<(), Refusal>
        ensures { Reserves (λ limits. Each (FitsWire limits) (outputs_of (members_left members.entry)) × (length (members_left members.entry) < 65536)) self.old (reserve_vector (map_in self.old) 7 owner (outputs_of (members_left members.entry))) result self.new }
    {
        let width = members.width();
        let signal = self.signal(Label::FlipFlops, width, owner)?;
        self.insert_members(members, signal, width)
    }

    // The signals of all banks.
    pub fn reserve_flip_flop_banks(&mut self, banks: Banks) -> Result<(), Refusal>
        ensures { Reserves (BanksFit banks.entry) self.old (reserve_flip_flop_banks (map_in self.old) 0 (collect_flip_flop_banks (cells_at banks.entry.cells.words.now banks.entry.cells.at banks.entry.n))) result self.new }
    {
        for b in 0..banks.count {
            self.reserve_flip_flop_bank(b, banks.members(b + 1))?;
        }
        Ok(())
    }
}
