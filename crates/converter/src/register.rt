// The registers of banks.
ghost use Rattle.std.specs.Prelude.{◌≡◌, length, ◌≤◌};
ghost use Rattle.behaviour.specs.Banks.{async_reset};
ghost use Rattle.recorder.specs.Calls.{Writes, ended, reset_of, stated};
ghost use Rattle.wires.specs.Wires.{wires_in};
ghost use Rattle.lowering.specs.Emit.{bank_reset};
ghost use Rattle.converter.specs.Members.{members_left};
ghost use Rattle.converter.specs.Banked.{flop_at};
ghost use Rattle.converter.specs.BankEmits.{clock_bank, EmitsBank, EmitsBanks};

use crate::members::{Banks, Members};
use crate::next::{next_value, reset_value};
use netlist::Reset;
use netlist::fields::Fields;
use recorder::{AsyncReset, ExprId, Recorder, SignalId};
use refusal::Refusal;
use wires::WireMap;

// The asynchronous reset of the flip-flop whose fields these are.
fn async_reset(flop: Fields) -> Option<Reset>
    ensures { result ≡ async_reset (flop_at flop.entry.words.now flop.entry.at) }
{
    flop.optional_reset(8).filter(|r| r.asynchronous == 1)
}

// The asynchronous reset that a bank's leader has: its value is made of all members' values.
fn bank_reset(
    recorder: &mut Recorder,
    parts: &mut [u32],
    map: WireMap,
    members: Members,
    width: u32,
    reset: Option<Reset>,
) -> Result<Option<AsyncReset>, Refusal>
    requires { (width ≤ length parts.old) × (width ≡ length (members_left members)) }
    ensures { Writes recorder.old (bank_reset (wires_in map.entry) map.entry.constants reset (members_left members.entry)) (ended reset_of result) recorder.new }
{
    let Some(reset) = reset else {
        return Ok(None);
    };
    let value = reset_value(recorder, parts, members, width)?;
    let signal = map.bit_signal(reset.signal)?;
    Ok(Some(AsyncReset {
        signal,
        active: reset.active,
        value,
    }))
}

// The register of a bank, by the clock and edge of its leader.
fn clock_bank(
    recorder: &mut Recorder,
    map: WireMap,
    leader: Fields,
    target: SignalId,
    next: ExprId,
    reset: Option<AsyncReset>,
) -> Result<(), Refusal>
    ensures { Writes recorder.old (clock_bank (wires_in map.entry) map.entry.constants (flop_at leader.entry.words.now leader.entry.at) target.0 next.0 (reset_of reset)) (stated result) recorder.new }
{
    let clock = map.bit_signal(leader.bit(3))?;
    recorder.register(target, next, clock, leader.word(4), reset, None)
}

// One bank. `parts` is work of a word for each member.
fn emit_flip_flop_bank(
    recorder: &mut Recorder,
    parts: &mut [u32],
    map: WireMap,
    members: Members,
) -> Result<(), Refusal>
    ensures { EmitsBank recorder.old parts.old map.entry (members_left members.entry) (stated result) recorder.new }
{
    let width = members.width();
    let end = width as usize;
    if parts.len() < end {
        return Err(Refusal::BufferTooShort(end));
    }
    let mut first = members;
    let Some(leader) = first.next() else {
        return Ok(());
    };
    let target = map.find(leader.fields.word(2))?.signal;
    let next = next_value(recorder, parts, map, members, width)?;
    let reset = bank_reset(
        recorder,
        parts,
        map,
        members,
        width,
        async_reset(leader.fields),
    )?;
    clock_bank(recorder, map, leader.fields, target, next, reset)
}

// All banks. `parts` is work of a word for each cell.
pub fn emit_flip_flop_banks(
    recorder: &mut Recorder,
    parts: &mut [u32],
    map: WireMap,
    banks: Banks,
) -> Result<(), Refusal>
    ensures { EmitsBanks recorder.old parts.old map.entry banks.entry (stated result) recorder.new }
{
    let end = banks.n as usize;
    if parts.len() < end {
        return Err(Refusal::BufferTooShort(end));
    }
    for b in 0..banks.count {
        emit_flip_flop_bank(recorder, parts, map, banks.members(b + 1))?;
    }
    Ok(())
}
