// Reads a list of ticks and a netlist from standard input, and prints what the output ports show after each tick, or the refusal.
// docs/SIMULATE.md says how both are laid out, and what the arguments --vcd and --batch ask for.

#![tactic(auto)]

mod batch; // several lists of ticks, each with its netlist
mod input; // a list of ticks and its netlist, read
mod print; // what a list of ticks shows, printed
mod run; // a netlist and ticks, lowered, run and printed

use input::Session;
use print::Printer;
use std::env::Env;
use text::Text;

// The program's first argument is this one, of at most seven letters.
fn asked<E: Env>(of: &E, argument: &[u8]) -> bool {
    let mut first = [0u8; 8];
    match of.arg(1, &mut first) {
        Ok(n) => &first[..n] == argument,
        Err(_) => false,
    }
}

fn main(rt: HostRuntime) {
    let mut input = [0u8; 262148];
    let mut words = [0u32; 65536];
    let mut heads = [0u32; 12288];
    let mut bits = [0u8; 262144];
    let mut out = [0u8; 32768];
    let mut session = Session {
        from: &mut rt.stdin(),
        printer: Printer {
            to: rt.stdout(),
            text: Text::new(&mut out),
        },
        input: &mut input,
        words: &mut words,
        heads: &mut heads,
        bits: &mut bits,
    };
    if asked(&rt, b"--batch") {
        session.replay_all();
    } else {
        session.run_one(asked(&rt, b"--vcd"));
    }
}
