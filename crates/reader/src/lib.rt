// The check of a netlist's words: refusals 3 to 6.

#![tactic(auto)]

ghost use Rattle.std.specs.Prelude.{◌≡◌};
ghost use Rattle.netlist.specs.Reader.{trailer_fits};
ghost use Rattle.reader.specs.Checks.{Checks};

mod section; // section.rt: a section, and one field of a record, checked
mod cells; // cells.rt: one record, checked
mod sections; // sections.rt: the two sections, checked

use netlist::fields::Fields;
use netlist::{Layout, Limits};
use refusal::Refusal;
use sections::check_sections;

fn trailer_fits(limits: Limits, ports_at: u32, layout: Layout) -> bool
    ensures { result ≡ trailer_fits limits layout.end ports_at layout.ports layout.start layout.cells }
{
    ports_at == 0
        && layout.ports <= limits.ports
        && layout.start <= layout.end
        && layout.cells <= limits.cells
}

// The check of a netlist's words: the trailer (3), each word in turn (4, 5), and last the second ports' clocks (6).
pub fn check(limits: Limits, words: &[u32]) -> Result<Layout, Refusal>
    ensures { Checks limits words.now result }
{
    let Some(end) = words.len().checked_sub(4) else {
        return Err(Refusal::BadTrailer);
    };
    let trailer = Fields { words, at: end };
    let layout = Layout {
        ports: trailer.word(1),
        start: trailer.word(2) as usize,
        cells: trailer.word(3),
        end,
    };
    if !trailer_fits(limits, trailer.word(0), layout) {
        return Err(Refusal::BadTrailer);
    }
    check_sections(limits, words, layout)
}
