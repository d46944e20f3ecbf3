// The two sections, record by record, and 6.
ghost use Rattle.std.specs.Prelude.{◌≡◌, ◌+◌, ◌≤◌, ◌<◌};
ghost use Rattle.netlist.specs.Reader;
ghost use Rattle.netlist.specs.Reader.{one_clock};
ghost use Rattle.netlist.specs.Fields.{cell_at};
ghost use Rattle.reader.specs.Passed.{Passed, ends_at};
ghost use Rattle.reader.specs.Checks.{CellsChecked, SectionsChecked};

use super::section::Section;
use netlist::fields::Fields;
use netlist::{Kind, Layout, Limits};
use refusal::Refusal;

// Whether all ports of a cell share one clock and edge. Equal words are equal bits.
fn one_clock(cell: Fields<'_>) -> bool
    ensures { result ≡ one_clock (cell_at cell.entry.words.now cell.entry.at) }
{
    let Kind::BlockRam = cell.kind() else {
        return true;
    };
    if cell.word(42) == 0 {
        return true;
    }
    let second = cell.second_port();
    cell.word(40) == second.word(22) && cell.word(41) == second.word(23)
}

impl Section<'_> {
    // The section ends here, or words are left over.
    fn ends(&self, at: usize) -> Result<usize, Refusal>
        ensures { Passed (ends_at self.now.end) at result }
    {
        if at == self.end {
            Ok(at)
        } else {
            Err(Refusal::WordCount(at))
        }
    }

    fn ports(&self, count: usize) -> Result<usize, Refusal>
        ensures { Passed (Reader.read_ports self.now.limits self.now.words.now self.now.end count) 0 result }
    {
        let mut at = 0;
        for _ in 0..count {
            at = self.port(at)?;
        }
        self.ends(at)
    }

    // The first cell whose second port has another clock or edge, if all cells are well formed.
    fn cells(&self, start: usize, count: usize) -> Result<Option<usize>, Refusal>
        ensures { CellsChecked self.now.limits self.now.words.now self.now.end start count result }
    {
        let mut at = start;
        let mut six = None;
        for k in 0..count {
            let cell = Fields {
                words: self.words,
                at,
            };
            at = self.cell(at)?;
            six = six.or((!one_clock(cell)).then_some(k));
        }
        self.ends(at)?;
        Ok(six)
    }
}

pub fn check_sections(limits: Limits, words: &[u32], layout: Layout) -> Result<Layout, Refusal>
    requires { layout.start ≤ layout.end }
    ensures { SectionsChecked limits words.now layout result }
{
    let ports = Section {
        limits,
        words,
        end: layout.start,
    };
    ports.ports(layout.ports as usize)?;
    let cells = Section {
        limits,
        words,
        end: layout.end,
    };
    if let Some(cell) = cells.cells(layout.start, layout.cells as usize)? {
        return Err(Refusal::UnsupportedTrueDualPortMemoryClocking(cell));
    }
    Ok(layout)
}
