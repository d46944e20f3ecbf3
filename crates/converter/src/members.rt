// The banks of flip-flops, and the members of each, in cell order.
ghost use Rattle.std.specs.Prelude.{◌≡◌, ◌≤◌, length};

use netlist::fields::{Fields, word};

// The banks of n cells, numbered from 1: a word for each cell has its bank's number, or 0.
#[derive(Clone, Copy)]
pub struct Banks<'a> {
    pub cells: Fields<'a>,
    pub n: u32,
    pub numbers: &'a [u32],
    pub count: u32,
}

// A cell of the netlist: its number and its fields.
#[derive(Clone, Copy)]
pub struct Cell<'a> {
    pub number: u32,
    pub fields: Fields<'a>,
}

// What is left of a bank: those cells that have its number, from a cell on.
#[derive(Clone, Copy)]
pub struct Members<'a> {
    pub cell: Cell<'a>,
    pub end: u32,
    pub numbers: &'a [u32],
    pub bank: u32,
}

impl<'a> Banks<'a> {
    // The members of the bank of a number.
    pub fn members(self, bank: u32) -> Members<'a>
        ensures { result ≡ record { cell = record { number = 0; fields = self.entry.cells }; end = self.entry.n; numbers = self.entry.numbers; bank = bank } }
    {
        Members {
            cell: Cell {
                number: 0,
                fields: self.cells,
            },
            end: self.n,
            numbers: self.numbers,
            bank,
        }
    }
}

impl<'a> Iterator for Members<'a> {
    ghost use Rattle.std.specs.Iterator.{YieldsFirstBy, item_count};
    ghost use Rattle.converter.specs.Members.{member_of, members_left};

    type Item = Cell<'a>;

    ghost next_gives = { YieldsFirstBy member_of members_left };

    ghost remaining = { item_count members_left };

    // (The step of an iterator: a `for` would have to move `self` as well.)
    fn next(&mut self) -> Option<Cell<'a>> {
        while self.cell.number < self.end {
            let cell = self.cell;
            let numbers = self.numbers;
            self.cell = Cell {
                number: cell.number + 1,
                fields: cell.fields.from(cell.fields.cell_size()),
            };
            if word(numbers, cell.number as usize) == self.bank {
                return Some(cell);
            }
        }
        None
    }
}

impl Members<'_> {
    ghost use Rattle.converter.specs.Members.{members_left};

    // How many are left.
    pub fn width(self) -> u32
        ensures { result ≡ length (members_left self.entry) }
    {
        self.count() as u32
    }
}
