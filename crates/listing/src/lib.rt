// A whole model: its first line, then a line for each record.

#![tactic(auto)]

ghost use Rattle.std.specs.Prelude.{◌≡◌, take, [], ◌∷◌, ◌++◌};
ghost use Rattle.text.specs.Text.{Appended};
ghost use Rattle.lines.specs.Ascii.{newline};
ghost use Rattle.lines.specs.Lines.{record_text, counts_text, refused_text};
ghost use Rattle.listing.specs.Listing.{line_text, lines_of};

use lines::records::{Record, put_counts, put_record, put_refused};
use recorder::Tape;
use recorder::records::Records;
use text::{Full, Text};

// The words of a list that are written.
pub fn written(list: &[u32], tape: Tape) -> &[u32]
    ensures { result.now ≡ take tape.used list.now }
{
    &list[..tape.used.min(list.len())]
}

// The counts of signals, expressions and statements, with the line's end.
pub fn put_first_line(text: &mut Text<'_>, signals: u32, exprs: u32, stmts: u32) -> Result<(), Full>
    ensures { Appended text.old (counts_text signals exprs stmts ++ (newline ∷ [])) result text.new }
{
    put_counts(text, signals, exprs, stmts)?;
    text.put_byte(b'\n')
}

// A refusal, with the line's end.
pub fn put_refused_line(text: &mut Text<'_>, number: usize, place: usize) -> Result<(), Full>
    ensures { Appended text.old (refused_text number place ++ (newline ∷ [])) result text.new }
{
    put_refused(text, number, place)?;
    text.put_byte(b'\n')
}

fn put_line<R: Record>(text: &mut Text<'_>, number: u64, fields: &[u32]) -> Result<(), Full>
    ensures { Appended text.old (line_text (record_text R.letter R.names R.rest) number fields.now) result text.new }
{
    put_record::<R>(text, number, fields)?;
    text.put_byte(b'\n')
}

// The lines of a list's records.
pub fn put_list<R: Record>(text: &mut Text<'_>, list: &[u32]) -> Result<(), Full>
    ensures { Appended text.old (lines_of (record_text R.letter R.names R.rest) list.now) result text.new }
{
    for (number, fields) in Records::new(list).enumerate() {
        put_line::<R>(text, number as u64, fields)?;
    }
    // No lines, either, fit past the buffer's end.
    text.put(b"")
}
