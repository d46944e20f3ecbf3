// Numbers, each behind a space and its mark.
ghost use Rattle.std.specs.Prelude.{◌∷◌, ◌++◌};
ghost use Rattle.text.specs.Text.{Appended};
ghost use Rattle.text.specs.Decimal.{decimal};
ghost use Rattle.lines.specs.Lines.{field, fields_text};

use text::{Full, Text};

// A number behind a few bytes.
pub fn put_number(text: &mut Text<'_>, lead: &[u8], n: u64) -> Result<(), Full>
    ensures { Appended text.old (lead.now ++ decimal n) result text.new }
{
    text.put(lead)?;
    text.put_decimal(n)
}

// A number behind one byte: most are, and a byte is put faster than a text of one.
pub fn put_marked(text: &mut Text<'_>, mark: u8, n: u64) -> Result<(), Full>
    ensures { Appended text.old (mark ∷ decimal n) result text.new }
{
    text.put_byte(mark)?;
    text.put_decimal(n)
}

fn put_field(text: &mut Text<'_>, mark: u8, n: u32) -> Result<(), Full>
    ensures { Appended text.old (field mark n) result text.new }
{
    if mark == b'-' {
        put_marked(text, b' ', n as u64)
    } else {
        text.put_byte(b' ')?;
        put_marked(text, mark, n as u64)
    }
}

// Fields with their marks; those past the marks have the last.
pub fn put_fields(text: &mut Text<'_>, marks: &[u8], last: u8, fields: &[u32]) -> Result<(), Full>
    ensures { Appended text.old (fields_text marks.now last fields.now) result text.new }
{
    for (i, n) in fields.iter().enumerate() {
        let mark = marks.get(i).copied().unwrap_or(last);
        put_field(text, mark, *n)?;
    }
    // No fields, either, fit past the buffer's end.
    text.put(b"")
}
