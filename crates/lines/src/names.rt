// The names of labels and kinds, each behind a space.
ghost use Rattle.std.specs.Prelude.{◌∷◌, map};
ghost use Rattle.text.specs.Text.{Appended};
ghost use Rattle.lines.specs.Ascii.{space};
ghost use Rattle.lines.specs.Names.{labels, kinds, statements, named};

use crate::fields::put_number;
use text::{Full, Text};

const LABELS: [&[u8]; 16] = [
    b"input", b"output", b"lut", b"pfumx", b"l6mux", b"ccu", b"mul", b"ff", b"ram", b"dram", b"io",
    b"jtagg", b"pll", b"word", b"zero", b"one",
];

const KINDS: [&[u8]; 10] = [
    b"const", b"read", b"concat", b"not", b"and", b"or", b"xor", b"mux", b"eq", b"mul",
];

const STATEMENTS: [&[u8]; 2] = [b"assign", b"reg"];

// A number without a name stands for itself: any number may stand in a list of words.
fn put_name(text: &mut Text<'_>, names: &[&[u8]], k: u32) -> Result<(), Full>
    ensures { Appended text.old (space ∷ named (map (λ name. name.now) names.now) k) result text.new }
{
    match names.get(k as usize) {
        Some(name) => {
            text.put_byte(b' ')?;
            text.put(name)
        }
        None => put_number(text, b" ", k as u64),
    }
}

pub fn put_label(text: &mut Text<'_>, label: u32) -> Result<(), Full>
    ensures { Appended text.old (space ∷ named labels label) result text.new }
{
    put_name(text, &LABELS, label)
}

pub fn put_kind(text: &mut Text<'_>, kind: u32) -> Result<(), Full>
    ensures { Appended text.old (space ∷ named kinds kind) result text.new }
{
    put_name(text, &KINDS, kind)
}

// A statement's kind.
pub fn put_verb(text: &mut Text<'_>, kind: u32) -> Result<(), Full>
    ensures { Appended text.old (space ∷ named statements kind) result text.new }
{
    put_name(text, &STATEMENTS, kind)
}
