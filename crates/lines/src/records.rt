// One line each, without its end: a record by its number and its fields, the first line of a model, a refusal.
ghost use Rattle.std.specs.Prelude.{◌≡◌, ℕ, List, ◌∷◌};
ghost use Rattle.text.specs.Decimal.{decimal};
ghost use Rattle.text.specs.Text.{Appended};
ghost use Rattle.lines.specs.Ascii.{space, s, e, t};
ghost use Rattle.lines.specs.Names.{labels, kinds, statements, named};
ghost use Rattle.lines.specs.Lines.{owner_mark, owned, signal_fields, expr_fields, reg_marks, stmt_fields, record_text, counts_text, refused_text};

use crate::fields::{put_fields, put_marked, put_number};
use crate::names::{put_kind, put_label, put_verb};
use recorder::read::word;
use text::{Full, Text};

// A kind of record: how its line reads.
pub trait Record {
    ghost letter: { ℕ };

    ghost names: { List (List ℕ) };

    ghost rest: { ℕ → List ℕ → List ℕ };

    fn put_head(text: &mut Text<'_>, number: u64) -> Result<(), Full>
        ensures { Appended text.old (letter ∷ decimal number) result text.new };

    // The first field by its name.
    fn put_name(text: &mut Text<'_>, k: u32) -> Result<(), Full>
        ensures { Appended text.old (space ∷ named names k) result text.new };

    // The other fields.
    fn put_rest(text: &mut Text<'_>, k: u32, f: &[u32]) -> Result<(), Full>
        ensures { Appended text.old (rest k f.now) result text.new };
}

// A record's line, from its number and its fields.
pub fn put_record<R: Record>(text: &mut Text<'_>, number: u64, fields: &[u32]) -> Result<(), Full>
    ensures { Appended text.old (record_text R.letter R.names R.rest number fields.now) result text.new }
{
    R::put_head(text, number)?;
    let Some((k, rest)) = fields.split_first() else {
        return Ok(());
    };
    R::put_name(text, *k)?;
    R::put_rest(text, *k, rest)
}

// SIGNALS

fn owner_mark(label: u32) -> u8
    ensures { result ≡ owner_mark label }
{
    if label < 2 {
        b'p'
    } else if label == 7 {
        b'b'
    } else {
        b'c'
    }
}

// Zero and one belong to nothing.
fn owned(label: u32, f: &[u32]) -> &[u32]
    ensures { result.now ≡ owned label f.now }
{
    match label {
        14 | 15 => &f[..f.len().min(1)],
        _ => f,
    }
}

pub struct Signal;

impl Record for Signal {
    ghost letter = { s };

    ghost names = { labels };

    ghost rest = { signal_fields };

    fn put_head(text: &mut Text<'_>, number: u64) -> Result<(), Full> {
        put_marked(text, b's', number)
    }

    fn put_name(text: &mut Text<'_>, label: u32) -> Result<(), Full> {
        put_label(text, label)
    }

    // The width, and the owner of what has one.
    fn put_rest(text: &mut Text<'_>, label: u32, f: &[u32]) -> Result<(), Full> {
        put_fields(text, &[b'-', owner_mark(label)], b'-', owned(label, f))
    }
}

// EXPRESSIONS

pub struct Expression;

impl Record for Expression {
    ghost letter = { e };

    ghost names = { kinds };

    ghost rest = { expr_fields };

    fn put_head(text: &mut Text<'_>, number: u64) -> Result<(), Full> {
        put_marked(text, b'e', number)
    }

    fn put_name(text: &mut Text<'_>, kind: u32) -> Result<(), Full> {
        put_kind(text, kind)
    }

    // The width, and the operands of a kind.
    fn put_rest(text: &mut Text<'_>, kind: u32, f: &[u32]) -> Result<(), Full> {
        match kind {
            0 => put_fields(text, b"", b'-', f),
            1 => put_fields(text, b"-s", b'-', f),
            _ => put_fields(text, b"-", b'e', f),
        }
    }
}

// STATEMENTS

fn reg_marks(f: &[u32]) -> &'static [u8]
    ensures { result.now ≡ reg_marks f.now }
{
    if word(f, 4) == 1 {
        if word(f, 8) == 1 {
            b"ses--s-e-s-"
        } else {
            b"ses--s-e-"
        }
    } else if word(f, 5) == 1 {
        b"ses---s-"
    } else {
        b"ses---"
    }
}

pub struct Statement;

impl Record for Statement {
    ghost letter = { t };

    ghost names = { statements };

    ghost rest = { stmt_fields };

    fn put_head(text: &mut Text<'_>, number: u64) -> Result<(), Full> {
        put_marked(text, b't', number)
    }

    fn put_name(text: &mut Text<'_>, kind: u32) -> Result<(), Full> {
        put_verb(text, kind)
    }

    // What it sets, and by what.
    fn put_rest(text: &mut Text<'_>, kind: u32, f: &[u32]) -> Result<(), Full> {
        match kind {
            0 => put_fields(text, b"se", b'-', f),
            _ => put_fields(text, reg_marks(f), b'-', f),
        }
    }
}

// OTHER LINES

// The counts of signals, expressions and statements.
pub fn put_counts(text: &mut Text<'_>, signals: u32, exprs: u32, stmts: u32) -> Result<(), Full>
    ensures { Appended text.old (counts_text signals exprs stmts) result text.new }
{
    text.put(b"model")?;
    put_fields(text, b"", b'-', &[signals, exprs, stmts])
}

pub fn put_refused(text: &mut Text<'_>, number: usize, place: usize) -> Result<(), Full>
    ensures { Appended text.old (refused_text number place) result text.new }
{
    text.put(b"refused")?;
    put_number(text, b" ", number as u64)?;
    put_number(text, b" ", place as u64)
}
