// Text into a lent buffer. What does not fit is cut off at the buffer's end, and the answer says so.

#![tactic(auto)]

ghost use Rattle.std.specs.Prelude.{◌≡◌, ◌-◌, ◌<◌, ◌≤◌, [], ◌∷◌, IsErr, IsOk, is_ok, length, drop, take};
ghost use Rattle.std.specs.Io.KnownBytes.{Appends};
ghost use Rattle.text.specs.Text.{Flushed};
ghost use Rattle.text.specs.Decimal.{decimal};

use std::io::Write;
use std::{fmt, io};

// Not all of a text fitted into the buffer.
#[derive(Clone, Copy, Debug, PartialEq, Eq)]
pub struct Full;

impl fmt::Display for Full {
    fn fmt<W: fmt::Write>(&self, f: &mut fmt::Formatter<W>) -> fmt::Result {
        write!(f, "the buffer is full")
    }
}

// Where text is put and then written, one `?` passes on both errors.
impl From<Full> for io::Error {
    ghost use Rattle.std.specs.IoError.{error_kind};
    ghost use Rattle.std.specs.declared.io.ErrorKind.TheVariants.{WriteZero};

    ghost from_gives = { λ _ error. error_kind error ≡ WriteZero };

    fn from(_full: Full) -> io::Error {
        io::Error::from(io::ErrorKind::WriteZero)
    }
}

// Text at the start of a lent buffer. `used` may be any place: past the buffer's end nothing fits, not even no bytes.
#[derive(Drop)]
pub struct Text<'a> {
    pub out: &'a mut [u8],
    pub used: usize,
}

impl<'a> Text<'a> {
    ghost use Rattle.text.specs.Text.{Appended};

    pub fn new(out: &'a mut [u8]) -> Text<'a>
        ensures same_reference { result.out.ghost_name ≡ out.entry.ghost_name }
        ensures same_bytes { result.out.now ≡ out.old }
        ensures empty { result.used ≡ 0 }
    {
        Text { out, used: 0 }
    }

    // How many bytes more fit.
    pub fn room(&self) -> usize
        ensures { result ≡ length self.now.out.now - self.now.used }
    {
        self.out.len().saturating_sub(self.used)
    }

    pub fn put_byte(&mut self, byte: u8) -> Result<(), Full>
        ensures { Appended self.old (byte ∷ []) result self.new }
    {
        if self.used < self.out.len() {
            self.out[self.used] = byte;
            self.used += 1;
            Ok(())
        } else {
            Err(Full)
        }
    }

    pub fn put(&mut self, bytes: &[u8]) -> Result<(), Full>
        ensures { Appended self.old bytes.now result self.new }
    {
        if self.out.len() < self.used {
            return Err(Full);
        }
        let fits = bytes.len().min(self.room());
        self.out[self.used..self.used + fits].copy_from_slice(&bytes[..fits]);
        self.used += fits;
        if fits == bytes.len() {
            Ok(())
        } else {
            Err(Full)
        }
    }

    // A number's decimal digits.
    pub fn put_decimal(&mut self, n: u64) -> Result<(), Full>
        ensures { Appended self.old (decimal n) result self.new }
    {
        let mut figures = [0u8; 20];
        let k = decimal(n, &mut figures);
        self.put(&figures[k..])
    }

    pub fn bytes(&self) -> &[u8]
        ensures { result.now ≡ take self.now.used self.now.out.now }
    {
        &self.out[..self.used.min(self.out.len())]
    }

    fn buffer(&self) -> &[u8]
        ensures { result.now ≡ self.now.out.now }
    {
        self.out
    }

    pub fn clear(&mut self)
        ensures same_reference { self.new.out.ghost_name ≡ self.old.out.ghost_name }
        ensures same_bytes { self.new.out.now ≡ self.old.out.now }
        ensures empty { self.new.used ≡ 0 }
    {
        self.used = 0;
    }

    // Writes the text to a writer, as the standard output, and begins anew. A text that is not written stays, and of one that
    // stands past its buffer's end nothing is.
    pub fn flush<W: Write>(&mut self, to: &mut W) -> io::Result<()>
        ensures same_reference { self.new.out.ghost_name ≡ self.old.out.ghost_name }
        ensures same_bytes { self.new.out.now ≡ self.old.out.now }
        ensures empty { IsOk result → self.new.used ≡ 0 }
        ensures kept { IsErr result → self.new.used ≡ self.old.used }
        ensures written { IsOk result → Appends (W.contents to.old) (W.contents to.new) (take self.old.used self.old.out.now) }
        ensures refused { length self.old.out.now < self.old.used → IsErr result }
        ensures unwritten { length self.old.out.now < self.old.used → W.contents to.new ≡ W.contents to.old }
    {
        let used = self.used;
        flush(to, self.buffer(), used)?;
        self.clear();
        Ok(())
    }
}

// Writes the bytes before a place to a writer, as the standard output. Of a place past the end none are, and that is refused.
pub fn flush<W: Write>(to: &mut W, out: &[u8], at: usize) -> io::Result<()>
    ensures said { Flushed out.now at (is_ok result) }
    ensures written { IsOk result → Appends (W.contents to.old) (W.contents to.new) (take at out.now) }
    ensures kept { length out.now < at → W.contents to.new ≡ W.contents to.old }
{
    if out.len() < at {
        return Err(io::Error::from(Full));
    }
    to.write_all(&out[..at])
}

// Puts a number's decimal digits at the end of figures, and answers where they begin.
pub fn decimal(n: u64, figures: &mut [u8; 20]) -> usize
    ensures within { result ≤ 20 }
    ensures digits { drop result figures.new ≡ decimal n }
{
    // From the last digit, since their number is not known before: no `for` is plainer.
    let mut i = 20;
    let mut rest = n;
    while 10 <= rest {
        i -= 1;
        figures[i] = b'0' + (rest % 10) as u8;
        rest /= 10;
    }
    i -= 1;
    figures[i] = b'0' + rest as u8;
    i
}
