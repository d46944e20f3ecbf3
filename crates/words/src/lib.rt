// Little-endian 32-bit words.

#![tactic(auto)]

ghost use Rattle.std.specs.Prelude.{◌≡◌, take};
ghost use Rattle.std.specs.Io.KnownBytes.{Consumes};
ghost use Rattle.std.specs.Counts.{IsPrefixLen};
ghost use Rattle.words.specs.Words.{Laid, ReadWords};

use std::io::Read;

// The words of the bytes, laid at the start of out, and how many there are.
pub fn words_of(bytes: &[u8], out: &mut [u32]) -> usize
    ensures prefix_len { IsPrefixLen result out.new }
    ensures laid { Laid bytes.now out.old result out.new }
{
    for (k, four) in bytes.chunks_exact(4).take(out.len()).enumerate() {
        out[k] = u32::from_le_bytes([four[0], four[1], four[2], four[3]]);
    }
    out.len().min(bytes.len() / 4)
}

// Reads until bytes are full, the input ends or a read fails, and answers how many bytes came to their start.
pub fn read_full<R: Read>(from: &mut R, bytes: &mut [u8]) -> usize
    ensures prefix_len { IsPrefixLen result bytes.new }
    ensures consumed { Consumes (R.remaining from.old) (R.remaining from.new) (take result bytes.new) }
{
    // `read_exact` does not say how much came before the input ended.
    let mut done = 0;
    while done < bytes.len() {
        let Ok(n) = from.read(&mut bytes[done..]) else {
            return done;
        };
        if n == 0 {
            return done;
        }
        done += n;
    }
    done
}

// The next n words of a reader, as the standard input, laid at the start of out, and how many there were.
pub fn read_words<R: Read>(from: &mut R, bytes: &mut [u8], out: &mut [u32], n: usize) -> usize
    ensures prefix_len { IsPrefixLen result out.new }
    ensures read_words { ReadWords bytes.old out.old n result bytes.new out.new (R.remaining from.old) (R.remaining from.new) }
{
    if bytes.len() / 4 < n {
        return 0;
    }
    let got = read_full(from, &mut bytes[..4 * n]);
    words_of(&bytes[..got], out)
}
