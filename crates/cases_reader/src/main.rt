// Replays a stored test set against the check of netlist words: number of cases; per case the number and place of the refusal
// (0 and 0 where the words are read), a count of words, and the words. Little-endian 32-bit words on standard input.

#![tactic(auto)]

use netlist::Limits;
use std::io::Read;
use words::read_words;

// Number and place of the check's refusal.
fn checked(words: &[u32]) -> (usize, usize) {
    match reader::check(Limits::base(), words) {
        Ok(_) => (0, 0),
        Err(x) => (x.number(), x.place()),
    }
}

// A reader of words, and buffers for them.
#[derive(Drop)]
struct Cases<'a, R> {
    from: R,
    bytes: &'a mut [u8],
    words: &'a mut [u32],
}

impl<R: Read> Cases<'_, R> {
    // As many words as asked, if they are there.
    fn read<const N: usize>(&mut self) -> Option<[u32; N]> {
        let mut words = [0u32; N];
        let n = read_words(&mut self.from, self.bytes, &mut words, N);
        (n == N).then_some(words)
    }

    // One case; none where the input ends within it.
    fn replay<P: Print>(&mut self, to: &P, case: usize) -> Option<()> {
        let [number, place, n] = self.read::<3>()?;
        let n = n as usize;
        if read_words(&mut self.from, self.bytes, self.words, n) != n {
            return None;
        }
        let expected = (number as usize, place as usize);
        let got = checked(self.words.get(..n)?);
        if got != expected {
            let _ = println!(to;
                "case {case} expected {} {} got {} {}",
                expected.0, expected.1, got.0, got.1
            );
        }
        Some(())
    }

    // The cases, as many as are whole.
    fn replay_all<P: Print>(&mut self, to: &P) -> Option<usize> {
        let [count] = self.read::<1>()?;
        for case in 0..count as usize {
            if self.replay(to, case).is_none() {
                return Some(case);
            }
        }
        Some(count as usize)
    }
}

fn main(rt: HostRuntime) {
    let mut bytes = [0u8; 65536];
    let mut words = [0u32; 16384];
    let mut cases = Cases {
        from: rt.stdin(),
        bytes: &mut bytes,
        words: &mut words,
    };
    let n = cases.replay_all(&rt).unwrap_or(0);
    let _ = println!(rt; "{n} cases");
}
