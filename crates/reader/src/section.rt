// A section of the words, checked field by field: each check takes the index where a field begins and gives the index after it, or the refusal.
ghost use Rattle.std.specs.Prelude.{◌≡◌, ◌&&◌, ◌+◌, ◌<◌, leb, ltb};
ghost use Rattle.netlist.specs.Reader;
ghost use Rattle.netlist.specs.Reader.{base, many};
ghost use Rattle.reader.specs.Passed.{Passed};

use netlist::Limits;
use netlist::fields::word;
use refusal::Refusal;

// The section ends at index `end`.
#[derive(Clone, Copy)]
pub struct Section<'a> {
    pub limits: Limits,
    pub words: &'a [u32],
    pub end: usize,
}

// Called for each field, so each is put into its caller: as calls they make the check of flip-flops half as long again.
impl Section<'_> {
    // One word, which may have its value if `ok`.
    #[inline(always)]
    pub fn word(&self, at: usize, ok: bool) -> Result<usize, Refusal>
        ensures { Passed (Reader.word base self.now.words.now self.now.end (λ x. ok)) at result }
    {
        if self.end <= at {
            Err(Refusal::WordCount(at))
        } else if ok {
            Ok(at + 1)
        } else {
            Err(Refusal::WordValue(at))
        }
    }

    #[inline(always)]
    pub fn below(&self, at: usize, bound: usize) -> Result<usize, Refusal>
        ensures { Passed (Reader.below base self.now.words.now self.now.end bound) at result }
    {
        self.word(at, (word(self.words, at) as usize) < bound)
    }

    #[inline(always)]
    pub fn within(&self, at: usize, least: u32, most: u32) -> Result<usize, Refusal>
        ensures { Passed (Reader.within base self.now.words.now self.now.end least most) at result }
    {
        let x = word(self.words, at);
        self.word(at, least <= x && x <= most)
    }

    // So many words, each below the bound.
    fn all_below(&self, start: usize, count: usize, bound: usize) -> Result<usize, Refusal>
        ensures { Passed (many count (Reader.below base self.now.words.now self.now.end bound)) start result }
    {
        let mut at = start;
        // Not by `below`: a call for each word makes the whole check a tenth slower.
        for _ in 0..count {
            if self.end <= at {
                return Err(Refusal::WordCount(at));
            }
            if bound <= word(self.words, at) as usize {
                return Err(Refusal::WordValue(at));
            }
            at += 1;
        }
        Ok(at)
    }

    #[inline(always)]
    pub fn wire(&self, at: usize) -> Result<usize, Refusal>
        ensures { Passed (Reader.wire self.now.limits self.now.words.now self.now.end) at result }
    {
        self.below(at, self.limits.wires as usize)
    }

    pub fn wires(&self, at: usize, count: usize) -> Result<usize, Refusal>
        ensures { Passed (many count (Reader.wire self.now.limits self.now.words.now self.now.end)) at result }
    {
        self.all_below(at, count, self.limits.wires as usize)
    }

    #[inline(always)]
    pub fn bit(&self, at: usize) -> Result<usize, Refusal>
        ensures { Passed (Reader.bit self.now.limits self.now.words.now self.now.end) at result }
    {
        self.below(at, 2 + self.limits.wires as usize)
    }

    pub fn bits(&self, at: usize, count: usize) -> Result<usize, Refusal>
        ensures { Passed (many count (Reader.bit self.now.limits self.now.words.now self.now.end)) at result }
    {
        self.all_below(at, count, 2 + self.limits.wires as usize)
    }

    #[inline(always)]
    pub fn control(&self, at: usize) -> Result<usize, Refusal>
        ensures { Passed (Reader.control self.now.limits self.now.words.now self.now.end) at result }
    {
        let at = self.bit(at)?;
        self.below(at, 2)
    }

    #[inline(always)]
    pub fn optional_control(&self, at: usize) -> Result<usize, Refusal>
        ensures { Passed (Reader.optional_control self.now.limits self.now.words.now self.now.end) at result }
    {
        let flag = word(self.words, at);
        let at = self.below(at, 2)?;
        if flag == 0 {
            let at = self.below(at, 1)?;
            return self.below(at, 1);
        }
        self.control(at)
    }

    #[inline(always)]
    pub fn optional_reset(&self, at: usize) -> Result<usize, Refusal>
        ensures { Passed (Reader.optional_reset self.now.limits self.now.words.now self.now.end) at result }
    {
        let flag = word(self.words, at);
        let at = self.below(at, 2)?;
        if flag == 0 {
            let at = self.below(at, 1)?;
            let at = self.below(at, 1)?;
            let at = self.below(at, 1)?;
            return self.below(at, 1);
        }
        let at = self.bit(at)?;
        let at = self.below(at, 2)?;
        let at = self.below(at, 2)?;
        self.below(at, 2)
    }
}
