// The hash by which the cases_* programs compare many words with stored answers.

#![tactic(auto)]

ghost use Rattle.std.specs.Prelude.{◌≡◌, fold};
ghost use Rattle.hashes.specs.Hash.{hash_word};

pub fn hash_word(h: u32, w: u32) -> u32
    ensures { result ≡ hash_word h w }
{
    h.wrapping_mul(31).wrapping_add(w)
}

pub fn hash_words(h: u32, words: &[u32]) -> u32
    ensures { result ≡ fold hash_word h words.now }
{
    words.iter().fold(h, |h, w| hash_word(h, *w))
}

// Each byte is hashed as a word.
pub fn hash_bytes(h: u32, bytes: &[u8]) -> u32
    ensures { result ≡ fold hash_word h bytes.now }
{
    bytes.iter().fold(h, |h, b| hash_word(h, *b as u32))
}
