// Writes the bytes that words become.
ghost use Rattle.std.specs.Prelude.{◌≡◌, ◌+◌, ◌*◌, ◌/◌, ◌≤◌, length, take, set};
ghost use Rattle.words.specs.Words.{whole_words, put_word, put_words};

// Stores a word by its index: of what is written through `as_chunks_mut` the library's contracts tell nothing afterwards.
#[tactic(auto, using(crate::proofs::Laws::put_bytes))]
fn put_word(bytes: &mut [u8], k: usize, word: u32)
    requires { 4 * k + 4 ≤ length bytes.old }
    ensures { bytes.new ≡ put_word k word bytes.old }
{
    bytes[4 * k..4 * k + 4].copy_from_slice(&word.to_le_bytes());
}

// Puts the word k into the bytes; writes nothing where there is no whole word.
#[tactic(auto, using(crate::proofs::Laws::put_one, crate::proofs::Laws::put_past))]
pub fn put_word_at(bytes: &mut [u8], k: usize, word: u32)
    ensures { bytes.new ≡ put_words 0 (set (whole_words bytes.old) k word) bytes.old }
{
    if k < bytes.len() / 4 {
        put_word(bytes, k, word);
    }
}

// Puts the words into the front of the bytes, as many as fit. The bytes after them keep their value.
pub fn put_words(words: &[u32], bytes: &mut [u8])
    ensures { bytes.new ≡ put_words 0 (take (length bytes.old / 4) words.now) bytes.old }
{
    let n = words.len().min(bytes.len() / 4);
    for (k, word) in words[..n].iter().enumerate() {
        put_word(bytes, k, *word);
    }
}
