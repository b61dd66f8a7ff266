// Reads the words that bytes hold.
ghost use Rattle.std.specs.Prelude.{◌≡◌, ◌++◌, ◌/◌, min, length, get_or, take, drop};
ghost use Rattle.words.specs.Words.{word_of, whole_words};

// Makes a word of four bytes, the lowest first.
pub fn from_le_bytes(a: u8, b: u8, c: u8, d: u8) -> u32
    ensures { result ≡ word_of a b c d }
{
    u32::from_le_bytes([a, b, c, d])
}

// Answers the word k of the bytes, 0 where there is no whole word.
#[tactic(auto, using(crate::proofs::Laws::chunk_word, crate::proofs::Laws::whole_past))]
pub fn word_at(bytes: &[u8], k: usize) -> u32
    ensures { result ≡ get_or (whole_words bytes.now) k 0 }
{
    let (chunks, _) = bytes.as_chunks::<4>();
    match chunks.get(k) {
        Some([a, b, c, d]) => from_le_bytes(*a, *b, *c, *d),
        None => 0,
    }
}

// Reads the whole words of the bytes into the front of `words`, as many as fit, and answers how many. The words after them keep their value.
pub fn words_of(bytes: &[u8], words: &mut [u32]) -> usize
    ensures { (result ≡ min (length bytes.now / 4) (length words.old)) × (words.new ≡ take result (whole_words bytes.now) ++ drop result words.old) }
{
    let (chunks, _) = bytes.as_chunks::<4>();
    let n = chunks.len().min(words.len());
    // A word is stored by its index: of what is written through a zipped `iter_mut` the library's contracts tell nothing afterwards.
    for (k, [a, b, c, d]) in chunks[..n].iter().enumerate() {
        words[k] = from_le_bytes(*a, *b, *c, *d);
    }
    n
}
