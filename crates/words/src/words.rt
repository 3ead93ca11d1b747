// Words of 64 bits in byte slices, little-endian.
ghost use Rattle.std.specs.Prelude.{◌≡◌};
ghost use Rattle.words.specs.Words.{word_at, put, put_all};

// The word of number k, or 0 where the bytes end before its last one.
pub fn word(s: &[u8], k: usize) -> u64
    ensures { result ≡ word_at s.now k }
{
    // So a word costs one test of its number and one load; a cut at the word's place would cost a second test.
    let (words, _) = s.as_chunks::<8>();
    match words.get(k) {
        Some(bytes) => u64::from_le_bytes(*bytes),
        None => 0,
    }
}

// A word at its place. Where the bytes end before its last one nothing is put.
pub fn put_word(out: &mut [u8], k: usize, w: u64)
    ensures { out.new ≡ put out.old k w }
{
    if k < out.len() / 8 {
        let at = 8 * k;
        out[at..at + 8].copy_from_slice(&w.to_le_bytes());
    }
}

// Words one behind the other, from that of number k on: all of them, or none where not all find room.
pub fn put_words(out: &mut [u8], k: usize, words: &[u64])
    ensures { out.new ≡ put_all out.old k words.now }
{
    let places = out.len() / 8;
    if words.len() <= places && k <= places - words.len() {
        for (i, w) in words.iter().enumerate() {
            put_word(out, k + i, *w);
        }
    }
}
