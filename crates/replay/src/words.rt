// Words of 16 bits and their bytes, low byte first.
ghost use Rattle.std.specs.Prelude.{◌+◌, ◌*◌, ◌<◌, ◌≡◌, length};
ghost use Rattle.replay.specs.Words.{bytes_of, words_of, word_at};

// Words that a buffer has at most.
pub const MOST_WORDS: usize = 32768;

// The bytes of a word.
pub const WORD_BYTES: usize = 2;

// Bytes that a whole buffer's words take.
pub const MOST_BYTES: usize = WORD_BYTES * MOST_WORDS;

// Fills words with the words that the bytes are.
pub fn fill_words(bytes: &[u8], words: &mut [u16])
    requires { length bytes.now ≡ 2 * length words.old }
    ensures { words.new ≡ words_of bytes.now }
{
    for (i, word) in words.iter_mut().enumerate() {
        *word = word_at(bytes, i);
    }
}

// Fills bytes with the bytes of the words.
pub fn fill_bytes(words: &[u16], bytes: &mut [u8])
    requires { length bytes.old ≡ 2 * length words.now }
    ensures { bytes.new ≡ bytes_of words.now }
{
    for (i, word) in words.iter().enumerate() {
        let at = WORD_BYTES * i;
        bytes[at..at + WORD_BYTES].copy_from_slice(&word.to_le_bytes());
    }
}

// The word that stands i words from the start of the bytes.
fn word_at(bytes: &[u8], i: usize) -> u16
    requires { 2 * i + 1 < length bytes.now }
    ensures { result ≡ word_at bytes.now i }
{
    u16::from_le_bytes([bytes[WORD_BYTES * i], bytes[WORD_BYTES * i + 1]])
}
