// Texts that stand in words, one byte in each.
ghost use Rattle.std.specs.Prelude.{◌≡◌, true, length};

// Fills bytes with the words of a text, and says whether each of them was a byte.
pub fn narrow(words: &[u16], bytes: &mut [u8]) -> bool
    requires { length bytes.old ≡ length words.now }
    ensures { result ≡ true → bytes.new ≡ words.now }
{
    for (i, byte) in bytes.iter_mut().enumerate() {
        let Ok(b) = u8::try_from(words[i]) else {
            return false;
        };
        *byte = b;
    }
    true
}

// Fills words with the bytes of a text.
pub fn widen(bytes: &[u8], words: &mut [u16])
    requires { length words.old ≡ length bytes.now }
    ensures { words.new ≡ bytes.now }
{
    for (i, word) in words.iter_mut().enumerate() {
        *word = u16::from(bytes[i]);
    }
}
