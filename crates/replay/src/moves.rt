// Moves words from the input and to the output, by way of bytes.
ghost use Rattle.replay.specs.Words.{Short, Roomy};

use crate::words::{WORD_BYTES, fill_bytes, fill_words};
use std::io;
use std::io::{ErrorKind, Read, Write};

// Fills bytes from the input, and says whether there were enough of them.
fn read_bytes<R: Read>(input: &mut R, bytes: &mut [u8]) -> io::Result<bool> {
    match input.read_exact(bytes) {
        Ok(()) => Ok(true),
        Err(e) => {
            if e.kind() == ErrorKind::UnexpectedEof {
                return Ok(false);
            }
            Err(e)
        }
    }
}

// Fills words from the input, and says whether there were enough of them.
pub fn read_words<R: Read>(input: &mut R, words: &mut [u16], bytes: &mut [u8]) -> io::Result<bool>
    requires { Short words.old × Roomy bytes.old }
{
    let n = WORD_BYTES * words.len();
    if !read_bytes(input, &mut bytes[..n])? {
        return Ok(false);
    }
    fill_words(&bytes[..n], words);
    Ok(true)
}

// Writes words to the output.
pub fn write_words<W: Write>(output: &mut W, words: &[u16], bytes: &mut [u8]) -> io::Result<()>
    requires { Short words.now × Roomy bytes.old }
{
    let n = WORD_BYTES * words.len();
    fill_bytes(words, &mut bytes[..n]);
    output.write_all(&bytes[..n])
}
