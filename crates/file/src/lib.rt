// The file that the listing program reads (RULES 9.1): whether it is bad (RULES 9.3), its n and k, and its slots.
#![tactic(auto)]

ghost use Rattle.std.specs.Prelude.{◌≡◌, ◌+◌, ◌*◌, ◌^◌, ◌<◌, ◌≤◌, eqb, length};
ghost use Rattle.trees.specs.Checks.{row_words};
ghost use Rattle.file.specs.Files.{word_at, file_samples, file_runs, head_bytes, file_bytes, bad_file, file_of, slot_identifier, slot_row};

// The version that is taken, where version, n and k stand after the mark, and where they end (RULES 9.1).
pub const VERSION: u16 = 1;

const VERSION_AT: usize = 3;

const SAMPLES_AT: usize = 5;

const RUNS_AT: usize = 7;

const HEAD_BYTES: usize = 9;

// The bytes of a number of 16 bits.
const WORD_BYTES: usize = 2;

// The bytes that a file has at most (RULES 1.5).
pub const MOST_BYTES: usize = 65529;

// The n and the k of a file.
#[derive(Clone, Copy, Debug, PartialEq, Eq)]
pub struct Sizes {
    pub samples: usize,
    pub runs: usize,
}

// The number of 16 bits at a place, the low byte in front (RULES 9.1).
fn word_at(bytes: &[u8], i: usize) -> u16
    requires { i + 1 < length bytes.now }
    ensures { result ≡ word_at bytes.now i }
{
    u16::from_le_bytes([bytes[i], bytes[i + 1]])
}

// The bytes of a file with k slots (RULES 9.3), and the place of slot k in one with more.
fn file_bytes(n: usize, k: usize) -> usize
    requires { (n < 2 ^ 62) × (file_bytes n k < 2 ^ 63) }
    ensures { result ≡ file_bytes n k }
{
    HEAD_BYTES + WORD_BYTES * k * (2 * n + 1)
}

// Whether the length is that of a file with the n and k that stand in it.
fn fitting(bytes: &[u8]) -> bool
    requires { head_bytes ≤ length bytes.now }
    ensures { result ≡ eqb (length bytes.now) (file_bytes (file_samples bytes.now) (file_runs bytes.now)) }
{
    let n = usize::from(word_at(bytes, SAMPLES_AT));
    let k = usize::from(word_at(bytes, RUNS_AT));
    bytes.len() == file_bytes(n, k)
}

// Whether the file is refused with 15 (RULES 9.3).
fn is_bad(bytes: &[u8]) -> bool
    ensures { result ≡ bad_file bytes.now }
{
    let len = bytes.len();
    if (len < HEAD_BYTES) | (MOST_BYTES < len) {
        return true;
    }
    !bytes.starts_with(b"ARB") | (word_at(bytes, VERSION_AT) != VERSION) | !fitting(bytes)
}

// The n and k of a file, or none if it is refused with 15.
pub fn file_of(bytes: &[u8]) -> Option<Sizes>
    ensures { result ≡ file_of bytes.now }
{
    if is_bad(bytes) {
        return None;
    }
    Some(Sizes {
        samples: usize::from(word_at(bytes, SAMPLES_AT)),
        runs: usize::from(word_at(bytes, RUNS_AT)),
    })
}

// The identifier of slot j (RULES 9.1).
pub fn identifier_of(bytes: &[u8], n: usize, j: usize) -> u16
    requires { file_bytes n (j + 1) ≤ length bytes.now }
    ensures { result ≡ slot_identifier bytes.now n j }
{
    word_at(bytes, file_bytes(n, j))
}

// The row of slot j (RULES 9.1).
pub fn row_into(bytes: &[u8], n: usize, j: usize, row: &mut [u16])
    requires j_in_bounds { file_bytes n (j + 1) ≤ length bytes.now }
    requires row_len { length row.old ≡ row_words n }
    ensures { row.new ≡ slot_row bytes.now n j }
{
    let at = file_bytes(n, j) + WORD_BYTES;
    for (i, word) in row.iter_mut().enumerate() {
        *word = word_at(bytes, at + WORD_BYTES * i);
    }
}
