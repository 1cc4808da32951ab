// The header of a study (RULES 6.1, 6.2): its eight words by value, its limits, the width of a slot, and the capacity.
ghost use Rattle.std.specs.Prelude.{◌≡◌, [], ◌≤◌, length};
ghost use Rattle.trees.specs.Checks.{most_samples};
ghost use Rattle.runs.specs.Words.{header, samples, in_force, header_words, slot_words, encode, capacity};
ghost use Rattle.runs.specs.Formed.{Formed};
ghost use Rattle.runs.specs.Words.{full};

// Where the row stands in its slot, after the identifier (RULES 6.3).
pub const ROW_OFFSET: usize = 1;

// The width of a slot (RULES 6.3).
pub fn slot_words(n: usize) -> usize
    requires { n ≤ most_samples }
    ensures { result ≡ slot_words n }
{
    2 * n + ROW_OFFSET
}

// What a header says: n and k (RULES 6.2).
#[derive(Clone, Copy, Debug, PartialEq, Eq)]
pub struct Header {
    pub samples: u16,
    pub in_force: u16,
}

impl Header {
    pub const WORDS: usize = 8;

    pub const MARK_A: u16 = 65;

    pub const MARK_R: u16 = 82;

    pub const MARK_B: u16 = 66;

    pub const VERSION: u16 = 1;

    pub const SAMPLES_AT: usize = 4;

    pub const IN_FORCE_AT: usize = 5;

    pub const MOST_RUNS: usize = 1024;

    // How many runs a study of `len` words over n samples has room for (RULES 6.6).
    pub fn capacity(len: usize, n: usize) -> usize
        requires { n ≤ most_samples }
        ensures { result ≡ capacity len n }
    {
        let room = len.saturating_sub(Header::WORDS) / slot_words(n);
        room.min(Header::MOST_RUNS)
    }

    // The header that words begin with, whatever their mark.
    pub fn read(words: &[u16]) -> Header
        requires { header_words ≤ length words.now }
        ensures { (result.samples ≡ samples words.now) × (result.in_force ≡ in_force words.now) }
    {
        Header {
            samples: words[Header::SAMPLES_AT],
            in_force: words[Header::IN_FORCE_AT],
        }
    }

    // The eight words of the header (RULES 6.1, 6.2).
    pub fn words(self) -> [u16; Header::WORDS]
        ensures { result ≡ header self.samples self.in_force }
    {
        [
            Header::MARK_A,
            Header::MARK_R,
            Header::MARK_B,
            Header::VERSION,
            self.samples,
            self.in_force,
            0,
            0,
        ]
    }
}

// The number of samples of a study. One function for this word and the next would take the word's place, and its name would say less.
pub fn samples(words: &[u16]) -> usize
    requires { header_words ≤ length words.now }
    ensures { result ≡ samples words.now }
{
    usize::from(words[Header::SAMPLES_AT])
}

// The number of runs in force.
pub fn in_force(words: &[u16]) -> usize
    requires { header_words ≤ length words.now }
    ensures { result ≡ in_force words.now }
{
    usize::from(words[Header::IN_FORCE_AT])
}

// Whether as many runs are in force as the study has room for.
#[tactic(auto, using(runs::proofs::SlotLaws::formed_long))]
pub fn is_full(words: &[u16]) -> bool
    requires { Formed words.now }
    ensures { result ≡ full words.now }
{
    in_force(words) == Header::capacity(words.len(), samples(words))
}

// The words become those of a study with no run in force.
pub fn start(words: &mut [u16], n: u16)
    requires { header_words ≤ length words.old }
    ensures { words.new ≡ encode (length words.old) n [] }
{
    let head = Header {
        samples: n,
        in_force: 0,
    };
    words[..Header::WORDS].copy_from_slice(&head.words());
    words[Header::WORDS..].fill(0);
}
