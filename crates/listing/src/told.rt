// What a file comes to: its slots added to a study as they stand, and the report (RULES 9.2).
ghost use Rattle.std.specs.Prelude.{◌≡◌, ◌+◌, ◌≤◌, length};
ghost use Rattle.trees.specs.Lists.{tabulate};
ghost use Rattle.trees.specs.Checks.{row_words};
ghost use Rattle.runs.specs.Formed.{Kept};
ghost use Rattle.runs.specs.Histories.{called};
ghost use Rattle.judge.specs.Verdicts.{verdict};
ghost use Rattle.file.specs.Files.{file_bytes};
ghost use Rattle.listing.specs.Listing.{study_words, slot_call, reports, adds_and_reports, listed};
ghost use Rattle.listing.specs.Told.{told_of, goes_on, Loaded, shows, row_room, Printable};

use file::{Sizes, file_of, identifier_of, row_into};
use judge::{Reason, Refusal};
use report::report_formed;
use study::{add_formed, open};

// The p of its report: no threshold is named (RULES 9.2).
const NO_THRESHOLD: usize = 0;

// The words of the study (RULES 9.2) and of the longest row; neither has more than 64 KiB (RULES 1.6).
pub const STUDY_WORDS: usize = 32768;

pub const ROW_ROOM: usize = 1024;

// The refusal of a call for a slot, and which slot that was; 0 for the calls before and after (RULES 9.7).
#[derive(Clone, Copy, Debug, PartialEq, Eq)]
pub struct Refused {
    pub why: Refusal,
    pub slot: usize,
}

// What an answer to a call for a slot comes to: the sizes of the study, when nothing was refused.
fn told_of(answer: Result<(), Refusal>, slot: usize, sizes: Sizes) -> Result<Sizes, Refused>
    ensures { result ≡ told_of answer slot sizes }
{
    match answer {
        Ok(()) => Ok(sizes),
        Err(why) => Err(Refused { why, slot }),
    }
}

// Adds slot j, whose row passes through `row`.
fn add_row(
    bytes: &[u8],
    n: usize,
    j: usize,
    words: &mut [u16],
    row: &mut [u16],
) -> Result<(), Refusal>
    requires { Kept study_words n words.old × (file_bytes n (j + 1) ≤ length bytes.now) × (length row.old ≡ row_words n) }
    ensures answer { verdict result ≡ (called words.old (slot_call bytes.now n j)).verdict }
    ensures words { words.new ≡ (called words.old (slot_call bytes.now n j)).words }
    ensures kept { Kept study_words n words.new }
{
    row_into(bytes, n, j, row);
    add_formed(words, identifier_of(bytes, n, j), row)
}

// Adds slot j.
fn add_slot(bytes: &[u8], n: usize, j: usize, words: &mut [u16]) -> Result<(), Refusal>
    requires { Kept study_words n words.old × (file_bytes n (j + 1) ≤ length bytes.now) }
    ensures answer { verdict result ≡ (called words.old (slot_call bytes.now n j)).verdict }
    ensures words { words.new ≡ (called words.old (slot_call bytes.now n j)).words }
    ensures kept { Kept study_words n words.new }
{
    let mut row = [0; ROW_ROOM];
    add_row(bytes, n, j, words, &mut row[..2 * n])
}

// Adds slot after slot as they stand in the file (RULES 9.2), up to the first that is refused.
fn add_slots(bytes: &[u8], sizes: Sizes, words: &mut [u16]) -> Result<Sizes, Refused>
    requires { Kept study_words sizes.samples words.old × (file_bytes sizes.samples sizes.runs ≤ length bytes.now) }
    ensures words_after { goes_on result words.new
        ≡ adds_and_reports sizes.samples sizes.runs words.old (tabulate sizes.runs (slot_call bytes.now sizes.samples) 0) 0 }
    ensures loaded { Loaded result words.new }
{
    for j in 0..sizes.runs {
        told_of(add_slot(bytes, sizes.samples, j, words), j, sizes)?;
    }
    Ok(sizes)
}

// Reads a file into a study, up to the first refusal.
fn load(bytes: &[u8], words: &mut [u16]) -> Result<Sizes, Refused>
    requires { length words.old ≡ study_words }
    ensures words_after { goes_on result words.new ≡ listed bytes.now }
    ensures loaded { Loaded result words.new }
{
    let Some(sizes) = file_of(bytes) else {
        return Err(Refused {
            why: Refusal::new(Reason::File, 0),
            slot: 0,
        });
    };
    told_of(open(sizes.samples, words), 0, sizes)?;
    add_slots(bytes, sizes, words)
}

// The report of a study that is ready.
fn report_ready(
    sizes: Sizes,
    words: &[u16],
    agreed: &mut [u16],
    support: &mut [u16],
) -> Result<Sizes, Refused>
    requires { Kept study_words sizes.samples words.now × (length agreed.old ≡ row_words sizes.samples)
        × (length support.old ≡ row_words sizes.samples) }
    ensures support_after { shows result agreed.new support.new ≡ reports sizes.samples sizes.runs words.now }
    ensures printable { Printable result agreed.new support.new }
{
    told_of(
        report_formed(words, NO_THRESHOLD, agreed, support),
        0,
        sizes,
    )
}

// What a file comes to, with the agreed row and the support row at the front of their buffers.
pub fn tell(
    bytes: &[u8],
    words: &mut [u16],
    agreed: &mut [u16],
    support: &mut [u16],
) -> Result<Sizes, Refused>
    requires { (length words.old ≡ study_words) × (length agreed.old ≡ row_room) × (length support.old ≡ row_room) }
    ensures support_after { shows result agreed.new support.new ≡ listed bytes.now }
    ensures printable { Printable result agreed.new support.new }
{
    let sizes = load(bytes, words)?;
    let n = sizes.samples;
    report_ready(sizes, words, &mut agreed[..2 * n], &mut support[..2 * n])
}
