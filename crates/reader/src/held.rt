// A reader over a text (RULES 13.8), and the whole text read by it.
ghost use Rattle.std.specs.Prelude.{◌≡◌, Ok};
ghost use Rattle.newick.specs.Bytes.{is_blank};
ghost use Rattle.scan.specs.Scanning.{past};
ghost use Rattle.reader.specs.Steps.{semicolon_from, end_from, ReadyAt, Ready, Goes, Reads, WholeOf};

use lay::{Kept, Marks, Row};
use scan::{Stop, look};

// How many brackets may stand in one another (RULES 14).
const MOST_NESTED: usize = 511;

// A text, and how far it has been read.
#[derive(Clone, Copy)]
pub struct Reader<'a> {
    pub text: &'a [u8],
    pub at: usize,
}

impl<'a> Reader<'a> {
    // A reader at the start of a text.
    pub fn over(text: &'a [u8]) -> Reader<'a>
        ensures { (result.text ≡ text.entry) × (result.at ≡ 0) }
    {
        Reader { text, at: 0 }
    }

    // Past a subtree, which is laid into the room that is lent.
    pub fn subtree(&mut self, kept: &mut Kept, row: &mut Row, marks: &mut Marks) -> Result<(), Stop>
        requires { Ready self.old kept.old }
        ensures { Reads self.old kept.old row.old marks.old result self.new kept.new row.new marks.new }
    {
        self.at = lay::subtree(self.text, self.at, MOST_NESTED, kept, row, marks)?;
        Ok(())
    }

    // Past a semicolon.
    pub fn semicolon(&mut self) -> Result<(), Stop>
        ensures { Goes self.old result self.new (semicolon_from self.old.text.now (Ok self.old.at)) }
    {
        if look(self.text, self.at) == b';' {
            self.at += 1;
            Ok(())
        } else {
            Err(Stop { at: self.at })
        }
    }

    // Past the blanks.
    pub fn skip_blanks(&mut self)
        ensures { (self.new.text ≡ self.old.text) × (self.new.at ≡ past is_blank self.old.text.now self.old.at) }
    {
        self.at = scan::skip_blanks(self.text, self.at);
    }

    // The end of the text, which has to be here.
    pub fn at_end(&self) -> Result<usize, Stop>
        ensures { result ≡ end_from self.now.text.now (Ok self.now.at) }
    {
        if self.at != self.text.len() {
            return Err(Stop { at: self.at });
        }
        Ok(self.at)
    }
}

// The whole text, through a reader: a subtree, a semicolon, blanks, the end (RULES 14). The end is the answer.
pub fn whole(text: &[u8], kept: &mut Kept, row: &mut Row, marks: &mut Marks) -> Result<usize, Stop>
    requires { ReadyAt text.now 0 kept.old }
    ensures { WholeOf text.now kept.old row.old marks.old result kept.new row.new marks.new }
{
    let mut reader = Reader::over(text);
    reader.subtree(kept, row, marks)?;
    reader.semicolon()?;
    reader.skip_blanks();
    reader.at_end()
}
