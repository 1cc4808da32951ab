// Lists the agreed tree of a file (RULES 9): standard input holds the file, and standard output gets the lines. `told` knows what
// a file comes to, `lines` what each line is; here bytes are only moved. It ends with an error if a read or a write fails.
#![tactic(auto)]

mod lines;
mod told;

ghost use Rattle.std.specs.Prelude.{◌<◌, ◌≤◌, length};
ghost use Rattle.std.specs.Io.{ReadsAtMost};
ghost use Rattle.text.specs.Room.{line_bytes};
ghost use Rattle.listing.specs.Listing.{lines_of};
ghost use Rattle.listing.specs.Told.{shows, Printable};

use file::Sizes;
use std::io;
use std::io::{Read, Write};
use text::LINE_BYTES;
use told::{ROW_ROOM, Refused, STUDY_WORDS};

// Bytes of the file's buffer: more than a file can have (RULES 1.5), so that a file that is too long is noticed.
const FILE_ROOM: usize = 65536;

fn main(rt: HostRuntime) -> io::Result<()> {
    let mut bytes = [0; FILE_ROOM];
    let got = read_full(&mut rt.stdin(), &mut bytes)?;
    list(&bytes[..got], &mut rt.stdout())
}

// Reads until the bytes are full or the input ends, and says how many bytes it put at their front.
fn read_full<R: Read>(input: &mut R, bytes: &mut [u8]) -> io::Result<usize>
    ensures { ReadsAtMost result bytes.new }
{
    let mut done = 0;
    while done < bytes.len() {
        let n = input.read(&mut bytes[done..])?;
        if n == 0 {
            break;
        }
        done += n;
    }
    Ok(done)
}

// Lists a file.
fn list<W: Write>(bytes: &[u8], output: &mut W) -> io::Result<()> {
    let mut words = [0; STUDY_WORDS];
    let mut agreed = [0; ROW_ROOM];
    let mut support = [0; ROW_ROOM];
    let mut out = [0; LINE_BYTES];
    let told = told::tell(bytes, &mut words, &mut agreed, &mut support);
    print(told, &agreed, &support, output, &mut out)
}

// Writes line by line.
fn print<W: Write>(
    told: Result<Sizes, Refused>,
    agreed: &[u16],
    support: &[u16],
    output: &mut W,
    out: &mut [u8],
) -> io::Result<()>
    requires { Printable told agreed.now support.now × (line_bytes ≤ length out.old) }
{
    let count = lines::line_count(told, agreed, support);
    for i in 0..count {
        print_line(told, agreed, support, i, output, out)?;
    }
    Ok(())
}

// Writes line i.
fn print_line<W: Write>(
    told: Result<Sizes, Refused>,
    agreed: &[u16],
    support: &[u16],
    i: usize,
    output: &mut W,
    out: &mut [u8],
) -> io::Result<()>
    requires { Printable told agreed.now support.now × (i < length (lines_of (shows told agreed.now support.now))) × (line_bytes ≤ length out.old) }
{
    let end = lines::put_line(told, agreed, support, i, out);
    output.write_all(&out[..end])
}
