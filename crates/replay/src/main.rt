// Replays calls: standard input holds requests, and standard output gets a reply to each, in words
// of 16 bits, low byte first. A request is six words `op x y la lb lc` and then la + lb + lc words,
// the buffers in the order in which the call takes them. A reply is six words
// `number place-low place-high c1 c2 c3` and then the buffers as they stand after the call.
//
// It stops at the end of input, at a request that is cut off, at a buffer of more than 32,768 words,
// at an op that it does not know and at a text that has a word that is no byte; it ends with an error
// if a read or a write fails. `calls` knows the ops, `texts` the bytes of texts, `words` the bytes of
// words; here and in `moves` bytes are only moved.
#![tactic(auto)]

mod calls;
mod moves;
mod texts;
mod words;

ghost use Rattle.replay.specs.Words.{Short, Roomy};

use calls::{Head, Reply};
use std::io;
use std::io::{Read, Write};
use words::{MOST_BYTES, MOST_WORDS};

// Requests that one run answers at most: a loop has to end, and nothing says that input does.
const MOST_REQUESTS: u64 = u64::MAX;

// Room for the three buffers of a call, and for the bytes of one of them.
#[derive(Drop)]
struct Room {
    a: [u16; MOST_WORDS],
    b: [u16; MOST_WORDS],
    c: [u16; MOST_WORDS],
    bytes: [u8; MOST_BYTES],
}

// Answers one request after another, all of them in the same room.
fn main(rt: HostRuntime) -> io::Result<()> {
    let mut room = Room {
        a: [0; MOST_WORDS],
        b: [0; MOST_WORDS],
        c: [0; MOST_WORDS],
        bytes: [0; MOST_BYTES],
    };
    answer_all(&mut rt.stdin(), &mut rt.stdout(), &mut room)
}

// Answers requests until there is none.
fn answer_all<R: Read, W: Write>(input: &mut R, output: &mut W, room: &mut Room) -> io::Result<()> {
    for _ in 0..MOST_REQUESTS {
        if !answer_next(input, output, room)? {
            break;
        }
    }
    Ok(())
}

// Answers the next request, and says whether there was one to answer.
fn answer_next<R: Read, W: Write>(
    input: &mut R,
    output: &mut W,
    room: &mut Room,
) -> io::Result<bool> {
    let mut six = [0; 6];
    if !moves::read_words(input, &mut six, &mut room.bytes)? {
        return Ok(false);
    }
    let Room { a, b, c, bytes } = room;
    answer_head(input, output, calls::head_of(&six), a, b, c, bytes)
}

// Answers the request with this head, unless a buffer is too long, and says whether it did.
// From here on the parts of the room go one by one: no proof is made where two fields are lent at once behind a reference.
fn answer_head<R: Read, W: Write>(
    input: &mut R,
    output: &mut W,
    head: Head,
    a: &mut [u16; MOST_WORDS],
    b: &mut [u16; MOST_WORDS],
    c: &mut [u16; MOST_WORDS],
    bytes: &mut [u8; MOST_BYTES],
) -> io::Result<bool> {
    let la = usize::from(head.la);
    let lb = usize::from(head.lb);
    let lc = usize::from(head.lc);
    if la.max(lb).max(lc) > MOST_WORDS {
        return Ok(false);
    }
    answer_call(
        input,
        output,
        head,
        &mut a[..la],
        &mut b[..lb],
        &mut c[..lc],
        bytes,
    )
}

// Fills the buffers, makes the call and writes its reply, and says whether all that was done.
fn answer_call<R: Read, W: Write>(
    input: &mut R,
    output: &mut W,
    head: Head,
    a: &mut [u16],
    b: &mut [u16],
    c: &mut [u16],
    bytes: &mut [u8],
) -> io::Result<bool>
    requires { Short a.old × Short b.old × Short c.old × Roomy bytes.old }
{
    if !read_buffers(input, a, b, c, bytes)? {
        return Ok(false);
    }
    make_call(output, head, a, b, c, bytes)
}

// Makes the call on the buffers and writes its reply, and says whether that was done.
fn make_call<W: Write>(
    output: &mut W,
    head: Head,
    a: &mut [u16],
    b: &mut [u16],
    c: &mut [u16],
    bytes: &mut [u8],
) -> io::Result<bool>
    requires { Short a.old × Short b.old × Short c.old × Roomy bytes.old }
{
    let Some(reply) = calls::called(head, a, b, c, bytes) else {
        return Ok(false);
    };
    write_reply(output, reply, a, b, c, bytes)?;
    Ok(true)
}

// Fills the buffers from the input, and says whether all of them were there.
fn read_buffers<R: Read>(
    input: &mut R,
    a: &mut [u16],
    b: &mut [u16],
    c: &mut [u16],
    bytes: &mut [u8],
) -> io::Result<bool>
    requires { Short a.old × Short b.old × Short c.old × Roomy bytes.old }
{
    if !moves::read_words(input, a, bytes)? {
        return Ok(false);
    }
    if !moves::read_words(input, b, bytes)? {
        return Ok(false);
    }
    moves::read_words(input, c, bytes)
}

// Writes a reply with its buffers.
fn write_reply<W: Write>(
    output: &mut W,
    reply: Reply,
    a: &[u16],
    b: &[u16],
    c: &[u16],
    bytes: &mut [u8],
) -> io::Result<()>
    requires { Short a.now × Short b.now × Short c.now × Roomy bytes.old }
{
    let six = calls::reply_words(reply);
    moves::write_words(output, &six, bytes)?;
    write_buffers(output, a, b, c, bytes)
}

// Writes the buffers.
fn write_buffers<W: Write>(
    output: &mut W,
    a: &[u16],
    b: &[u16],
    c: &[u16],
    bytes: &mut [u8],
) -> io::Result<()>
    requires { Short a.now × Short b.now × Short c.now × Roomy bytes.old }
{
    moves::write_words(output, a, bytes)?;
    moves::write_words(output, b, bytes)?;
    moves::write_words(output, c, bytes)
}
