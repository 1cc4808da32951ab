// The calls by number: what a request asks for, and what its reply says.
//
//     1 open       x = n           a the study
//     2 add        x = identifier  a the study, b the row
//     3 withdraw   x = identifier  a the study
//     4 report     x = p           a the study, b the agreed row, c the support
//     5 judge      x = n           a the row
//     6 renumber   x = n           a the row, b the new row
//     7 compare    x = n           a the first row, b the second
//     8 read       x = n           a the text, b the row
//     9 write      x = n, y = 1    a the row, b the support, c the text; without supports y = 0
//
// A text stands in words, one byte in each; a word that is no byte is as an unknown op.
//
// A call that is added has a line above, a variant below, an arm in `op_of` and in `called` and a function of its own.
ghost use Rattle.std.specs.Prelude.{◌≡◌, length};
ghost use Rattle.replay.specs.Words.{Short, Roomy};
ghost use Rattle.replay.specs.Calls.{op_at, head_of, counts_reply, refused_reply, reply_to, reply_counts, reply_length, reply_words};

use crate::texts::{narrow, widen};
use compare::Comparison;
use judge::Refusal;

// The calls.
#[derive(Clone, Copy, Debug, PartialEq, Eq)]
enum Op {
    Open,
    Add,
    Withdraw,
    Report,
    Judge,
    Renumber,
    Compare,
    Read,
    Write,
}

// What y says where supports are wanted.
const SUPPORTS: u16 = 1;

// How many values a word has.
const WORD: usize = 65536;

// The head of a request: the call, its numbers x and y, and how many words its buffers have.
#[derive(Clone, Copy, Debug, PartialEq, Eq)]
pub struct Head {
    pub op: u16,
    pub x: u16,
    pub y: u16,
    pub la: u16,
    pub lb: u16,
    pub lc: u16,
}

// The head of a reply: a refusal's number and place, both 0 for an accepted call, and three counts.
#[derive(Clone, Copy, Debug, PartialEq, Eq)]
pub struct Reply {
    pub number: usize,
    pub place: usize,
    pub c1: usize,
    pub c2: usize,
    pub c3: usize,
}

// The call with a number, if there is one.
fn op_of(number: u16) -> Option<Op>
    ensures { result ≡ op_at number }
{
    match number {
        1 => Some(Op::Open),
        2 => Some(Op::Add),
        3 => Some(Op::Withdraw),
        4 => Some(Op::Report),
        5 => Some(Op::Judge),
        6 => Some(Op::Renumber),
        7 => Some(Op::Compare),
        8 => Some(Op::Read),
        9 => Some(Op::Write),
        _ => None,
    }
}

// What comes of the call that the head asks for, or nothing if there is no such call. It leaves in the buffers what the call
// leaves; `bytes` is room for a text.
pub fn called(
    head: Head,
    a: &mut [u16],
    b: &mut [u16],
    c: &mut [u16],
    bytes: &mut [u8],
) -> Option<Reply>
    requires { Short a.old × Short c.old × Roomy bytes.old }
{
    match op_of(head.op)? {
        Op::Open => Some(opened(head, a)),
        Op::Add => Some(added(head, a, b)),
        Op::Withdraw => Some(withdrawn(head, a)),
        Op::Report => Some(reported(head, a, b, c)),
        Op::Judge => Some(judged(head, a)),
        Op::Renumber => Some(renumbered(head, a, b)),
        Op::Compare => Some(compared(head, a, b)),
        Op::Read => read(head, a, b, bytes),
        Op::Write => written(head, a, b, c, bytes),
    }
}

// The reply to opening the study a.
fn opened(head: Head, a: &mut [u16]) -> Reply {
    reply_to(arb::open(usize::from(head.x), a))
}

// The reply to adding the row b to the study a.
fn added(head: Head, a: &mut [u16], b: &[u16]) -> Reply {
    reply_to(arb::add(a, head.x, b))
}

// The reply to withdrawing from the study a.
fn withdrawn(head: Head, a: &mut [u16]) -> Reply {
    reply_to(arb::withdraw(a, head.x))
}

// The reply to reporting the study a in b and c.
fn reported(head: Head, a: &[u16], b: &mut [u16], c: &mut [u16]) -> Reply {
    reply_to(arb::report(a, usize::from(head.x), b, c))
}

// The reply to judging the row a.
fn judged(head: Head, a: &[u16]) -> Reply {
    reply_to(arb::judge(usize::from(head.x), a))
}

// The reply to renumbering the row a in b.
fn renumbered(head: Head, a: &[u16], b: &mut [u16]) -> Reply {
    reply_to(arb::renumber(usize::from(head.x), a, b))
}

// The reply to comparing the rows a and b.
fn compared(head: Head, a: &[u16], b: &[u16]) -> Reply {
    reply_counts(arb::compare(usize::from(head.x), a, b))
}

// What comes of reading the text a in b.
fn read(head: Head, a: &[u16], b: &mut [u16], bytes: &mut [u8]) -> Option<Reply>
    requires { Short a.now × Roomy bytes.old }
{
    let n = a.len();
    read_text(head, a, b, &mut bytes[..n])
}

// The same, with just so many bytes as the text has.
fn read_text(head: Head, a: &[u16], b: &mut [u16], text: &mut [u8]) -> Option<Reply>
    requires { length text.old ≡ length a.now }
{
    if !narrow(a, text) {
        return None;
    }
    Some(reply_to(arb::read_newick(usize::from(head.x), text, b)))
}

// What comes of writing the row a, with the support b if it is wanted, in the text c.
fn written(head: Head, a: &[u16], b: &[u16], c: &mut [u16], bytes: &mut [u8]) -> Option<Reply>
    requires { Short c.old × Roomy bytes.old }
{
    let n = c.len();
    written_text(head, a, b, c, &mut bytes[..n])
}

// The same, with just so many bytes as the text has.
fn written_text(head: Head, a: &[u16], b: &[u16], c: &mut [u16], text: &mut [u8]) -> Option<Reply>
    requires { length text.old ≡ length c.old }
{
    if !narrow(c, text) {
        return None;
    }
    let written = put_row(head, a, b, text);
    widen(text, c);
    Some(reply_length(written))
}

// What writing the row a answers, with the support b or without.
fn put_row(head: Head, a: &[u16], b: &[u16], text: &mut [u8]) -> Result<usize, Refusal>
    ensures { length text.new ≡ length text.old }
{
    if head.y == SUPPORTS {
        return arb::write_newick_supports(usize::from(head.x), a, b, text);
    }
    arb::write_newick(usize::from(head.x), a, text)
}

// The reply that a writing makes.
fn reply_length(written: Result<usize, Refusal>) -> Reply
    ensures { result ≡ reply_length written }
{
    match written {
        Ok(length) => counts_reply(length, 0, 0),
        Err(refusal) => refused_reply(refusal),
    }
}

// The reply that a comparison makes.
fn reply_counts(compared: Result<Comparison, Refusal>) -> Reply
    ensures { result ≡ reply_counts compared }
{
    match compared {
        Ok(groups) => counts_reply(groups.both, groups.first, groups.second),
        Err(refusal) => refused_reply(refusal),
    }
}

// The reply that an answer makes.
fn reply_to(answer: Result<(), Refusal>) -> Reply
    ensures { result ≡ reply_to answer }
{
    match answer {
        Ok(()) => counts_reply(0, 0, 0),
        Err(refusal) => refused_reply(refusal),
    }
}

// The reply with a refusal's number and place, and no counts.
fn refused_reply(refusal: Refusal) -> Reply
    ensures { result ≡ refused_reply refusal }
{
    Reply {
        number: refusal.reason.number(),
        place: refusal.place,
        c1: 0,
        c2: 0,
        c3: 0,
    }
}

// The reply of a call that is accepted, with its counts.
fn counts_reply(c1: usize, c2: usize, c3: usize) -> Reply
    ensures { result ≡ counts_reply c1 c2 c3 }
{
    Reply {
        number: 0,
        place: 0,
        c1,
        c2,
        c3,
    }
}

// What the six words of a request's head say.
pub fn head_of(six: &[u16; 6]) -> Head
    ensures { result ≡ head_of six.now }
{
    Head {
        op: six[0],
        x: six[1],
        y: six[2],
        la: six[3],
        lb: six[4],
        lc: six[5],
    }
}

// The six words of a reply's head.
pub fn reply_words(reply: Reply) -> [u16; 6]
    ensures { result ≡ reply_words reply }
{
    [
        (reply.number % WORD) as u16,
        (reply.place % WORD) as u16,
        (reply.place / WORD % WORD) as u16,
        (reply.c1 % WORD) as u16,
        (reply.c2 % WORD) as u16,
        (reply.c3 % WORD) as u16,
    ]
}
