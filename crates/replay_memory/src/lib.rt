// The calls of a replayed script that have to do with the memory alone: made, and what they answer printed. And areas of bytes, of which a script
// lends parts to its calls.
#![tactic(auto)]

ghost use Rattle.std.specs.Prelude.{OnOk};
ghost use Rattle.std.specs.Io.KnownBytes.{Appends};
ghost use Rattle.replay_memory.specs.Text.{answer_text};

use call_contracts::{Answer, Reply};
use replay_script::{Call, Interval, Target};
use std::io;
use std::io::Write;

// Room for a reply.
const REPLY_SIZE: usize = 4096;

// ---- what is lent

// The first n bytes; all if there are fewer.
pub fn first(s: &[u8], n: u64) -> &[u8] {
    let n = n.min(s.len() as u64) as usize;
    &s[..n]
}

// The first n bytes, to be written; all if there are fewer.
pub fn lend(s: &mut [u8], n: u64) -> &mut [u8] {
    let n = n.min(s.len() as u64) as usize;
    &mut s[..n]
}

// An area of bytes, and how many of them, its first, are lent to a call; all if it has fewer.
#[derive(Drop)]
pub struct Area {
    bytes: Vec<u8>,
    lent: usize,
}

impl Area {
    // Nothing of it is lent.
    pub fn new(bytes: Vec<u8>) -> Area {
        Area { bytes, lent: 0 }
    }

    pub fn all(&mut self) -> &mut [u8] {
        &mut self.bytes
    }

    pub fn first(&mut self, n: usize) -> &mut [u8] {
        lend(&mut self.bytes, n as u64)
    }

    // The part that is lent.
    pub fn lent(&mut self) -> &mut [u8] {
        lend(&mut self.bytes, self.lent as u64)
    }

    // The first bytes that a call asks for, or what is lent.
    pub fn part(&mut self, asked: Option<usize>) -> &mut [u8] {
        lend(&mut self.bytes, asked.unwrap_or(self.lent) as u64)
    }

    // From now on the first n bytes are lent.
    pub fn lend(&mut self, n: usize) {
        self.lent = n;
    }

    // Zeros, of which the first n are lent.
    pub fn clear(&mut self, n: usize) {
        self.bytes.fill(0);
        self.lent = n;
    }
}

// ---- answers

pub fn say_answer<W: Write>(out: &mut W, a: Answer) -> io::Result<()>
    ensures { OnOk result (Appends (W.contents out.old) (W.contents out.new) (answer_text a)) }
{
    match a {
        Ok(Reply::Done) => replay_script::say(out, b"done\n"),
        Ok(Reply::Count(n)) => replay_text::say_line(out, b"", n),
        Ok(Reply::Filled(n)) => replay_text::say_line(out, b"", n as u64),
        Err(e) => replay_text::say_line(out, b"refused ", u64::from(e)),
    }
}

// How many a filled reply has; none of another answer.
fn filled(a: Answer) -> Option<usize> {
    match a {
        Ok(Reply::Filled(n)) => Some(n),
        _ => None,
    }
}

// ---- calls

fn read(out: &mut impl Write, m: &[u8], t: Target, room: usize) -> io::Result<()> {
    let mut reply = [0; REPLY_SIZE];
    let a = store::read(
        m,
        t.transaction,
        t.table,
        t.key,
        lend(&mut reply, room as u64),
    );
    match filled(a) {
        Some(len) => replay_text::say_payload(out, first(&reply, len as u64)),
        None => say_answer(out, a),
    }
}

fn crossing(out: &mut impl Write, m: &[u8], i: Interval, room: usize) -> io::Result<()> {
    let mut reply = [0; REPLY_SIZE];
    let to = lend(&mut reply, room as u64);
    let a = store::crossing(m, i.transaction, i.table, i.first, i.end, to);
    match filled(a) {
        Some(count) => replay_text::say_crossing(out, &reply, count),
        None => say_answer(out, a),
    }
}

fn list(out: &mut impl Write, m: &[u8], room: usize) -> io::Result<()> {
    let mut reply = [0; REPLY_SIZE];
    let a = store::list(m, lend(&mut reply, room as u64));
    match filled(a) {
        Some(count) => replay_text::say_listing(out, &reply, count),
        None => say_answer(out, a),
    }
}

pub fn on_memory(out: &mut impl Write, m: &mut [u8], call: Call<'_>) -> io::Result<()> {
    let answer = match call {
        Call::Open(t) => store::open(m, t),
        Call::Commit(t) => store::commit(m, t),
        Call::Abort(t) => store::abort(m, t),
        Call::Insert(t, payload) => store::insert(m, t.transaction, t.table, t.key, payload),
        Call::Checked(t, payload, hours) => store::insert_checked(
            m,
            t.transaction,
            t.table,
            t.key,
            payload,
            hours,
        ),
        Call::Replace(t, payload) => store::replace(m, t.transaction, t.table, t.key, payload),
        Call::Delete(t) => store::delete(m, t.transaction, t.table, t.key),
        Call::Read(t, room) => return read(out, m, t, room),
        Call::Crossing(i, room) => return crossing(out, m, i, room),
        Call::List(room) => return list(out, m, room),
        Call::Begin => store::begin(m),
        _ => return replay_text::bad_line(out),
    };
    say_answer(out, answer)
}
