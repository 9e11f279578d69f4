// Scripts of calls, one call a line: a line's words and the call that they make, and words printed. Words stand between single spaces,
// so two spaces in a row have an empty word between them, and an empty word is neither a number nor bytes.
#![tactic(auto)]

pub mod words;

ghost use Rattle.std.specs.Prelude.{decimal, OnOk};
ghost use Rattle.std.specs.Io.KnownBytes.{Appends};

use std::io::Write;
use std::str::Split;
use std::{fmt, io, str};
use words::{bytes, ended, interval, last_number, number, target};

// ---- what a line says

// The tuple that a call is about.
#[derive(Clone, Copy)]
pub struct Target {
    pub transaction: u64,
    pub table: u64,
    pub key: u32,
}

// The minutes of a table, from first up to, not including, end, that a call asks about.
#[derive(Clone, Copy)]
pub struct Interval {
    pub transaction: u64,
    pub table: u64,
    pub first: u64,
    pub end: u64,
}

// What a line lends to the lines after it: image and memory of a call that fills the memory, or nothing. Any other line leaves what is lent.
#[derive(Clone, Copy)]
pub enum Start {
    Make {
        bytes: usize,
        capacity: u64,
        room: usize,
    },
    Recover {
        bytes: usize,
        room: usize,
    },
    Roll {
        bytes: usize,
        room: usize,
        second: usize,
    },
    Clear,
}

// Insert and replace have their payload, a checked insert also the opening hours; read, crossing and list the room for their reply; step and run
// how many bytes of the image they have, if not those that are lent. Fill, show and digest are no calls of the store's: they write and show what
// is lent to it.
#[derive(Clone, Copy)]
pub enum Call<'r> {
    Open(u64),
    Commit(u64),
    Abort(u64),
    Insert(Target, &'r [u8]),
    Checked(Target, &'r [u8], &'r [u8]),
    Replace(Target, &'r [u8]),
    Delete(Target),
    Read(Target, usize),
    Crossing(Interval, usize),
    List(usize),
    Begin,
    Step(Option<usize>),
    Run(u64, Option<usize>),
    Fill(usize, u8),
    Show(usize),
    Digest,
}

// Room for more bytes of a payload, and of opening hours, than any call accepts: of longer ones the first bytes meet the same refusal.
pub const PAYLOAD_ROOM: usize = 64;

pub const HOURS_ROOM: usize = 160;

// Room for the bytes of a line's call.
#[derive(Drop)]
pub struct Room {
    payload: [u8; PAYLOAD_ROOM],
    hours: [u8; HOURS_ROOM],
}

impl Room {
    pub fn new() -> Room {
        Room {
            payload: [0; PAYLOAD_ROOM],
            hours: [0; HOURS_ROOM],
        }
    }
}

// ---- lines

// None also of a line that is no text, as of any other that starts nothing.
pub fn start_of(line: &[u8]) -> Option<Start> {
    start_of_text(str::from_utf8(line).ok()?)
}

pub fn start_of_text(line: &str) -> Option<Start> {
    let mut words = line.split(' ');
    let start = match words.next()? {
        "make" => Start::Make {
            bytes: number(&mut words)?,
            capacity: number(&mut words)?,
            room: number(&mut words)?,
        },
        "recover" => Start::Recover {
            bytes: number(&mut words)?,
            room: number(&mut words)?,
        },
        "roll" => Start::Roll {
            bytes: number(&mut words)?,
            room: number(&mut words)?,
            second: number(&mut words)?,
        },
        "clear" => Start::Clear,
        _ => return None,
    };
    ended(&mut words, start)
}

// The calls on the image, and what a script does with its blocks.
fn image_call<'r>(name: &str, words: &mut Split<'_, char>) -> Option<Call<'r>> {
    let call = match name {
        "begin" => Call::Begin,
        "step" => Call::Step(last_number(words)?),
        "run" => Call::Run(number(words)?, last_number(words)?),
        "fill" => Call::Fill(number(words)?, number(words)?),
        "show" => Call::Show(number(words)?),
        "digest" => Call::Digest,
        _ => return None,
    };
    Some(call)
}

// The calls on one tuple.
fn tuple_call<'r>(name: &str, words: &mut Split<'_, char>, room: &'r mut Room) -> Option<Call<'r>> {
    let Room { payload, hours } = room;
    let call = match name {
        "insert" => Call::Insert(target(words)?, bytes(words, payload)?),
        "checked" => Call::Checked(target(words)?, bytes(words, payload)?, bytes(words, hours)?),
        "replace" => Call::Replace(target(words)?, bytes(words, payload)?),
        "delete" => Call::Delete(target(words)?),
        "read" => Call::Read(target(words)?, number(words)?),
        _ => return image_call(name, words),
    };
    Some(call)
}

fn call_in<'r>(words: &mut Split<'_, char>, room: &'r mut Room) -> Option<Call<'r>> {
    let call = match words.next()? {
        "open" => Call::Open(number(words)?),
        "commit" => Call::Commit(number(words)?),
        "abort" => Call::Abort(number(words)?),
        "crossing" => Call::Crossing(interval(words)?, number(words)?),
        "list" => Call::List(number(words)?),
        name => return tuple_call(name, words, room),
    };
    Some(call)
}

// The call of a line, its payload and opening hours in room; none of a line that is no text.
pub fn call_of<'r>(line: &[u8], room: &'r mut Room) -> Option<Call<'r>> {
    call_of_text(str::from_utf8(line).ok()?, room)
}

pub fn call_of_text<'r>(line: &str, room: &'r mut Room) -> Option<Call<'r>> {
    let mut words = line.split(' ');
    let call = call_in(&mut words, room)?;
    ended(&mut words, call)
}

// ---- printing

pub fn say<W: Write>(out: &mut W, s: &[u8]) -> io::Result<()>
    ensures { OnOk result (Appends (W.contents out.old) (W.contents out.new) s.now) }
{
    out.write_all(s)
}

pub fn say_number<W: Write>(out: &mut W, n: u64) -> io::Result<()>
    ensures { OnOk result (Appends (W.contents out.old) (W.contents out.new) (decimal n)) }
{
    write!(out, "{n}")
}

// Bytes as they are printed: in hexadecimal, a dash for none.
#[derive(Clone, Copy)]
pub struct Hex<'a>(pub &'a [u8]);

impl fmt::Display for Hex<'_> {
    fn fmt<W: fmt::Write>(&self, f: &mut fmt::Formatter<W>) -> fmt::Result {
        if self.0.is_empty() {
            return f.write_str("-");
        }
        for b in self.0 {
            write!(f, "{b:02x}")?;
        }
        Ok(())
    }
}
