// What a replayed script does with the log: logged calls made and what they answer printed, the log started, overwritten as a cut store does, and
// printed.
#![tactic(auto)]

use call_contracts::{Answer, Logged, Reply};
use replay_memory::lend;
use replay_script::{Call, Room, call_of_text, say};
use replay_text::log::{Line, show_bytes, tear};
use replay_text::{bad_line, say_digest, say_line};
use std::io;
use std::io::Write;

// How many bytes the log has, and the end that the next logged call takes.
#[derive(Clone, Copy)]
pub struct Log {
    pub len: u64,
    pub end: u64,
}

// An area of bytes, and the log in it.
#[derive(Drop)]
pub struct LogArea {
    bytes: Vec<u8>,
    pub log: Log,
}

impl LogArea {
    // Before its first line a script has no log.
    pub fn new(bytes: Vec<u8>) -> LogArea {
        LogArea {
            bytes,
            log: Log { len: 0, end: 0 },
        }
    }

    // A new log of n zeros.
    pub fn start(&mut self, n: usize) {
        self.bytes.fill(0);
        self.log = Log {
            len: n as u64,
            end: 0,
        };
    }

    // The log's bytes.
    fn lent(&mut self) -> &mut [u8] {
        lend(&mut self.bytes, self.log.len)
    }

    // Prints a logged answer. If the call was accepted, its end is the one that the next takes.
    fn answered(&mut self, out: &mut impl Write, l: Logged) -> io::Result<()> {
        let end = l.end;
        match l.answer {
            Ok(Reply::Done) => say_line(out, b"done ", end)?,
            Ok(Reply::Count(n)) => writeln!(out, "{n} {end}")?,
            Ok(Reply::Filled(n)) => writeln!(out, "{n} {end}")?,
            Err(refusal) => return writeln!(out, "{refusal}"),
        }
        self.log.end = end;
        Ok(())
    }

    // Makes a call; none if it is not logged.
    fn call(&mut self, call: Call<'_>, m: &mut [u8]) -> Option<Logged> {
        let end = self.log.end;
        let log = self.lent();
        Some(match call {
            Call::Open(t) => store::logged_open(m, log, end, t),
            Call::Commit(t) => store::logged_commit(m, log, end, t),
            Call::Abort(t) => store::logged_abort(m, log, end, t),
            Call::Insert(t, payload) => store::logged_insert(
                m,
                log,
                end,
                t.transaction,
                t.table,
                t.key,
                payload,
            ),
            Call::Checked(t, payload, hours) => store::logged_insert_checked(
                m,
                log,
                end,
                t.transaction,
                t.table,
                t.key,
                payload,
                hours,
            ),
            Call::Replace(t, payload) => store::logged_replace(
                m,
                log,
                end,
                t.transaction,
                t.table,
                t.key,
                payload,
            ),
            Call::Delete(t) => store::logged_delete(m, log, end, t.transaction, t.table, t.key),
            Call::Begin => store::logged_begin(m, log, end),
            _ => return None,
        })
    }

    // A line's call behind the word `logged`.
    fn logged(&mut self, out: &mut impl Write, line: &str, m: &mut [u8]) -> io::Result<()> {
        let mut room = Room::new();
        let made = match call_of_text(line, &mut room) {
            Some(call) => self.call(call, m),
            None => None,
        };
        match made {
            Some(l) => self.answered(out, l),
            None => bad_line(out),
        }
    }

    pub fn roll(
        &mut self,
        out: &mut impl Write,
        image: &[u8],
        m: &mut [u8],
        second: &mut [u8],
    ) -> io::Result<Answer> {
        let l = store::roll_forward(image, m, second, self.lent());
        self.answered(out, l)?;
        Ok(l.answer)
    }

    // A line about the log.
    pub fn line(&mut self, out: &mut impl Write, what: Line<'_>, m: &mut [u8]) -> io::Result<()> {
        match what {
            Line::Start(n) => {
                self.start(n);
                say(out, b"log\n")
            }
            Line::End(n) => {
                self.log.end = n;
                say_line(out, b"end ", n)
            }
            Line::Tear(at, word) => tear(out, self.lent(), at, word),
            Line::Bytes(at, count) => show_bytes(out, self.lent(), at, count),
            Line::Digest => say_digest(out, self.lent()),
            Line::Logged(call) => self.logged(out, call, m),
        }
    }
}
