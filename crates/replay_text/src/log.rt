// The lines of a script that are about the log, and its bytes: overwritten, as a cut store does, and printed.
use super::bad_line;
use replay_script::words::{bytes_of, ended, number};
use replay_script::{Hex, say};
use std::io::Write;
use std::{io, str};

// What a line does with the log: a new one of so many bytes; the end that the next logged call takes; a place, and the bytes in hexadecimal that
// overwrite it or how many are printed, from there on; its digest; or the logged call that the rest of the line says.
#[derive(Clone, Copy)]
pub enum Line<'a> {
    Start(usize),
    End(u64),
    Tear(usize, &'a [u8]),
    Bytes(usize, usize),
    Digest,
    Logged(&'a str),
}

// None if the line is not about the log, as one that is no text.
pub fn line_of(line: &[u8]) -> Option<Line<'_>> {
    line_of_text(str::from_utf8(line).ok()?)
}

pub fn line_of_text(line: &str) -> Option<Line<'_>> {
    if let Some(call) = line.strip_prefix("logged ") {
        return Some(Line::Logged(call));
    }
    let mut words = line.split(' ');
    let what = match words.next()? {
        "log" => Line::Start(number(&mut words)?),
        "end" => Line::End(number(&mut words)?),
        "tear" => Line::Tear(number(&mut words)?, words.next()?.as_bytes()),
        "bytes" => Line::Bytes(number(&mut words)?, number(&mut words)?),
        "logdigest" => Line::Digest,
        _ => return None,
    };
    ended(&mut words, what)
}

// ---- bytes

// The bytes that a word spells, over the log's from a place on.
fn overwrite(log: &mut [u8], at: usize, word: &[u8]) -> Option<()> {
    let torn = log.get_mut(at..)?;
    // They are counted first: those of a word that is refused leave the log as it was.
    if torn.len() < bytes_of(word, &mut [])? {
        return None;
    }
    bytes_of(word, torn)?;
    Some(())
}

pub fn tear(out: &mut impl Write, log: &mut [u8], at: usize, word: &[u8]) -> io::Result<()> {
    match overwrite(log, at, word) {
        Some(()) => say(out, b"torn\n"),
        None => bad_line(out),
    }
}

pub fn show_bytes(out: &mut impl Write, log: &[u8], at: usize, count: usize) -> io::Result<()> {
    let shown = log.get(at..).and_then(|from| from.get(..count));
    match shown {
        Some(shown) if count > 0 => writeln!(out, "bytes {}", Hex(shown)),
        _ => bad_line(out),
    }
}
