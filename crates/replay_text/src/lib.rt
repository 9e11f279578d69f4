// What a replayed script has printed, but for the answers of the calls themselves: replies as numbers and bytes, blocks of the image, and
// digests. And a block overwritten, as a cut store does.
#![tactic(auto)]

pub mod log;

ghost use Rattle.std.specs.Prelude.{◌<◌, ◌++◌, decimal, codes, OnOk};
ghost use Rattle.std.specs.Io.KnownBytes.{Appends};
ghost use Rattle.std.specs.Iterator.{IsFinite};

use block_forms::BLOCK_SIZE;
use replay_script::{Hex, say};
use std::fmt::Display;
use std::io;
use std::io::Write;

// ---- replies

pub fn say_line<W: Write>(out: &mut W, before: &[u8], n: u64) -> io::Result<()>
    ensures { OnOk result (Appends (W.contents out.old) (W.contents out.new) (before.now ++ decimal n ++ codes "\n")) }
{
    say(out, before)?;
    writeln!(out, "{n}")
}

pub fn say_payload(out: &mut impl Write, payload: &[u8]) -> io::Result<()> {
    writeln!(out, "{} {}", payload.len(), Hex(payload))
}

// How many numbers a reply has, and its numbers.
fn say_numbers<T: Display + Drop, I: Iterator<Item = T>>(
    out: &mut impl Write,
    n: usize,
    numbers: I,
) -> io::Result<()>
    requires can { I.can_next numbers }
    requires ends { IsFinite (I.remaining numbers) }
{
    write!(out, "{n}")?;
    for number in numbers.take(n) {
        write!(out, " {number}")?;
    }
    writeln!(out)
}

// The n open transactions, in the order of the reply.
pub fn say_listing(out: &mut impl Write, reply: &[u8], n: usize) -> io::Result<()> {
    let (transactions, _) = reply.as_chunks::<2>();
    say_numbers(out, n, transactions.iter().map(|b| u16::from_be_bytes(*b)))
}

// The keys of the n bookings that cross an interval, in the order of the reply.
pub fn say_crossing(out: &mut impl Write, reply: &[u8], n: usize) -> io::Result<()> {
    let (keys, _) = reply.as_chunks::<4>();
    say_numbers(out, n, keys.iter().map(|b| u32::from_be_bytes(*b)))
}

// ---- blocks of the image

// The answer to a line that is no call, or that names a block beyond the image or bytes beyond the log.
pub fn bad_line<W: Write>(out: &mut W) -> io::Result<()>
    ensures { OnOk result (Appends (W.contents out.old) (W.contents out.new) (codes "bad line\n")) }
{
    say(out, b"bad line\n")
}

pub fn fill(out: &mut impl Write, image: &mut [u8], block: usize, byte: u8) -> io::Result<()> {
    let (blocks, _) = image.as_chunks_mut::<BLOCK_SIZE>();
    let Some(filled) = blocks.get_mut(block) else {
        return bad_line(out);
    };
    filled.fill(byte);
    say(out, b"filled\n")
}

// The bytes up to the last that is not zero.
fn used(s: &[u8]) -> &[u8] {
    match s.iter().rposition(|b| *b != 0) {
        Some(i) => &s[..i + 1],
        None => &[],
    }
}

pub fn show(out: &mut impl Write, image: &[u8], block: usize) -> io::Result<()> {
    let (blocks, _) = image.as_chunks::<BLOCK_SIZE>();
    let Some(shown) = blocks.get(block) else {
        return bad_line(out);
    };
    writeln!(out, "block {block} {}", Hex(used(shown)))
}

// The digest with one byte more: a remainder by the largest prime of 32 bits.
fn digest_with(d: u32, byte: u8) -> u32
    ensures { result < 4294967291 }
{
    ((31 * u64::from(d) + u64::from(byte)) % 4294967291) as u32
}

pub fn digest(s: &[u8]) -> u64 {
    u64::from(s.iter().fold(0, |d, b| digest_with(d, *b)))
}

pub fn say_digest(out: &mut impl Write, s: &[u8]) -> io::Result<()> {
    say_line(out, b"digest ", digest(s))
}
