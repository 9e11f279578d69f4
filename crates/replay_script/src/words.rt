// The words of a line, read one after another: numbers, bytes, and what a call is about.
use super::{Interval, Target};
use std::str::{FromStr, Split};

// ---- numbers

// A word of decimal digits, whose number has a place in its type.
fn decimal<N: FromStr>(word: &str) -> Option<N>
where
    N::Err: Drop,
{
    // The library's numbers may have a sign, a script's may not.
    if word.starts_with('+') {
        return None;
    }
    word.parse().ok()
}

pub fn number<N: FromStr>(words: &mut Split<'_, char>) -> Option<N>
where
    N::Err: Drop,
{
    decimal(words.next()?)
}

// The number of a last word that a line may leave out: whether there is one, if what is there is a number.
pub fn last_number(words: &mut Split<'_, char>) -> Option<Option<usize>> {
    match words.next() {
        Some(word) => Some(Some(decimal(word)?)),
        None => Some(None),
    }
}

pub fn target(words: &mut Split<'_, char>) -> Option<Target> {
    Some(Target {
        transaction: number(words)?,
        table: number(words)?,
        key: number(words)?,
    })
}

pub fn interval(words: &mut Split<'_, char>) -> Option<Interval> {
    Some(Interval {
        transaction: number(words)?,
        table: number(words)?,
        first: number(words)?,
        end: number(words)?,
    })
}

// What a line says, if it has no more words.
pub fn ended<T: Drop>(words: &mut Split<'_, char>, said: T) -> Option<T> {
    match words.next() {
        Some(_) => None,
        None => Some(said),
    }
}

// ---- bytes

// The byte that two hexadecimal digits spell.
fn byte_of(digits: &[u8; 2]) -> Option<u8> {
    let high = char::from(digits[0]).to_digit(16)?;
    let low = char::from(digits[1]).to_digit(16)?;
    u8::try_from(16 * high + low).ok()
}

// How many bytes a word of hexadecimal digits spells, none by a dash. Those for which there is room go into out.
pub fn bytes_of(word: &[u8], out: &mut [u8]) -> Option<usize> {
    if word == b"-".as_slice() {
        return Some(0);
    }
    let (pairs, odd) = word.as_chunks::<2>();
    if pairs.is_empty() || !odd.is_empty() {
        return None;
    }
    for (i, pair) in pairs.iter().enumerate() {
        let b = byte_of(pair)?;
        if let Some(x) = out.get_mut(i) {
            *x = b;
        }
    }
    Some(pairs.len())
}

// The bytes that the next word spells, as many as there is room for.
pub fn bytes<'r>(words: &mut Split<'_, char>, room: &'r mut [u8]) -> Option<&'r [u8]> {
    let count = bytes_of(words.next()?.as_bytes(), room)?;
    let kept = count.min(room.len());
    Some(&room[..kept])
}
