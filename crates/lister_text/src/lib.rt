// The listing of an image as text.
#![tactic(auto)]

use block_forms::{BLOCK_SIZE, Owner, Record};
use block_reader::{Block, Cursor};
use refusals::Refusal;
use std::alloc::Global;
use std::io::{Read, Write};
use std::{fmt, io};

// A tuple, as its line shows it.
#[derive(Clone, Copy)]
struct Tuple {
    record: Record,
}

impl fmt::Display for Tuple {
    fn fmt<W: fmt::Write>(&self, f: &mut fmt::Formatter<W>) -> fmt::Result {
        let r = self.record;
        write!(f, "tuple {} {}", r.key, r.number)?;
        match r.owner {
            Owner::Committed => write!(f, " held")?,
            Owner::Tentative {
                transaction,
                statement,
            } => write!(f, " open {transaction} {statement}")?,
        }
        write!(f, " {}", r.len)?;
        if r.mark {
            write!(f, " mark")?;
        }
        Ok(())
    }
}

// The page in block e of the image.
fn page(out: &mut impl Write, image: &[u8], e: u32) -> io::Result<()> {
    let i = e as usize;
    if image.len() / BLOCK_SIZE <= i {
        return Ok(());
    }
    let block = image::block_at(image, i);
    let Some(Block::Page(head)) = block_reader::read_block(&block) else {
        return Ok(());
    };
    writeln!(out, "page {} block {e} tuples {}", head.table, head.count)?;
    let mut cursor = Cursor::first();
    for _ in 0..head.count {
        let Some((record, after)) = cursor.next(&block) else {
            return Ok(());
        };
        writeln!(out, "{}", Tuple { record })?;
        cursor = after;
    }
    Ok(())
}

fn listing(out: &mut impl Write, image: &[u8]) -> io::Result<()> {
    if 65536 < image.len() {
        return writeln!(out, "{}", Refusal::ImageLength);
    }
    match image::test_image(image) {
        Ok(found) => {
            let h = found.header;
            writeln!(
                out,
                "store level {} next {} pages {}",
                h.level, h.next, h.pages
            )?;
            for &e in found.entries.iter().take(h.pages as usize) {
                page(out, image, e)?;
            }
            Ok(())
        }
        Err(refusal) => writeln!(out, "{refusal}"),
    }
}

// What an image of at most 128 blocks holds, or the refusal's number, at the front of out: its length. What does not fit is left out. The
// longest listing has under 80,000 bytes.
pub fn list(image: &[u8], out: &mut [u8]) -> usize {
    let mut to = io::Cursor::new(out);
    // It fails only where out is full.
    let _ = listing(&mut to, image);
    to.position() as usize
}

// Reads an image, or the front of one that is too long, and prints its listing.
pub fn print(alloc: Global, input: impl Read + Drop, out: &mut impl Write) -> io::Result<()> {
    let mut image = Vec::new(alloc);
    input.take(65537).read_to_end(&mut image)?;
    let mut text = vec![in alloc; 0; 81920]?;
    let len = list(&image, &mut text);
    out.write_all(&text[..len.min(text.len())])
}
