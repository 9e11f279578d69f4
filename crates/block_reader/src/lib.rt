// What 512 bytes are as a block: its fields are read, spelled again and compared; and a page, record by record.
#![tactic(auto)]

ghost use Rattle.std.specs.Prelude.{◌≡◌, true, ◌+◌, ◌*◌, ◌≤◌, length, take};
ghost use Rattle.block_bits.specs.Bits.{bits_in, field};
ghost use Rattle.block_forms.specs.Limits.{block_size, page_head_size, entries_per_block};
ghost use Rattle.block_forms.specs.Decode.{read_header, read_entries, header_in, page_in, directory_in, decode_block};
ghost use Rattle.block_reader.specs.Answers.{next_at, is_page, reading};

use block_forms::{Header, PageLayout, Record};

// A record that starts behind this place has no room for its ninth byte.
const LAST_RECORD: usize = block_forms::BLOCK_SIZE - PageLayout::RECORD_HEAD;

// A place in a page's block, before a record.
#[derive(Clone, Copy)]
pub struct Cursor {
    pub at: usize,
}

// What a page's head says.
#[derive(Clone, Copy)]
pub struct PageHead {
    pub table: u32,
    pub count: u32,
    pub level: u32,
}

// What a block is. A page's tuples and a directory's entries stay in the block.
#[derive(Clone, Copy)]
pub enum Block {
    Header(Header),
    Page(PageHead),
    Directory { count: usize, level: u32 },
}

impl Cursor {
    // Before a page's first record.
    pub fn first() -> Self
        ensures { result.at ≡ page_head_size }
    {
        Self {
            at: PageLayout::HEAD_SIZE,
        }
    }

    // The record at the cursor, if a whole one is there, and the cursor behind it.
    pub fn next(self, block: &[u8]) -> Option<(Record, Cursor)>
        requires { length block.now ≡ block_size }
        ensures { result ≡ next_at block.now self.at }
    {
        let at = self.at;
        if LAST_RECORD < at {
            return None;
        }
        let flags = block[at + 8];
        let len = (flags % block_forms::MARK) as usize;
        if PageLayout::PAYLOAD_LIMIT < len {
            return None;
        }
        let tentative = flags < block_forms::COMMITTED;
        let end = at + PageLayout::record_size(len, tentative);
        if block_forms::BLOCK_SIZE < end {
            return None;
        }
        let word = if tentative {
            block_forms::get4(block, at + PageLayout::RECORD_HEAD)
        } else {
            0
        };
        let found = Record {
            key: block_forms::get4(block, at),
            number: block_forms::get4(block, at + 4),
            owner: block_forms::owner_of(flags, word),
            mark: block_forms::mark_of(flags),
            start: end - len,
            len,
        };
        Some((found, Cursor { at: end }))
    }
}

// The number in at most 32 bits of a block.
fn get32(block: &[u8; block_forms::BLOCK_SIZE], at: usize, width: usize) -> u32
    requires { (at + width ≤ 8 * block_size) × (width ≤ 32) }
    ensures { result ≡ field (bits_in block.now) at width }
{
    block_bits::get_bits(block, at, width) as u32
}

// The page that a block spells: its head and then its records, one by one, are copied into an empty block, and the two are compared.
fn read_page(block: &[u8; block_forms::BLOCK_SIZE]) -> Option<Block>
    ensures { result ≡ reading (page_in block.now) }
{
    let table = get32(block, 4, 3);
    let count = get32(block, 7, 6);
    let bytes = get32(block, 13, 9);
    let level = get32(block, 22, 32);
    let mut copy = [0u8; block_forms::BLOCK_SIZE];
    block_forms::begin_page(&mut copy, table, count, bytes, level);
    let mut at = PageLayout::HEAD_SIZE;
    for _ in 0..count {
        let (r, _) = Cursor { at }.next(block)?;
        at = block_forms::append(&mut copy, at, r, block);
    }
    if at != PageLayout::HEAD_SIZE + bytes as usize || copy != *block {
        return None;
    }
    Some(Block::Page(PageHead {
        table,
        count,
        level,
    }))
}

// The entries of a directory's block, as many as count says; the array is for the most that there may be, since the store has no heap.
pub fn read_entries(
    block: &[u8; block_forms::BLOCK_SIZE],
    count: usize,
) -> [u16; block_forms::ENTRIES_PER_BLOCK]
    requires { count ≤ entries_per_block }
    ensures { take count result ≡ read_entries block.now 64 count }
{
    let mut out = [0u16; block_forms::ENTRIES_PER_BLOCK];
    for i in 0..count {
        out[i] = block_bits::get_bits(block, 64 + 12 * i, 12) as u16;
    }
    out
}

// The directory that a block spells: its fields are read and spelled again, and the two blocks are compared.
fn read_directory(block: &[u8; block_forms::BLOCK_SIZE]) -> Option<Block>
    ensures { result ≡ reading (directory_in block.now) }
{
    let count = block_bits::get_bits(block, 4, 9) as usize;
    if block_forms::ENTRIES_PER_BLOCK < count {
        return None;
    }
    let level = get32(block, 13, 32);
    let entries = read_entries(block, count);
    let mut copy = [0u8; block_forms::BLOCK_SIZE];
    block_forms::spell_directory(&mut copy, level, &entries, count);
    if copy != *block {
        return None;
    }
    Some(Block::Directory { count, level })
}

// The fields of a header's block.
fn get_header(block: &[u8; block_forms::BLOCK_SIZE]) -> Header
    ensures { result ≡ read_header block.now }
{
    Header {
        blocks: get32(block, 4, 13),
        capacity: get32(block, 17, 11),
        level: get32(block, 28, 32),
        next: get32(block, 60, 32),
        pages: get32(block, 92, 11),
        directories: get32(block, 103, 3),
        d0: get32(block, 106, 12),
        d1: get32(block, 118, 12),
        d2: get32(block, 130, 12),
        d3: get32(block, 142, 12),
    }
}

// The header that a block spells: its fields are read and spelled again, and the two blocks are compared.
fn read_header(block: &[u8; block_forms::BLOCK_SIZE]) -> Option<Block>
    ensures { result ≡ reading (header_in block.now) }
{
    let h = get_header(block);
    let mut copy = [0u8; block_forms::BLOCK_SIZE];
    block_forms::spell_header(&mut copy, h);
    if copy != *block {
        return None;
    }
    Some(Block::Header(h))
}

// The head of a block that is known to be a page: nothing is tested.
pub fn known_page(block: &[u8; block_forms::BLOCK_SIZE]) -> PageHead
    requires { is_page (decode_block block.now) ≡ true }
    ensures { Some (Block.Page result) ≡ reading (decode_block block.now) }
{
    PageHead {
        table: get32(block, 4, 3),
        count: get32(block, 7, 6),
        level: get32(block, 22, 32),
    }
}

// What a block is: by its first four bits a header, a page or a directory, and any other is refused.
pub fn read_block(block: &[u8; block_forms::BLOCK_SIZE]) -> Option<Block>
    ensures { result ≡ reading (decode_block block.now) }
{
    let kind = get32(block, 0, 4);
    match kind {
        1 => read_header(block),
        2 => read_page(block),
        3 => read_directory(block),
        0 | 4..=15 => None,
        _ => None,
    }
}
