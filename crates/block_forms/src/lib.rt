// The block forms: header, page and directory, each a value and 512 bytes.
#![tactic(auto)]

ghost use Rattle.std.specs.Prelude.{◌≡◌, [], ◌+◌, ◌<◌, ◌≤◌, length, take, drop, leb};
ghost use Rattle.basics.specs.Lists.{over};
ghost use Rattle.block_forms.specs.Limits.{block_size, payload_limit, record_space, join_sum, mark_value, entries_per_block, most_number};
ghost use Rattle.block_forms.specs.Numbers.{be4, num4};
ghost use Rattle.block_forms.specs.Tuple.{record_size, OwnerFits};
ghost use Rattle.block_forms.specs.Spell.{zeros};
ghost use Rattle.block_forms.specs.Block.{header, directory, DirectoryStart, encode_block};
ghost use Rattle.block_forms.specs.Decode.{read_owner, read_mark};
ghost use Rattle.block_forms.specs.Bytes.{owner_is, owner_as, flags_of, owner_word, Appendable, Appended, PageStart, part_page};

// A header block's fields.
#[derive(Clone, Copy, Debug, PartialEq, Eq)]
pub struct Header {
    pub blocks: u32,
    pub capacity: u32,
    pub level: u32,
    pub next: u32,
    pub pages: u32,
    pub directories: u32,
    pub d0: u32,
    pub d1: u32,
    pub d2: u32,
    pub d3: u32,
}

// Who owns a tuple: the committed mark, or its transaction and statement.
// An Option of two numbers would say no more, and not what None means: so it is an enum of its own.
#[derive(Clone, Copy, Debug, PartialEq, Eq)]
pub enum Owner {
    Committed,
    Tentative { transaction: u32, statement: u32 },
}

// A tuple whose payload stands in a block or in any other slice, from start on.
#[derive(Clone, Copy, Debug, PartialEq, Eq)]
pub struct Record {
    pub key: u32,
    pub number: u32,
    pub owner: Owner,
    pub mark: bool,
    pub start: usize,
    pub len: usize,
}

// A block's bytes.
pub const BLOCK_SIZE: usize = 512;

// An image has at most this many blocks.
pub const BLOCK_LIMIT: usize = 4096;

// Block numbers in every directory block but the last.
pub const ENTRIES_PER_BLOCK: usize = 336;

// The layout of a page: its numbers, and what a record takes of it.
#[derive(Clone, Copy)]
pub struct PageLayout {}

impl PageLayout {
    // A block has 504 bytes for records.
    pub const RECORD_SPACE: usize = 504;
    // Two pages are joined if their sizes sum to at most this.
    pub const JOIN_SUM: usize = 336;
    // A payload has at most this many bytes.
    pub const PAYLOAD_LIMIT: usize = 40;

    // A page's fields before its records.
    pub const HEAD_SIZE: usize = 8;
    // A record's key, number and ninth byte.
    pub const RECORD_HEAD: usize = 9;
    // The same and the owner's word.
    const TENTATIVE_HEAD: usize = PageLayout::RECORD_HEAD + 4;
    // The largest record: tentative, with the longest payload.
    pub const MOST_RECORD: usize = PageLayout::TENTATIVE_HEAD + PageLayout::PAYLOAD_LIMIT;

    // 9 bytes plus the payload, plus 4 if tentative.
    pub fn record_size(len: usize, tentative: bool) -> usize
        requires { len < mark_value }
        ensures { result ≡ record_size tentative len }
    {
        if tentative {
            PageLayout::TENTATIVE_HEAD + len
        } else {
            PageLayout::RECORD_HEAD + len
        }
    }

    // Records of this size have room in a block.
    pub fn fits(size: usize) -> bool
        ensures { result ≡ leb size record_space }
    {
        size <= PageLayout::RECORD_SPACE
    }

    // Pages of these sizes may be joined.
    pub fn joins(a: usize, b: usize) -> bool
        requires { a + b ≤ most_number }
        ensures { result ≡ leb (a + b) join_sum }
    {
        a + b <= PageLayout::JOIN_SUM
    }
}

// Four bytes, high byte first.
pub fn put4(block: &mut [u8], at: usize, v: u32)
    requires { at + 4 ≤ length block.old }
    ensures { block.new ≡ over block.old at (be4 v) }
{
    block[at..at + 4].copy_from_slice(&v.to_be_bytes());
}

// The number in four bytes, high byte first.
pub fn get4(block: &[u8], at: usize) -> u32
    requires { at + 4 ≤ length block.now }
    ensures { result ≡ num4 block.now at }
{
    u32::from_be_bytes([block[at], block[at + 1], block[at + 2], block[at + 3]])
}

// Copies len bytes of `from`, from start on, over those of `block` from `at` on. By a loop: where the length is not fixed, the library's copy
// becomes a call of `memmove`, which the archive for C would then need.
pub fn copy(block: &mut [u8], at: usize, from: &[u8], start: usize, len: usize)
    requires { (at + len ≤ length block.old) × (start + len ≤ length from.now) }
    ensures { block.new ≡ over block.old at (take len (drop start from.now)) }
{
    for i in 0..len {
        block[at + i] = from[start + i];
    }
}

// ---- a record's ninth byte and its owner's word

// A ninth byte means committed from this number on; the lower bits are the delete mark and the payload's length.
pub const COMMITTED: u8 = 128;

pub const MARK: u8 = 64;

// A transaction has 12 bits and a statement 20; an owner's word is the transaction times the statements, plus the statement.
pub const TRANSACTIONS: usize = 4096;

pub const STATEMENTS: u32 = 1048576;

// A record's ninth byte.
pub fn flags_of(owner: Owner, mark: bool, len: usize) -> u8
    requires { len ≤ payload_limit }
    ensures { result ≡ flags_of (owner_is owner) mark len }
{
    let mut flags = len as u8;
    if mark {
        flags = MARK + flags;
    }
    match owner {
        Owner::Committed => COMMITTED + flags,
        Owner::Tentative { .. } => flags,
    }
}

// An owner's four bytes as a number, 0 if committed.
pub fn word_of(owner: Owner) -> u32
    requires { OwnerFits (owner_is owner) }
    ensures { result ≡ owner_word (owner_is owner) }
{
    match owner {
        Owner::Committed => 0,
        Owner::Tentative {
            transaction,
            statement,
        } => transaction * STATEMENTS + statement,
    }
}

// The owner, from a record's ninth byte and the owner's word, which is not looked at if committed.
pub fn owner_of(flags: u8, word: u32) -> Owner
    ensures { result ≡ owner_as (read_owner flags word) }
{
    if flags < COMMITTED {
        Owner::Tentative {
            transaction: word / STATEMENTS,
            statement: word % STATEMENTS,
        }
    } else {
        Owner::Committed
    }
}

// The delete mark, from a record's ninth byte.
pub fn mark_of(flags: u8) -> bool
    ensures { result ≡ read_mark flags }
{
    MARK <= flags % COMMITTED
}

// ---- a page, filled from the front

// The head of a page that will have count tuples with the given record bytes, in a block of zeros.
pub fn begin_page(block: &mut [u8; BLOCK_SIZE], table: u32, count: u32, bytes: u32, level: u32)
    requires { PageStart block.old table count bytes }
    ensures { block.new ≡ part_page table level count bytes [] }
{
    put4(
        block,
        0,
        536870912 + table * 33554432 + count * 524288 + bytes * 1024 + level / 4194304,
    );
    put4(block, 4, level % 4194304 * 1024);
}

// Writes one more record of a page under construction, at the place `at`; the answer is the place behind it.
pub fn append(block: &mut [u8; BLOCK_SIZE], at: usize, r: Record, from: &[u8]) -> usize
    requires { Appendable at r from.now }
    ensures { Appended block.old block.new at r from.now result }
{
    put4(block, at, r.key);
    put4(block, at + 4, r.number);
    block[at + 8] = flags_of(r.owner, r.mark, r.len);
    let payload = match r.owner {
        Owner::Committed => at + PageLayout::RECORD_HEAD,
        Owner::Tentative { .. } => {
            put4(block, at + PageLayout::RECORD_HEAD, word_of(r.owner));
            at + PageLayout::TENTATIVE_HEAD
        }
    };
    block[payload..payload + r.len].copy_from_slice(&from[r.start..r.start + r.len]);
    payload + r.len
}

// Copies a whole block out.
pub fn copy_out(out: &mut [u8], block: &[u8])
    requires { (length out.old ≡ block_size) × (length block.now ≡ block_size) }
    ensures { out.new ≡ block.now }
{
    out.copy_from_slice(block);
}

// A directory's block, in a block of zeros, filled from the front.
pub fn spell_directory(block: &mut [u8], level: u32, entries: &[u16], count: usize)
    requires { DirectoryStart block.old entries.now count }
    ensures { block.new ≡ encode_block (directory level (take count entries.now)) }
{
    block_bits::put_bits(block, 0, 4, 3);
    block_bits::put_bits(block, 4, 9, count as u64);
    block_bits::put_bits(block, 13, 32, level as u64);
    block_bits::put_bits(block, 45, 19, 0);
    for (i, entry) in entries[..count].iter().enumerate() {
        block_bits::put_bits(block, 64 + 12 * i, 12, u64::from(*entry));
    }
}

// A header's block, in a block of zeros, by the table of widths.
pub fn spell_header(block: &mut [u8], h: Header)
    requires { (length block.old ≡ block_size) × (block.old ≡ zeros block_size) }
    ensures { block.new ≡ encode_block (header h) }
{
    let widths = [4u8, 13, 11, 32, 32, 11, 3, 12, 12, 12, 12];
    let values = [
        1u64,
        h.blocks as u64,
        h.capacity as u64,
        h.level as u64,
        h.next as u64,
        h.pages as u64,
        h.directories as u64,
        h.d0 as u64,
        h.d1 as u64,
        h.d2 as u64,
        h.d3 as u64,
    ];
    block_bits::put_fields(block, 0, &widths, &values);
}

// A header's block, built in zeros and copied out whole.
pub fn write_header(out: &mut [u8], h: Header)
    requires { length out.old ≡ block_size }
    ensures { out.new ≡ encode_block (header h) }
{
    let mut block = [0u8; BLOCK_SIZE];
    spell_header(&mut block, h);
    copy_out(out, &block);
}

// A directory's block, built in zeros and copied out whole.
pub fn write_directory(out: &mut [u8], level: u32, entries: &[u16])
    requires { (length out.old ≡ block_size) × (length entries.now ≤ entries_per_block) }
    ensures { out.new ≡ encode_block (directory level entries.now) }
{
    let mut block = [0u8; BLOCK_SIZE];
    spell_directory(&mut block, level, entries, entries.len());
    copy_out(out, &block);
}
