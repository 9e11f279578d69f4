// The blocks that a checkpoint stores, from the working memory: each is built in zeros and copied out whole.
#![tactic(auto)]

ghost use Rattle.std.specs.Prelude.{◌≡◌, not, ◌+◌, ◌*◌, ◌-◌, ◌<◌, length, take, drop, get_or};
ghost use Rattle.block_forms.specs.Block.{header, page, directory, encode_block};
ghost use Rattle.model.specs.Rules.{is_adding, shown};
ghost use Rattle.model.specs.Checkpoint.{storable, block_entries};
ghost use Rattle.memory_layout.specs.Flat.{flat_of, row_in, Room};
ghost use Rattle.engine_writer.specs.Written.{next_header, HeaderInto, EntriesFrom, DirectoryInto, Spells, Measures, PageInto, Fillable};
ghost use Rattle.memory_layout.specs.Elements.{rows_from, RowRange};

// ---- the header

// The number of directory block i, 0 if there is none.
fn directory_number(m: &[u8], i: usize) -> u32
    requires { Room m.now }
    ensures { result ≡ get_or (flat_of m.now).directories i 0 }
{
    let n = memory_layout::get_counts(m).directories as usize;
    if i < n {
        memory_layout::get_directory(m, i)
    } else {
        0
    }
}

// The header to come, as the memory has it.
pub fn write_header(out: &mut [u8], m: &[u8])
    requires { Room m.now × HeaderInto out.old (flat_of m.now) }
    ensures { out.new ≡ encode_block (header (next_header (flat_of m.now))) }
{
    let h = memory_layout::get_head(m);
    let c = memory_layout::get_counts(m);
    let block = block_forms::Header {
        blocks: h.blocks,
        capacity: h.capacity,
        level: h.level + 1,
        next: h.begun,
        pages: c.named,
        directories: c.directories,
        d0: directory_number(m, 0),
        d1: directory_number(m, 1),
        d2: directory_number(m, 2),
        d3: directory_number(m, 3),
    };
    block_forms::write_header(out, block);
}

// ---- the directory

// As many entries as `count` says of the list of pages at begin, from the entry `first` on.
fn named_from(m: &[u8], first: usize, count: usize) -> [u16; block_forms::ENTRIES_PER_BLOCK]
    requires { Room m.now × EntriesFrom (flat_of m.now) first count }
    ensures { take count result ≡ take count (drop first (flat_of m.now).named) }
{
    let mut entries = [0u16; block_forms::ENTRIES_PER_BLOCK];
    for i in 0..count {
        entries[i] = memory_layout::get_named(m, first + i);
    }
    entries
}

// Directory block k of the list of pages at begin.
pub fn write_directory(out: &mut [u8], m: &[u8], k: usize, level: u32)
    requires { Room m.now × DirectoryInto out.old (flat_of m.now) k }
    ensures { out.new ≡ encode_block (directory level (block_entries k (flat_of m.now).named)) }
{
    let c = memory_layout::get_counts(m);
    let first = block_forms::ENTRIES_PER_BLOCK * k;
    let count = (c.named as usize - first).min(block_forms::ENTRIES_PER_BLOCK);
    let entries = named_from(m, first, count);
    block_forms::write_directory(out, level, &entries[0..count]);
}

// ---- a page

// A pending add is no part of the image; every other row is shown as it was when its page was frozen.
fn is_shown(m: &[u8], i: usize) -> bool
    requires { Room m.now × (i < length (flat_of m.now).rows) }
    ensures { result ≡ not (is_adding (row_in (flat_of m.now) i).pending) }
{
    !memory_rows::is_adding(m, i)
}

// Row i as a record. A pending commit or removal is not looked at.
fn record_at(m: &[u8], i: usize) -> block_forms::Record
    requires { Room m.now × (i < length (flat_of m.now).rows) }
    ensures { Spells m.now result (row_in (flat_of m.now) i).tuple }
{
    let p = memory_rows::payload_at(m, i);
    let owner = memory_rows::owner_at(m, i);
    block_forms::Record {
        key: memory_rows::key_at(m, i),
        number: memory_rows::number_at(m, i),
        owner,
        mark: memory_rows::mark_at(m, i),
        start: p.start,
        len: p.len,
    }
}

// What a page shows: how many tuples, and how many bytes their records take.
#[derive(Clone, Copy)]
struct Shown {
    count: u32,
    bytes: usize,
}

// What the rows from row s up to, not including, row e show.
fn measure(m: &[u8], s: usize, e: usize) -> Shown
    requires { RowRange m.now s e }
    ensures { Measures result (shown (rows_from m.now s e)) }
{
    let mut count: u32 = 0;
    let mut bytes: usize = 0;
    for i in s..e {
        let size = memory_rows::size_at(m, i);
        if is_shown(m, i) {
            count += 1;
            bytes += size;
        }
    }
    Shown { count, bytes }
}

// The page of what these rows show, in a block of zeros: its head, then record after record.
fn fill_page(
    block: &mut [u8; block_forms::BLOCK_SIZE],
    m: &[u8],
    table: u8,
    s: usize,
    e: usize,
    level: u32,
    w: Shown,
)
    requires { Fillable block.old m.now table s e w }
    ensures { block.new ≡ encode_block (page table level (shown (rows_from m.now s e))) }
{
    block_forms::begin_page(block, table as u32, w.count, w.bytes as u32, level);
    let mut at: usize = block_forms::PageLayout::HEAD_SIZE;
    for i in s..e {
        if is_shown(m, i) {
            let r = record_at(m, i);
            at = block_forms::append(block, at, r, m);
        }
    }
}

// The block of a page whose rows go from row s up to, not including, row e: what it showed when it was frozen, and nothing if that is
// more than a block has room for.
pub fn write_page(out: &mut [u8], m: &[u8], table: u8, s: usize, e: usize, level: u32)
    requires { PageInto out.old m.now table s e }
    ensures { out.new ≡ encode_block (page table level (storable (shown (rows_from m.now s e)))) }
{
    let w = measure(m, s, e);
    let mut block = [0u8; block_forms::BLOCK_SIZE];
    if block_forms::PageLayout::fits(w.bytes) {
        fill_page(&mut block, m, table, s, e, level, w);
    } else {
        block_forms::begin_page(&mut block, table as u32, 0, 0, level);
    }
    block_forms::copy_out(out, &block);
}
