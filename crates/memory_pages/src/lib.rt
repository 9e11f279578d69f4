// The page entries of the working memory: two columns, first rows and blocks, and the ends of the tables in the head. A page's table and
// how many rows it has are not stored: they follow from the ends and the first rows. docs/LAYOUT.md says what stands where.
// Each function that changes the memory promises one equation on the flat lists that it holds.
#![tactic(auto)]

ghost use Rattle.std.specs.Prelude.{◌≡◌, ◌+◌, ◌*◌, ◌≤◌, ◌<◌, length, drop};
ghost use Rattle.block_forms.specs.Limits.{block_limit};
ghost use Rattle.basics.specs.Basics.{any, how_many};
ghost use Rattle.memory_bytes.specs.Bytes.{column2};
ghost use Rattle.basics.specs.Lists.{tab, first_index, insert_at, remove_at};
ghost use Rattle.memory_layout.specs.Places.{starts_at, blocks_at};
ghost use Rattle.memory_layout.specs.Views.{start_at, block_word};
ghost use Rattle.memory_layout.specs.Flat.{flat_of, capacity_of, Room, entry_in};
ghost use Rattle.memory_layout.specs.Store.{start_of};
ghost use Rattle.memory_rows.specs.Rows.{NewRow, held_by};
ghost use Rattle.memory_rows.specs.Cells.{InOrder};
ghost use Rattle.memory_pages.specs.Columns.{Inserted2, Removed2, Opened, Closed, MayOpen, MayClose};
ghost use Rattle.memory_pages.specs.Pages.{TableFrom, OnPages, PageOf, MaySplit, MayJoin, MayLose, MaySet, MayInsert, MayRemove, word_of, dirty, set_block, split_entry, join_entries, more_rows, fewer_rows, EntriesBecome, RowsBecome, frozen_word, Passed, frozen_entry, dirty_entry, PageBehind, RowBehind, clean, behind, more_last};

use memory_layout::places::{HEAD_SIZE, PAGE_BLOCKS, STARTS, TABLE_ENDS};
use memory_layout::{capacity, page_count, row_count};
use memory_rows::Row;

const TABLES: usize = 8;

const LAST_TABLE: usize = 7;

// What is added to a block's number if its page is frozen.
const FROZEN: u16 = block_forms::BLOCK_LIMIT as u16;

// ---- places

// Where the first rows of the pages stand.
fn starts(m: &[u8]) -> usize
    requires { Room m.now }
    ensures { result ≡ starts_at (capacity_of m.now) }
{
    HEAD_SIZE + capacity(m) * STARTS
}

// Where the blocks of the pages stand.
fn blocks(m: &[u8]) -> usize
    requires { Room m.now }
    ensures { result ≡ blocks_at (capacity_of m.now) }
{
    HEAD_SIZE + capacity(m) * PAGE_BLOCKS
}

// ---- a page's fields

// The row with which page p starts, as it is stored; behind the last page, how many rows there are.
fn start_at(m: &[u8], p: usize) -> usize
    requires { Room m.now }
    ensures { result ≡ start_at m.now (capacity_of m.now) p }
{
    if p < page_count(m) {
        memory_bytes::get2(m, starts(m) + p * 2) as usize
    } else {
        row_count(m)
    }
}

// The row with which page p starts: how many rows the pages before it have.
pub fn start_of(m: &[u8], p: usize) -> usize
    requires { Room m.now × (p ≤ length (flat_of m.now).entries) }
    ensures { (result ≡ start_of (flat_of m.now) p) × (result ≤ length (flat_of m.now).rows) }
{
    start_at(m, p)
}

// The two bytes of page p that name its block and say whether it is frozen.
fn block_word(m: &[u8], p: usize) -> u16
    requires { Room m.now × (p < length (flat_of m.now).entries) }
    ensures { result ≡ block_word m.now (capacity_of m.now) p }
{
    memory_bytes::get2(m, blocks(m) + p * 2)
}

// Whether page p is frozen, that is still to be written.
pub fn frozen_at(m: &[u8], p: usize) -> bool
    requires { Room m.now × (p < length (flat_of m.now).entries) }
    ensures { result ≡ (entry_in (flat_of m.now) p).frozen }
{
    block_word(m, p) / FROZEN % 2 == 1
}

// The block of page p, 0 if it is dirty.
pub fn block_at(m: &[u8], p: usize) -> u16
    requires { Room m.now × (p < length (flat_of m.now).entries) }
    ensures { result ≡ (entry_in (flat_of m.now) p).block }
{
    block_word(m, p) % FROZEN
}

// ---- tables

// The first page of table t; if it has none, that of the next table that has, or how many pages there are.
pub fn table_start(m: &[u8], t: usize) -> usize
    requires { Room m.now × (t ≤ 8) }
    ensures { TableFrom (flat_of m.now) t result }
{
    if t == 0 {
        0
    } else {
        memory_bytes::get2(m, TABLE_ENDS + (t - 1) * 2) as usize
    }
}

// The table of page p: how many tables end at or before it.
pub fn table_of(m: &[u8], p: usize) -> u8
    requires { Room m.now × (p < length (flat_of m.now).entries) }
    ensures { (result ≡ (entry_in (flat_of m.now) p).table) × (result < 8) }
{
    memory_bytes::count_up_to2(m, TABLE_ENDS, 0, LAST_TABLE, p as u16) as u8
}

// The page, of those from page a up to, not including, page b, that has row i: the last one that starts at or before it.
pub fn page_of(m: &[u8], a: usize, b: usize, i: usize) -> usize
    requires { Room m.now × OnPages (flat_of m.now) a b i }
    ensures { PageOf (flat_of m.now) a b i result }
{
    a + memory_bytes::count_up_to2(m, starts(m), a, b, i as u16) - 1
}

// ---- columns

// x is put before number i of the n numbers of two bytes from base on.
fn insert2(m: &mut [u8], base: usize, i: usize, n: usize, x: u16)
    requires { (i ≤ n) × (base + n * 2 + 2 ≤ length m.old) }
    ensures { Inserted2 m.old m.new base i n x }
{
    memory_bytes::raise(m, base + i * 2, base + n * 2, 2);
    memory_bytes::put2(m, base + i * 2, x);
}

// Number i of the n numbers of two bytes from base on is taken out.
fn remove2(m: &mut [u8], base: usize, i: usize, n: usize)
    requires { (i < n) × (base + n * 2 ≤ length m.old) }
    ensures { Removed2 m.old m.new base i n }
{
    memory_bytes::lower(m, base + i * 2, base + n * 2, 2);
}

// Opens a page of the table before page p: it starts at row `start` and has no block.
fn open_page(m: &mut [u8], p: usize, table: usize, start: u16)
    requires { Room m.old × MayOpen m.old p table }
    ensures { Opened m.old m.new p table start }
{
    let n = page_count(m);
    let s = starts(m);
    let b = blocks(m);
    insert2(m, s, p, n, start);
    insert2(m, b, p, n, 0);
    memory_bytes::add2(m, TABLE_ENDS, table, TABLES, true);
}

// Page p, of the table, is taken out; its rows are then on the page before it.
fn close_page(m: &mut [u8], p: usize, table: usize)
    requires { Room m.old × MayClose m.old p table }
    ensures { Closed m.old m.new p table }
{
    let n = page_count(m);
    let s = starts(m);
    let b = blocks(m);
    remove2(m, s, p, n);
    remove2(m, b, p, n);
    memory_bytes::add2(m, TABLE_ENDS, table, TABLES, false);
}

// ---- pages changed

// The two bytes of a page that name its block and say whether it is frozen.
fn word(block: u16, frozen: bool) -> u16
    requires { block < block_limit }
    ensures { result ≡ word_of block frozen }
{
    if frozen { block + FROZEN } else { block }
}

// Page p is in this block, and frozen or not.
pub fn set_page(m: &mut [u8], p: usize, block: u16, frozen: bool)
    requires { Room m.old × MaySet (flat_of m.old) p block }
    ensures { EntriesBecome m.old m.new (set_block p block frozen) }
{
    let a = blocks(m) + p * 2;
    memory_bytes::put2(m, a, word(block, frozen));
}

// Puts an empty page of the table, in no block, before page p.
pub fn insert_page(m: &mut [u8], p: usize, table: u8)
    requires { Room m.old × MayInsert (flat_of m.old) p table }
    ensures { EntriesBecome m.old m.new (insert_at p (dirty table 0)) }
{
    let start = start_at(m, p) as u16;
    open_page(m, p, table as usize, start);
}

// Puts a page of the table, in this block, behind all others: it has no row yet, and no row is moved.
pub fn append_page(m: &mut [u8], table: u8, block: u16)
    requires { PageBehind m.old table block }
    ensures { EntriesBecome m.old m.new (behind (clean table block 0)) × InOrder m.new }
{
    let n = page_count(m);
    let start = row_count(m) as u16;
    open_page(m, n, table as usize, start);
    let a = blocks(m) + n * 2;
    memory_bytes::put2(m, a, block);
}

// Page p, which has no row, is taken out.
pub fn remove_page(m: &mut [u8], p: usize)
    requires { Room m.old × MayRemove (flat_of m.old) p }
    ensures { EntriesBecome m.old m.new (remove_at p) }
{
    let table = table_of(m, p) as usize;
    close_page(m, p, table);
}

// Page p becomes two pages, the first with k rows. Both are in no block.
pub fn split_page(m: &mut [u8], p: usize, k: u16)
    requires { Room m.old × MaySplit (flat_of m.old) p k }
    ensures { EntriesBecome m.old m.new (split_entry p k) }
{
    let table = table_of(m, p) as usize;
    let start = start_at(m, p) as u16;
    set_page(m, p, 0, false);
    open_page(m, p + 1, table, start + k);
}

// Page p and the next one become one page, in no block.
pub fn join_pages(m: &mut [u8], p: usize)
    requires { Room m.old × MayJoin (flat_of m.old) p }
    ensures { EntriesBecome m.old m.new (join_entries p) }
{
    let table = table_of(m, p) as usize;
    set_page(m, p, 0, false);
    close_page(m, p + 1, table);
}

// ---- rows put in and taken out

// The row, with its payload, becomes row i, and page p has one row more: the pages behind it start one row later.
pub fn insert_row(m: &mut [u8], p: usize, i: usize, row: Row, payload: &[u8])
    requires { NewRow m.old i row payload.now × (p < length (flat_of m.old).entries) }
    ensures { RowsBecome m.old m.new (insert_at i (held_by row payload.now)) (more_rows p) }
{
    let s = starts(m);
    let n = page_count(m);
    memory_rows::insert_row(m, i, row, payload);
    memory_bytes::add2(m, s, p + 1, n, true);
}

// The row, with its payload, behind all others: the last page has one row more. No other page starts elsewhere.
pub fn append_row(m: &mut [u8], row: Row, payload: &[u8])
    requires { RowBehind m.old row payload.now }
    ensures { RowsBecome m.old m.new (behind (held_by row payload.now)) more_last × InOrder m.new }
{
    memory_rows::append_row(m, row, payload);
}

// Row i is taken out, and page p has one row less: the pages behind it start one row earlier.
pub fn remove_row(m: &mut [u8], p: usize, i: usize)
    requires { Room m.old × MayLose (flat_of m.old) p i }
    ensures { RowsBecome m.old m.new (remove_at i) (fewer_rows p) }
{
    let s = starts(m);
    let n = page_count(m);
    memory_rows::remove_row(m, i);
    memory_bytes::add2(m, s, p + 1, n, false);
}

// ---- frozen pages found

// Whether one of the 16 numbers of two bytes from byte at on is that of a frozen page.
fn any_frozen(m: &[u8], at: usize) -> bool
    requires { at + 32 ≤ length m.now }
    ensures { result ≡ any frozen_word (tab (column2 m.now at) 0 16) }
{
    let mut hit = false;
    for j in 0..16 {
        hit |= memory_bytes::get2(m, at + j * 2) / FROZEN % 2 == 1;
    }
    hit
}

// Where a search of n pages for a frozen one may start, their blocks standing at base: whole groups without one are passed over.
fn pass_groups(m: &[u8], base: usize, n: usize) -> usize
    requires { base + n * 2 ≤ length m.now }
    ensures { Passed (column2 m.now base) n result }
{
    for g in 0..n / 16 {
        let p = g * 16;
        if any_frozen(m, base + p * 2) {
            return p;
        }
    }
    n / 16 * 16
}

// The first frozen page, or how many pages there are: by groups, since nearly all pages are not frozen.
pub fn first_frozen(m: &[u8]) -> usize
    requires { Room m.now }
    ensures { result ≡ first_index frozen_entry (flat_of m.now).entries }
{
    let n = page_count(m);
    let base = blocks(m);
    for p in pass_groups(m, base, n)..n {
        if memory_bytes::get2(m, base + p * 2) / FROZEN % 2 == 1 {
            return p;
        }
    }
    n
}

// ---- pages counted: one pass over the blocks without a branch

// How many pages, from this one on, are frozen. They are counted in 16 bits, like what is read, so that no lane of a vector is wider.
pub fn count_frozen(m: &[u8], from: usize) -> usize
    requires { Room m.now × (from ≤ length (flat_of m.now).entries) }
    ensures { result ≡ how_many frozen_entry (drop from (flat_of m.now).entries) }
{
    let n = page_count(m);
    let mut k: u16 = 0;
    for p in from..n {
        k += u16::from(frozen_at(m, p));
    }
    usize::from(k)
}

// How many pages are dirty.
pub fn count_dirty(m: &[u8]) -> usize
    requires { Room m.now }
    ensures { result ≡ how_many dirty_entry (flat_of m.now).entries }
{
    let n = page_count(m);
    let mut k: u16 = 0;
    for p in 0..n {
        k += u16::from(block_at(m, p) == 0);
    }
    usize::from(k)
}
