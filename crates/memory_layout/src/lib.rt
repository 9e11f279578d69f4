// The layout of the working memory: a head of 1,024 bytes, then columns whose places go by the capacity. docs/LAYOUT.md says what
// stands where. This crate has the test of refusal 4, the head and the lists that stand in it; rows and pages have crates of their own.
// Each function that changes the memory promises one equation on the flat lists that it holds.
#![tactic(auto)]

pub mod places;
mod ranges;

ghost use Rattle.std.specs.Prelude.{◌≡◌, false, ◌∷◌, [], ◌++◌, ◌+◌, ◌*◌, ◌≤◌, ◌<◌, length, get_or, set};
ghost use Rattle.std.proofs.Math.Option.{some};
ghost use Rattle.image.specs.Stages.{capacity_limit};
ghost use Rattle.block_forms.specs.Limits.{block_limit};
ghost use Rattle.model.specs.Recover.{fresh_store, memory_for};
ghost use Rattle.model.specs.Checkpoint.{used_and};
ghost use Rattle.memory_bytes.specs.Bytes.{Apart};
ghost use Rattle.basics.specs.Lists.{remove_at};
ghost use Rattle.memory_layout.specs.Views.{head_of, counts_of, page_count};
ghost use Rattle.memory_layout.specs.Flat.{flat_of, Capacity, Room, Replaces, Becomes, with_head, with_opens, with_named, with_directories, with_used, no_open};
ghost use Rattle.memory_layout.specs.Opens.{active_of, find_open, OpenFits};
ghost use Rattle.memory_layout.specs.Elements.{OpenAt, OpenMore, NamedAt, NamedMore, DirectoryMore};
ghost use Rattle.memory_layout.specs.Store.{holds_store, FreshFits, fresh_flat, store_in};
ghost use Rattle.memory_layout.specs.Places.{head_size, named_at, refs_at};

use ranges::{in_range, starts_rise, tables_rise};

// An open transaction is stored as its number times this, plus how many tuples it has written.
const STATEMENTS: u32 = block_forms::STATEMENTS;

// The largest capacity, and how many bytes of memory each row of it takes.
pub const CAPACITY_LIMIT: u32 = image_rows::ROWS as u32;

pub const ROW_SPACE: usize = 128;

// At most so many blocks, open transactions and directory blocks.
pub const BLOCK_LIMIT: u32 = block_forms::BLOCK_LIMIT as u32;

pub const OPEN_LIMIT: u32 = image_rows::OPEN_LIMIT as u32;

const DIRECTORY_LIMIT: u32 = 4;

// A directory entry's two bytes, modulo this, are its block.
const ENTRY_BLOCKS: u16 = block_forms::BLOCK_LIMIT as u16;

// The numbers of the head that are no counts. begun: the next number at begin; taken: the block last taken.
#[derive(Clone, Copy)]
pub struct Head {
    pub capacity: u32,
    pub blocks: u32,
    pub level: u32,
    pub next: u32,
    pub running: bool,
    pub begun: u32,
    pub taken: u32,
}

// How many rows, pages, open transactions, directory entries and directory blocks written there are.
#[derive(Clone, Copy)]
pub struct Counts {
    pub rows: u32,
    pub pages: u16,
    pub opens: u32,
    pub named: u32,
    pub directories: u32,
}

// A page: its table, how many rows it has, its block, 0 if it is dirty.
#[derive(Clone, Copy)]
pub struct Entry {
    pub table: u8,
    pub frozen: bool,
    pub count: u16,
    pub block: u16,
}

// An open transaction, and how many tuples it has written.
#[derive(Clone, Copy)]
pub struct Open {
    pub transaction: u32,
    pub written: u32,
}

// ---- the head

pub fn get_head(m: &[u8]) -> Head
    requires { head_size ≤ length m.now }
    ensures { result ≡ head_of m.now }
{
    Head {
        capacity: memory_bytes::get4(m, places::CAPACITY),
        blocks: memory_bytes::get4(m, places::BLOCKS),
        level: memory_bytes::get4(m, places::LEVEL),
        next: memory_bytes::get4(m, places::NEXT),
        running: memory_bytes::get4(m, places::RUNNING) != 0,
        begun: memory_bytes::get4(m, places::BEGUN),
        taken: memory_bytes::get4(m, places::TAKEN),
    }
}

pub fn get_counts(m: &[u8]) -> Counts
    requires { head_size ≤ length m.now }
    ensures { result ≡ counts_of m.now }
{
    Counts {
        rows: memory_bytes::get4(m, places::ROW_COUNT),
        pages: memory_bytes::get2(m, places::PAGE_COUNT),
        opens: memory_bytes::get4(m, places::OPEN_COUNT),
        named: memory_bytes::get4(m, places::NAMED_COUNT),
        directories: memory_bytes::get4(m, places::DIRECTORY_COUNT),
    }
}

// How many rows there is room for.
pub fn capacity(m: &[u8]) -> usize
    requires { Room m.now }
    ensures { Capacity m.now result }
{
    memory_bytes::get4(m, places::CAPACITY) as usize
}

// How many rows there are.
pub fn row_count(m: &[u8]) -> usize
    requires { Room m.now }
    ensures { result ≡ length (flat_of m.now).rows }
{
    memory_bytes::get4(m, places::ROW_COUNT) as usize
}

// How many pages there are: where the last table ends.
pub fn page_count(m: &[u8]) -> usize
    requires { Room m.now }
    ensures { result ≡ page_count m.now }
{
    memory_bytes::get2(m, places::PAGE_COUNT) as usize
}

// Writes every number of the head that is no count; the counts stay as they are.
pub fn put_head(m: &mut [u8], h: Head)
    requires { Room m.old × Replaces (flat_of m.old).head h }
    ensures { Becomes m.old m.new (with_head (flat_of m.old) h) }
{
    memory_bytes::put4(m, places::CAPACITY, h.capacity);
    memory_bytes::put4(m, places::BLOCKS, h.blocks);
    memory_bytes::put4(m, places::LEVEL, h.level);
    memory_bytes::put4(m, places::NEXT, h.next);
    memory_bytes::put4(m, places::RUNNING, u32::from(h.running));
    memory_bytes::put4(m, places::BEGUN, h.begun);
    memory_bytes::put4(m, places::TAKEN, h.taken);
}

// ---- open transactions, in the order in which they opened

pub fn get_open(m: &[u8], i: usize) -> Open
    requires { Room m.now × (i < length (flat_of m.now).opens) }
    ensures { (active_of result ≡ get_or (flat_of m.now).opens i no_open) × OpenFits result }
{
    let w = memory_bytes::get4(m, places::OPENS + i * 4);
    Open {
        transaction: w / STATEMENTS,
        written: w % STATEMENTS,
    }
}

// The place of the transaction's first open entry, or how many are open.
pub fn find_open(m: &[u8], transaction: u64) -> usize
    requires { Room m.now }
    ensures { result ≡ find_open transaction (flat_of m.now).opens }
{
    let n = memory_bytes::get4(m, places::OPEN_COUNT) as usize;
    for i in 0..n {
        let t = (memory_bytes::get4(m, places::OPENS + i * 4) / STATEMENTS) as u64;
        if t == transaction {
            return i;
        }
    }
    n
}

pub fn put_open(m: &mut [u8], i: usize, o: Open)
    requires { Room m.old × OpenAt (flat_of m.old) i o }
    ensures { Becomes m.old m.new (with_opens (flat_of m.old) (set (flat_of m.old).opens i (active_of o))) }
{
    memory_bytes::put4(
        m,
        places::OPENS + i * 4,
        o.transaction * STATEMENTS + o.written,
    );
}

pub fn push_open(m: &mut [u8], o: Open)
    requires { Room m.old × OpenMore (flat_of m.old) o }
    ensures { Becomes m.old m.new (with_opens (flat_of m.old) ((flat_of m.old).opens ++ active_of o ∷ [])) }
{
    let n = memory_bytes::get4(m, places::OPEN_COUNT);
    let i = n as usize;
    memory_bytes::put4(
        m,
        places::OPENS + i * 4,
        o.transaction * STATEMENTS + o.written,
    );
    memory_bytes::put4(m, places::OPEN_COUNT, n + 1);
}

pub fn remove_open(m: &mut [u8], i: usize)
    requires { Room m.old × (i < length (flat_of m.old).opens) }
    ensures { Becomes m.old m.new (with_opens (flat_of m.old) (remove_at i (flat_of m.old).opens)) }
{
    let n = memory_bytes::get4(m, places::OPEN_COUNT);
    let e = n as usize;
    memory_bytes::lower(m, places::OPENS + i * 4, places::OPENS + e * 4, 4);
    memory_bytes::put4(m, places::OPEN_COUNT, n - 1);
}

// ---- directory entries

fn named_place(m: &[u8], i: usize) -> usize
    requires { Room m.now × (i < capacity_limit) }
    ensures { result ≡ named_at (head_of m.now).capacity + i * 2 }
{
    places::HEAD_SIZE + capacity(m) * places::NAMED + i * 2
}

pub fn get_named(m: &[u8], i: usize) -> u16
    requires { Room m.now × (i < length (flat_of m.now).named) }
    ensures { result ≡ get_or (flat_of m.now).named i 0 }
{
    memory_bytes::get2(m, named_place(m, i)) % ENTRY_BLOCKS
}

pub fn put_named(m: &mut [u8], i: usize, b: u16)
    requires { Room m.old × NamedAt (flat_of m.old) i b }
    ensures { Becomes m.old m.new (with_named (flat_of m.old) (set (flat_of m.old).named i b)) }
{
    let a = named_place(m, i);
    memory_bytes::put2(m, a, b);
}

pub fn push_named(m: &mut [u8], b: u16)
    requires { Room m.old × NamedMore (flat_of m.old) b }
    ensures { Becomes m.old m.new (with_named (flat_of m.old) ((flat_of m.old).named ++ b ∷ [])) }
{
    let n = memory_bytes::get4(m, places::NAMED_COUNT);
    let a = named_place(m, n as usize);
    memory_bytes::put2(m, a, b);
    memory_bytes::put4(m, places::NAMED_COUNT, n + 1);
}

pub fn clear_named(m: &mut [u8])
    requires { Room m.old }
    ensures { Becomes m.old m.new (with_named (flat_of m.old) []) }
{
    memory_bytes::put4(m, places::NAMED_COUNT, 0);
}

// ---- directory blocks written

pub fn get_directory(m: &[u8], i: usize) -> u32
    requires { Room m.now × (i < length (flat_of m.now).directories) }
    ensures { result ≡ get_or (flat_of m.now).directories i 0 }
{
    memory_bytes::get4(m, places::DIRECTORIES + i * 4) % BLOCK_LIMIT
}

pub fn push_directory(m: &mut [u8], b: u32)
    requires { Room m.old × DirectoryMore (flat_of m.old) b }
    ensures { Becomes m.old m.new (with_directories (flat_of m.old) ((flat_of m.old).directories ++ b ∷ [])) }
{
    let n = memory_bytes::get4(m, places::DIRECTORY_COUNT);
    let i = n as usize;
    memory_bytes::put4(m, places::DIRECTORIES + i * 4, b);
    memory_bytes::put4(m, places::DIRECTORY_COUNT, n + 1);
}

pub fn clear_directories(m: &mut [u8])
    requires { Room m.old }
    ensures { Becomes m.old m.new (with_directories (flat_of m.old) []) }
{
    memory_bytes::put4(m, places::DIRECTORY_COUNT, 0);
}

// ---- blocks in use

pub fn is_used(m: &[u8], b: usize) -> bool
    requires { (b < block_limit) × (head_size ≤ length m.now) }
    ensures { result ≡ (flat_of m.now).used b }
{
    (m[places::USED + b / 8] >> (b % 8)) % 2 == 1
}

pub fn mark_used(m: &mut [u8], b: usize)
    requires { Room m.old × (b < block_limit) }
    ensures { Becomes m.old m.new (with_used (flat_of m.old) (used_and b (flat_of m.old).used)) }
{
    m[places::USED + b / 8] |= 1 << (b % 8);
}

pub fn clear_used(m: &mut [u8])
    requires { Room m.old }
    ensures { Becomes m.old m.new (with_used (flat_of m.old) (λ c. false)) }
{
    memory_bytes::clear(m, places::USED, places::USED_SIZE);
}

// ---- refusal 4

// The head, and one pass each over the tables and the pages.
pub fn holds_store(m: &[u8]) -> bool
    ensures { result ≡ holds_store m.now }
{
    if m.len() < places::HEAD_SIZE {
        return false;
    }
    if memory_bytes::get4(m, 0) != places::SIGNATURE {
        return false;
    }
    let h = get_head(m);
    let n = get_counts(m);
    if !in_range(m.len(), h, n) {
        return false;
    }
    if !tables_rise(m) {
        return false;
    }
    starts_rise(m, h.capacity as usize, n.pages as usize, n.rows)
}

// ---- an empty store

// Writes the numbers of all slots, in order, as those that may be free: there is no row yet.
fn name_slots(m: &mut [u8], n: usize)
    requires { (n ≤ capacity_limit) × (memory_for n ≤ length m.old) }
    ensures { Apart m.old m.new (refs_at n) (n * 2) }
{
    for i in 0..n {
        memory_bytes::put2(m, places::HEAD_SIZE + n * places::REFS + i * 2, i as u16);
    }
}

// Makes an empty store of so many blocks and of capacity n, over any old content.
pub fn fresh(m: &mut [u8], blocks: u32, n: u32)
    requires { FreshFits (length m.old) blocks n }
    ensures { Becomes m.old m.new (fresh_flat blocks n) × (store_in m.new ≡ some (fresh_store blocks n)) }
{
    memory_bytes::clear(m, 0, places::OPENS);
    memory_bytes::put4(m, 0, places::SIGNATURE);
    memory_bytes::put4(m, places::CAPACITY, n);
    memory_bytes::put4(m, places::BLOCKS, blocks);
    memory_bytes::clear(m, places::USED, places::USED_SIZE);
    name_slots(m, n as usize);
}
