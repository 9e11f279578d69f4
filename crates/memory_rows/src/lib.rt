// The rows of the working memory, in list order as three columns: key, slot with pending operation, state. Number, owner and payload
// stand in slots that never move while a row lives. docs/LAYOUT.md says what stands where. Above this crate a row has typed values only.
#![tactic(auto)]

mod places;
mod shifts;
mod slots;

ghost use Rattle.std.specs.Prelude.{◌≡◌, false, ◌∷◌, [], ◌++◌, ◌+◌, ◌*◌, ◌-◌, ◌≤◌, ◌<◌, length, take, drop};
ghost use Rattle.basics.specs.Basics.{any};
ghost use Rattle.block_forms.specs.Limits.{payload_limit, most_record};
ghost use Rattle.image_rows.specs.Rows.{is_by};
ghost use Rattle.model.specs.Rules.{held_size, with_pending, is_adding, is_committing, is_removing, is_pending};
ghost use Rattle.memory_bytes.specs.Columns.{equals, up_to, at_least, Covers};
ghost use Rattle.basics.specs.Lists.{tab, insert_at, remove_at, first_index, last_index};
ghost use Rattle.memory_layout.specs.Views.{length_of};
ghost use Rattle.memory_layout.specs.Flat.{flat_of, row_in, Room, Becomes};
ghost use Rattle.memory_layout.specs.Elements.{RowRange};
ghost use Rattle.block_forms.specs.Bytes.{owner_is};
ghost use Rattle.memory_rows.specs.Rows.{pending_is, held_by, committed_row, is_live_own, is_owned, with_row, key_in, Holds, Copied, PayloadInto, NewRow, RowsOnly};
ghost use Rattle.memory_rows.specs.Cells.{code_of, keeps_owner, InOrder};

use block_forms::{Owner, PageLayout};
use memory_bytes::Span;
use memory_layout::{capacity, row_count};
use places::{key_place, keys_at, ref_at, ref_place, refs_at, slot_place, state_at, state_place};
use shifts::{lower_rows, raise_rows};
use slots::{fill_slot, free_slot, put_cells};

// A row's two bytes are its slot, plus this times its pending operation.
const SLOT_LIMIT: u16 = memory_bytes::SLOT_LIMIT;

// A row's state is the ninth byte of its record; from this number on it means committed.
const COMMITTED: u8 = block_forms::COMMITTED;

// What a checkpoint will do to a row of a frozen page. Its number, as it stands above a slot's, is its place in this list.
#[derive(Clone, Copy, Debug, PartialEq, Eq)]
pub enum Pending {
    Nothing,
    Adding,
    Committing,
    Removing,
}

impl From<Pending> for u16 {
    ghost from_gives = { λ p x. x ≡ code_of p };

    fn from(p: Pending) -> u16 {
        p as u16
    }
}

// A row but for its payload.
#[derive(Clone, Copy)]
pub struct Row {
    pub key: u32,
    pub number: u32,
    pub owner: Owner,
    pub mark: bool,
    pub pending: Pending,
}

// A part of the memory. No range: `Holds` and the contracts above name its length.
#[derive(Clone, Copy)]
pub struct Part {
    pub start: usize,
    pub len: usize,
}

// ---- reads

pub fn key_at(m: &[u8], i: usize) -> u32
    requires { Room m.now × (i < length (flat_of m.now).rows) }
    ensures { result ≡ (row_in (flat_of m.now) i).tuple.key }
{
    memory_bytes::get4(m, key_place(m, i))
}

pub fn number_at(m: &[u8], i: usize) -> u32
    requires { Room m.now × (i < length (flat_of m.now).rows) }
    ensures { result ≡ (row_in (flat_of m.now) i).tuple.number }
{
    memory_bytes::get4(m, slot_place(m, i))
}

pub fn owner_at(m: &[u8], i: usize) -> Owner
    requires { Room m.now × (i < length (flat_of m.now).rows) }
    ensures { owner_is result ≡ (row_in (flat_of m.now) i).tuple.owner }
{
    let w = memory_bytes::get4(m, slot_place(m, i) + 4);
    block_forms::owner_of(state_at(m, i), w)
}

pub fn mark_at(m: &[u8], i: usize) -> bool
    requires { Room m.now × (i < length (flat_of m.now).rows) }
    ensures { result ≡ (row_in (flat_of m.now) i).tuple.mark }
{
    block_forms::mark_of(state_at(m, i))
}

pub fn pending_at(m: &[u8], i: usize) -> Pending
    requires { Room m.now × (i < length (flat_of m.now).rows) }
    ensures { pending_is result ≡ (row_in (flat_of m.now) i).pending }
{
    match ref_at(m, i) / SLOT_LIMIT % 4 {
        0 => Pending::Nothing,
        1 => Pending::Adding,
        2 => Pending::Committing,
        _ => Pending::Removing,
    }
}

pub fn is_adding(m: &[u8], i: usize) -> bool
    requires { Room m.now × (i < length (flat_of m.now).rows) }
    ensures { result ≡ is_adding (row_in (flat_of m.now) i).pending }
{
    pending_at(m, i) == Pending::Adding
}

pub fn is_committing(m: &[u8], i: usize) -> bool
    requires { Room m.now × (i < length (flat_of m.now).rows) }
    ensures { result ≡ is_committing (row_in (flat_of m.now) i).pending }
{
    pending_at(m, i) == Pending::Committing
}

pub fn is_removing(m: &[u8], i: usize) -> bool
    requires { Room m.now × (i < length (flat_of m.now).rows) }
    ensures { result ≡ is_removing (row_in (flat_of m.now) i).pending }
{
    pending_at(m, i) == Pending::Removing
}

pub fn is_pending(m: &[u8], i: usize) -> bool
    requires { Room m.now × (i < length (flat_of m.now).rows) }
    ensures { result ≡ is_pending (row_in (flat_of m.now) i).pending }
{
    pending_at(m, i) != Pending::Nothing
}

// The payload's length: the low six bits, and never above the limit.
fn length_of(state: u8) -> usize
    ensures { (result ≡ length_of state) × (result ≤ payload_limit) }
{
    usize::from(state % block_forms::MARK).min(PageLayout::PAYLOAD_LIMIT)
}

// What the row takes of a block.
pub fn size_at(m: &[u8], i: usize) -> usize
    requires { Room m.now × (i < length (flat_of m.now).rows) }
    ensures { (result ≡ held_size (row_in (flat_of m.now) i)) × (result ≤ most_record) }
{
    let s = state_at(m, i);
    PageLayout::record_size(length_of(s), s < COMMITTED)
}

// Where the payload stands.
pub fn payload_at(m: &[u8], i: usize) -> Part
    requires { Room m.now × (i < length (flat_of m.now).rows) }
    ensures { Holds m.now result (row_in (flat_of m.now) i).tuple.payload }
{
    let a = slot_place(m, i);
    Part {
        start: a + 8,
        len: length_of(state_at(m, i)),
    }
}

// Copies the payload over the first bytes of out; the answer is how many they are.
pub fn copy_payload(m: &[u8], i: usize, out: &mut [u8]) -> usize
    requires { PayloadInto m.now i out.old }
    ensures { Copied out.old out.new (row_in (flat_of m.now) i).tuple.payload result }
{
    let p = payload_at(m, i);
    let n = p.len;
    memory_bytes::copy_out(m, p.start, n, out);
    n
}

// Whether the operation, once done, leaves the row and its owner.
fn keeps_owner(p: Pending) -> bool
    ensures { result ≡ keeps_owner (pending_is p) }
{
    matches!(p, Pending::Nothing | Pending::Adding)
}

fn is_by(o: Owner, transaction: u64) -> bool
    ensures { result ≡ is_by transaction (owner_is o) }
{
    match o {
        Owner::Committed => false,
        Owner::Tentative { transaction: t, .. } => t as u64 == transaction,
    }
}

// Whether the row is live and, its pending operation taken as done, tentative and of the transaction.
pub fn owns(m: &[u8], i: usize, transaction: u64) -> bool
    requires { Room m.now × (i < length (flat_of m.now).rows) }
    ensures { result ≡ is_live_own transaction (row_in (flat_of m.now) i) }
{
    keeps_owner(pending_at(m, i)) && is_by(owner_at(m, i), transaction)
}

// Whether one of the 16 rows from i on is tentative, whatever its pending operation. The loop has no branch, so that it becomes vector code.
pub fn any_tentative(m: &[u8], i: usize) -> bool
    requires { Room m.now × (i + 16 ≤ length (flat_of m.now).rows) }
    ensures { result ≡ any is_owned (take 16 (drop i (flat_of m.now).rows)) }
{
    let a = state_place(m, i);
    let mut hit = false;
    for j in 0..16 {
        hit |= m[a + j] < COMMITTED;
    }
    hit
}

// ---- changes that keep the number of rows: only the columns are written, so that no other row changes, not even one in the same slot

// The row is committed; what is pending stays.
pub fn commit_row(m: &mut [u8], i: usize)
    requires { Room m.old × (i < length (flat_of m.old).rows) }
    ensures { Becomes m.old m.new (with_row (flat_of m.old) i (committed_row (row_in (flat_of m.old) i))) }
{
    let a = state_place(m, i);
    m[a] = m[a] % COMMITTED + COMMITTED;
}

// The row's pending operation is p; the slot's number stays.
pub fn set_pending(m: &mut [u8], i: usize, p: Pending)
    requires { Room m.old × (i < length (flat_of m.old).rows) }
    ensures { Becomes m.old m.new (with_row (flat_of m.old) i (with_pending (pending_is p) (row_in (flat_of m.old) i))) }
{
    let a = ref_place(m, i);
    let s = memory_bytes::get2(m, a) % SLOT_LIMIT;
    memory_bytes::put2(m, a, s + u16::from(p) * SLOT_LIMIT);
}

// ---- searches by key, among the rows from s up to, not including, e

// The row behind the last one whose key is not above this key, or s if there is none.
pub fn last_up_to(m: &[u8], s: usize, e: usize, key: u32) -> usize
    requires { RowRange m.now s e }
    ensures { result ≡ s + last_index (up_to key) (tab (key_in (flat_of m.now)) s (e - s)) }
{
    memory_bytes::search::last_up_to(m, keys_at(capacity(m)), s, e, key)
}

// The first row whose key is not below this key, or e if there is none.
pub fn first_from(m: &[u8], s: usize, e: usize, key: u32) -> usize
    requires { RowRange m.now s e }
    ensures { result ≡ s + first_index (at_least key) (tab (key_in (flat_of m.now)) s (e - s)) }
{
    memory_bytes::search::first_from(m, keys_at(capacity(m)), s, e, key)
}

// The first row with the key, or e if there is none.
pub fn find_equal(m: &[u8], s: usize, e: usize, key: u32) -> usize
    requires { RowRange m.now s e }
    ensures { result ≡ s + first_index (equals key) (tab (key_in (flat_of m.now)) s (e - s)) }
{
    memory_bytes::search::find_equal(m, keys_at(capacity(m)), s, e, key)
}

// The row behind the last one with the key, or s if there is none.
pub fn last_equal(m: &[u8], s: usize, e: usize, key: u32) -> usize
    requires { RowRange m.now s e }
    ensures { result ≡ s + last_index (equals key) (tab (key_in (flat_of m.now)) s (e - s)) }
{
    memory_bytes::search::last_equal(m, keys_at(capacity(m)), s, e, key)
}

// Rows between which every row with the key stands: from the first to behind the last one, or none.
pub fn span_equal(m: &[u8], s: usize, e: usize, key: u32) -> Span
    requires { RowRange m.now s e }
    ensures { Covers (key_in (flat_of m.now)) key s e result.first result.last }
{
    memory_bytes::search::span_equal(m, keys_at(capacity(m)), s, e, key)
}

// ---- changes of the number of rows

// The cells of eight neighbouring rows, column by column.
#[derive(Drop)]
struct Eight {
    keys: [u8; 32],
    refs: [u8; 16],
    states: [u8; 8],
}

// The row, with its payload, becomes row i, in a slot that no row is in, so that all other rows are as they were.
pub fn insert_row(m: &mut [u8], i: usize, row: Row, payload: &[u8])
    requires { NewRow m.old i row payload.now }
    ensures { RowsOnly m.old m.new (insert_at i (held_by row payload.now) (flat_of m.old).rows) }
{
    let c = capacity(m);
    let n = row_count(m);
    let s = free_slot(m);
    let o = row.owner;
    let state = block_forms::flags_of(o, row.mark, payload.len());
    let p = row.pending;
    let r = s + u16::from(p) * SLOT_LIMIT;
    fill_slot(m, s as usize, row.number, block_forms::word_of(o), payload);
    raise_rows(m, c, i, n);
    put_cells(m, c, i, row.key, r, state);
    memory_bytes::put4(m, memory_layout::places::ROW_COUNT, (n + 1) as u32);
}

// The row, with its payload, becomes the last one, in the slot of its own index, which is free since every other row is in that of its own index.
pub fn append_row(m: &mut [u8], row: Row, payload: &[u8])
    requires { NewRow m.old (length (flat_of m.old).rows) row payload.now × InOrder m.old }
    ensures { RowsOnly m.old m.new ((flat_of m.old).rows ++ held_by row payload.now ∷ []) × InOrder m.new }
{
    let c = capacity(m);
    let n = row_count(m);
    let o = row.owner;
    let state = block_forms::flags_of(o, row.mark, payload.len());
    let p = row.pending;
    let r = n as u16 + u16::from(p) * SLOT_LIMIT;
    fill_slot(m, n, row.number, block_forms::word_of(o), payload);
    put_cells(m, c, n, row.key, r, state);
    memory_bytes::put4(m, memory_layout::places::ROW_COUNT, (n + 1) as u32);
}

// Row i is taken out; its slot is noted behind the rows as one that may be free.
pub fn remove_row(m: &mut [u8], i: usize)
    requires { Room m.old × (i < length (flat_of m.old).rows) }
    ensures { RowsOnly m.old m.new (remove_at i (flat_of m.old).rows) }
{
    let c = capacity(m);
    let n = row_count(m);
    let s = ref_at(m, i) % SLOT_LIMIT;
    lower_rows(m, c, i, n);
    memory_bytes::put2(m, refs_at(c) + (n - 1) * 2, s);
    memory_bytes::put4(m, memory_layout::places::ROW_COUNT, (n - 1) as u32);
}
