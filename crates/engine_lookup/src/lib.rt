// What a transaction sees of a key, on the working memory: the table's keys are searched by groups, and the rows between the first and the
// last one with the key are looked at. Right for rows in any order. Every function only reads the memory.
#![tactic(auto)]

ghost use Rattle.std.specs.Prelude.{◌≡◌, true, ◌-◌, ◌≤◌, ◌<◌, length};
ghost use Rattle.model.specs.Sight.{versions, seen};
ghost use Rattle.basics.specs.Lists.{tab};
ghost use Rattle.memory_layout.specs.Flat.{flat_of, row_in, Room};
ghost use Rattle.memory_layout.specs.Elements.{RowRange};
ghost use Rattle.memory_layout.specs.Store.{holds_store, pages_in, store_of};
ghost use Rattle.block_forms.specs.Bytes.{owner_is};
ghost use Rattle.engine_lookup.specs.Lookup.{Inside, Shows, blank, note_committed, note_tentative, note_owner, note, notes, picked, Sees, TableRange, Spots};

use block_forms::Owner;
use memory_rows::Pending;
use std::ops::Range;

// What there is of a key: whether another open transaction has a version, the row of the last own version, and that of the first
// committed one.
#[derive(Clone, Copy)]
pub struct Visibility {
    pub foreign: bool,
    pub own: Option<usize>,
    pub committed: Option<usize>,
}

// What there is of a key, and the row before which a new tuple with this key goes.
#[derive(Clone, Copy)]
pub struct Spot {
    pub visibility: Visibility,
    pub at: usize,
}

// ---- row by row

// A committed version at row i: the first one counts.
fn note_committed(i: usize, visibility: Visibility) -> Visibility
    ensures { result ≡ note_committed i visibility }
{
    Visibility {
        committed: visibility.committed.or(Some(i)),
        ..visibility
    }
}

// A tentative version at row i, the transaction's own or another's: the last own one counts.
fn note_tentative(i: usize, own: bool, visibility: Visibility) -> Visibility
    ensures { result ≡ note_tentative i own visibility }
{
    if own {
        Visibility {
            own: Some(i),
            ..visibility
        }
    } else {
        Visibility {
            foreign: true,
            ..visibility
        }
    }
}

// A version of this owner at row i.
fn note_owner(i: usize, owner: Owner, transaction: u64, visibility: Visibility) -> Visibility
    ensures { result ≡ note_owner transaction i (owner_is owner) visibility }
{
    match owner {
        Owner::Committed => note_committed(i, visibility),
        Owner::Tentative {
            transaction: t,
            statement: _,
        } => note_tentative(i, t as u64 == transaction, visibility),
    }
}

// Row i, whose key is the one that is looked for: one pending removal is no version, one pending commit a committed one.
fn note_row(m: &[u8], i: usize, transaction: u64, visibility: Visibility) -> Visibility
    requires { Room m.now × (i < length (flat_of m.now).rows) }
    ensures { result ≡ note transaction i (row_in (flat_of m.now) i) visibility }
{
    match memory_rows::pending_at(m, i) {
        Pending::Removing => visibility,
        Pending::Committing => note_committed(i, visibility),
        _ => note_owner(i, memory_rows::owner_at(m, i), transaction, visibility),
    }
}

// The rows from `from` up to, not including, `to`; those of another key are passed by.
pub fn note_rows(
    m: &[u8],
    from: usize,
    to: usize,
    transaction: u64,
    key: u32,
    visibility: Visibility,
) -> Visibility
    requires { Room m.now × (to ≤ length (flat_of m.now).rows) }
    ensures { result ≡ notes transaction key from (tab (row_in (flat_of m.now)) from (to - from)) visibility }
{
    let mut l = visibility;
    for i in from..to {
        if memory_rows::key_at(m, i) == key {
            l = note_row(m, i, transaction, l);
        }
    }
    l
}

// Nothing is seen yet.
pub fn no_version() -> Visibility
    ensures { result ≡ blank }
{
    Visibility {
        foreign: false,
        own: None,
        committed: None,
    }
}

// The rows from s up to, not including, e: only those between the first and the last one with the key are looked at. The two searches end where
// they find it: for the rows before the place of a new one, where a pass over all keys is no faster.
fn search_range(m: &[u8], s: usize, e: usize, transaction: u64, key: u32) -> Visibility
    requires { RowRange m.now s e }
    ensures { result ≡ notes transaction key s (tab (row_in (flat_of m.now)) s (e - s)) blank }
{
    let first = memory_rows::find_equal(m, s, e, key);
    let last = memory_rows::last_equal(m, first, e, key);
    let none = no_version();
    note_rows(m, first, last, transaction, key, none)
}

// The same by one pass over the keys of all the rows, in a loop that does not depend on where the key is: for a read, whose key may be anywhere.
fn search_span(m: &[u8], s: usize, e: usize, transaction: u64, key: u32) -> Visibility
    requires { RowRange m.now s e }
    ensures { result ≡ notes transaction key s (tab (row_in (flat_of m.now)) s (e - s)) blank }
{
    let span = memory_rows::span_equal(m, s, e, key);
    let none = no_version();
    note_rows(m, span.first, span.last, transaction, key, none)
}

// ---- a key of a table

fn table_rows(m: &[u8], table: u8) -> Range<usize>
    requires { Room m.now × (table < 8) }
    ensures { TableRange (flat_of m.now) table result }
{
    let t = table as usize;
    let p = memory_pages::table_start(m, t);
    let q = memory_pages::table_start(m, t + 1);
    memory_pages::start_of(m, p)..memory_pages::start_of(m, q)
}

pub fn find_versions(m: &[u8], table: u8, transaction: u64, key: u32) -> Visibility
    requires { (holds_store m.now ≡ true) × (table < 8) }
    ensures { Shows (flat_of m.now) table transaction (versions table key (pages_in (flat_of m.now))) result }
{
    let t = table_rows(m, table);
    search_span(m, t.start, t.end, transaction, key)
}

// The same, and the place of a new tuple with the key: behind all rows of the table with a key not above, so that the rows with the key
// stand before it.
pub fn find_place(m: &[u8], table: u8, transaction: u64, key: u32) -> Spot
    requires { (holds_store m.now ≡ true) × (table < 8) }
    ensures { Spots (flat_of m.now) table transaction key result }
{
    let t = table_rows(m, table);
    let at = memory_rows::last_up_to(m, t.start, t.end, key);
    Spot {
        visibility: search_range(m, t.start, at, transaction, key),
        at,
    }
}

// ---- what is seen

// The row that is seen, by what there is of the key: the own newest version, unless it is a delete mark; without one the committed version.
pub fn pick(m: &[u8], visibility: Visibility) -> Option<usize>
    requires { Room m.now × Inside (flat_of m.now) visibility.own }
    ensures { result ≡ picked (flat_of m.now) visibility }
{
    let Some(i) = visibility.own else {
        return visibility.committed;
    };
    if memory_rows::mark_at(m, i) {
        None
    } else {
        Some(i)
    }
}

// The row of the version of a key that the transaction sees.
pub fn seen_by(m: &[u8], table: u8, transaction: u64, key: u32) -> Option<usize>
    requires { (holds_store m.now ≡ true) × (table < 8) }
    ensures { Sees (flat_of m.now) table result (seen transaction table key (store_of (flat_of m.now))) }
{
    let l = find_versions(m, table, transaction, key);
    pick(m, l)
}
