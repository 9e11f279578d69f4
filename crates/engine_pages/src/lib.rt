// The rules on pages, on the memory: placing, splitting, joining, dropping, freezing and thawing. Each function that changes pages
// promises what the model's rule makes of them, for any memory that holds a store.
#![tactic(auto)]

ghost use Rattle.std.specs.Prelude.{◌≡◌, true, false, ◌∷◌, [], ◌++◌, map, ◌+◌, ◌-◌, ◌<◌, length, take, drop};
ghost use Rattle.block_forms.specs.Limits.{block_limit};
ghost use Rattle.basics.specs.Basics.{any, sum};
ghost use Rattle.model.specs.Rules.{held_size, fresh, with_tuples, joins, split_once, split_all, freeze, without_pending, applied, thaw, place};
ghost use Rattle.model.specs.Places.{pend_remove_at, remove_row, committed_at, commit_row};
ghost use Rattle.memory_layout.specs.Flat.{flat_of, row_in, Room, Becomes};
ghost use Rattle.memory_rows.specs.Rows.{with_row};
ghost use Rattle.memory_pages.specs.Pages.{MayLose};
ghost use Rattle.memory_layout.specs.Store.{holds_store, store_of, HoldsNow};
ghost use Rattle.engine_pages.specs.Pages.{with_pages, PagesNow, pages_of, page_at, tuples_at, entry_of, first_row, There, RowOn, swapped};
ghost use Rattle.engine_pages.specs.Changes.{Dirty, TooLarge, Halved, OfSize, Tries, settled_at, settled_next, settled_by, less_one};
ghost use Rattle.engine_pages.specs.Pending.{has_pending, AppliesOne, Applies, Applied, FirstFrozen};
ghost use Rattle.engine_pages.specs.Spots.{tuple_by, placed_on, GrowAt, AddAt, PlaceAt};

use block_forms::PageLayout;
use memory_rows::{Pending, Row};

// ---- joining

// Whether pages p and p + 1 may be joined.
fn joinable(m: &[u8], p: usize) -> bool
    requires { There m.now p × (p + 1 < length (flat_of m.now).entries) }
    ensures { result ≡ joins (page_at m.now p) (page_at m.now (p + 1)) }
{
    if memory_pages::frozen_at(m, p) {
        return false;
    }
    if memory_pages::frozen_at(m, p + 1) {
        return false;
    }
    let t = memory_pages::table_of(m, p);
    let u = memory_pages::table_of(m, p + 1);
    if t != u {
        return false;
    }
    let s = memory_pages::start_of(m, p);
    let e = memory_pages::start_of(m, p + 2);
    engine_sizes::small_enough(m, s, e)
}

// Page p joins its predecessor, if it may; whether it did.
fn join_before(m: &mut [u8], p: usize) -> bool
    requires { There m.old p }
    ensures { Tries m.old m.new result (settled_at p (pages_of m.old)) (settled_next p (pages_of m.old)) }
{
    if p == 0 {
        return false;
    }
    if !joinable(m, p - 1) {
        return false;
    }
    memory_pages::join_pages(m, p - 1);
    true
}

// Page p joins its successor, if it may; whether it did.
fn join_after(m: &mut [u8], p: usize) -> bool
    requires { There m.old p }
    ensures { Tries m.old m.new result (settled_next p (pages_of m.old)) (λ rest. swapped p rest (pages_of m.old)) }
{
    let n = memory_layout::get_counts(m).pages as usize;
    if n <= p + 1 {
        return false;
    }
    if !joinable(m, p) {
        return false;
    }
    memory_pages::join_pages(m, p);
    true
}

// A changed page joins its predecessor, else its successor, if it may; whether it did.
fn join(m: &mut [u8], p: usize) -> bool
    requires { There m.old p }
    ensures { Tries m.old m.new result (settled_at p (pages_of m.old)) (λ rest. swapped p rest (pages_of m.old)) }
{
    join_before(m, p) || join_after(m, p)
}

// ---- splitting

// Page p, too large for a block, is split in two; the size of the first part.
fn halve(m: &mut [u8], p: usize) -> usize
    requires { TooLarge m.old p }
    ensures { Halved m.old m.new p result }
{
    let s = memory_pages::start_of(m, p);
    let e = memory_pages::start_of(m, p + 1);
    let first = engine_sizes::first_part(m, s, e);
    memory_pages::split_page(m, p, first.count as u16);
    first.size
}

// Page p is split in two if its rows have no room in a block. That is tested first, since most pages that grow are not split.
fn split_once(m: &mut [u8], p: usize)
    requires { There m.old p × Dirty (page_at m.old p) }
    ensures { PagesNow m.old m.new (swapped p (map (fresh (page_at m.old p).table) (split_once (tuples_at m.old p))) (pages_of m.old)) }
{
    let s = memory_pages::start_of(m, p);
    let e = memory_pages::start_of(m, p + 1);
    if engine_sizes::fit_block(m, s, e) {
        return;
    }
    halve(m, p);
}

// Page p, of that size, is split until every part has room in a block; of two parts the later one is split first.
fn split(m: &mut [u8], p: usize, size: usize)
    requires { OfSize m.old p size }
    ensures { PagesNow m.old m.new (swapped p (map (fresh (page_at m.old p).table) (split_all (tuples_at m.old p))) (pages_of m.old)) }
{
    if PageLayout::fits(size) {
        return;
    }
    let first = halve(m, p);
    split(m, p + 1, size - first);
    split(m, p, first);
}

// ---- committing

// On a frozen page: a pending add is committed, a row pending removal is left alone, and any other row becomes a pending commit.
fn commit_later(m: &mut [u8], p: usize, i: usize)
    requires { RowOn m.old p i × ((page_at m.old p).frozen ≡ true) }
    ensures { PagesNow m.old m.new (swapped p (committed_at (i - first_row m.old p) (page_at m.old p) ∷ []) (pages_of m.old)) }
{
    if memory_rows::is_adding(m, i) {
        memory_rows::commit_row(m, i);
        return;
    }
    if memory_rows::is_removing(m, i) {
        return;
    }
    memory_rows::set_pending(m, i, Pending::Committing);
}

// Row i, on page p, is committed: at once on a page that is not frozen. No page is joined.
pub fn commit_at(m: &mut [u8], p: usize, i: usize)
    requires { RowOn m.old p i }
    ensures { HoldsNow m.old m.new (with_pages (store_of (flat_of m.old)) (commit_row i (pages_of m.old))) }
{
    if memory_pages::frozen_at(m, p) {
        commit_later(m, p, i);
        return;
    }
    memory_rows::commit_row(m, i);
    memory_pages::set_page(m, p, 0, false);
}

// ---- removing

// How many rows page p has.
fn count_at(m: &[u8], p: usize) -> usize
    requires { There m.now p }
    ensures { result ≡ (entry_of m.now p).count }
{
    let s = memory_pages::start_of(m, p);
    let e = memory_pages::start_of(m, p + 1);
    e - s
}

// On a frozen page: a pending add is taken out unless it is the page's only row; any other row becomes a pending removal.
fn remove_later(m: &mut [u8], p: usize, i: usize)
    requires { RowOn m.old p i }
    ensures { PagesNow m.old m.new (swapped p (with_tuples (page_at m.old p) (pend_remove_at (i - first_row m.old p) (tuples_at m.old p)) ∷ []) (pages_of m.old)) }
{
    if !memory_rows::is_adding(m, i) {
        memory_rows::set_pending(m, i, Pending::Removing);
        return;
    }
    let n = count_at(m, p);
    if n == 1 {
        return;
    }
    memory_pages::remove_row(m, p, i);
}

// On a page that is not frozen: the row is taken out, and the page is dropped if it is empty, else joined with a neighbour if it may be.
fn remove_now(m: &mut [u8], p: usize, i: usize)
    requires { RowOn m.old p i }
    ensures { PagesNow m.old m.new (settled_by p (less_one m.old p i ∷ []) (less_one m.old p i) (pages_of m.old)) }
{
    let n = count_at(m, p);
    memory_pages::remove_row(m, p, i);
    if n == 1 {
        memory_pages::remove_page(m, p);
        return;
    }
    memory_pages::set_page(m, p, 0, false);
    join(m, p);
}

// Row i, on page p, is removed.
pub fn remove_at(m: &mut [u8], p: usize, i: usize)
    requires { RowOn m.old p i }
    ensures { HoldsNow m.old m.new (with_pages (store_of (flat_of m.old)) (remove_row i (pages_of m.old))) }
{
    if memory_pages::frozen_at(m, p) {
        remove_later(m, p, i);
        return;
    }
    remove_now(m, p, i);
}

// ---- freezing

// Page p is frozen if it is dirty.
fn freeze_page(m: &mut [u8], p: usize)
    requires { There m.old p }
    ensures { PagesNow m.old m.new (swapped p (freeze (page_at m.old p) ∷ []) (pages_of m.old)) }
{
    let b = memory_pages::block_at(m, p);
    memory_pages::set_page(m, p, b, b == 0);
}

// Every dirty page is frozen.
pub fn freeze(m: &mut [u8])
    requires { holds_store m.old ≡ true }
    ensures { HoldsNow m.old m.new (with_pages (store_of (flat_of m.old)) (map freeze (pages_of m.old))) }
{
    let n = memory_layout::get_counts(m).pages as usize;
    for p in 0..n {
        freeze_page(m, p);
    }
}

// ---- thawing

// Whether a row of page p has a pending operation. All rows are looked at, without a branch, since nearly no row has one.
fn has_pending(m: &[u8], p: usize) -> bool
    requires { There m.now p }
    ensures { result ≡ any has_pending (tuples_at m.now p) }
{
    let s = memory_pages::start_of(m, p);
    let e = memory_pages::start_of(m, p + 1);
    let mut hit = false;
    for i in s..e {
        hit |= memory_rows::is_pending(m, i);
    }
    hit
}

// The pending operation of row i, which is no removal, is applied.
fn apply_kept(m: &mut [u8], i: usize)
    requires { Room m.old × (i < length (flat_of m.old).rows) }
    ensures { Becomes m.old m.new (with_row (flat_of m.old) i (without_pending (applied (row_in (flat_of m.old) i)))) }
{
    if memory_rows::is_committing(m, i) {
        memory_rows::commit_row(m, i);
    }
    memory_rows::set_pending(m, i, Pending::Nothing);
}

// The pending operation of row i, on page p, is applied; how many rows it leaves.
fn apply_pending_row(m: &mut [u8], p: usize, i: usize) -> usize
    requires { Room m.old × MayLose (flat_of m.old) p i }
    ensures { AppliesOne m.old m.new p i result }
{
    if memory_rows::is_removing(m, i) {
        memory_pages::remove_row(m, p, i);
        return 0;
    }
    apply_kept(m, i);
    1
}

// The pending operations of all rows of page p are applied; how many rows they leave.
fn apply_pending_rows(m: &mut [u8], p: usize) -> usize
    requires { There m.old p }
    ensures { Applies m.old m.new p result }
{
    let s = memory_pages::start_of(m, p);
    let n = count_at(m, p);
    let mut i = s;
    for _ in 0..n {
        i += apply_pending_row(m, p, i);
    }
    i - s
}

// The size of the rows of page p.
fn page_size(m: &[u8], p: usize) -> usize
    requires { There m.now p }
    ensures { result ≡ sum held_size (tuples_at m.now p) }
{
    let s = memory_pages::start_of(m, p);
    let e = memory_pages::start_of(m, p + 1);
    engine_sizes::rows_size(m, s, e)
}

// The pending operations of page p are applied, and it is dropped if it is empty then; how many rows are left.
fn apply_pending(m: &mut [u8], p: usize) -> usize
    requires { There m.old p }
    ensures { Applied m.old m.new p result }
{
    let left = apply_pending_rows(m, p);
    if left == 0 {
        memory_pages::remove_page(m, p);
        return 0;
    }
    memory_pages::set_page(m, p, 0, false);
    left
}

// Page p, the first frozen one, is stored as block b: it is clean if nothing was pending, else dropped, joined or split.
pub fn thaw(m: &mut [u8], p: usize, b: u16)
    requires { FirstFrozen m.old p × (b < block_limit) }
    ensures { HoldsNow m.old m.new (with_pages (store_of (flat_of m.old)) (thaw b (pages_of m.old))) }
{
    if !has_pending(m, p) {
        memory_pages::set_page(m, p, b, false);
        return;
    }
    let left = apply_pending(m, p);
    if left == 0 {
        return;
    }
    if join(m, p) {
        return;
    }
    let size = page_size(m, p);
    split(m, p, size);
}

// ---- placing

// A row goes on page p as row `at`: a frozen page takes it as a pending add, another is dirty then and split if it is too large.
fn grow(m: &mut [u8], p: usize, at: usize, row: Row, payload: &[u8])
    requires { GrowAt m.old p at row payload.now }
    ensures { PagesNow m.old m.new (swapped p (placed_on (tuple_by row payload.now) (at - first_row m.old p) (page_at m.old p)) (pages_of m.old)) }
{
    let frozen = memory_pages::frozen_at(m, p);
    memory_pages::insert_row(m, p, at, row, payload);
    if frozen {
        memory_rows::set_pending(m, at, Pending::Adding);
        return;
    }
    memory_pages::set_page(m, p, 0, false);
    split_once(m, p);
}

// A row goes on a new page of the table before page p.
fn add_page(m: &mut [u8], table: u8, p: usize, row: Row, payload: &[u8])
    requires { AddAt m.old table p row payload.now }
    ensures { PagesNow m.old m.new (take p (pages_of m.old) ++ fresh table (without_pending (tuple_by row payload.now) ∷ []) ∷ drop p (pages_of m.old)) }
{
    let at = memory_pages::start_of(m, p);
    memory_pages::insert_page(m, p, table);
    memory_pages::insert_row(m, p, at, row, payload);
}

// A row with nothing pending goes to its place among the rows of its table.
pub fn place(m: &mut [u8], table: u8, at: usize, row: Row, payload: &[u8])
    requires { PlaceAt m.old table at row payload.now }
    ensures { HoldsNow m.old m.new (with_pages (store_of (flat_of m.old)) (place table (tuple_by row payload.now) (pages_of m.old))) }
{
    let a = memory_pages::table_start(m, table as usize);
    let b = memory_pages::table_start(m, table as usize + 1);
    if a == b {
        add_page(m, table, a, row, payload);
        return;
    }
    let s = memory_pages::start_of(m, a);
    if at == s {
        grow(m, a, at, row, payload);
        return;
    }
    let p = memory_pages::page_of(m, a, b, at - 1);
    grow(m, p, at, row, payload);
}
