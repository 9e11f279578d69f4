// Commit and abort on the working memory, by row index: one pass over the rows, run by run of neighbours of one table and key, with no
// list of operations. What they do to the pages is what the model's plans by place do, for rows in any order.
#![tactic(auto)]

ghost use Rattle.std.specs.Prelude.{◌≡◌, true, ◌+◌, ◌≤◌, ◌<◌, length};
ghost use Rattle.model.specs.Places.{commit_row};
ghost use Rattle.memory_layout.specs.Flat.{flat_of, Room};
ghost use Rattle.memory_layout.specs.Store.{store_of, holds_store, HoldsNow};
ghost use Rattle.memory_pages.specs.Pages.{PageOf};
ghost use Rattle.engine_pages.specs.Pages.{with_pages, PagesNow, pages_of};
ghost use Rattle.engine_close.specs.Close.{tagged_of, row_from, is_live, Part, OwnPart, RowOfTable, FirstOwn, RowsFrom, RunFrom, RunTo, NewestOwn};
ghost use Rattle.engine_close.specs.Close.{left_from, closed_pages, RowRemoved, LiveRemoved, Within, RunClosed, NextDone};

// Rows that are looked at together.
const GROUP: usize = 16;

// ---- rows and their tables

// How many rows there are.
fn row_count(m: &[u8]) -> usize
    requires { Room m.now }
    ensures { result ≡ length (tagged_of m.now) }
{
    memory_layout::get_counts(m).rows as usize
}

// How many pages there are.
fn page_count(m: &[u8]) -> usize
    requires { Room m.now }
    ensures { result ≡ length (flat_of m.now).entries }
{
    memory_layout::get_counts(m).pages as usize
}

// The page of row i.
fn page_of(m: &[u8], i: usize) -> usize
    requires { Room m.now × (i < length (tagged_of m.now)) }
    ensures { PageOf (flat_of m.now) 0 (length (flat_of m.now).entries) i result }
{
    memory_pages::page_of(m, 0, page_count(m), i)
}

// The same; page `near`, which probably has the row, is tried first. Any number may be given for it.
fn page_near(m: &[u8], near: usize, i: usize) -> usize
    requires { Room m.now × (i < length (tagged_of m.now)) }
    ensures { PageOf (flat_of m.now) 0 (length (flat_of m.now).entries) i result }
{
    if near < page_count(m)
        && memory_pages::start_of(m, near) <= i
        && i < memory_pages::start_of(m, near + 1)
    {
        return near;
    }
    page_of(m, i)
}

// The first row of table t or of a later one, or how many rows there are.
pub fn first_row(m: &[u8], t: usize) -> usize
    requires { Room m.now × (t ≤ 8) }
    ensures { RowsFrom (tagged_of m.now) t result }
{
    memory_pages::start_of(m, memory_pages::table_start(m, t))
}

// Whether row i is not pending removal.
fn is_live(m: &[u8], i: usize) -> bool
    requires { Room m.now × (i < length (tagged_of m.now)) }
    ensures { result ≡ is_live (row_from (tagged_of m.now) i).1 }
{
    !memory_rows::is_removing(m, i)
}

// ---- own rows

// The first own row from row i up to, not including, row e.
fn own_in(m: &[u8], i: usize, e: usize, transaction: u64) -> Option<usize>
    requires { Room m.now × Part (tagged_of m.now) i e }
    ensures { FirstOwn (tagged_of m.now) transaction i e result }
{
    for r in i..e {
        if memory_rows::owns(m, r, transaction) {
            return Some(r);
        }
    }
    None
}

// The first own row of the group from row g on. A group without a tentative row is passed over.
fn own_in_group(m: &[u8], g: usize, transaction: u64) -> Option<usize>
    requires { Room m.now × (g + 16 ≤ length (tagged_of m.now)) }
    ensures { FirstOwn (tagged_of m.now) transaction g (g + 16) result }
{
    if memory_rows::any_tentative(m, g) {
        own_in(m, g, g + GROUP, transaction)
    } else {
        None
    }
}

// The first own row from row i on: group by group, and then in the rows that are no whole group.
fn next_own(m: &[u8], i: usize, transaction: u64) -> Option<usize>
    requires { Room m.now × (i ≤ length (tagged_of m.now)) }
    ensures { FirstOwn (tagged_of m.now) transaction i (length (tagged_of m.now)) result }
{
    let n = row_count(m);
    let mut g = i;
    // no `for` over groups: what is behind the last whole one is searched from g on
    while g + GROUP <= n {
        if let Some(r) = own_in_group(m, g, transaction) {
            return Some(r);
        }
        g += GROUP;
    }
    own_in(m, g, n, transaction)
}

// The last own row from row i, which is one, up to, not including, row e.
fn newest_own(m: &[u8], i: usize, e: usize, transaction: u64) -> usize
    requires { Room m.now × OwnPart (tagged_of m.now) transaction i e }
    ensures { NewestOwn (tagged_of m.now) transaction i e result }
{
    for r in (i + 1..e).rev() {
        if memory_rows::owns(m, r, transaction) {
            return r;
        }
    }
    i
}

// ---- runs: neighbours of one table and key

// The first row of the run of row i, which is of table t; row `from`, if the run begins before it.
pub fn run_start(m: &[u8], from: usize, i: usize, t: usize) -> usize
    requires { RowOfTable m.now i t × (from ≤ i) }
    ensures { RunFrom (tagged_of m.now) from i result }
{
    let low = from.max(first_row(m, t));
    let key = memory_rows::key_at(m, i);
    for r in (low..i).rev() {
        if memory_rows::key_at(m, r) != key {
            return r + 1;
        }
    }
    low
}

// The row behind the run of row i, which is of table t.
pub fn run_end(m: &[u8], i: usize, t: usize) -> usize
    requires { RowOfTable m.now i t }
    ensures { RunTo (tagged_of m.now) i result }
{
    let end = first_row(m, t + 1);
    let key = memory_rows::key_at(m, i);
    for r in i + 1..end {
        if memory_rows::key_at(m, r) != key {
            return r;
        }
    }
    end
}

// ---- changes. `near` is a page that probably has the row, so that it is not looked for again; any number may be given.

// Removes row i; the row that is then behind it. On a frozen page it stays, pending removal.
fn remove_row(m: &mut [u8], i: usize, near: usize) -> usize
    requires { (holds_store m.old ≡ true) × (i < length (tagged_of m.old)) }
    ensures { RowRemoved m.old m.new i result }
{
    let n = row_count(m);
    let p = page_near(m, near, i);
    engine_pages::remove_at(m, p, i);
    i + 1 + row_count(m) - n
}

// Commits row i.
fn commit_row(m: &mut [u8], i: usize, near: usize)
    requires { (holds_store m.old ≡ true) × (i < length (tagged_of m.old)) }
    ensures { PagesNow m.old m.new (commit_row i (pages_of m.old)) }
{
    let p = page_near(m, near, i);
    engine_pages::commit_at(m, p, i);
}

// Removes row i if it is live; the row that is then behind it.
fn remove_live(m: &mut [u8], i: usize, near: usize) -> usize
    requires { (holds_store m.old ≡ true) × (i < length (tagged_of m.old)) }
    ensures { LiveRemoved m.old m.new i 1 result }
{
    if is_live(m, i) {
        remove_row(m, i, near)
    } else {
        i + 1
    }
}

// Removes the live ones of k rows from row i on; the row that is then behind them.
fn remove_rows(m: &mut [u8], i: usize, k: usize, near: usize) -> usize
    requires { (holds_store m.old ≡ true) × (i + k ≤ length (tagged_of m.old)) }
    ensures { LiveRemoved m.old m.new i k result }
{
    let mut r = i;
    for _ in 0..k {
        r = remove_live(m, r, near);
    }
    r
}

// Closes the run from row a up to row e, whose newest own row is k; the row that is then behind it. A delete mark removes all of them,
// else row k is committed and the others are removed.
fn close_run(m: &mut [u8], a: usize, e: usize, k: usize, near: usize) -> usize
    requires { Within m.old a e k }
    ensures { RunClosed m.old m.new a e k result }
{
    if memory_rows::mark_at(m, k) {
        return remove_rows(m, a, e - a, near);
    }
    commit_row(m, k, near);
    let r = remove_rows(m, a, k - a, near);
    remove_rows(m, r + 1, e - k - 1, near)
}

// One step of a commit: closes the first run with an own row from row i on. The rows before row i are done: two of them may have become
// neighbours of one key. One step of an abort, if not `keep`: removes the first own row from row i on. The row that is then behind, or
// how many rows there are.
fn close_next(m: &mut [u8], i: usize, transaction: u64, keep: bool) -> usize
    requires { (holds_store m.old ≡ true) × (i < length (tagged_of m.old)) }
    ensures { NextDone (left_from keep transaction) m.old m.new i result }
{
    let Some(own) = next_own(m, i, transaction) else {
        return row_count(m);
    };
    let p = page_of(m, own);
    if !keep {
        return remove_row(m, own, p);
    }
    let t = memory_pages::table_of(m, p) as usize;
    let a = run_start(m, i, own, t);
    let e = run_end(m, own, t);
    let k = newest_own(m, own, e, transaction);
    close_run(m, a, e, k, p)
}

// Commit: the transaction's newest version of each key is committed and the key's other versions are removed; a delete mark removes them
// all. Abort, if not `keep`: the transaction's live rows are removed.
pub fn close_rows(m: &mut [u8], transaction: u64, keep: bool)
    requires { holds_store m.old ≡ true }
    ensures { HoldsNow m.old m.new (with_pages (store_of (flat_of m.old)) (closed_pages keep transaction (pages_of m.old))) }
{
    let mut i = 0;
    // no `for` over the rows: each step leaves fewer of them, or other ones
    while i < row_count(m) {
        i = close_next(m, i, transaction, keep);
    }
}
