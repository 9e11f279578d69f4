// Recovery: what an image holds, laid out in the working memory. All tests come first; only then is the memory touched. Rows and pages
// are appended in the image's order, so that loading takes one pass.
#![tactic(auto)]

ghost use Rattle.std.specs.Prelude.{◌≡◌, true, ◌++◌, map};
ghost use Rattle.basics.specs.Basics.{all};
ghost use Rattle.block_forms.specs.Limits.{block_limit};
ghost use Rattle.block_forms.specs.Tuple.{OwnerFits};
ghost use Rattle.block_forms.specs.Block.{as_page};
ghost use Rattle.block_forms.specs.Decode.{decode_block};
ghost use Rattle.block_forms.specs.Bytes.{tuple_of, payload_in, owner_is};
ghost use Rattle.image_rows.specs.Rows.{transactions};
ghost use Rattle.image.specs.View.{view};
ghost use Rattle.image.specs.Stages.{block_ok};
ghost use Rattle.model.specs.Rules.{without_pending};
ghost use Rattle.model.specs.Recover.{recovered_store, reopened};
ghost use Rattle.memory_layout.specs.Flat.{flat_of, Room, Becomes, with_opens, with_used};
ghost use Rattle.memory_layout.specs.Store.{HoldsNow};
ghost use Rattle.memory_rows.specs.Cells.{InOrder};
ghost use Rattle.memory_pages.specs.Pages.{RowsBecome, behind, more_last};
ghost use Rattle.call_contracts.specs.Shape.{Recovered};
ghost use Rattle.call_recovery.specs.Loading.{page_at, pages_at, tuples_in, used_by, row_for, Fills, Loads, Loadable, RowsFit, PageBytes, PageIn, PagesIn, PagesFit, MayLayOut};
ghost use Rattle.call_recovery.specs.Reopening.{own_rows, Counts, Sized, noted, opened_by, MayCount, MayOpen, MayOpenAll, MayOpenOne};

use block_forms::{Header, Owner, Record, TRANSACTIONS};
use block_reader::Cursor;
use call_contracts::{Answer, Reply};
use memory_layout::{Head, Open};
use memory_rows::{Pending, Row};
use refusals::Refusal;

// ---- the rows of a page

// The row of a record, nothing pending.
fn row_of(r: Record) -> Row
    ensures { result ≡ row_for r }
{
    Row {
        key: r.key,
        number: r.number,
        owner: r.owner,
        mark: r.mark,
        pending: Pending::Nothing,
    }
}

// The row of a record that stands in a block, behind all others, on the last page.
fn load_row(block: &[u8], r: Record, m: &mut [u8])
    requires { Loadable r block.now × RowsFit 1 m.old }
    ensures { RowsBecome m.old m.new (behind (without_pending (tuple_of r (payload_in block.now r)))) more_last × InOrder m.new }
{
    memory_pages::append_row(m, row_of(r), &block[r.start..r.start + r.len]);
}

// The rows of a page's tuples, behind those that are there, on the last page.
fn load_rows(block: &[u8], count: u32, m: &mut [u8])
    requires { PageBytes count block.now × RowsFit count m.old }
    ensures { Fills (map without_pending (tuples_in (as_page (decode_block block.now)))) m.old m.new }
{
    let mut cursor = Cursor::first();
    for i in 0..count {
        let Some((r, next)) = cursor.next(block) else {
            unreachable!()
        };
        load_row(block, r, m);
        cursor = next;
    }
}

// ---- pages

// The page in block e, behind those that are there.
fn load_page(image: &[u8], e: usize, m: &mut [u8])
    requires { PageIn image.now e × PagesFit (page_at e (as_page (view image.now e))) m.old }
    ensures { Loads (page_at e (as_page (view image.now e))) m.old m.new }
{
    let block = image::block_at(image, e);
    let page = block_reader::known_page(&block);
    memory_pages::append_page(m, page.table as u8, e as u16);
    load_rows(&block, page.count, m);
}

// The pages in the blocks that the entries name, in their order.
fn load_pages(image: &[u8], entries: &[u32], m: &mut [u8])
    requires { PagesIn image.now entries.now × PagesFit (pages_at (view image.now) entries.now) m.old }
    ensures { Loads (pages_at (view image.now) entries.now) m.old m.new }
{
    for &e in entries {
        load_page(image, e as usize, m);
    }
}

// These blocks are in use too.
fn mark_blocks(bs: &[u32], m: &mut [u8])
    requires { (all (block_ok block_limit) bs.now ≡ true) × Room m.old }
    ensures { Becomes m.old m.new (with_used (flat_of m.old) (used_by bs.now (flat_of m.old).used)) }
{
    for &b in bs {
        memory_layout::mark_used(m, b as usize);
    }
}

// ---- open transactions

// One tuple more of the owner's transaction.
fn note(counts: &mut [u32], o: Owner)
    requires { Sized counts.old × OwnerFits (owner_is o) }
    ensures { counts.new ≡ noted (owner_is o) counts.old }
{
    if let Owner::Tentative { transaction, .. } = o {
        counts[transaction as usize] += 1;
    }
}

// How many tuples each transaction has.
fn count_rows(m: &[u8], counts: &mut [u32])
    requires { MayCount m.now counts.old }
    ensures { Counts (own_rows (flat_of m.now)) counts.new }
{
    let n = memory_layout::get_counts(m).rows as usize;
    for i in 0..n {
        note(counts, memory_rows::owner_at(m, i));
    }
}

// Where all tuples of the owner's transaction are passed, it is open again.
fn reopen_last(m: &mut [u8], o: Owner, counts: &[u32], passed: &[u32])
    requires { MayOpenOne m.old (owner_is o) counts.now passed.now }
    ensures { Becomes m.old m.new (with_opens (flat_of m.old) ((flat_of m.old).opens ++ opened_by (owner_is o) counts.now passed.now)) }
{
    if let Owner::Tentative { transaction, .. } = o {
        let t = transaction as usize;
        let written = counts[t];
        if passed[t] == written {
            let open = Open {
                transaction,
                written,
            };
            memory_layout::push_open(m, open);
        }
    }
}

// The transactions of all rows, each once, in the order of their last rows.
fn reopen_rows(m: &mut [u8], counts: &[u32], passed: &mut [u32])
    requires { MayOpenAll m.old counts.now passed.old }
    ensures { Becomes m.old m.new (with_opens (flat_of m.old) ((flat_of m.old).opens ++ map (reopened (own_rows (flat_of m.old))) (transactions (own_rows (flat_of m.old))))) }
{
    let n = memory_layout::get_counts(m).rows as usize;
    for i in 0..n {
        let o = memory_rows::owner_at(m, i);
        note(passed, o);
        reopen_last(m, o, counts, passed);
    }
}

// The same, with room for the counts.
fn reopen(m: &mut [u8])
    requires { MayOpen m.old }
    ensures { Becomes m.old m.new (with_opens (flat_of m.old) ((flat_of m.old).opens ++ map (reopened (own_rows (flat_of m.old))) (transactions (own_rows (flat_of m.old))))) }
{
    let mut counts = [0u32; TRANSACTIONS];
    let mut passed = [0u32; TRANSACTIONS];
    count_rows(m, &mut counts);
    reopen_rows(m, &counts, &mut passed);
}

// ---- recover

// Lays the store out over any old content: entries are the blocks of the pages that passed the tests.
fn lay_out(image: &[u8], h: Header, entries: &[u32], m: &mut [u8])
    requires { MayLayOut image.now h entries.now m.old }
    ensures { HoldsNow m.old m.new (recovered_store h (pages_at (view image.now) entries.now)) }
{
    let used = h.directories as usize;
    let directories = [h.d0, h.d1, h.d2, h.d3];
    memory_layout::fresh(m, h.blocks, h.capacity);
    load_pages(image, entries, m);
    mark_blocks(entries, m);
    mark_blocks(&directories[..used], m);
    reopen(m);
    let head = Head {
        capacity: h.capacity,
        blocks: h.blocks,
        level: h.level,
        next: h.next,
        running: false,
        begun: 0,
        taken: 0,
    };
    memory_layout::put_head(m, head);
}

// The tests in their order: the image's length, its header, the memory, the directory, the pages. All come before the memory is changed.
pub fn recover(image: &[u8], m: &mut [u8]) -> Answer
    ensures { Recovered image.now m.old result m.new }
{
    let h = image::test_header(image)?;
    let space = memory_layout::ROW_SPACE * h.capacity as usize;
    if m.len() < space + memory_layout::places::HEAD_SIZE {
        return Err(Refusal::MemoryShort);
    }
    let entries = image::test_pages(image, h)?;
    lay_out(image, h, &entries[..h.pages as usize], m);
    Ok(Reply::Done)
}
