// One page of an image: its tests by itself, and its tuples as rows in columns.
#![tactic(auto)]

ghost use Rattle.std.specs.Prelude.{◌≡◌, List, [], ◌∷◌, ◌++◌, map, ℕ, ◌+◌, ◌*◌, ◌<◌, length};
ghost use Rattle.std.proofs.Math.Option.{some};
ghost use Rattle.basics.specs.Basics.{all};
ghost use Rattle.block_forms.specs.Limits.{block_size};
ghost use Rattle.block_forms.specs.Tuple.{Tuple, OwnerFits};
ghost use Rattle.block_forms.specs.Block.{as_page};
ghost use Rattle.block_forms.specs.Decode.{page_tuples, decode_block};
ghost use Rattle.block_forms.specs.Bytes.{owner_is, tuple_of};
ghost use Rattle.image_rows.specs.Rows.{rows_of, mark_ok};
ghost use Rattle.image_rows.specs.Columns.{coded_owner, rows_in, bare, ColumnsHold};
ghost use Rattle.image_page.specs.Page.{good_page};

use block_forms::{Owner, Record};
use block_reader::{Block, Cursor, PageHead};

// Whether the record, if it is a delete mark, is tentative and has no payload.
fn mark_ok(r: Record) -> bool
    ensures { (t : ℕ) (p : List ℕ) → length p ≡ r.len → result ≡ mark_ok (t, tuple_of r p) }
{
    match r.owner {
        Owner::Committed => !r.mark,
        Owner::Tentative { .. } => !r.mark || r.len == 0,
    }
}

// Whether every delete mark of a page's block is tentative and has no payload.
fn marks_ok(block: &[u8], count: u32) -> bool
    requires { length block.now ≡ block_size }
    ensures { (t : ℕ) (ts : List Tuple) → page_tuples count block.now ≡ some ts → result ≡ all mark_ok (rows_of t ts) }
{
    let mut cursor = Cursor::first();
    for _ in 0..count {
        let Some((r, after)) = cursor.next(block) else {
            return false;
        };
        if !mark_ok(r) {
            return false;
        }
        cursor = after;
    }
    true
}

// Table and key in one number.
fn place(table: u32, key: u32) -> u64
    ensures { (result ≡ table * 4294967296 + key) × (key < 4294967296) }
{
    table as u64 * 4294967296 + key as u64
}

// An owner's code in a column: 0 if committed, else 1 plus the statement in 20 bits and the transaction above them.
fn owner_code(owner: Owner) -> u64
    requires { OwnerFits (owner_is owner) }
    ensures { coded_owner result ≡ owner_is owner }
{
    match owner {
        Owner::Committed => 0,
        Owner::Tentative {
            transaction,
            statement,
        } => 1 + transaction as u64 * image_rows::STATEMENTS + statement as u64,
    }
}

// A record's row goes into place k of the columns.
fn put_row(
    places: &mut [u64],
    numbers: &mut [u32],
    owners: &mut [u64],
    marks: &mut [u8],
    k: usize,
    table: u32,
    r: Record,
)
    requires columns_hold { ColumnsHold places.old numbers.old owners.old marks.old (k + 1) }
    requires owner_fits { OwnerFits (owner_is r.owner) }
    ensures { rows_in places.new numbers.new owners.new marks.new (k + 1)
        ≡ rows_in places.old numbers.old owners.old marks.old k ++ ((table, tuple_of r []) ∷ []) }
{
    places[k] = place(table, r.key);
    numbers[k] = r.number;
    owners[k] = owner_code(r.owner);
    marks[k] = r.mark as u8;
}

// The tuples of a page's block go into the columns from place k on.
pub fn add_rows(
    block: &[u8],
    page: PageHead,
    places: &mut [u64],
    numbers: &mut [u32],
    owners: &mut [u64],
    marks: &mut [u8],
    k: usize,
)
    requires block_len { length block.now ≡ block_size }
    requires columns_hold { ColumnsHold places.old numbers.old owners.old marks.old (k + page.count) }
    ensures { (ts : List Tuple) → page_tuples page.count block.now ≡ some ts
        → rows_in places.new numbers.new owners.new marks.new (k + page.count)
        ≡ rows_in places.old numbers.old owners.old marks.old k ++ map bare (rows_of page.table ts) }
{
    let mut cursor = Cursor::first();
    for i in 0..page.count as usize {
        let Some((r, after)) = cursor.next(block) else {
            return;
        };
        put_row(places, numbers, owners, marks, k + i, page.table, r);
        cursor = after;
    }
}

// The head of a page that may stand in an image whose header has this level, with at most `room` tuples.
pub fn good_page(block: &[u8; block_forms::BLOCK_SIZE], level: u32, room: usize) -> Option<PageHead>
    ensures { result ≡ good_page level room (as_page (decode_block block.now)) }
{
    let Block::Page(page) = block_reader::read_block(block)? else {
        return None;
    };
    if 1 <= page.count
        && 1 <= page.level
        && page.level <= level
        && page.count as usize <= room
        && marks_ok(block, page.count)
    {
        Some(page)
    } else {
        None
    }
}
