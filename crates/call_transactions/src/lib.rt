// Make, and the calls of transactions. No call asks anything of its caller: each contract says what the call answers and leaves, for
// any memory and any arguments, by the model's function.
#![tactic(auto)]

use block_forms::{Header, Owner};
use call_contracts::{Answer, Reply};
use memory_layout::Open;
use memory_rows::{Pending, Row};
use refusals::Refusal;

mod checks;
mod keys;

ghost use Rattle.std.specs.Prelude.{◌≡◌, true, length};
ghost use Rattle.model.specs.Transactions.{not_open, one_more, after_write, write_call, without, open_call, insert_call, replace_call, delete_call, commit_call, abort_call, read_call, list_call};
ghost use Rattle.model.specs.Crossing.{crossing_call};
ghost use Rattle.model.specs.Calls.{with_room};
ghost use Rattle.model.specs.Recover.{make};
ghost use Rattle.memory_layout.specs.Flat.{flat_of, Room, Becomes, with_opens};
ghost use Rattle.memory_layout.specs.Store.{store_in, store_of, HoldsNow};
ghost use Rattle.memory_layout.specs.Opens.{active_of, OpenFits};
ghost use Rattle.call_contracts.specs.Shape.{Answers, Replies, Made};
ghost use Rattle.refusals.specs.Numbers.{number_in};
ghost use Rattle.call_transactions.specs.Refusals.{refusal_in};
ghost use Rattle.image.specs.Stages.{refusal_of};
ghost use Rattle.call_transactions.specs.Calls.{WriterAt, NextRow, after_count, AcceptAt, end_call, OpenedAt};

use checks::{check_call, check_key};
use keys::reply_crossing;

const BLOCK_SIZE: usize = block_forms::BLOCK_SIZE;

// The most blocks and the largest capacity, in the types of what is tested.
const BLOCK_LIMIT: usize = memory_layout::BLOCK_LIMIT as usize;

const CAPACITY_LIMIT: u64 = memory_layout::CAPACITY_LIMIT as u64;

// The largest number of a transaction and of a table, and how many transactions may be open.
const TRANSACTION_LIMIT: u64 = block_forms::TRANSACTIONS as u64 - 1;

pub const TABLE_LIMIT: u64 = 7;

const OPEN_LIMIT: usize = memory_layout::OPEN_LIMIT as usize;

// The most that a transaction's count of tuples goes to, and the number that no tuple gets.
const WRITTEN_LIMIT: u32 = block_forms::STATEMENTS - 1;

const LAST_NUMBER: u32 = 4294967295;

// ---- make

// 1 image, of len bytes, not 2 to 4,096 whole blocks; 2 capacity not 1 to 1,024; 3 memory, of room bytes, too short.
fn check_make(len: usize, room: usize, capacity: u64) -> Result<(), Refusal>
    ensures { number_in result ≡ refusal_of (make len room capacity) }
{
    let blocks = len / BLOCK_SIZE;
    if len % BLOCK_SIZE != 0 || blocks < 2 || BLOCK_LIMIT < blocks {
        return Err(Refusal::ImageLength);
    }
    if capacity < 1 || CAPACITY_LIMIT < capacity {
        return Err(Refusal::CapacityRange);
    }
    let n = capacity as usize;
    if room < memory_layout::ROW_SPACE * n + memory_layout::places::HEAD_SIZE {
        return Err(Refusal::MemoryShort);
    }
    Ok(())
}

// Writes block 0 of the image, and lays an empty store out in the memory.
pub fn make(image: &mut [u8], m: &mut [u8], capacity: u64) -> Answer
    ensures { Made capacity image.old m.old result image.new m.new }
{
    let len = image.len();
    check_make(len, m.len(), capacity)?;
    let b = (len / BLOCK_SIZE) as u32;
    let c = capacity as u32;
    let h = Header {
        blocks: b,
        capacity: c,
        level: 0,
        next: 0,
        pages: 0,
        directories: 0,
        d0: 0,
        d1: 0,
        d2: 0,
        d3: 0,
    };
    block_forms::write_header(&mut image[0..BLOCK_SIZE], h);
    memory_layout::fresh(m, b, c);
    Ok(Reply::Done)
}

// ---- open

// The place of the transaction's first entry among the open ones, if it is open.
fn opened_at(m: &[u8], transaction: u64) -> Option<usize>
    requires { Room m.now }
    ensures { OpenedAt transaction (flat_of m.now).opens result }
{
    let i = memory_layout::find_open(m, transaction);
    if i < engine_opens::open_count(m) {
        Some(i)
    } else {
        None
    }
}

// 4; 6 transaction above 4,095; 7 not open.
fn check_open(m: &[u8], transaction: u64) -> Result<(), Refusal>
    ensures { number_in result ≡ refusal_in (store_in m.now) (not_open transaction) }
{
    if !memory_layout::holds_store(m) {
        return Err(Refusal::NoStore);
    }
    if TRANSACTION_LIMIT < transaction {
        return Err(Refusal::TransactionRange);
    }
    if opened_at(m, transaction).is_none() {
        return Err(Refusal::NotOpen);
    }
    Ok(())
}

// A transaction opens, if there is room for the record of it.
pub fn open_if(m: &mut [u8], room: bool, transaction: u64) -> Answer
    ensures { Answers (with_room room (open_call transaction)) m.old result m.new }
{
    if !memory_layout::holds_store(m) {
        return Err(Refusal::NoStore);
    }
    if TRANSACTION_LIMIT < transaction {
        return Err(Refusal::TransactionRange);
    }
    if opened_at(m, transaction).is_some() {
        return Err(Refusal::AlreadyOpen);
    }
    if OPEN_LIMIT <= engine_opens::open_count(m) {
        return Err(Refusal::TooManyOpen);
    }
    if !room {
        return Err(Refusal::LogFull);
    }
    let opened = Open {
        transaction: transaction as u32,
        written: 0,
    };
    memory_layout::push_open(m, opened);
    Ok(Reply::Done)
}

pub fn open(m: &mut [u8], transaction: u64) -> Answer
    ensures { Answers (open_call transaction) m.old result m.new }
{
    open_if(m, true, transaction)
}

// ---- read, crossing, list

pub fn read(m: &[u8], transaction: u64, table: u64, key: u32, reply: &mut [u8]) -> Answer
    ensures { Replies (read_call transaction table key (length reply.old)) m.now result reply.old reply.new }
{
    check_open(m, transaction)?;
    if TABLE_LIMIT < table {
        return Err(Refusal::TableRange);
    }
    let t = table as u8;
    let Some(i) = engine_lookup::seen_by(m, t, transaction, key) else {
        return Err(Refusal::NotFound);
    };
    let p = memory_rows::payload_at(m, i);
    let len = p.len;
    if reply.len() < len {
        return Err(Refusal::ReplyShort);
    }
    memory_rows::copy_payload(m, i, reply);
    Ok(Reply::Filled(len))
}

// The keys of the bookings of the table that the transaction sees and that cross the interval, over the first bytes of the reply.
pub fn crossing(
    m: &[u8],
    transaction: u64,
    table: u64,
    first: u64,
    end: u64,
    reply: &mut [u8],
) -> Answer
    ensures { Replies (crossing_call transaction table first end (length reply.old)) m.now result reply.old reply.new }
{
    check_open(m, transaction)?;
    if TABLE_LIMIT < table {
        return Err(Refusal::TableRange);
    }
    if end <= first {
        return Err(Refusal::IntervalEmpty);
    }
    reply_crossing(m, table as u8, transaction, first, end, reply)
}

// The open transactions by rising number, two bytes each, over the first bytes of the reply.
pub fn list(m: &[u8], reply: &mut [u8]) -> Answer
    ensures { Replies (list_call (length reply.old)) m.now result reply.old reply.new }
{
    if !memory_layout::holds_store(m) {
        return Err(Refusal::NoStore);
    }
    let n = engine_opens::open_count(m);
    if reply.len() < 2 * n {
        return Err(Refusal::ReplyShort);
    }
    engine_opens::fill_list(m, n, reply);
    Ok(Reply::Filled(n))
}

// ---- insert, replace, delete

// One tuple more was written. The count stays in its 20 bits.
fn one_more(o: Open) -> Open
    requires { OpenFits o }
    ensures { (active_of result ≡ one_more (active_of o)) × OpenFits result }
{
    if o.written < WRITTEN_LIMIT {
        return Open {
            transaction: o.transaction,
            written: o.written + 1,
        };
    }
    o
}

// The row that open transaction i writes next.
fn next_row(m: &[u8], i: usize, key: u32, mark: bool) -> Row
    requires { WriterAt m.now i }
    ensures { NextRow (flat_of m.now) i key mark result }
{
    let h = memory_layout::get_head(m);
    let o = memory_layout::get_open(m, i);
    Row {
        key,
        number: h.next,
        owner: Owner::Tentative {
            transaction: o.transaction,
            statement: o.written,
        },
        mark,
        pending: Pending::Nothing,
    }
}

// The next number goes up, and open transaction i has written one tuple more.
fn count_write(m: &mut [u8], i: usize)
    requires { WriterAt m.old i }
    ensures { Becomes m.old m.new (after_count (flat_of m.old) i) }
{
    let mut h = memory_layout::get_head(m);
    h.next += 1;
    let o = one_more(memory_layout::get_open(m, i));
    memory_layout::put_head(m, h);
    memory_layout::put_open(m, i, o);
}

// All tests are passed: the counters go up, and the tuple is placed as row `at`.
fn accept(
    m: &mut [u8],
    transaction: u64,
    table: u8,
    at: usize,
    key: u32,
    mark: bool,
    payload: &[u8],
)
    requires { AcceptAt m.old transaction table at key payload.now }
    ensures { HoldsNow m.old m.new (after_write transaction table key payload.now mark (store_of (flat_of m.old))) }
{
    let i = memory_layout::find_open(m, transaction);
    let row = next_row(m, i, key, mark);
    count_write(m, i);
    engine_pages::place(m, table, at, row, payload);
}

// One tentative tuple more, unless a test holds, the last of which is that there is room for the record of it. One search for the key serves the
// tests and gives the tuple's place. Two flags, and no enum of the three calls: what is promised holds of each of the four writes of `write_call`.
pub fn write_if(
    m: &mut [u8],
    room: bool,
    new: bool,
    transaction: u64,
    table: u64,
    key: u32,
    mark: bool,
    payload: &[u8],
) -> Answer
    ensures { Answers (with_room room (write_call new mark transaction table key payload.now)) m.old result m.new }
{
    check_call(m, transaction, table, payload.len())?;
    let t = table as u8;
    let s = engine_lookup::find_place(m, t, transaction, key);
    check_key(m, new, s.visibility)?;
    if !room {
        return Err(Refusal::LogFull);
    }
    accept(m, transaction, t, s.at, key, mark, payload);
    Ok(Reply::Done)
}

pub fn insert(m: &mut [u8], transaction: u64, table: u64, key: u32, payload: &[u8]) -> Answer
    ensures { Answers (insert_call transaction table key payload.now) m.old result m.new }
{
    write_if(m, true, true, transaction, table, key, false, payload)
}

pub fn replace(m: &mut [u8], transaction: u64, table: u64, key: u32, payload: &[u8]) -> Answer
    ensures { Answers (replace_call transaction table key payload.now) m.old result m.new }
{
    write_if(m, true, false, transaction, table, key, false, payload)
}

// A delete mark with empty payload: the key is gone for this transaction now and, unless it inserts it again, for all others at its commit.
pub fn delete(m: &mut [u8], transaction: u64, table: u64, key: u32) -> Answer
    ensures { Answers (delete_call transaction table key) m.old result m.new }
{
    write_if(m, true, false, transaction, table, key, true, b"")
}

// ---- commit, abort

// Takes every entry of the transaction off the list of open transactions.
fn close(m: &mut [u8], transaction: u64)
    requires { Room m.old }
    ensures { Becomes m.old m.new (with_opens (flat_of m.old) (without transaction (flat_of m.old).opens)) }
{
    while let Some(i) = opened_at(m, transaction) {
        memory_layout::remove_open(m, i);
    }
}

// Keeps what the transaction wrote or takes it back, and closes it, if there is room for the record of it.
// `keep` stays a flag: engine_close::close_rows takes the same one, and an enum would be turned back into it.
pub fn end_if(m: &mut [u8], room: bool, transaction: u64, keep: bool) -> Answer
    ensures { Answers (with_room room (end_call keep transaction)) m.old result m.new }
{
    check_open(m, transaction)?;
    if !room {
        return Err(Refusal::LogFull);
    }
    engine_close::close_rows(m, transaction, keep);
    close(m, transaction);
    Ok(Reply::Done)
}

// Keeps what the transaction wrote, and closes it.
pub fn commit(m: &mut [u8], transaction: u64) -> Answer
    ensures { Answers (commit_call transaction) m.old result m.new }
{
    end_if(m, true, transaction, true)
}

// Takes back what the transaction wrote, and closes it.
pub fn abort(m: &mut [u8], transaction: u64) -> Answer
    ensures { Answers (abort_call transaction) m.old result m.new }
{
    end_if(m, true, transaction, false)
}
