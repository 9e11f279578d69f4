// The booking store: every call; crate store_c has them for C. No call asks anything of its caller. What the contracts promise together, for every
// list of calls and wherever power fails, are the theorems of specs/CrashRecovery and, with a log, of specs/NothingLost, which name the
// relations that they cite.
#![tactic(auto)]

ghost use Rattle.std.specs.Prelude.{length};
ghost use Rattle.model.specs.Transactions.{open_call, insert_call, replace_call, delete_call, commit_call, abort_call, read_call, list_call};
ghost use Rattle.model.specs.Checked.{insert_checked_call};
ghost use Rattle.model.specs.Crossing.{crossing_call};
ghost use Rattle.model.specs.Checkpoint.{begin_call, step_call, run_call};
ghost use Rattle.log_records.specs.Records.{opened_by, committed_by, aborted_by, inserted_by, replaced_by, deleted_by};
ghost use Rattle.log_model.specs.Logged.{mark_for};
ghost use Rattle.call_contracts.specs.Shape.{Answers, Replies, Stores, Made, Recovered};
ghost use Rattle.call_contracts.specs.Logged.{Logs, Forwards};

use call_contracts::{Answer, Logged};

// An empty store, in image and memory.
pub fn make(image: &mut [u8], m: &mut [u8], capacity: u64) -> Answer
    ensures { Made capacity image.old m.old result image.new m.new }
{
    call_transactions::make(image, m, capacity)
}

// What the image holds, laid out in the memory.
pub fn recover(image: &[u8], m: &mut [u8]) -> Answer
    ensures { Recovered image.now m.old result m.new }
{
    call_recovery::recover(image, m)
}

// A transaction opens.
pub fn open(m: &mut [u8], transaction: u64) -> Answer
    ensures { Answers (open_call transaction) m.old result m.new }
{
    call_transactions::open(m, transaction)
}

// A tuple of a key that the transaction does not see.
pub fn insert(m: &mut [u8], transaction: u64, table: u64, key: u32, payload: &[u8]) -> Answer
    ensures { Answers (insert_call transaction table key payload.now) m.old result m.new }
{
    call_transactions::insert(m, transaction, table, key, payload)
}

// The same, for a booking whose dish is open for every minute of it; `hours` is the dish's weekly calendar, four bytes a row.
pub fn insert_checked(
    m: &mut [u8],
    transaction: u64,
    table: u64,
    key: u32,
    payload: &[u8],
    hours: &[u8],
) -> Answer
    ensures { Answers (insert_checked_call transaction table key payload.now hours.now) m.old result m.new }
{
    call_checked::insert_checked(m, transaction, table, key, payload, hours)
}

// Another payload for a key.
pub fn replace(m: &mut [u8], transaction: u64, table: u64, key: u32, payload: &[u8]) -> Answer
    ensures { Answers (replace_call transaction table key payload.now) m.old result m.new }
{
    call_transactions::replace(m, transaction, table, key, payload)
}

// Adds a delete mark for the key: gone for this transaction now and, unless it inserts the key again, for all others at its commit.
pub fn delete(m: &mut [u8], transaction: u64, table: u64, key: u32) -> Answer
    ensures { Answers (delete_call transaction table key) m.old result m.new }
{
    call_transactions::delete(m, transaction, table, key)
}

// What the transaction wrote is seen by all.
pub fn commit(m: &mut [u8], transaction: u64) -> Answer
    ensures { Answers (commit_call transaction) m.old result m.new }
{
    call_transactions::commit(m, transaction)
}

// What the transaction wrote is gone.
pub fn abort(m: &mut [u8], transaction: u64) -> Answer
    ensures { Answers (abort_call transaction) m.old result m.new }
{
    call_transactions::abort(m, transaction)
}

// The payload of a key, over the first bytes of the reply.
pub fn read(m: &[u8], transaction: u64, table: u64, key: u32, reply: &mut [u8]) -> Answer
    ensures { Replies (read_call transaction table key (length reply.old)) m.now result reply.old reply.new }
{
    call_transactions::read(m, transaction, table, key, reply)
}

// The keys of the bookings that cross the interval from minute `first` up to, not including, minute `end`, over the first bytes of the reply.
pub fn crossing(
    m: &[u8],
    transaction: u64,
    table: u64,
    first: u64,
    end: u64,
    reply: &mut [u8],
) -> Answer
    ensures { Replies (crossing_call transaction table first end (length reply.old)) m.now result reply.old reply.new }
{
    call_transactions::crossing(m, transaction, table, first, end, reply)
}

// The open transactions by rising number, over the first bytes of the reply.
pub fn list(m: &[u8], reply: &mut [u8]) -> Answer
    ensures { Replies (list_call (length reply.old)) m.now result reply.old reply.new }
{
    call_transactions::list(m, reply)
}

// A checkpoint begins.
pub fn begin(m: &mut [u8]) -> Answer
    ensures { Answers begin_call m.old result m.new }
{
    call_checkpoint::begin(m)
}

// One block store.
pub fn step(image: &mut [u8], m: &mut [u8]) -> Answer
    ensures { Stores (step_call (length image.old)) image.old m.old result image.new m.new }
{
    call_checkpoint::step(image, m)
}

// At most `limit` block stores.
pub fn run(image: &mut [u8], m: &mut [u8], limit: u64) -> Answer
    ensures { Stores (run_call limit (length image.old)) image.old m.old result image.new m.new }
{
    call_checkpoint::run(image, m, limit)
}

// ---- logged calls

// A transaction opens, and its record is appended at the log's end; the new end is answered too.
pub fn logged_open(m: &mut [u8], log: &mut [u8], end: u64, transaction: u64) -> Logged
    ensures { Logs (open_call transaction) (λ s. opened_by transaction) m.old log.old end result m.new log.new }
{
    call_logged::logged_open(m, log, end, transaction)
}

pub fn logged_insert(
    m: &mut [u8],
    log: &mut [u8],
    end: u64,
    transaction: u64,
    table: u64,
    key: u32,
    payload: &[u8],
) -> Logged
    ensures { Logs (insert_call transaction table key payload.now) (λ s. inserted_by transaction table key payload.now)
        m.old log.old end result m.new log.new }
{
    call_logged::logged_insert(m, log, end, transaction, table, key, payload)
}

// The record of a checked insert is that of an insert.
pub fn logged_insert_checked(
    m: &mut [u8],
    log: &mut [u8],
    end: u64,
    transaction: u64,
    table: u64,
    key: u32,
    payload: &[u8],
    hours: &[u8],
) -> Logged
    ensures { Logs (insert_checked_call transaction table key payload.now hours.now) (λ s. inserted_by transaction table key payload.now)
        m.old log.old end result m.new log.new }
{
    call_logged::logged_insert_checked(m, log, end, transaction, table, key, payload, hours)
}

pub fn logged_replace(
    m: &mut [u8],
    log: &mut [u8],
    end: u64,
    transaction: u64,
    table: u64,
    key: u32,
    payload: &[u8],
) -> Logged
    ensures { Logs (replace_call transaction table key payload.now) (λ s. replaced_by transaction table key payload.now)
        m.old log.old end result m.new log.new }
{
    call_logged::logged_replace(m, log, end, transaction, table, key, payload)
}

pub fn logged_delete(
    m: &mut [u8],
    log: &mut [u8],
    end: u64,
    transaction: u64,
    table: u64,
    key: u32,
) -> Logged
    ensures { Logs (delete_call transaction table key) (λ s. deleted_by transaction table key) m.old log.old end result m.new log.new }
{
    call_logged::logged_delete(m, log, end, transaction, table, key)
}

// Once a commit is answered, a roll-forward brings back what it committed.
pub fn logged_commit(m: &mut [u8], log: &mut [u8], end: u64, transaction: u64) -> Logged
    ensures { Logs (commit_call transaction) (λ s. committed_by transaction) m.old log.old end result m.new log.new }
{
    call_logged::logged_commit(m, log, end, transaction)
}

pub fn logged_abort(m: &mut [u8], log: &mut [u8], end: u64, transaction: u64) -> Logged
    ensures { Logs (abort_call transaction) (λ s. aborted_by transaction) m.old log.old end result m.new log.new }
{
    call_logged::logged_abort(m, log, end, transaction)
}

// A begin appends a mark, from which a roll-forward of its checkpoint goes on.
pub fn logged_begin(m: &mut [u8], log: &mut [u8], end: u64) -> Logged
    ensures { Logs begin_call mark_for m.old log.old end result m.new log.new }
{
    call_logged::logged_begin(m, log, end)
}

// ---- roll-forward

// What image and log hold together: the image is recovered, the calls logged since its checkpoint began are repeated, and what is left open is
// aborted. It works in the second memory first, whose bytes are then anything.
pub fn roll_forward(image: &[u8], m: &mut [u8], second: &mut [u8], log: &mut [u8]) -> Logged
    ensures { Forwards image.now m.old (length second.old) log.old result m.new log.new }
{
    call_forward::roll_forward(image, m, second, log)
}
