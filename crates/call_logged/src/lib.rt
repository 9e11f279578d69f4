// Logged calls: each does what the plain call does and, if that is accepted, appends its record at the log's end, by two stores (see log_records). Where
// the record does not fit, the call is refused by 29, after all its other tests. A refused call leaves memory and log as found.
ghost use Rattle.std.specs.Prelude.{◌≡◌, ◌+◌, leb};
ghost use Rattle.model.specs.Transactions.{open_call, insert_call, replace_call, delete_call, commit_call, abort_call};
ghost use Rattle.model.specs.Checked.{insert_checked_call};
ghost use Rattle.model.specs.Checkpoint.{begin_call};
ghost use Rattle.log_records.specs.Records.{opened_by, committed_by, aborted_by, inserted_by, replaced_by, deleted_by, mark_of};
ghost use Rattle.log_model.specs.Logged.{mark_for};
ghost use Rattle.log_records.specs.Entries.{change_is};
ghost use Rattle.call_contracts.specs.Logged.{Logs};
ghost use Rattle.call_logged.specs.Appending.{Ready, ReadyMark, Appended};

use call_contracts::{Answer, Logged};
use log_records::{Change, PLACE, SHORT};
use refusals::Refusal;

// A transaction has 12 bits, and there are eight tables: all that an accepted call lets through.
const TRANSACTIONS: u64 = block_forms::TRANSACTIONS as u64;

const TABLES: u64 = call_transactions::TABLE_LIMIT + 1;

const OPEN_LIMIT: usize = memory_layout::OPEN_LIMIT as usize;

// Whether head + more bytes fit a log of len bytes, from its end on.
fn has_room(len: usize, end: u64, head: usize, more: usize) -> bool
    ensures { result ≡ leb (end + (head + more)) len }
{
    if len < head {
        return false;
    }
    let rest = len - head;
    if rest < more {
        return false;
    }
    end <= (rest - more) as u64
}

// Appends the record of a call that was accepted, and hands its answer on.
fn append_accepted(
    answer: Answer,
    log: &mut [u8],
    end: u64,
    change: Change,
    payload: &[u8],
) -> Logged
    requires { Ready answer log.old end change payload.now }
    ensures { Appended answer (change_is change payload.now) log.old end result log.new }
{
    if answer.is_err() {
        return Logged { answer, end };
    }
    let size = log_records::change_size(change) as u64;
    log_records::append(log, end as usize, change, payload);
    Logged {
        answer,
        end: end + size,
    }
}

// Each call below asks for room, makes the plain call and appends its record. A function over a closure for the plain call would be no plainer: it
// saves a line in each, and asks for a contract of what the closure answers.
pub fn logged_open(m: &mut [u8], log: &mut [u8], end: u64, transaction: u64) -> Logged
    ensures { Logs (open_call transaction) (λ s. opened_by transaction) m.old log.old end result m.new log.new }
{
    let room = has_room(log.len(), end, SHORT, 0);
    let answer = call_transactions::open_if(m, room, transaction);
    let change = Change::Open {
        transaction: (transaction % TRANSACTIONS) as u32,
    };
    append_accepted(answer, log, end, change, b"")
}

pub fn logged_insert(
    m: &mut [u8],
    log: &mut [u8],
    end: u64,
    transaction: u64,
    table: u64,
    key: u32,
    payload: &[u8],
) -> Logged
    ensures { Logs (insert_call transaction table key payload.now) (λ s. inserted_by transaction table key payload.now) m.old log.old end result m.new log.new }
{
    let room = has_room(log.len(), end, PLACE, payload.len());
    let answer = call_transactions::write_if(
        m,
        room,
        true,
        transaction,
        table,
        key,
        false,
        payload,
    );
    let change = Change::Insert {
        transaction: (transaction % TRANSACTIONS) as u32,
        table: (table % TABLES) as u32,
        key,
        len: payload.len(),
    };
    append_accepted(answer, log, end, change, payload)
}

// The record of a checked insert is that of the insert.
pub fn logged_insert_checked(
    m: &mut [u8],
    log: &mut [u8],
    end: u64,
    transaction: u64,
    table: u64,
    key: u32,
    payload: &[u8],
    hours: &[u8],
) -> Logged
    ensures { Logs (insert_checked_call transaction table key payload.now hours.now) (λ s. inserted_by transaction table key payload.now) m.old log.old end result m.new log.new }
{
    let room = has_room(log.len(), end, PLACE, payload.len());
    let answer = call_checked::insert_checked_if(m, room, transaction, table, key, payload, hours);
    let change = Change::Insert {
        transaction: (transaction % TRANSACTIONS) as u32,
        table: (table % TABLES) as u32,
        key,
        len: payload.len(),
    };
    append_accepted(answer, log, end, change, payload)
}

pub fn logged_replace(
    m: &mut [u8],
    log: &mut [u8],
    end: u64,
    transaction: u64,
    table: u64,
    key: u32,
    payload: &[u8],
) -> Logged
    ensures { Logs (replace_call transaction table key payload.now) (λ s. replaced_by transaction table key payload.now) m.old log.old end result m.new log.new }
{
    let room = has_room(log.len(), end, PLACE, payload.len());
    let answer = call_transactions::write_if(
        m,
        room,
        false,
        transaction,
        table,
        key,
        false,
        payload,
    );
    let change = Change::Replace {
        transaction: (transaction % TRANSACTIONS) as u32,
        table: (table % TABLES) as u32,
        key,
        len: payload.len(),
    };
    append_accepted(answer, log, end, change, payload)
}

pub fn logged_delete(
    m: &mut [u8],
    log: &mut [u8],
    end: u64,
    transaction: u64,
    table: u64,
    key: u32,
) -> Logged
    ensures { Logs (delete_call transaction table key) (λ s. deleted_by transaction table key) m.old log.old end result m.new log.new }
{
    let room = has_room(log.len(), end, PLACE, 0);
    let answer = call_transactions::write_if(m, room, false, transaction, table, key, true, b"");
    let change = Change::Delete {
        transaction: (transaction % TRANSACTIONS) as u32,
        table: (table % TABLES) as u32,
        key,
    };
    append_accepted(answer, log, end, change, b"")
}

pub fn logged_commit(m: &mut [u8], log: &mut [u8], end: u64, transaction: u64) -> Logged
    ensures { Logs (commit_call transaction) (λ s. committed_by transaction) m.old log.old end result m.new log.new }
{
    let room = has_room(log.len(), end, SHORT, 0);
    let answer = call_transactions::end_if(m, room, transaction, true);
    let change = Change::Commit {
        transaction: (transaction % TRANSACTIONS) as u32,
    };
    append_accepted(answer, log, end, change, b"")
}

pub fn logged_abort(m: &mut [u8], log: &mut [u8], end: u64, transaction: u64) -> Logged
    ensures { Logs (abort_call transaction) (λ s. aborted_by transaction) m.old log.old end result m.new log.new }
{
    let room = has_room(log.len(), end, SHORT, 0);
    let answer = call_transactions::end_if(m, room, transaction, false);
    let change = Change::Abort {
        transaction: (transaction % TRANSACTIONS) as u32,
    };
    append_accepted(answer, log, end, change, b"")
}

// ---- begin

// Appends the mark of a begin that was accepted at this level, and hands its answer on.
fn append_begun(
    answer: Answer,
    log: &mut [u8],
    end: u64,
    level: u32,
    transactions: &[u32],
) -> Logged
    requires { ReadyMark answer log.old end (level + 1) transactions.now }
    ensures { Appended answer (mark_of (level + 1) transactions.now) log.old end result log.new }
{
    if answer.is_err() {
        return Logged { answer, end };
    }
    let size = log_records::mark_size(transactions.len()) as u64;
    log_records::append_mark(log, end as usize, level + 1, transactions);
    Logged {
        answer,
        end: end + size,
    }
}

// The mark has the level of the checkpoint begun and the transactions open without writes.
pub fn logged_begin(m: &mut [u8], log: &mut [u8], end: u64) -> Logged
    ensures { Logs begin_call mark_for m.old log.old end result m.new log.new }
{
    if !memory_layout::holds_store(m) {
        return Logged {
            answer: Err(Refusal::NoStore),
            end,
        };
    }
    let h = memory_layout::get_head(m);
    let mut numbers = [0u32; OPEN_LIMIT];
    let n = engine_opens::sort_unwritten(m, &mut numbers);
    let room = has_room(log.len(), end, log_records::mark_size(n), 0);
    let answer = call_checkpoint::begin_if(m, room);
    append_begun(answer, log, end, h.level, &numbers[..n])
}
