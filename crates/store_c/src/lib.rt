// The store's calls for C, or any language that calls C: a static library. Each does what its call of crate store does, and answers one number.
#![tactic(auto)]

ghost use Rattle.std.specs.Prelude.{◌≡◌, pos, length, Ok};
ghost use Rattle.model.specs.Transactions.{open_call, insert_call, replace_call, delete_call, commit_call, abort_call, read_call, list_call};
ghost use Rattle.model.specs.Checked.{insert_checked_call};
ghost use Rattle.model.specs.Crossing.{crossing_call};
ghost use Rattle.model.specs.Checkpoint.{begin_call, step_call, run_call};
ghost use Rattle.log_records.specs.Records.{opened_by, committed_by, aborted_by, inserted_by, replaced_by, deleted_by};
ghost use Rattle.log_model.specs.Logged.{mark_for};
ghost use Rattle.call_contracts.specs.Shape.{Answers, Replies, Stores, Made, Recovered};
ghost use Rattle.call_contracts.specs.Logged.{Logs, Forwards};
ghost use Rattle.store.specs.Code.{clamped, code, Coded, CodedLog, CodedForward};

use call_contracts::{Answer, Reply};

// n, or the largest i64 if n is larger.
fn clamped(n: u64) -> i64
    ensures { result ≡ pos (clamped n) }
{
    if n < 9223372036854775808 {
        return n as i64;
    }
    9223372036854775807
}

// The number that a reply is to C.
fn reply_code(reply: Reply) -> i64
    ensures { result ≡ code (Ok reply) }
{
    match reply {
        Reply::Done => 0,
        Reply::Count(n) => clamped(n),
        Reply::Filled(n) => clamped(n as u64),
    }
}

// The number that an answer is to C.
fn code(answer: Answer) -> i64
    ensures { result ≡ code answer }
{
    match answer {
        Ok(reply) => reply_code(reply),
        Err(refusal) => -clamped(u64::from(refusal)),
    }
}

#[unsafe(no_mangle)]
pub extern "C" fn vodzanu_make(image: &mut [u8], memory: &mut [u8], capacity: u64) -> i64
    ensures { Coded result (λ a. Made capacity image.old memory.old a image.new memory.new) }
{
    code(store::make(image, memory, capacity))
}

#[unsafe(no_mangle)]
pub extern "C" fn vodzanu_recover(image: &[u8], memory: &mut [u8]) -> i64
    ensures { Coded result (λ a. Recovered image.now memory.old a memory.new) }
{
    code(store::recover(image, memory))
}

#[unsafe(no_mangle)]
pub extern "C" fn vodzanu_open(memory: &mut [u8], transaction: u64) -> i64
    ensures { Coded result (λ a. Answers (open_call transaction) memory.old a memory.new) }
{
    code(store::open(memory, transaction))
}

#[unsafe(no_mangle)]
pub extern "C" fn vodzanu_insert(
    memory: &mut [u8],
    transaction: u64,
    table: u64,
    key: u32,
    payload: &[u8],
) -> i64
    ensures { Coded result (λ a. Answers (insert_call transaction table key payload.now) memory.old a memory.new) }
{
    code(store::insert(memory, transaction, table, key, payload))
}

#[unsafe(no_mangle)]
pub extern "C" fn vodzanu_insert_checked(
    memory: &mut [u8],
    transaction: u64,
    table: u64,
    key: u32,
    payload: &[u8],
    hours: &[u8],
) -> i64
    ensures { Coded result (λ a. Answers (insert_checked_call transaction table key payload.now hours.now) memory.old a memory.new) }
{
    code(store::insert_checked(memory, transaction, table, key, payload, hours))
}

#[unsafe(no_mangle)]
pub extern "C" fn vodzanu_replace(
    memory: &mut [u8],
    transaction: u64,
    table: u64,
    key: u32,
    payload: &[u8],
) -> i64
    ensures { Coded result (λ a. Answers (replace_call transaction table key payload.now) memory.old a memory.new) }
{
    code(store::replace(memory, transaction, table, key, payload))
}

#[unsafe(no_mangle)]
pub extern "C" fn vodzanu_delete(memory: &mut [u8], transaction: u64, table: u64, key: u32) -> i64
    ensures { Coded result (λ a. Answers (delete_call transaction table key) memory.old a memory.new) }
{
    code(store::delete(memory, transaction, table, key))
}

#[unsafe(no_mangle)]
pub extern "C" fn vodzanu_commit(memory: &mut [u8], transaction: u64) -> i64
    ensures { Coded result (λ a. Answers (commit_call transaction) memory.old a memory.new) }
{
    code(store::commit(memory, transaction))
}

#[unsafe(no_mangle)]
pub extern "C" fn vodzanu_abort(memory: &mut [u8], transaction: u64) -> i64
    ensures { Coded result (λ a. Answers (abort_call transaction) memory.old a memory.new) }
{
    code(store::abort(memory, transaction))
}

#[unsafe(no_mangle)]
pub extern "C" fn vodzanu_read(
    memory: &[u8],
    transaction: u64,
    table: u64,
    key: u32,
    reply: &mut [u8],
) -> i64
    ensures { Coded result (λ a. Replies (read_call transaction table key (length reply.old)) memory.now a reply.old reply.new) }
{
    code(store::read(memory, transaction, table, key, reply))
}

#[unsafe(no_mangle)]
pub extern "C" fn vodzanu_crossing(
    memory: &[u8],
    transaction: u64,
    table: u64,
    first: u64,
    end: u64,
    reply: &mut [u8],
) -> i64
    ensures { Coded result (λ a. Replies (crossing_call transaction table first end (length reply.old)) memory.now a reply.old reply.new) }
{
    code(store::crossing(memory, transaction, table, first, end, reply))
}

#[unsafe(no_mangle)]
pub extern "C" fn vodzanu_list(memory: &[u8], reply: &mut [u8]) -> i64
    ensures { Coded result (λ a. Replies (list_call (length reply.old)) memory.now a reply.old reply.new) }
{
    code(store::list(memory, reply))
}

#[unsafe(no_mangle)]
pub extern "C" fn vodzanu_begin(memory: &mut [u8]) -> i64
    ensures { Coded result (λ a. Answers begin_call memory.old a memory.new) }
{
    code(store::begin(memory))
}

#[unsafe(no_mangle)]
pub extern "C" fn vodzanu_step(image: &mut [u8], memory: &mut [u8]) -> i64
    ensures { Coded result (λ a. Stores (step_call (length image.old)) image.old memory.old a image.new memory.new) }
{
    code(store::step(image, memory))
}

#[unsafe(no_mangle)]
pub extern "C" fn vodzanu_run(image: &mut [u8], memory: &mut [u8], limit: u64) -> i64
    ensures { Coded result (λ a. Stores (run_call limit (length image.old)) image.old memory.old a image.new memory.new) }
{
    code(store::run(image, memory, limit))
}

// ---- logged calls for C: the end goes in and out behind a pointer, and a refusal leaves it

#[unsafe(no_mangle)]
pub extern "C" fn vodzanu_logged_open(
    memory: &mut [u8],
    log: &mut [u8],
    end: &mut u64,
    transaction: u64,
) -> i64
    ensures { CodedLog result end.new (λ a.
        Logs (open_call transaction) (λ s. opened_by transaction)
        memory.old log.old end.old a memory.new log.new) }
{
    let logged = store::logged_open(memory, log, *end, transaction);
    *end = logged.end;
    code(logged.answer)
}

#[unsafe(no_mangle)]
pub extern "C" fn vodzanu_logged_insert(
    memory: &mut [u8],
    log: &mut [u8],
    end: &mut u64,
    transaction: u64,
    table: u64,
    key: u32,
    payload: &[u8],
) -> i64
    ensures { CodedLog result end.new (λ a.
        Logs (insert_call transaction table key payload.now) (λ s. inserted_by transaction table key payload.now)
        memory.old log.old end.old a memory.new log.new) }
{
    let logged = store::logged_insert(memory, log, *end, transaction, table, key, payload);
    *end = logged.end;
    code(logged.answer)
}

#[unsafe(no_mangle)]
pub extern "C" fn vodzanu_logged_insert_checked(
    memory: &mut [u8],
    log: &mut [u8],
    end: &mut u64,
    transaction: u64,
    table: u64,
    key: u32,
    payload: &[u8],
    hours: &[u8],
) -> i64
    ensures { CodedLog result end.new (λ a.
        Logs (insert_checked_call transaction table key payload.now hours.now) (λ s. inserted_by transaction table key payload.now)
        memory.old log.old end.old a memory.new log.new) }
{
    let logged = store::logged_insert_checked(
        memory,
        log,
        *end,
        transaction,
        table,
        key,
        payload,
        hours,
    );
    *end = logged.end;
    code(logged.answer)
}

#[unsafe(no_mangle)]
pub extern "C" fn vodzanu_logged_replace(
    memory: &mut [u8],
    log: &mut [u8],
    end: &mut u64,
    transaction: u64,
    table: u64,
    key: u32,
    payload: &[u8],
) -> i64
    ensures { CodedLog result end.new (λ a.
        Logs (replace_call transaction table key payload.now) (λ s. replaced_by transaction table key payload.now)
        memory.old log.old end.old a memory.new log.new) }
{
    let logged = store::logged_replace(memory, log, *end, transaction, table, key, payload);
    *end = logged.end;
    code(logged.answer)
}

#[unsafe(no_mangle)]
pub extern "C" fn vodzanu_logged_delete(
    memory: &mut [u8],
    log: &mut [u8],
    end: &mut u64,
    transaction: u64,
    table: u64,
    key: u32,
) -> i64
    ensures { CodedLog result end.new (λ a.
        Logs (delete_call transaction table key) (λ s. deleted_by transaction table key)
        memory.old log.old end.old a memory.new log.new) }
{
    let logged = store::logged_delete(memory, log, *end, transaction, table, key);
    *end = logged.end;
    code(logged.answer)
}

#[unsafe(no_mangle)]
pub extern "C" fn vodzanu_logged_commit(
    memory: &mut [u8],
    log: &mut [u8],
    end: &mut u64,
    transaction: u64,
) -> i64
    ensures { CodedLog result end.new (λ a.
        Logs (commit_call transaction) (λ s. committed_by transaction)
        memory.old log.old end.old a memory.new log.new) }
{
    let logged = store::logged_commit(memory, log, *end, transaction);
    *end = logged.end;
    code(logged.answer)
}

#[unsafe(no_mangle)]
pub extern "C" fn vodzanu_logged_abort(
    memory: &mut [u8],
    log: &mut [u8],
    end: &mut u64,
    transaction: u64,
) -> i64
    ensures { CodedLog result end.new (λ a.
        Logs (abort_call transaction) (λ s. aborted_by transaction)
        memory.old log.old end.old a memory.new log.new) }
{
    let logged = store::logged_abort(memory, log, *end, transaction);
    *end = logged.end;
    code(logged.answer)
}

#[unsafe(no_mangle)]
pub extern "C" fn vodzanu_logged_begin(memory: &mut [u8], log: &mut [u8], end: &mut u64) -> i64
    ensures { CodedLog result end.new (λ a. Logs begin_call mark_for memory.old log.old end.old a memory.new log.new) }
{
    let logged = store::logged_begin(memory, log, *end);
    *end = logged.end;
    code(logged.answer)
}

// The end is only put, and only where the roll-forward is accepted.
#[unsafe(no_mangle)]
pub extern "C" fn vodzanu_roll_forward(
    image: &[u8],
    memory: &mut [u8],
    second: &mut [u8],
    log: &mut [u8],
    end: &mut u64,
) -> i64
    ensures { CodedForward result end.old end.new (λ a.
        Forwards image.now memory.old (length second.old) log.old a memory.new log.new) }
{
    let forwarded = store::roll_forward(image, memory, second, log);
    if forwarded.answer.is_ok() {
        *end = forwarded.end;
    }
    code(forwarded.answer)
}
