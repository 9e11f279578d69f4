// Roll-forward: the image is recovered, the calls logged since its checkpoint began are repeated, and what is left open is aborted. All of it is
// done in a second memory, so that memory and log are touched only when no refusal is left.
#![tactic(auto)]

ghost use Rattle.std.specs.Prelude.{◌≡◌, true, map, length, drop};
ghost use Rattle.std.specs.Result.{is_ok};
ghost use Rattle.basics.specs.Lists.{over};
ghost use Rattle.model.specs.Recover.{recover};
ghost use Rattle.log_records.specs.Records.{opened_by, aborted_by, encode_records, read_log};
ghost use Rattle.log_records.specs.Entries.{change_is};
ghost use Rattle.log_model.specs.Repeats.{repeat_all};
ghost use Rattle.log_model.specs.RollForward.{behind_mark, to_repeat, forward_below};
ghost use Rattle.memory_layout.specs.Store.{holds_store, HoldsNow};
ghost use Rattle.call_contracts.specs.Logged.{Forwards};
ghost use Rattle.refusals.specs.Numbers.{number_in};
ghost use Rattle.call_forward.specs.Rolling.{store_now, entry_is, OneRepeated, AllRepeated, records_in, MayRepeat};
ghost use Rattle.call_forward.specs.Rolling.{marked_by, MayOpen, MayRepeatMarked, SinceBy, AbortsFit, MayAbort, Aborted, RestoredBy};

use call_contracts::{Answer, Logged, Reply};
use log_records::{Change, Entry};
use refusals::Refusal;

// At most this many transactions are open.
const OPEN_LIMIT: usize = memory_layout::OPEN_LIMIT as usize;

// The bytes of a record before its payload.
const PLACE: usize = log_records::PLACE;

// The bytes of an abort's record.
const ABORT_SIZE: usize = log_records::SHORT;

// ---- calls repeated

// The call of a change, whose payload stands beside it.
fn repeat(s: &mut [u8], c: Change, payload: &[u8]) -> Answer
    requires { holds_store s.old ≡ true }
    ensures { OneRepeated (change_is c payload.now) s.old (is_ok result) s.new }
{
    match c {
        Change::Open { transaction } => call_transactions::open(s, u64::from(transaction)),
        Change::Insert {
            transaction,
            table,
            key,
            ..
        } => call_transactions::insert(s, u64::from(transaction), u64::from(table), key, payload),
        Change::Replace {
            transaction,
            table,
            key,
            ..
        } => call_transactions::replace(s, u64::from(transaction), u64::from(table), key, payload),
        Change::Delete {
            transaction,
            table,
            key,
        } => call_transactions::delete(s, u64::from(transaction), u64::from(table), key),
        Change::Commit { transaction } => call_transactions::commit(s, u64::from(transaction)),
        Change::Abort { transaction } => call_transactions::abort(s, u64::from(transaction)),
    }
}

// What stands in a log; what is no call is passed over.
fn repeat_entry(s: &mut [u8], e: Entry, payload: &[u8]) -> Answer
    requires { holds_store s.old ≡ true }
    ensures { OneRepeated (entry_is e payload.now) s.old (is_ok result) s.new }
{
    match e {
        Entry::Call(c) => repeat(s, c, payload),
        Entry::End | Entry::Malformed | Entry::Mark { .. } => Ok(Reply::Done),
    }
}

// The records of a log from byte `at` on, up to the first whose call is refused.
fn repeat_from(s: &mut [u8], log: &[u8], at: usize) -> Result<(), Refusal>
    requires { MayRepeat s.old log.now at }
    ensures { AllRepeated (records_in (read_log (drop at log.now))) s.old (is_ok result) s.new }
{
    let mut p = at;
    loop {
        let e = log_records::entry_at(log, p);
        let size = log_records::entry_size(e);
        if size == 0 {
            return Ok(());
        }
        let from = p + PLACE.min(size);
        let next = p + size;
        repeat_entry(s, e, &log[from..next])?;
        p = next;
    }
}

// The opens of the n transactions that the mark at byte `at` of the log carries.
fn open_marked(s: &mut [u8], log: &[u8], at: usize, n: usize) -> Result<(), Refusal>
    requires { MayOpen s.old log.now at n }
    ensures { AllRepeated (map opened_by (marked_by log.now at n)) s.old (is_ok result) s.new }
{
    for i in 0..n {
        let transaction = log_records::mark_transaction(log, at, i);
        repeat(s, Change::Open { transaction }, b"")?;
    }
    Ok(())
}

// The opens of the mark at byte `at` of the log, and the records behind it.
fn repeat_marked(s: &mut [u8], log: &[u8], at: usize) -> Result<(), Refusal>
    requires { MayRepeatMarked s.old log.now at }
    ensures { AllRepeated (records_in (behind_mark (read_log (drop at log.now)))) s.old (is_ok result) s.new }
{
    let Entry::Mark { count, .. } = log_records::entry_at(log, at) else {
        unreachable!()
    };
    open_marked(s, log, at, count)?;
    repeat_from(s, log, at + log_records::mark_size(count))
}

// What is to be repeated of a whole log: at level 0 all of it, else from the last mark of the level on, if there is one.
fn repeat_since(s: &mut [u8], log: &[u8]) -> Result<(), Refusal>
    requires { MayRepeat s.old log.now 0 }
    ensures { SinceBy (to_repeat (store_now s.old).level (records_in (read_log log.now))) s.old (number_in result) s.new }
{
    let level = memory_layout::get_head(s).level;
    if level == 0 {
        return repeat_from(s, log, 0).map_err(|_| Refusal::BadLog);
    }
    let Some(at) = log_records::last_mark(log, level) else {
        return Err(Refusal::NoMark);
    };
    repeat_marked(s, log, at).map_err(|_| Refusal::BadLog)
}

// ---- aborts

// Aborts each of these transactions.
fn abort_each(s: &mut [u8], numbers: &[u32])
    requires { holds_store s.old ≡ true }
    ensures { HoldsNow s.old s.new (repeat_all (map aborted_by numbers.now) (store_now s.old)) }
{
    for &transaction in numbers {
        let _ = repeat(s, Change::Abort { transaction }, b"");
    }
}

// Writes the aborts of these transactions to the log, from its end on.
fn log_aborts(log: &mut [u8], end: usize, numbers: &[u32])
    requires { AbortsFit log.old end numbers.now }
    ensures { log.new ≡ over log.old end (encode_records (map aborted_by numbers.now)) }
{
    for i in 0..numbers.len() {
        let c = Change::Abort {
            transaction: numbers[i],
        };
        log_records::append(log, end + ABORT_SIZE * i, c, b"");
    }
}

// Aborts what is open, by rising number, and writes the aborts to the log, from its end on, with zeros behind them; each open transaction has a
// place among the numbers.
fn abort_listed(s: &mut [u8], log: &mut [u8], end: usize, numbers: &mut [u32])
    requires { MayAbort s.old log.old end (length numbers.old) }
    ensures { Aborted s.old log.old end s.new log.new }
{
    engine_opens::sort_open(s, numbers);
    abort_each(s, numbers);
    let len = log.len();
    log_records::clear(&mut log[end..len]);
    log_aborts(log, end, numbers);
}

// The same, with room for the numbers of n open transactions.
fn abort_open(s: &mut [u8], log: &mut [u8], end: usize, n: usize)
    requires { MayAbort s.old log.old end n }
    ensures { Aborted s.old log.old end s.new log.new }
{
    let mut numbers = [0u32; OPEN_LIMIT];
    abort_listed(s, log, end, &mut numbers[..n]);
}

// ---- roll-forward

// All of roll-forward, in one memory; answers where the log then ends.
fn restore(image: &[u8], s: &mut [u8], log: &mut [u8]) -> Result<usize, Refusal>
    ensures { RestoredBy (forward_below log.old (recover (length s.old) image.now)) s.old log.old result s.new log.new }
{
    call_recovery::recover(image, s)?;
    let Some(end) = log_records::check_log(log) else {
        return Err(Refusal::BadLog);
    };
    repeat_since(s, log)?;
    let n = engine_opens::open_count(s);
    if log.len() - end < ABORT_SIZE * n {
        return Err(Refusal::LogFull);
    }
    abort_open(s, log, end, n);
    Ok(end + ABORT_SIZE * n)
}

// The second memory is lent only as far as the first one is long, so that a refusal for want of memory comes in recovery's own order.
pub fn roll_forward(image: &[u8], m: &mut [u8], second: &mut [u8], log: &mut [u8]) -> Logged
    ensures { Forwards image.now m.old (length second.old) log.old result m.new log.new }
{
    let n = m.len().min(second.len());
    match restore(image, &mut second[..n], log) {
        Ok(end) => {
            block_forms::copy(m, 0, second, 0, n);
            Logged {
                answer: Ok(Reply::Done),
                end: end as u64,
            }
        }
        Err(refusal) => Logged {
            answer: Err(refusal),
            end: 0,
        },
    }
}
