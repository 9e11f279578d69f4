// The checked insert: a booking that the calendar of its dish allows, which is then an insert like any other.
ghost use Rattle.std.specs.Prelude.{◌≡◌};
ghost use Rattle.basics.specs.Basics.{if'◌then◌else◌};
ghost use Rattle.model.specs.Calls.{with_room};
ghost use Rattle.model.specs.Checked.{hours_tests, insert_checked_call};
ghost use Rattle.memory_layout.specs.Store.{holds_store};
ghost use Rattle.call_contracts.specs.Shape.{Answers};
ghost use Rattle.refusals.specs.declared.Refusal.TheVariants.{NoStore};
ghost use Rattle.refusals.specs.Numbers.{number_in};
ghost use Rattle.call_transactions.specs.Refusals.{first_refusal};

use call_contracts::Answer;
use refusals::Refusal;

// 10 table above 7; 26 hours that are no calendar; 27 a payload without a length; 28 some minute of the booking is closed.
fn check_hours(table: u64, key: u32, payload: &[u8], hours: &[u8]) -> Result<(), Refusal>
    ensures { number_in result ≡ first_refusal (hours_tests table key payload.now hours.now) }
{
    if call_transactions::TABLE_LIMIT < table {
        return Err(Refusal::TableRange);
    }
    if !calendar::is_calendar(hours) {
        return Err(Refusal::BadHours);
    }
    let n = calendar::minutes(payload);
    if n == 0 {
        return Err(Refusal::BookingEmpty);
    }
    if !calendar::open_throughout(hours, key, n) {
        return Err(Refusal::Closed);
    }
    Ok(())
}

// The refusal of a call that fails a later test: 4 if the memory holds no store, which comes first of all tests. It is asked only where another
// test refuses: insert asks it too.
fn refused(m: &[u8], refusal: Refusal) -> Refusal
    ensures { result ≡ if' holds_store m.now then refusal else NoStore }
{
    if !memory_layout::holds_store(m) {
        return Refusal::NoStore;
    }
    refusal
}

pub fn insert_checked(
    m: &mut [u8],
    transaction: u64,
    table: u64,
    key: u32,
    payload: &[u8],
    hours: &[u8],
) -> Answer
    ensures { Answers (insert_checked_call transaction table key payload.now hours.now) m.old result m.new }
{
    if let Err(refusal) = check_hours(table, key, payload, hours) {
        return Err(refused(m, refusal));
    }
    call_transactions::insert(m, transaction, table, key, payload)
}

// The same, if there is room for the record of it: the last test. A checked insert does not call it, since handing the lent parts on once more takes
// 5 to 13 ns.
pub fn insert_checked_if(
    m: &mut [u8],
    room: bool,
    transaction: u64,
    table: u64,
    key: u32,
    payload: &[u8],
    hours: &[u8],
) -> Answer
    ensures { Answers (with_room room (insert_checked_call transaction table key payload.now hours.now)) m.old result m.new }
{
    if let Err(refusal) = check_hours(table, key, payload, hours) {
        return Err(refused(m, refusal));
    }
    call_transactions::write_if(m, room, true, transaction, table, key, false, payload)
}
