// Bookings, and the weekly calendar of a dish: rows of opening hours, four bytes each. Whether a booking is open throughout is told at few minutes:
// its first one, and those just behind a row. Where those of them that it has are open, so is every minute between them.
#![tactic(auto)]

ghost use Rattle.std.specs.Prelude.{◌≡◌, true, ◌+◌, ◌*◌, ◌<◌, length};
ghost use Rattle.calendar.specs.Calendar.{minutes, week, row_size, rows_of, row_in, in_range, is_calendar, until, covers, is_open, open_throughout, end_of, EdgeAsked, edge_open};

// The minutes of a week, the most rows of a calendar, and the bytes of a row.
const WEEK: u32 = 10080;

const ROW_LIMIT: usize = 32;

const ROW_SIZE: usize = 4;

// A row: open from minute `start` of the week on, for `length` minutes, past Sunday into Monday if they reach so far.
#[derive(Clone, Copy, Debug, PartialEq, Eq)]
pub struct Hours {
    pub start: u32,
    pub length: u32,
}

// ---- bytes

// A number of two bytes.
fn two_bytes(high: u8, low: u8) -> u32
    ensures { (result ≡ 256 * high + low) × (result < 65536) }
{
    u32::from(u16::from_be_bytes([high, low]))
}

// A booking's length in minutes: the first two bytes of its payload, high byte first. A shorter payload has none.
pub fn minutes(payload: &[u8]) -> u32
    ensures { (result ≡ minutes payload.now) × (result < 65536) }
{
    match payload {
        [high, low, ..] => two_bytes(*high, *low),
        _ => 0,
    }
}

// The row in these four bytes.
fn row_of(row: &[u8]) -> Hours
    requires { length row.now ≡ row_size }
    ensures { result ≡ row_in row.now }
{
    Hours {
        start: two_bytes(row[0], row[1]),
        length: two_bytes(row[2], row[3]),
    }
}

// ---- calendars

// Whether the row's start is a minute of the week and its length 1 to a week.
fn in_range(h: Hours) -> bool
    ensures { result ≡ in_range h }
{
    h.start < WEEK && 0 < h.length && h.length <= WEEK
}

// Whether these are at most 32 rows, the last one whole, each in range.
pub fn is_calendar(hours: &[u8]) -> bool
    ensures { result ≡ is_calendar hours.now }
{
    hours.len() <= ROW_LIMIT * ROW_SIZE
        && hours.len() % ROW_SIZE == 0
        && hours
            .chunks_exact(ROW_SIZE)
            .all(|row| in_range(row_of(row)))
}

// ---- minutes of the week

// How many minutes after minute a minute b comes, past Sunday where b is before a.
fn until(a: u32, b: u32) -> u32
    requires { (a < week) × (b < week) }
    ensures { result ≡ until a b }
{
    if b < a { b + WEEK - a } else { b - a }
}

// Whether the row covers the minute.
fn covers(h: Hours, minute: u32) -> bool
    requires { (in_range h ≡ true) × (minute < week) }
    ensures { result ≡ covers minute h }
{
    until(h.start, minute) < h.length
}

// Whether some row covers the minute.
fn is_open(hours: &[u8], minute: u32) -> bool
    requires { (is_calendar hours.now ≡ true) × (minute < week) }
    ensures { result ≡ is_open (rows_of hours.now) minute }
{
    for row in hours.chunks_exact(ROW_SIZE) {
        if covers(row_of(row), minute) {
            return true;
        }
    }
    false
}

// ---- bookings

// The minute just behind the row.
fn end_of(h: Hours) -> u32
    requires { in_range h ≡ true }
    ensures { result ≡ end_of h }
{
    (h.start + h.length) % WEEK
}

// Whether a booking from minute `first` on, of `length` minutes, does not reach minute `edge`, or that is open.
fn edge_open(hours: &[u8], first: u32, length: u32, edge: u32) -> bool
    requires { EdgeAsked hours.now first edge }
    ensures { result ≡ edge_open (rows_of hours.now) first length edge }
{
    length <= until(first, edge) || is_open(hours, edge)
}

// Whether every minute of a booking that starts at minute `key`, counted from a Monday midnight, and lasts `length` minutes is open. However
// long it is, no more minutes are looked at than there are rows, and one.
pub fn open_throughout(hours: &[u8], key: u32, length: u32) -> bool
    requires { is_calendar hours.now ≡ true }
    ensures { result ≡ open_throughout (rows_of hours.now) key length }
{
    let first = key % WEEK;
    if !edge_open(hours, first, length, first) {
        return false;
    }
    for row in hours.chunks_exact(ROW_SIZE) {
        if !edge_open(hours, first, length, end_of(row_of(row))) {
            return false;
        }
    }
    true
}
