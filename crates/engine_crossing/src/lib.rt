// Bookings that cross an interval, on the working memory: one pass over the rows of a table. Rows with a key that is too low or too high to
// cross are passed over by groups, and what the transaction sees is looked up only where some version of a key crosses. Right for rows in
// any order. Every function only reads the memory.
#![tactic(auto)]

ghost use Rattle.std.specs.Prelude.{◌≡◌, ◌-◌, ◌≤◌, ◌<◌, min, length};
ghost use Rattle.calendar.specs.Calendar.{minutes};
ghost use Rattle.model.specs.Crossing.{crosses};
ghost use Rattle.memory_layout.specs.Flat.{flat_of, row_in, Room};
ghost use Rattle.engine_crossing.specs.Crossing.{longest, most_key, NextCrossing, OneKey, RunSeen, RoomForKey, KeyAdded, RunAdded, KeysAsked, RoomForKeys, KeysFound};

// The longest booking, in minutes, and the largest key.
const LONGEST: u64 = 65535;

const MOST_KEY: u64 = 4294967295;

// ---- one row

// The length in minutes of the booking in row i.
fn minutes_at(m: &[u8], i: usize) -> u64
    requires { Room m.now × (i < length (flat_of m.now).rows) }
    ensures { (result ≡ minutes (row_in (flat_of m.now) i).tuple.payload) × (result ≤ longest) }
{
    let p = memory_rows::payload_at(m, i);
    let a = p.start;
    let e = a + p.len;
    calendar::minutes(&m[a..e]) as u64
}

// Whether the booking in row i crosses the interval, whoever sees it.
fn crosses_at(m: &[u8], i: usize, first: u64, end: u64) -> bool
    requires { Room m.now × (i < length (flat_of m.now).rows) }
    ensures { result ≡ crosses first end (row_in (flat_of m.now) i).tuple }
{
    let n = minutes_at(m, i);
    let key = memory_rows::key_at(m, i) as u64;
    (0 < n) & (key < end) & (first < key + n)
}

// The first row from row i on, below e, that crosses the interval, whoever sees it; e if there is none, or i if that is above e.
fn next_crossing(m: &[u8], i: usize, e: usize, first: u64, end: u64) -> usize
    requires { Room m.now × (e ≤ length (flat_of m.now).rows) }
    ensures { NextCrossing (flat_of m.now) first end i e result }
{
    for r in i..e {
        if crosses_at(m, r, first, end) {
            return r;
        }
    }
    i.max(e)
}

// ---- the keys that are looked at

// k, or the largest key if k is larger.
fn as_key(k: u64) -> u32
    ensures { result ≡ min k most_key }
{
    k.min(MOST_KEY) as u32
}

// The least key of a booking that can have minute `first`: one with a key below it has ended by then.
fn least_key(first: u64) -> u32
    ensures { result ≡ min (first - (longest - 1)) most_key }
{
    as_key(first.saturating_sub(LONGEST - 1))
}

// ---- a run: the rows from row a up to, not including, row b, all of one key

// The row of the run that the transaction sees.
fn seen_in_run(m: &[u8], a: usize, b: usize, transaction: u64) -> Option<usize>
    requires { OneKey m.now a b }
    ensures { RunSeen (flat_of m.now) transaction a b result }
{
    let none = engine_lookup::no_version();
    let l = engine_lookup::note_rows(m, a, b, transaction, memory_rows::key_at(m, a), none);
    engine_lookup::pick(m, l)
}

// The key, as key n of those in out: four bytes, high byte first.
fn put_key(out: &mut [u8], n: usize, key: u32)
    requires { RoomForKey n out.old }
    ensures { KeyAdded n key out.old out.new }
{
    out[4 * n..4 * n + 4].copy_from_slice(&key.to_be_bytes());
}

// The run's key, behind the n keys that out has, if the version that is seen crosses; how many keys there are then.
fn add_run(
    m: &[u8],
    a: usize,
    b: usize,
    transaction: u64,
    first: u64,
    end: u64,
    out: &mut [u8],
    n: usize,
) -> usize
    requires { OneKey m.now a b × RoomForKey n out.old }
    ensures { RunAdded (flat_of m.now) transaction first end a b n result out.old out.new }
{
    let Some(k) = seen_in_run(m, a, b, transaction) else {
        return n;
    };
    if !crosses_at(m, k, first, end) {
        return n;
    }
    put_key(out, n, memory_rows::key_at(m, k));
    n + 1
}

// ---- the table

// The keys of the table of which the transaction sees a version that crosses the interval, over the first bytes of out; how many they are.
pub fn find_crossing(
    m: &[u8],
    table: u8,
    transaction: u64,
    first: u64,
    end: u64,
    out: &mut [u8],
) -> usize
    requires { KeysAsked m.now table first end × RoomForKeys out.old }
    ensures { KeysFound (flat_of m.now) transaction table first end result out.old out.new }
{
    let t = table as usize;
    let s = engine_close::first_row(m, t);
    let e = engine_close::first_row(m, t + 1);
    let high = memory_rows::last_up_to(m, s, e, as_key(end - 1));
    let low = memory_rows::first_from(m, s, high, least_key(first));
    let mut i: usize = 0;
    let mut n: usize = 0;
    let mut c = next_crossing(m, low, high, first, end);
    while c < high {
        let a = engine_close::run_start(m, i, c, t);
        i = engine_close::run_end(m, c, t);
        n = add_run(m, a, i, transaction, first, end, out, n);
        c = next_crossing(m, i, high, first, end);
    }
    n
}
