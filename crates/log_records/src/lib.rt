// The redo log's records as bytes. A record is written by two stores, each one call lent only its bytes: all behind the first byte, then that byte,
// which is never zero. So a record that is cut reads as the log's end.
#![tactic(auto)]

ghost use Rattle.std.specs.Prelude.{◌≡◌, [], ◌∷◌, ◌++◌, ◌+◌, ◌*◌, ◌/◌, ◌<◌, ◌≤◌, length, drop, get_or};
ghost use Rattle.basics.specs.Lists.{over};
ghost use Rattle.block_bits.specs.Bits.{bits_in, field};
ghost use Rattle.block_forms.specs.Limits.{transaction_limit, most_number};
ghost use Rattle.block_forms.specs.Spell.{zeros};
ghost use Rattle.log_records.specs.Kinds.{number_of, HasNumber};
ghost use Rattle.log_records.specs.Records.{mark_of, encode_record, decode_record, read_log};
ghost use Rattle.log_records.specs.Bytes.{short_bytes, place_rest, place_bytes, entry_bytes, transaction_of};
ghost use Rattle.log_records.specs.Entries.{change_is, entry_of, entry_in, Small, SmallEntry, change_size, mark_size, entry_size, log_end, last_mark};
ghost use Rattle.log_records.specs.Entries.{ChangePart, ShortPart, PlacePart, TuplePart, Room, MarkPart, EntriesPart, MarkRoom, ShortFront, TupleFront, MarkAt};

use block_forms::PageLayout;

// What a call changed, one variant for each kind of record. The payload of an insert or a replace, of len bytes, stands beside it.
#[derive(Clone, Copy)]
pub enum Change {
    Open {
        transaction: u32,
    },
    Insert {
        transaction: u32,
        table: u32,
        key: u32,
        len: usize,
    },
    Replace {
        transaction: u32,
        table: u32,
        key: u32,
        len: usize,
    },
    Delete {
        transaction: u32,
        table: u32,
        key: u32,
    },
    Commit {
        transaction: u32,
    },
    Abort {
        transaction: u32,
    },
}

// What stands somewhere in a log: its end, bytes that are no record, a call's record, or a mark with a count of transactions.
// (One enum: a Result of an Option would name the same four cases in three layers.)
#[derive(Clone, Copy)]
pub enum Entry {
    End,
    Malformed,
    Call(Change),
    Mark { level: u32, count: usize },
}

// The kinds of records. A kind's number is the upper four bits of the first byte.
#[derive(Clone, Copy, Debug, PartialEq, Eq)]
enum Kind {
    Open = 1,
    Insert = 2,
    Replace = 3,
    Delete = 4,
    Commit = 5,
    Abort = 6,
    Mark = 7,
}

// A number that no kind has.
#[derive(Clone, Copy, Debug, PartialEq, Eq)]
struct UnknownKind(u8);

impl TryFrom<u8> for Kind {
    type Error = UnknownKind;

    ghost try_from_gives = { HasNumber };

    fn try_from(number: u8) -> Result<Self, UnknownKind> {
        match number {
            1 => Ok(Kind::Open),
            2 => Ok(Kind::Insert),
            3 => Ok(Kind::Replace),
            4 => Ok(Kind::Delete),
            5 => Ok(Kind::Commit),
            6 => Ok(Kind::Abort),
            7 => Ok(Kind::Mark),
            _ => Err(UnknownKind(number)),
        }
    }
}

// At most this many transactions are open.
const OPEN_LIMIT: usize = image_rows::OPEN_LIMIT;

// The bytes of a record that has a kind and a transaction alone; those before a payload.
pub const SHORT: usize = 2;

pub const PLACE: usize = 8;

// The bytes of a mark before its transactions, and the bits of a transaction.
const MARK_HEAD: usize = 6;

const TRANSACTION_BITS: usize = 12;

// ---- sizes

// How many bytes a change's record takes.
pub fn change_size(c: Change) -> usize
    requires { Small c }
    ensures { result ≡ change_size c }
{
    match c {
        Change::Insert { len, .. } | Change::Replace { len, .. } => PLACE + len,
        Change::Delete { .. } => PLACE,
        Change::Open { .. } | Change::Commit { .. } | Change::Abort { .. } => SHORT,
    }
}

// How many bytes a mark with count transactions takes.
pub fn mark_size(count: usize) -> usize
    requires { count ≤ most_number }
    ensures { result ≡ mark_size count }
{
    MARK_HEAD + (3 * count + 1) / 2
}

// How many bytes what stands there takes.
pub fn entry_size(e: Entry) -> usize
    requires { SmallEntry e }
    ensures { result ≡ entry_size e }
{
    match e {
        Entry::End | Entry::Malformed => 0,
        Entry::Call(c) => change_size(c),
        Entry::Mark { count, .. } => mark_size(count),
    }
}

// ---- writing

// A record's first byte: its kind and the upper bits of its transaction.
fn first_byte(kind: Kind, transaction: u32) -> u8
    requires { transaction < transaction_limit }
    ensures { result ≡ number_of kind * 16 + transaction / 256 }
{
    kind as u8 * 16 + (transaction / 256) as u8
}

// Puts what stands behind the first byte of a record of kind and transaction; answers the first byte.
fn put_short(part: &mut [u8], kind: Kind, transaction: u32) -> u8
    requires { ShortPart part.old transaction }
    ensures { result ∷ part.new ≡ short_bytes (number_of kind) transaction }
{
    part[0] = (transaction % 256) as u8;
    first_byte(kind, transaction)
}

// Puts transaction, table, payload length and key.
fn put_place(part: &mut [u8], transaction: u32, table: u32, key: u32, len: usize)
    requires { PlacePart part.old table len }
    ensures { part.new ≡ over part.old 0 (place_rest transaction table len key) }
{
    part[0] = (transaction % 256) as u8;
    part[1] = (table * 32) as u8 + (len / 2) as u8;
    part[2] = (len % 2 * 128) as u8;
    block_forms::put4(part, 3, key);
}

// Puts what stands behind the first byte of an insert or a replace; answers the first byte.
fn put_tuple(
    part: &mut [u8],
    kind: Kind,
    transaction: u32,
    table: u32,
    key: u32,
    payload: &[u8],
) -> u8
    requires { TuplePart part.old transaction table (length payload.now) }
    ensures { result ∷ part.new ≡ place_bytes (number_of kind) transaction table (length payload.now) key ++ payload.now }
{
    put_place(part, transaction, table, key, payload.len());
    block_forms::copy(part, PLACE - 1, payload, 0, payload.len());
    first_byte(kind, transaction)
}

// Puts what stands behind the first byte of a delete; answers the first byte.
fn put_delete(part: &mut [u8], transaction: u32, table: u32, key: u32) -> u8
    requires { TuplePart part.old transaction table 0 }
    ensures { result ∷ part.new ≡ place_bytes 4 transaction table 0 key }
{
    put_place(part, transaction, table, key, 0);
    first_byte(Kind::Delete, transaction)
}

// Puts all of a change's record behind its first byte; answers the first byte.
fn put_behind(part: &mut [u8], c: Change, payload: &[u8]) -> u8
    requires { ChangePart part.old c payload.now }
    ensures { result ∷ part.new ≡ encode_record (change_is c payload.now) }
{
    match c {
        Change::Open { transaction } => put_short(part, Kind::Open, transaction),
        Change::Insert {
            transaction,
            table,
            key,
            ..
        } => put_tuple(part, Kind::Insert, transaction, table, key, payload),
        Change::Replace {
            transaction,
            table,
            key,
            ..
        } => put_tuple(part, Kind::Replace, transaction, table, key, payload),
        Change::Delete {
            transaction,
            table,
            key,
        } => put_delete(part, transaction, table, key),
        Change::Commit { transaction } => put_short(part, Kind::Commit, transaction),
        Change::Abort { transaction } => put_short(part, Kind::Abort, transaction),
    }
}

// Puts a record's first byte.
fn put_first(part: &mut [u8], first: u8)
    requires { length part.old ≡ 1 }
    ensures { part.new ≡ first ∷ [] }
{
    part[0] = first;
}

// Writes the record of a change at the log's end.
pub fn append(log: &mut [u8], end: usize, c: Change, payload: &[u8])
    requires { Room log.old end c payload.now }
    ensures { log.new ≡ over log.old end (encode_record (change_is c payload.now)) }
{
    let second = end + 1;
    let behind = end + change_size(c);
    let first = put_behind(&mut log[second..behind], c, payload);
    put_first(&mut log[end..second], first);
}

// Puts a mark's transactions, and zero bits to a whole byte.
fn put_transactions(part: &mut [u8], transactions: &[u32])
    requires { EntriesPart part.old transactions.now }
    ensures { part.new ≡ entry_bytes transactions.now }
{
    let n = transactions.len();
    for i in 0..n {
        let transaction = u64::from(transactions[i]);
        block_bits::put_bits(part, TRANSACTION_BITS * i, TRANSACTION_BITS, transaction);
    }
    block_bits::put_bits(part, TRANSACTION_BITS * n, 4 * (n % 2), 0);
}

// Puts all of a mark behind its first byte; answers the first byte.
fn put_mark_behind(part: &mut [u8], level: u32, transactions: &[u32]) -> u8
    requires { MarkPart part.old level transactions.now }
    ensures { result ∷ part.new ≡ encode_record (mark_of level transactions.now) }
{
    let n = transactions.len();
    part[0] = (n % 8 * 32) as u8;
    block_forms::put4(part, 1, level);
    put_transactions(&mut part[MARK_HEAD - 1..], transactions);
    Kind::Mark as u8 * 16 + (n / 8) as u8
}

// Writes a mark at the log's end.
pub fn append_mark(log: &mut [u8], end: usize, level: u32, transactions: &[u32])
    requires { MarkRoom log.old end level transactions.now }
    ensures { log.new ≡ over log.old end (encode_record (mark_of level transactions.now)) }
{
    let second = end + 1;
    let behind = end + mark_size(transactions.len());
    let first = put_mark_behind(&mut log[second..behind], level, transactions);
    put_first(&mut log[end..second], first);
}

// Zeroes the bytes lent.
pub fn clear(part: &mut [u8])
    ensures { part.new ≡ zeros (length part.old) }
{
    part.fill(0);
}

// ---- reading

// The transaction in a record's first two bytes.
fn transaction_of(xs: &[u8]) -> u32
    requires { 2 ≤ length xs.now }
    ensures { result ≡ transaction_of xs.now }
{
    u32::from(xs[0]) % 16 * 256 + u32::from(xs[1])
}

// An open, a commit or an abort at the front of the bytes.
fn short_front(xs: &[u8], kind: Kind) -> Entry
    requires { ShortFront xs.now kind }
    ensures { result ≡ entry_of (decode_record xs.now) }
{
    if xs.len() < 2 {
        return Entry::Malformed;
    }
    let transaction = transaction_of(xs);
    Entry::Call(match kind {
        Kind::Open => Change::Open { transaction },
        Kind::Commit => Change::Commit { transaction },
        _ => Change::Abort { transaction },
    })
}

// An insert or a replace at the front of the bytes.
fn tuple_front(xs: &[u8], kind: Kind) -> Entry
    requires { TupleFront xs.now kind }
    ensures { result ≡ entry_of (decode_record xs.now) }
{
    if xs.len() < PLACE {
        return Entry::Malformed;
    }
    let third = u32::from(xs[2]);
    let fourth = u32::from(xs[3]);
    if fourth % 128 != 0 {
        return Entry::Malformed;
    }
    let len = (third % 32 * 2 + fourth / 128) as usize;
    if PageLayout::PAYLOAD_LIMIT < len {
        return Entry::Malformed;
    }
    if xs.len() < PLACE + len {
        return Entry::Malformed;
    }
    let transaction = transaction_of(xs);
    let table = third / 32;
    let key = block_forms::get4(xs, 4);
    Entry::Call(match kind {
        Kind::Insert => Change::Insert {
            transaction,
            table,
            key,
            len,
        },
        _ => Change::Replace {
            transaction,
            table,
            key,
            len,
        },
    })
}

// A delete at the front of the bytes.
fn delete_front(xs: &[u8]) -> Entry
    requires { get_or xs.now 0 0 / 16 ≡ 4 }
    ensures { result ≡ entry_of (decode_record xs.now) }
{
    if xs.len() < PLACE {
        return Entry::Malformed;
    }
    let third = u32::from(xs[2]);
    if third % 32 * 256 + u32::from(xs[3]) != 0 {
        return Entry::Malformed;
    }
    Entry::Call(Change::Delete {
        transaction: transaction_of(xs),
        table: third / 32,
        key: block_forms::get4(xs, 4),
    })
}

// A mark at the front of the bytes.
fn mark_front(xs: &[u8]) -> Entry
    requires { get_or xs.now 0 0 / 16 ≡ 7 }
    ensures { result ≡ entry_of (decode_record xs.now) }
{
    if xs.len() < MARK_HEAD {
        return Entry::Malformed;
    }
    let second = u32::from(xs[1]);
    if second % 32 != 0 {
        return Entry::Malformed;
    }
    let count = (u32::from(xs[0]) % 16 * 8 + second / 32) as usize;
    if OPEN_LIMIT < count {
        return Entry::Malformed;
    }
    if xs.len() < mark_size(count) {
        return Entry::Malformed;
    }
    if block_bits::get_bits(
        xs,
        8 * MARK_HEAD + TRANSACTION_BITS * count,
        4 * (count % 2),
    ) != 0
    {
        return Entry::Malformed;
    }
    Entry::Mark {
        level: block_forms::get4(xs, 2),
        count,
    }
}

// What stands at the front of the bytes.
fn front(xs: &[u8]) -> Entry
    ensures { result ≡ entry_in xs.now }
{
    let Some(&first) = xs.first() else {
        return Entry::End;
    };
    if first == 0 {
        return Entry::End;
    }
    let Ok(kind) = Kind::try_from(first / 16) else {
        return Entry::Malformed;
    };
    match kind {
        Kind::Open | Kind::Commit | Kind::Abort => short_front(xs, kind),
        Kind::Insert | Kind::Replace => tuple_front(xs, kind),
        Kind::Delete => delete_front(xs),
        Kind::Mark => mark_front(xs),
    }
}

// What stands at byte `at` of the log.
pub fn entry_at(log: &[u8], at: usize) -> Entry
    requires { at ≤ length log.now }
    ensures { result ≡ entry_in (drop at log.now) }
{
    front(&log[at..])
}

// Transaction i of the mark at byte `at` of the log.
pub fn mark_transaction(log: &[u8], at: usize, i: usize) -> u32
    requires { MarkAt log.now at i }
    ensures { result ≡ field (bits_in (drop at log.now)) (48 + 12 * i) 12 }
{
    block_bits::get_bits(
        &log[at..],
        8 * MARK_HEAD + TRANSACTION_BITS * i,
        TRANSACTION_BITS,
    ) as u32
}

// ---- whole logs

// Both walks go from record to record, by the size of what stands there. (Two short loops: a walk with a closure for the records would be longer.)

// Where the log's records end; none if one of them is malformed.
pub fn check_log(log: &[u8]) -> Option<usize>
    ensures { result ≡ log_end (read_log log.now) }
{
    let mut at = 0;
    loop {
        let e = entry_at(log, at);
        match e {
            Entry::End => return Some(at),
            Entry::Malformed => return None,
            _ => at += entry_size(e),
        }
    }
}

// The place of the last mark of a level; none in a log that is not whole.
pub fn last_mark(log: &[u8], level: u32) -> Option<usize>
    ensures { result ≡ last_mark level (read_log log.now) }
{
    let mut place = None;
    let mut at = 0;
    loop {
        let e = entry_at(log, at);
        let size = entry_size(e);
        match e {
            Entry::End => return place,
            Entry::Malformed => return None,
            Entry::Call(_) => {}
            Entry::Mark { level: l, .. } => {
                if l == level {
                    place = Some(at);
                }
            }
        }
        at += size;
    }
}
