// The tests over all tuples of an image, on columns: one number of each tuple in each.
#![tactic(auto)]

ghost use Rattle.std.specs.Prelude.{MatchOption, ◌≡◌, true, ◌&&◌, [], ℕ, ◌+◌, ◌<◌, ◌≤◌, length, take, drop, get_or, eqb};
ghost use Rattle.basics.specs.Basics.{all, paired, is_in, distinct};
ghost use Rattle.image_rows.specs.Rows.{statement_ok, follows, starts_well, is_below};
ghost use Rattle.image_rows.specs.Columns.{coded, rows_in, columns_ok, ColumnsHold, OwnersHold};
ghost use Rattle.image_rows.specs.Chains.{row_limit, bucket_count, last_by, bucket_of, Chain, Table, Linkable, TableRow, keys_once, is_next, statements_rise, is_start, starts};

// The rows of an image, at most.
pub const ROWS: usize = 1024;

// At most so many transactions are open.
pub const OPEN_LIMIT: usize = 64;
// What a transaction is multiplied by in an owner's code.
pub const STATEMENTS: u64 = block_forms::STATEMENTS as u64;
// The hash table's buckets: a prime, so that the statements of many transactions spread.
const BUCKETS: u64 = 1013;
// The bucket of rows that have no key, after all others.
const NO_KEY: usize = 1013;
// The last row of each bucket.
const HEADS: usize = NO_KEY + 1;

// x stands in s from a place on.
pub fn is_in(s: &[u32], from: usize, x: u32) -> bool
    ensures { result ≡ is_in x (drop from s.now) }
{
    s.iter().skip(from).any(|y| x == *y)
}

// The bucket of a key; 0 is no key.
fn bucket(x: u64) -> usize
    ensures { (result ≡ bucket_of x) × (result ≤ bucket_count) }
{
    if x == 0 {
        NO_KEY
    } else {
        (x % BUCKETS) as usize
    }
}

// The last row of key x, looked for along its bucket's chain from row head - 1 down.
// The loop follows links and counts nothing, so no `for` would be plainer.
fn find(keys: &[u64], links: &[u16], head: usize, x: u64) -> Option<usize>
    requires { Chain keys.now links.now head x }
    ensures { MatchOption result (last_by (eqb x) keys.now head ≡ 0) (λ row. last_by (eqb x) keys.now head ≡ row + 1) }
{
    let mut j = head;
    while 0 < j {
        if keys[j - 1] == x {
            return Some(j - 1);
        }
        j = usize::from(links[j - 1]);
    }
    None
}

// Every key but 0 is there once. If so, the hash table of all rows is made.
fn link_all(keys: &[u64], count: usize, heads: &mut [u16], links: &mut [u16]) -> bool
    requires { Linkable keys.now heads.old links.old count }
    ensures once { result ≡ keys_once keys.now count }
    ensures made { result ≡ true → Table keys.now heads.new links.new count }
{
    for i in 0..count {
        let x = keys[i];
        let b = bucket(x);
        let head = heads[b];
        if 0 < x && find(keys, links, usize::from(head), x).is_some() {
            return false;
        }
        links[i] = head;
        heads[b] = (i + 1) as u16;
    }
    true
}

// The key of each number: 1 more, since 0 is no key.
fn to_keys(s: &[u32], keys: &mut [u64])
    requires { length s.now ≤ length keys.old }
    ensures { (i : ℕ) → i < length s.now → get_or keys.new i 0 ≡ get_or s.now i 0 + 1 }
{
    for (i, number) in s.iter().enumerate() {
        keys[i] = u64::from(*number) + 1;
    }
}

// No number stands twice.
pub fn distinct(s: &[u32]) -> bool
    requires { length s.now ≤ row_limit }
    ensures { result ≡ distinct s.now }
{
    let mut keys = [0u64; ROWS];
    let mut heads = [0u16; HEADS];
    let mut links = [0u16; ROWS];
    to_keys(s, &mut keys);
    link_all(&keys, s.len(), &mut heads, &mut links)
}

// The statement of row i is 0, or the statement before it has a lower number.
fn is_next(
    numbers: &[u32],
    owners: &[u64],
    heads: &[u16],
    links: &[u16],
    count: usize,
    i: usize,
) -> bool
    requires { TableRow numbers.now owners.now heads.now links.now count i }
    ensures { result ≡ is_next numbers.now owners.now count i }
{
    let o = owners[i];
    if o == 0 || (o - 1) % STATEMENTS == 0 {
        return true;
    }
    let b = bucket(o - 1);
    match find(owners, links, usize::from(heads[b]), o - 1) {
        Some(before) => numbers[before] < numbers[i],
        None => false,
    }
}

// The statements of each transaction rise with the numbers.
fn statements_rise(
    numbers: &[u32],
    owners: &[u64],
    heads: &[u16],
    links: &[u16],
    count: usize,
) -> bool
    requires { (count ≤ length numbers.now) × Table owners.now heads.now links.now count }
    ensures { result ≡ statements_rise numbers.now owners.now count }
{
    for i in 0..count {
        if !is_next(numbers, owners, heads, links, count, i) {
            return false;
        }
    }
    true
}

// The statements of each transaction are 0, 1, 2, .. by rising number: none stands twice, and each but 0 has the one before it at a lower number.
fn statements(numbers: &[u32], owners: &[u64], count: usize) -> bool
    requires owners_hold { OwnersHold numbers.now owners.now count }
    requires numbers_value { distinct (take count numbers.now) ≡ true }
    ensures { result ≡ all (statement_ok (rows_in [] numbers.now owners.now [] count)) (rows_in [] numbers.now owners.now [] count) }
{
    let mut heads = [0u16; HEADS];
    let mut links = [0u16; ROWS];
    link_all(owners, count, &mut heads, &mut links)
        && statements_rise(numbers, owners, &heads, &links, count)
}

// The second row may come right after the first, whose mark does not matter.
fn follows(p: u64, n: u32, o: u64, p2: u64, n2: u32, o2: u64, m2: u8) -> bool
    ensures { result ≡ follows (coded p n o 0) (coded p2 n2 o2 m2) }
{
    if p != p2 {
        return p < p2 && m2 == 0;
    }
    n < n2 && 0 < o2 && (o == 0 || (o - 1) / STATEMENTS == (o2 - 1) / STATEMENTS)
}

// The tuples rise, and each may follow the one before it.
pub fn rising(places: &[u64], numbers: &[u32], owners: &[u64], marks: &[u8], count: usize) -> bool
    requires { ColumnsHold places.now numbers.now owners.now marks.now count }
    ensures { result ≡ (paired follows (rows_in places.now numbers.now owners.now marks.now count)
        && starts_well (rows_in places.now numbers.now owners.now marks.now count)) }
{
    if count == 0 {
        return true;
    }
    if marks[0] != 0 {
        return false;
    }
    for i in 1..count {
        let j = i - 1;
        if !follows(
            places[j], numbers[j], owners[j], places[i], numbers[i], owners[i], marks[i],
        ) {
            return false;
        }
    }
    true
}

// Every number is below next.
pub fn below(numbers: &[u32], count: usize, next: u32) -> bool
    requires { count ≤ length numbers.now }
    ensures { result ≡ all (is_below next) (rows_in [] numbers.now [] [] count) }
{
    numbers[..count].iter().all(|number| *number < next)
}

// The code of statement 0 of some transaction.
fn is_start(o: u64) -> bool
    ensures { result ≡ is_start o }
{
    o != 0 && (o - 1) % STATEMENTS == 0
}

// How many rows are a transaction's statement 0.
fn starts(owners: &[u64], count: usize) -> usize
    requires { count ≤ length owners.now }
    ensures { result ≡ starts owners.now count }
{
    owners[..count].iter().filter(|o| is_start(**o)).count()
}

// All tests of `columns_ok`, on the rows in the columns.
pub fn columns_ok(
    places: &[u64],
    numbers: &[u32],
    owners: &[u64],
    marks: &[u8],
    count: usize,
    next: u32,
) -> bool
    requires count_le_row_limit { count ≤ row_limit }
    requires columns_hold { ColumnsHold places.now numbers.now owners.now marks.now count }
    ensures { result ≡ columns_ok next (rows_in places.now numbers.now owners.now marks.now count) }
{
    rising(places, numbers, owners, marks, count)
        && distinct(&numbers[..count])
        && below(numbers, count, next)
        && statements(numbers, owners, count)
        && starts(owners, count) <= OPEN_LIMIT
}
