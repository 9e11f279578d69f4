// The lowest layer of the working memory: numbers in bytes, low byte first, bytes moved and written, columns of numbers searched.
// It knows nothing of the store's layout but how many bits a slot's number has: every function asks only that its bytes lie inside the memory.
#![tactic(auto)]

pub mod search;

ghost use Rattle.std.specs.Prelude.{◌≡◌, ◌++◌, ◌+◌, ◌*◌, ◌-◌, ◌%◌, ◌≤◌, length, drop, replicate, cond, ltb};
ghost use Rattle.memory_bytes.specs.Bytes.{le2, le4, bytes, bytes2, bytes4, column2, Raised, Lowered, Wrote, Added};
ghost use Rattle.memory_bytes.specs.Columns.{up_to, names, Countable};
ghost use Rattle.basics.specs.Lists.{tab};
ghost use Rattle.basics.specs.Basics.{any, how_many, paired};

// A slot's number has ten bits; a row's pending operation stands above them.
pub const SLOT_LIMIT: u16 = 1024;

// The indices from first up to, not including, last. No range: the contracts of the crates above name its two ends.
#[derive(Clone, Copy)]
pub struct Span {
    pub first: usize,
    pub last: usize,
}

// ---- numbers

// The number in the two bytes from a on.
pub fn get2(m: &[u8], a: usize) -> u16
    requires { a + 2 ≤ length m.now }
    ensures { result ≡ le2 m.now a }
{
    u16::from_le_bytes([m[a], m[a + 1]])
}

// The number in the four bytes from a on.
pub fn get4(m: &[u8], a: usize) -> u32
    requires { a + 4 ≤ length m.now }
    ensures { result ≡ le4 m.now a }
{
    u32::from_le_bytes([m[a], m[a + 1], m[a + 2], m[a + 3]])
}

// x, in the two bytes from a on.
pub fn put2(m: &mut [u8], a: usize, x: u16)
    requires { a + 2 ≤ length m.old }
    ensures { Wrote m.old m.new a (bytes2 x) }
{
    m[a..a + 2].copy_from_slice(&x.to_le_bytes());
}

// x, in the four bytes from a on.
pub fn put4(m: &mut [u8], a: usize, x: u32)
    requires { a + 4 ≤ length m.old }
    ensures { Wrote m.old m.new a (bytes4 x) }
{
    m[a..a + 4].copy_from_slice(&x.to_le_bytes());
}

// ---- bytes written. By loops: where the length is not fixed, the library's copy becomes a call of `memmove`, which the archive for C would then
// need.

// src, over the bytes from a on.
pub fn write(m: &mut [u8], a: usize, src: &[u8])
    requires { a + length src.now ≤ length m.old }
    ensures { Wrote m.old m.new a src.now }
{
    for j in 0..src.len() {
        m[a + j] = src[j];
    }
}

// n zeros, over the bytes from a on.
pub fn clear(m: &mut [u8], a: usize, n: usize)
    requires { a + n ≤ length m.old }
    ensures { Wrote m.old m.new a (replicate n 0) }
{
    m[a..a + n].fill(0);
}

// The n bytes of m from a on, over the first bytes of out.
pub fn copy_out(m: &[u8], a: usize, n: usize, out: &mut [u8])
    requires { (a + n ≤ length m.now) × (n ≤ length out.old) }
    ensures { out.new ≡ bytes m.now a n ++ drop n out.old }
{
    for j in 0..n {
        out[j] = m[a + j];
    }
}

// The N bytes from `from` on, over those from `to` on. They are read whole before they are written, so that the two places may overlap.
pub fn copy<const N: usize>(m: &mut [u8], from: usize, to: usize)
    requires { (from + N ≤ length m.old) × (to + N ≤ length m.old) }
    ensures { Wrote m.old m.new to (bytes m.old from N) }
{
    let mut t = [0u8; N];
    copy_out(m, from, N, &mut t);
    write(m, to, &t);
}

// ---- bytes moved by the width of a column

// The bytes from lo up to, not including, hi go up by w: from the last one down, so that each is read before it is written over. By a loop, as
// above: of a fixed width `copy_within` too becomes a call of `memmove`.
pub fn raise(m: &mut [u8], lo: usize, hi: usize, w: usize)
    requires { (lo ≤ hi) × (hi + w ≤ length m.old) }
    ensures { Raised m.old m.new lo hi w }
{
    for k in (lo..hi).rev() {
        m[k + w] = m[k];
    }
}

// The bytes from lo + w up to, not including, hi go down by w.
pub fn lower(m: &mut [u8], lo: usize, hi: usize, w: usize)
    requires { (lo + w ≤ hi) × (hi ≤ length m.old) }
    ensures { Lowered m.old m.new lo hi w }
{
    m.copy_within(lo + w..hi, lo);
}

// ---- columns of two bytes: counted, compared, searched

// How many of the numbers of two bytes from base on, from index s up to, not including, e, are not above x. They are counted in 16 bits, like
// what is read, so that no lane of a vector is wider.
pub fn count_up_to2(m: &[u8], base: usize, s: usize, e: usize, x: u16) -> usize
    requires { Countable m.now base s e }
    ensures { result ≡ how_many (up_to x) (tab (column2 m.now base) s (e - s)) }
{
    let mut k: u16 = 0;
    for j in s..e {
        k += u16::from(get2(m, base + j * 2) <= x);
    }
    usize::from(k)
}

// Whether each of the n numbers of two bytes from base on is below the next one: n + 1 numbers.
pub fn rising2(m: &[u8], base: usize, n: usize) -> bool
    requires { base + n * 2 + 2 ≤ length m.now }
    ensures { result ≡ paired ltb (tab (column2 m.now base) 0 (n + 1)) }
{
    let mut ok = true;
    for j in 0..n {
        let a = base + j * 2;
        ok &= get2(m, a) < get2(m, a + 2);
    }
    ok
}

// Whether one of the n numbers of two bytes from base on names slot s. It is part of its callers, so that it has no loop left where n is a number.
#[inline(always)]
fn any_names(m: &[u8], base: usize, n: usize, s: u16) -> bool
    requires { base + n * 2 ≤ length m.now }
    ensures { result ≡ any (names s) (tab (column2 m.now base) 0 n) }
{
    let mut hit = false;
    for j in 0..n {
        hit |= get2(m, base + j * 2) % SLOT_LIMIT == s;
    }
    hit
}

// Whether one of the n numbers of two bytes from base on is s modulo 1,024: group by group, then those behind the last whole group.
pub fn names16(m: &[u8], base: usize, n: usize, s: u16) -> bool
    requires { base + n * 2 ≤ length m.now }
    ensures { result ≡ any (names s) (tab (column2 m.now base) 0 n) }
{
    let whole = n / 64 * 64;
    for i in (0..whole).step_by(64) {
        if any_names(m, base + i * 2, 64, s) {
            return true;
        }
    }
    any_names(m, base + whole * 2, n - whole, s)
}

// ---- numbers changed

// Each of the numbers of two bytes from base on, from index s up to, not including, e, is d more, modulo 65,536.
fn add_each2(m: &mut [u8], base: usize, s: usize, e: usize, d: u16)
    requires { (s ≤ e) × (base + e * 2 ≤ length m.old) }
    ensures { Added m.old m.new base s e d }
{
    for j in s..e {
        let a = base + j * 2;
        let x = get2(m, a).wrapping_add(d);
        put2(m, a, x);
    }
}

// What is added, modulo 65,536, to make a number one more, or one less.
fn step2(up: bool) -> u16
    ensures { result ≡ cond up 1 65535 }
{
    if up { 1 } else { u16::MAX }
}

// Each of the numbers of two bytes from base on, from index s up to, not including, e, is one more, or one less, modulo 65,536.
pub fn add2(m: &mut [u8], base: usize, s: usize, e: usize, up: bool)
    requires { (s ≤ e) × (base + e * 2 ≤ length m.old) }
    ensures { Added m.old m.new base s e (cond up 1 65535) }
{
    add_each2(m, base, s, e, step2(up));
}
