// Columns of numbers of four bytes, searched by groups of sixteen without a branch, which become vector code.
ghost use Rattle.std.specs.Prelude.{◌≡◌, ℕ, Bool, ◌+◌, ◌*◌, ◌-◌, ◌≤◌, length, cond};
ghost use Rattle.memory_bytes.specs.Bytes.{column4};
ghost use Rattle.memory_bytes.specs.Columns.{equals, up_to, at_least, Tests, Covers, Grouped};
ghost use Rattle.basics.specs.Lists.{tab, first_index, last_index};
ghost use Rattle.basics.specs.Basics.{any};

use super::{Span, get4};

// Whether p holds of one of the 16 numbers of four bytes from byte at on.
fn any16<F: Fn(u32) -> bool>(m: &[u8], at: usize, p: &F) -> bool
    requires inside { at + 64 ≤ length m.now }
    requires callable { F.IsAlwaysCallable p.now }
    ensures { (f : ℕ → Bool) → Tests (F.post p.now) f → result ≡ any f (tab (column4 m.now at) 0 16) }
{
    let mut hit = false;
    for j in 0..16 {
        hit |= p(get4(m, at + j * 4));
    }
    hit
}

// The first index from i on, below n, of whose number of four bytes from base on p holds, or n.
fn first_where<F: Fn(u32) -> bool>(m: &[u8], base: usize, i: usize, n: usize, p: F) -> usize
    requires inside { (i ≤ n) × (base + n * 4 ≤ length m.now) }
    requires callable { F.IsAlwaysCallable p }
    ensures { (f : ℕ → Bool) → Tests (F.post p) f → result ≡ i + first_index f (tab (column4 m.now base) i (n - i)) }
{
    // Not a `for`: where it stops is where the next loop starts.
    let mut k = i;
    while k + 16 <= n {
        if any16(m, base + k * 4, &p) {
            break;
        }
        k += 16;
    }
    for j in k..n {
        if p(get4(m, base + j * 4)) {
            return j;
        }
    }
    n
}

// One behind the last index from s on, below e, of whose number of four bytes from base on p holds, or s.
fn last_where<F: Fn(u32) -> bool>(m: &[u8], base: usize, s: usize, e: usize, p: F) -> usize
    requires inside { (s ≤ e) × (base + e * 4 ≤ length m.now) }
    requires callable { F.IsAlwaysCallable p }
    ensures { (f : ℕ → Bool) → Tests (F.post p) f → result ≡ s + last_index f (tab (column4 m.now base) s (e - s)) }
{
    // Not a `for`: where it stops is where the next loop starts.
    let mut k = e;
    while s + 16 <= k {
        let t = k - 16;
        if any16(m, base + t * 4, &p) {
            break;
        }
        k = t;
    }
    for j in (s..k).rev() {
        if p(get4(m, base + j * 4)) {
            return j + 1;
        }
    }
    s
}

// The first index from i on, below n, whose number of four bytes from base on is key, or n.
pub fn find_equal(m: &[u8], base: usize, i: usize, n: usize, key: u32) -> usize
    requires { (i ≤ n) × (base + n * 4 ≤ length m.now) }
    ensures { result ≡ i + first_index (equals key) (tab (column4 m.now base) i (n - i)) }
{
    first_where(m, base, i, n, |x| x == key)
}

// The first index from i on, below n, whose number of four bytes from base on is not below key, or n.
pub fn first_from(m: &[u8], base: usize, i: usize, n: usize, key: u32) -> usize
    requires { (i ≤ n) × (base + n * 4 ≤ length m.now) }
    ensures { result ≡ i + first_index (at_least key) (tab (column4 m.now base) i (n - i)) }
{
    first_where(m, base, i, n, |x| key <= x)
}

// One behind the last index from s on, below e, whose number of four bytes from base on is not above key, or s.
pub fn last_up_to(m: &[u8], base: usize, s: usize, e: usize, key: u32) -> usize
    requires { (s ≤ e) × (base + e * 4 ≤ length m.now) }
    ensures { result ≡ s + last_index (up_to key) (tab (column4 m.now base) s (e - s)) }
{
    last_where(m, base, s, e, |x| x <= key)
}

// One behind the last index from s on, below e, whose number of four bytes from base on is key, or s.
pub fn last_equal(m: &[u8], base: usize, s: usize, e: usize, key: u32) -> usize
    requires { (s ≤ e) × (base + e * 4 ≤ length m.now) }
    ensures { result ≡ s + last_index (equals key) (tab (column4 m.now base) s (e - s)) }
{
    last_where(m, base, s, e, |x| x == key)
}

// ---- the span of a key: every group is passed over, with no branch on what is in it. That a branch which depends on the key is mispredicted
// was inferred from timings (docs/PROOF_NOTES.md, 'Branches on the data').

// Which of the 16 numbers of four bytes from byte at on is the first that is key, or 16. Index and answer have 32 bits, like what is read, so
// that no lane of a vector is wider.
pub fn first_equal16(m: &[u8], at: usize, key: u32) -> usize
    requires { at + 64 ≤ length m.now }
    ensures { Covers (column4 m.now at) key 0 16 result 16 }
{
    let mut f: u32 = 16;
    for j in (0..16u32).rev() {
        if get4(m, at + j as usize * 4) == key {
            f = j;
        }
    }
    f as usize
}

// One behind the last of the 16 numbers of four bytes from byte at on that is key, or 0.
pub fn last_equal16(m: &[u8], at: usize, key: u32) -> usize
    requires { at + 64 ≤ length m.now }
    ensures { Covers (column4 m.now at) key 0 16 0 result }
{
    let mut f: u32 = 0;
    for j in 0..16u32 {
        if get4(m, at + j as usize * 4) == key {
            f = j + 1;
        }
    }
    f as usize
}

// a if h, otherwise b.
pub fn pick(h: bool, a: usize, b: usize) -> usize
    ensures { result ≡ cond h a b }
{
    if h { a } else { b }
}

// From the first group of 16 with the key to the end of the last one, or up to s if there is none. The last group ends at e, so it may overlap
// the one before it.
pub fn groups_equal(m: &[u8], base: usize, s: usize, e: usize, key: u32) -> Span
    requires { (s + 16 ≤ e) × (base + e * 4 ≤ length m.now) }
    ensures { Grouped (column4 m.now base) key s e result.first result.last }
{
    let mut lo = e;
    let mut hi = s;
    // No `for` over the groups: with one, a read among 1,024 rows takes 218 ns in place of 175.
    let mut k = s;
    while k + 16 <= e {
        let h = any16(m, base + k * 4, &|x| x == key);
        lo = pick(h & (hi == s), k, lo);
        k += 16;
        hi = pick(h, k, hi);
    }
    let t = e - 16;
    let h = any16(m, base + t * 4, &|x| x == key);
    lo = pick(h & (hi == s), t, lo);
    hi = pick(h, e, hi);
    Span {
        first: lo,
        last: hi,
    }
}

// From the first index from s on, below e, whose number of four bytes from base on is key to behind the last one; empty if there is none.
pub fn span_equal(m: &[u8], base: usize, s: usize, e: usize, key: u32) -> Span
    requires { (s ≤ e) × (base + e * 4 ≤ length m.now) }
    ensures { Covers (column4 m.now base) key s e result.first result.last }
{
    if e < s + 16 {
        let f = find_equal(m, base, s, e, key);
        return Span {
            first: f,
            last: last_equal(m, base, f, e, key),
        };
    }
    let g = groups_equal(m, base, s, e, key);
    if g.last == s {
        return Span { first: e, last: e };
    }
    let lo = g.first;
    let hi = g.last - 16;
    Span {
        first: lo + first_equal16(m, base + lo * 4, key),
        last: hi + last_equal16(m, base + hi * 4, key),
    }
}
