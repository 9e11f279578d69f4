// Rows that move by one place, up or down: in blocks of eight, or number by number where they are fewer.
ghost use Rattle.std.specs.Prelude.{List, ℕ, ◌+◌, ◌*◌, ◌-◌, ◌≤◌, ◌<◌};
ghost use Rattle.memory_rows.specs.Cells.{ColumnsFit, EightInto, EightPair, MayRaise, MayLower, EightOf, EightPut, RowsRaised, RowsLowered};

use super::Eight;
use super::places::{keys_at, refs_at, states_at};

// The cells of the eight rows from row i on.
pub fn take_eight(m: &[u8], c: usize, i: usize) -> Eight
    requires { ColumnsFit m.now c × (i + 8 ≤ c) }
    ensures { EightOf m.now c i result }
{
    let mut keys = [0u8; 32];
    let mut refs = [0u8; 16];
    let mut states = [0u8; 8];
    memory_bytes::copy_out(m, keys_at(c) + i * 4, 32, &mut keys);
    memory_bytes::copy_out(m, refs_at(c) + i * 2, 16, &mut refs);
    memory_bytes::copy_out(m, states_at(c) + i, 8, &mut states);
    Eight { keys, refs, states }
}

// The eight rows from row k on get these cells.
pub fn give_eight(m: &mut [u8], c: usize, k: usize, rows: Eight)
    requires { EightInto m.old c k rows }
    ensures { (m₀ : List ℕ) (i : ℕ) → EightOf m₀ c i rows → EightPut m₀ m.old m.new c i k }
{
    memory_bytes::write(m, keys_at(c) + k * 4, &rows.keys);
    memory_bytes::write(m, refs_at(c) + k * 2, &rows.refs);
    memory_bytes::write(m, states_at(c) + k, &rows.states);
}

// The eight rows from row k on get the cells that the eight from row i on had.
pub fn copy_eight(m: &mut [u8], c: usize, i: usize, k: usize)
    requires { EightPair m.old c i k }
    ensures { EightPut m.old m.old m.new c i k }
{
    let keys = keys_at(c);
    let refs = refs_at(c);
    let states = states_at(c);
    memory_bytes::copy::<32>(m, keys + i * 4, keys + k * 4);
    memory_bytes::copy::<16>(m, refs + i * 2, refs + k * 2);
    memory_bytes::copy::<8>(m, states + i, states + k);
}

// Of n rows, those from row i on, eight or more, go one up: by blocks whose new place is a multiple of eight, from the last one down. The
// first and the last eight are read before and written after them, so that the blocks need not reach the first and the last row.
pub fn raise_eights(m: &mut [u8], c: usize, i: usize, n: usize)
    requires { MayRaise m.old c i n × (i + 8 ≤ n) }
    ensures { RowsRaised m.old m.new c i n }
{
    let first = take_eight(m, c, i);
    let last = take_eight(m, c, n - 8);
    // No `for`: a range that steps down by eight is no plainer; and `lower_eights` is its mirror.
    let mut k = (n + 1) / 8 * 8 - 1;
    while i + 8 < k {
        k -= 8;
        copy_eight(m, c, k, k + 1);
    }
    give_eight(m, c, i + 1, first);
    give_eight(m, c, n - 7, last);
}

// Of n rows, those behind row i, eight or more, go one down: by blocks whose new place is a multiple of eight, from the first one up.
pub fn lower_eights(m: &mut [u8], c: usize, i: usize, n: usize)
    requires { MayLower m.old c i n × (i + 9 ≤ n) }
    ensures { RowsLowered m.old m.new c i n }
{
    let first = take_eight(m, c, i + 1);
    let last = take_eight(m, c, n - 8);
    // No `for`: the mirror of `raise_eights`.
    let mut k = (i + 7) / 8 * 8;
    while k + 9 < n {
        copy_eight(m, c, k + 1, k);
        k += 8;
    }
    give_eight(m, c, i, first);
    give_eight(m, c, n - 9, last);
}

// Of n rows, those from row i on go one up.
pub fn raise_rows(m: &mut [u8], c: usize, i: usize, n: usize)
    requires { MayRaise m.old c i n }
    ensures { RowsRaised m.old m.new c i n }
{
    if i + 8 <= n {
        raise_eights(m, c, i, n);
        return;
    }
    let k = keys_at(c);
    let r = refs_at(c);
    let s = states_at(c);
    memory_bytes::raise(m, k + i * 4, k + n * 4, 4);
    memory_bytes::raise(m, r + i * 2, r + n * 2, 2);
    memory_bytes::raise(m, s + i, s + n, 1);
}

// Of n rows, those behind row i go one down.
pub fn lower_rows(m: &mut [u8], c: usize, i: usize, n: usize)
    requires { MayLower m.old c i n }
    ensures { RowsLowered m.old m.new c i n }
{
    if i + 9 <= n {
        lower_eights(m, c, i, n);
        return;
    }
    let k = keys_at(c);
    let r = refs_at(c);
    let s = states_at(c);
    memory_bytes::lower(m, k + i * 4, k + n * 4, 4);
    memory_bytes::lower(m, r + i * 2, r + n * 2, 2);
    memory_bytes::lower(m, s + i, s + n, 1);
}
