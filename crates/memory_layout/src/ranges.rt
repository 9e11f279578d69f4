// The tests of refusal 4: whether the numbers of the head are in their ranges, and whether tables and pages rise.
ghost use Rattle.std.specs.Prelude.{◌≡◌, false, ◌+◌, ◌*◌, ◌/◌, ◌≤◌, ◌<◌, length};
ghost use Rattle.memory_layout.specs.Store.{in_range, tables_rise, starts_rise, StartsAt};
ghost use Rattle.memory_layout.specs.Places.{head_size};

use super::places::{HEAD_SIZE, STARTS, TABLE_ENDS};
use super::{BLOCK_LIMIT, CAPACITY_LIMIT, Counts, DIRECTORY_LIMIT, Head, OPEN_LIMIT, ROW_SPACE};

// The ranges of the head's numbers: no branch, since nearly every memory passes.
pub fn in_range(size: usize, h: Head, n: Counts) -> bool
    ensures { result ≡ in_range size h n }
{
    let need = ROW_SPACE * (h.capacity as usize) + HEAD_SIZE;
    let pages = n.pages as u64;
    let most = 2 * (h.capacity as u64);
    (1 <= h.capacity)
        & (h.capacity <= CAPACITY_LIMIT)
        & (need <= size)
        & (2 <= h.blocks)
        & (h.blocks <= BLOCK_LIMIT)
        & (h.taken < h.blocks)
        & (n.rows <= h.capacity)
        & (pages <= most)
        & (n.opens <= OPEN_LIMIT)
        & (n.named <= h.capacity)
        & (n.directories <= DIRECTORY_LIMIT)
}

// No table ends before the one below it.
pub fn tables_rise(m: &[u8]) -> bool
    requires { head_size ≤ length m.now }
    ensures { result ≡ tables_rise m.now }
{
    let mut rise = true;
    for t in 0..7 {
        let a = memory_bytes::get2(m, TABLE_ENDS + t * 2);
        let b = memory_bytes::get2(m, TABLE_ENDS + t * 2 + 2);
        rise &= a <= b;
    }
    rise
}

// The pages start at row 0, and each has a row: one pass over the first rows, no branch.
pub fn starts_rise(m: &[u8], c: usize, pages: usize, rows: u32) -> bool
    requires { StartsAt m.now c pages rows }
    ensures { result ≡ starts_rise m.now }
{
    if pages == 0 {
        return rows == 0;
    }
    let a = HEAD_SIZE + c * STARTS;
    let last = pages - 1;
    if rows <= memory_bytes::get2(m, a + last * 2) as u32 {
        return false;
    }
    if memory_bytes::get2(m, a) != 0 {
        return false;
    }
    memory_bytes::rising2(m, a, last)
}
