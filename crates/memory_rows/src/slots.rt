// A slot that no row is in: the hint behind the rows is tested first, then all slots. And what is written of a row: its slot and its cells.
ghost use Rattle.std.specs.Prelude.{◌≡◌, false, ◌+◌, ◌*◌, ◌-◌, ◌≤◌, ◌<◌, length};
ghost use Rattle.basics.specs.Basics.{any};
ghost use Rattle.memory_bytes.specs.Columns.{equals};
ghost use Rattle.basics.specs.Lists.{tab};
ghost use Rattle.memory_layout.specs.Flat.{flat_of, capacity_of, Room};
ghost use Rattle.memory_rows.specs.Cells.{ColumnsFit, CellsPut, SlotInto, SlotFilled, SlotNumbers, slot_in, is_taken};

use super::SLOT_LIMIT;
use super::places::{keys_at, refs_at, slot_at, slot_of, states_at};
use memory_layout::{capacity, row_count};

// Whether one of the n rows is in slot 0; a row whose slot number is not below the capacity is in slot 0 too.
pub fn zero_taken(m: &[u8], c: usize, n: usize) -> bool
    requires { SlotNumbers m.now c n }
    ensures { result ≡ any (equals 0) (tab (slot_in m.now c) 0 n) }
{
    let a = refs_at(c);
    let mut hit = false;
    for i in 0..n {
        hit |= slot_of(c, memory_bytes::get2(m, a + i * 2)) == 0;
    }
    hit
}

// Whether a row is in slot s.
pub fn is_taken(m: &[u8], s: u16) -> bool
    requires { Room m.now × (s < capacity_of m.now) }
    ensures { result ≡ is_taken m.now s }
{
    let c = capacity(m);
    let n = row_count(m);
    if s == 0 {
        return zero_taken(m, c, n);
    }
    memory_bytes::names16(m, refs_at(c), n, s)
}

// The first slot that no row is in: there is one, since there are fewer rows than slots.
pub fn search_slot(m: &[u8]) -> u16
    requires { Room m.now × (length (flat_of m.now).rows < capacity_of m.now) }
    ensures { (result < capacity_of m.now) × (is_taken m.now result ≡ false) }
{
    // No `for`: it would want an answer behind its end, which is never reached.
    let mut s: u16 = 0;
    while is_taken(m, s) {
        s += 1;
    }
    s
}

// A slot that no row is in: the one noted behind the rows if no row is in it, else the first such slot.
pub fn free_slot(m: &[u8]) -> u16
    requires { Room m.now × (length (flat_of m.now).rows < capacity_of m.now) }
    ensures { (result < capacity_of m.now) × (is_taken m.now result ≡ false) }
{
    let c = capacity(m);
    let s = memory_bytes::get2(m, refs_at(c) + row_count(m) * 2) % SLOT_LIMIT;
    if (s as usize) < c && !is_taken(m, s) {
        return s;
    }
    search_slot(m)
}

// Writes the cells of row i.
pub fn put_cells(m: &mut [u8], c: usize, i: usize, key: u32, r: u16, state: u8)
    requires { ColumnsFit m.old c × (i < c) }
    ensures { CellsPut m.old m.new c i key r state }
{
    let s = states_at(c) + i;
    memory_bytes::put4(m, keys_at(c) + i * 4, key);
    memory_bytes::put2(m, refs_at(c) + i * 2, r);
    m[s] = state;
}

// Writes number, owner and payload into slot s.
pub fn fill_slot(m: &mut [u8], s: usize, number: u32, owner: u32, payload: &[u8])
    requires { SlotInto m.old s payload.now }
    ensures { SlotFilled m.old m.new s number owner payload.now }
{
    let a = slot_at(s);
    memory_bytes::put4(m, a, number);
    memory_bytes::put4(m, a + 4, owner);
    memory_bytes::write(m, a + 8, payload);
}
