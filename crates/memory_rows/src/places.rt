// Where the parts of a row stand: its key, reference and state in the columns, its number, owner and payload in a slot.
ghost use Rattle.std.specs.Prelude.{◌≡◌, ◌+◌, ◌*◌, ◌-◌, ◌≤◌, ◌<◌, length};
ghost use Rattle.memory_bytes.specs.Columns.{slot_limit};
ghost use Rattle.image.specs.Stages.{capacity_limit};
ghost use Rattle.memory_layout.specs.Places.{slot_size, keys_at, refs_at, states_at};
ghost use Rattle.memory_layout.specs.Views.{slot_of, slot_place, ref_of, state_of};
ghost use Rattle.memory_layout.specs.Flat.{flat_of, capacity_of, Room};
ghost use Rattle.memory_rows.specs.Cells.{slot_at};

use super::SLOT_LIMIT;
use memory_layout::capacity;
use memory_layout::places::{HEAD_SIZE, KEYS, REFS, SLOT_SIZE, STATES};

pub fn keys_at(c: usize) -> usize
    requires { c ≤ capacity_limit }
    ensures { result ≡ keys_at c }
{
    HEAD_SIZE + c * KEYS
}

pub fn refs_at(c: usize) -> usize
    requires { c ≤ capacity_limit }
    ensures { result ≡ refs_at c }
{
    HEAD_SIZE + c * REFS
}

pub fn states_at(c: usize) -> usize
    requires { c ≤ capacity_limit }
    ensures { result ≡ states_at c }
{
    HEAD_SIZE + c * STATES
}

// Where slot s stands.
pub fn slot_at(s: usize) -> usize
    requires { s < slot_limit }
    ensures { result ≡ slot_place s }
{
    HEAD_SIZE + s * SLOT_SIZE
}

// The slot that a row's two bytes name; slot 0 if the number is not below the capacity c.
pub fn slot_of(c: usize, r: u16) -> usize
    requires { 1 ≤ c }
    ensures { (result ≡ slot_of c r) × (result < c) }
{
    let s = (r % SLOT_LIMIT) as usize;
    if s < c { s } else { 0 }
}

// Where the key of row i stands.
pub fn key_place(m: &[u8], i: usize) -> usize
    requires { Room m.now × (i < length (flat_of m.now).rows) }
    ensures { (result ≡ keys_at (capacity_of m.now) + i * 4) × (result + 4 ≤ length m.now) }
{
    keys_at(capacity(m)) + i * 4
}

// Where the two bytes of row i stand that name its slot and its pending operation.
pub fn ref_place(m: &[u8], i: usize) -> usize
    requires { Room m.now × (i < length (flat_of m.now).rows) }
    ensures { (result ≡ refs_at (capacity_of m.now) + i * 2) × (result + 2 ≤ length m.now) }
{
    refs_at(capacity(m)) + i * 2
}

// Where the state of row i stands: committed, delete mark and the payload's length.
pub fn state_place(m: &[u8], i: usize) -> usize
    requires { Room m.now × (i < length (flat_of m.now).rows) }
    ensures { (result ≡ states_at (capacity_of m.now) + i) × (result < length m.now) }
{
    states_at(capacity(m)) + i
}

pub fn ref_at(m: &[u8], i: usize) -> u16
    requires { Room m.now × (i < length (flat_of m.now).rows) }
    ensures { result ≡ ref_of m.now (capacity_of m.now) i }
{
    memory_bytes::get2(m, ref_place(m, i))
}

pub fn state_at(m: &[u8], i: usize) -> u8
    requires { Room m.now × (i < length (flat_of m.now).rows) }
    ensures { result ≡ state_of m.now (capacity_of m.now) i }
{
    m[state_place(m, i)]
}

// Where the slot of row i stands.
pub fn slot_place(m: &[u8], i: usize) -> usize
    requires { Room m.now × (i < length (flat_of m.now).rows) }
    ensures { (result ≡ slot_place (slot_at m.now i)) × (result + slot_size ≤ length m.now) }
{
    slot_at(slot_of(capacity(m), ref_at(m, i)))
}
