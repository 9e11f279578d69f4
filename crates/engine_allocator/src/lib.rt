// The blocks that a checkpoint takes: whether enough are free, how many are still to be taken, and the next free one.
#![tactic(auto)]

ghost use Rattle.std.specs.Prelude.{◌≡◌, true, ◌+◌, ◌-◌, ◌≤◌, ◌<◌, length, leb};
ghost use Rattle.basics.specs.Basics.{how_many};
ghost use Rattle.image.specs.Stages.{directories_for};
ghost use Rattle.model.specs.Rules.{is_frozen};
ghost use Rattle.model.specs.Checkpoint.{allocate, free_count, blocks_needed};
ghost use Rattle.memory_layout.specs.Flat.{flat_of, Room};
ghost use Rattle.memory_layout.specs.Store.{holds_store, store_of};
ghost use Rattle.engine_pages.specs.Pages.{pages_of};
ghost use Rattle.engine_allocator.specs.Blocks.{BlockRange, FirstFree, allocator_in};

// The block last taken, after which the next search starts, and how many blocks the running checkpoint has still to take: one for
// each frozen page and for each directory block to come. The header takes none.
#[derive(Clone, Copy)]
pub struct Allocator {
    pub taken: u32,
    pub left: u64,
}

// Whether so many blocks are free: the search ends where that is known.
pub fn enough_free(m: &[u8], need: usize) -> bool
    requires { Room m.now }
    ensures { result ≡ leb need (free_count (store_of (flat_of m.now))) }
{
    let n = memory_layout::get_head(m).blocks as usize;
    let mut k: usize = 0;
    for b in 1..n {
        if need <= k {
            return true;
        }
        k += usize::from(!memory_layout::is_used(m, b));
    }
    need <= k
}

// How many free blocks a begin needs.
pub fn blocks_needed(m: &[u8]) -> usize
    requires { holds_store m.now ≡ true }
    ensures { (result ≡ blocks_needed (pages_of m.now)) × (result ≤ 1028) }
{
    let c = memory_layout::get_counts(m);
    memory_pages::count_dirty(m) + image_header::directories_for(c.pages as usize)
}

// How many directory blocks are still to be written.
fn directories_left(m: &[u8]) -> usize
    requires { Room m.now }
    ensures { (result ≡ directories_for (length (flat_of m.now).named) - length (flat_of m.now).directories) × (result ≤ 4) }
{
    let c = memory_layout::get_counts(m);
    let d = image_header::directories_for(c.named as usize);
    d.saturating_sub(c.directories as usize)
}

// How many blocks are still to be taken: one for each of so many frozen pages, and the directory's.
pub fn blocks_left(m: &[u8], frozen: usize) -> u64
    requires { Room m.now × (frozen ≡ how_many is_frozen (pages_of m.now)) }
    ensures { (result ≡ (allocator_in m.now).left) × (result ≤ 2052) }
{
    (frozen + directories_left(m)) as u64
}

// The first free block from a up to, not including, e.
fn first_free(m: &[u8], a: usize, e: usize) -> Option<usize>
    requires { BlockRange m.now a e }
    ensures { FirstFree (flat_of m.now).used a e result }
{
    for b in a..e {
        if !memory_layout::is_used(m, b) {
            return Some(b);
        }
    }
    None
}

// The first free block after the one last taken, round to block 1; the last block, if there is none.
pub fn allocate(m: &[u8], taken: u32) -> usize
    requires { Room m.now × (taken ≡ (allocator_in m.now).taken) }
    ensures { (result ≡ allocate (store_of (flat_of m.now))) × (result < (flat_of m.now).head.blocks) }
{
    let n = memory_layout::get_head(m).blocks as usize;
    let t = taken as usize;
    if let Some(b) = first_free(m, t + 1, n) {
        return b;
    }
    first_free(m, 1, t + 1).unwrap_or(n - 1)
}
