// Begin, step and run: the checkpoint on the working memory. No call asks anything of its caller: each contract says what the call
// answers and leaves, for any image and any memory, by the model's function.
#![tactic(auto)]

ghost use Rattle.std.specs.Prelude.{◌≡◌, true, [], map, ◌+◌, ◌≤◌, ◌<◌, length, get_or};
ghost use Rattle.memory_layout.specs.Places.{head_size};
ghost use Rattle.block_forms.specs.Limits.{block_limit};
ghost use Rattle.model.specs.Calls.{with_room};
ghost use Rattle.model.specs.Checkpoint.{is_running, begun, begin_call, fill, left, page_stored, directory_stored, header_stored, step_call, run_call};
ghost use Rattle.memory_layout.specs.Flat.{flat_of, Room, Becomes, with_named};
ghost use Rattle.memory_layout.specs.Store.{holds_store, store_of, store_in, HoldsNow};
ghost use Rattle.engine_pages.specs.Pending.{FirstFrozen};
ghost use Rattle.engine_allocator.specs.Blocks.{allocator_in};
ghost use Rattle.refusals.specs.Numbers.{number_in};
ghost use Rattle.call_contracts.specs.Shape.{Answers, Stores};
ghost use Rattle.call_checkpoint.specs.Counting.{IsFirstZero, NamedBefore, four_named, named_in};
ghost use Rattle.call_checkpoint.specs.Keeping.{after_store, RunningIn, Ready, Takes, BlockLeft, PageNext, DirectoryNext, HeaderNext, taking, Marks, Steps, step_refusal};

use call_contracts::{Answer, Reply};
use engine_allocator::Allocator;
use refusals::Refusal;

// A level, and with it a header's number, is at most this.
const LAST_LEVEL: u32 = u32::MAX;

const BLOCK_SIZE: usize = block_forms::BLOCK_SIZE;

// Whether a checkpoint runs: none does at the last level.
fn is_running(m: &[u8]) -> bool
    requires { head_size ≤ length m.now }
    ensures { result ≡ is_running (store_of (flat_of m.now)).checkpoint }
{
    let h = memory_layout::get_head(m);
    h.running && h.level < LAST_LEVEL
}

// ---- begin

// The list of all pages: the block of each, 0 if it is dirty.
fn name_pages(m: &mut [u8])
    requires { (holds_store m.old ≡ true) × ((flat_of m.old).named ≡ []) }
    ensures { Becomes m.old m.new (with_named (flat_of m.old) (map (λ e. e.block) (flat_of m.old).entries)) }
{
    let c = memory_layout::get_counts(m);
    for p in 0..c.pages as usize {
        let b = memory_pages::block_at(m, p);
        memory_layout::push_named(m, b);
    }
}

// All tests are passed: the list of all pages is fixed, and every dirty page is frozen.
fn start(m: &mut [u8])
    requires { (holds_store m.old ≡ true) × ((flat_of m.old).head.level < 4294967295) }
    ensures { HoldsNow m.old m.new (begun (store_of (flat_of m.old))) }
{
    memory_layout::clear_named(m);
    name_pages(m);
    memory_layout::clear_directories(m);
    let mut h = memory_layout::get_head(m);
    h.running = true;
    h.begun = h.next;
    memory_layout::put_head(m, h);
    engine_pages::freeze(m);
}

// Freezes every dirty page and fixes the list of all pages, if there is room for the mark of it; answers how many stores are left.
pub fn begin_if(m: &mut [u8], room: bool) -> Answer
    ensures { Answers (with_room room begin_call) m.old result m.new }
{
    if !memory_layout::holds_store(m) {
        return Err(Refusal::NoStore);
    }
    if is_running(m) {
        return Err(Refusal::CheckpointRunning);
    }
    let h = memory_layout::get_head(m);
    if h.level == LAST_LEVEL {
        return Err(Refusal::LevelsExhausted);
    }
    let need = engine_allocator::blocks_needed(m);
    if !engine_allocator::enough_free(m, need) {
        return Err(Refusal::ImageFull);
    }
    if !room {
        return Err(Refusal::LogFull);
    }
    start(m);
    Ok(Reply::Count(need as u64 + 1))
}

pub fn begin(m: &mut [u8]) -> Answer
    ensures { Answers begin_call m.old result m.new }
{
    begin_if(m, true)
}

// ---- what a store leaves in the memory

// Block b is in use, and it is the one last taken.
fn take_block(m: &mut [u8], b: u32)
    requires { Room m.old × (b < (flat_of m.old).head.blocks) }
    ensures { Becomes m.old m.new (taking b (flat_of m.old)) }
{
    let mut h = memory_layout::get_head(m);
    h.taken = b;
    memory_layout::put_head(m, h);
    memory_layout::mark_used(m, b as usize);
}

// Whether each of the four directory entries from i on has a block: one branch for the four.
fn four_named(m: &[u8], i: usize) -> bool
    requires { Room m.now × (i + 4 ≤ length (flat_of m.now).named) }
    ensures { result ≡ four_named (flat_of m.now).named i }
{
    let a = memory_layout::get_named(m, i);
    let b = memory_layout::get_named(m, i + 1);
    let c = memory_layout::get_named(m, i + 2);
    let d = memory_layout::get_named(m, i + 3);
    (a != 0) & (b != 0) & (c != 0) & (d != 0)
}

// Where the search for a page without a block, among n, may start: each page before has one. Whole fours are passed over.
fn named_fours(m: &[u8], n: usize) -> usize
    requires { Room m.now × (n ≡ length (flat_of m.now).named) }
    ensures { NamedBefore (flat_of m.now).named result }
{
    let fours = n / 4;
    for k in 0..fours {
        if !four_named(m, 4 * k) {
            return 4 * k;
        }
    }
    4 * fours
}

// The place of the first page of the list that has no block yet, if there is one.
fn first_unnamed(m: &[u8]) -> Option<usize>
    requires { Room m.now }
    ensures { IsFirstZero result (flat_of m.now).named }
{
    let c = memory_layout::get_counts(m);
    let n = c.named as usize;
    for i in named_fours(m, n)..n {
        if memory_layout::get_named(m, i) == 0 {
            return Some(i);
        }
    }
    None
}

// The first page of the list that has no block yet gets block b.
fn fill_entry(m: &mut [u8], b: u16)
    requires { Room m.old × (b < block_limit) }
    ensures { Becomes m.old m.new (with_named (flat_of m.old) (fill b (flat_of m.old).named)) }
{
    if let Some(i) = first_unnamed(m) {
        memory_layout::put_named(m, i, b);
    }
}

// After the store of the first frozen page, p, as block b.
fn keep_page(m: &mut [u8], p: usize, b: u32)
    requires { Takes m.old b × FirstFrozen m.old p }
    ensures { HoldsNow m.old m.new (after_store (page_stored b) (flat_of m.old)) }
{
    take_block(m, b);
    fill_entry(m, b as u16);
    engine_pages::thaw(m, p, b as u16);
}

// After the store of a directory block as block b.
fn keep_directory(m: &mut [u8], b: u32)
    requires { Takes m.old b × (length (flat_of m.old).directories < 4) }
    ensures { HoldsNow m.old m.new (after_store (directory_stored b) (flat_of m.old)) }
{
    take_block(m, b);
    memory_layout::push_directory(m, b);
}

// Block i of those that the header to come and its directory name: first of the listed pages, then of the directory.
fn block_named(m: &[u8], i: usize) -> usize
    requires { Room m.now × (i < length (named_in (flat_of m.now))) }
    ensures { (result ≡ get_or (named_in (flat_of m.now)) i 0) × (result < block_limit) }
{
    let c = memory_layout::get_counts(m);
    let n = c.named as usize;
    if i < n {
        return memory_layout::get_named(m, i) as usize;
    }
    memory_layout::get_directory(m, i - n) as usize
}

// All blocks that the header to come and its directory name are in use too.
fn mark_named(m: &mut [u8])
    requires { Room m.old }
    ensures { Marks m.old m.new (named_in (flat_of m.old)) }
{
    let c = memory_layout::get_counts(m);
    let n = c.named as usize + c.directories as usize;
    for i in 0..n {
        let b = block_named(m, i);
        memory_layout::mark_used(m, b);
    }
}

// After the header's store: the blocks that it no longer names are free.
fn keep_header(m: &mut [u8])
    requires { RunningIn m.old }
    ensures { HoldsNow m.old m.new (after_store (λ n. header_stored) (flat_of m.old)) }
{
    memory_layout::clear_used(m);
    mark_named(m);
    let mut h = memory_layout::get_head(m);
    h.level += 1;
    h.running = false;
    memory_layout::put_head(m, h);
}

// ---- step: each block store is lent the allocator, and changes it in place

// Writes the first frozen page, p, into the first free block after the one last taken; answers that block.
fn store_page(image: &mut [u8], m: &mut [u8], p: usize, taken: u32) -> u32
    requires { PageNext image.old m.old p × (taken ≡ (allocator_in m.old).taken) }
    ensures { Steps image.old m.old image.new m.new × (result ≡ (allocator_in m.new).taken) }
{
    let h = memory_layout::get_head(m);
    let t = memory_pages::table_of(m, p);
    let s = memory_pages::start_of(m, p);
    let e = memory_pages::start_of(m, p + 1);
    let b = engine_allocator::allocate(m, taken);
    let a = BLOCK_SIZE * b;
    let end = a + BLOCK_SIZE;
    engine_writer::write_page(&mut image[a..end], m, t, s, e, h.level + 1);
    let block = b as u32;
    keep_page(m, p, block);
    block
}

// Writes the next part of the list of pages into the first free block after the one last taken; answers that block.
fn store_directory(image: &mut [u8], m: &mut [u8], taken: u32) -> u32
    requires { DirectoryNext image.old m.old × (taken ≡ (allocator_in m.old).taken) }
    ensures { Steps image.old m.old image.new m.new × (result ≡ (allocator_in m.new).taken) }
{
    let h = memory_layout::get_head(m);
    let c = memory_layout::get_counts(m);
    let b = engine_allocator::allocate(m, taken);
    let a = BLOCK_SIZE * b;
    let end = a + BLOCK_SIZE;
    let k = c.directories as usize;
    engine_writer::write_directory(&mut image[a..end], m, k, h.level + 1);
    let block = b as u32;
    keep_directory(m, block);
    block
}

// Writes the next block: the first frozen page, p, or, where p is the number of pages, a directory block. Answers the block taken.
fn write_block(image: &mut [u8], m: &mut [u8], p: usize, taken: u32) -> u32
    requires { BlockLeft image.old m.old p × (taken ≡ (allocator_in m.old).taken) }
    ensures { Steps image.old m.old image.new m.new × (result ≡ (allocator_in m.new).taken) }
{
    let c = memory_layout::get_counts(m);
    if p < c.pages as usize {
        return store_page(image, m, p, taken);
    }
    store_directory(image, m, taken)
}

// Stores the next block, and changes the allocator in place: the block taken is the last one, and one less is left.
fn store_block(a: &mut Allocator, image: &mut [u8], m: &mut [u8], p: usize)
    requires { BlockLeft image.old m.old p × (a.old ≡ allocator_in m.old) }
    ensures { Steps image.old m.old image.new m.new × (a.new ≡ allocator_in m.new) }
{
    a.taken = write_block(image, m, p, a.taken);
    a.left -= 1;
}

// Makes the allocator of this step and lends it to the store of the next block; answers how many blocks are left.
fn lend_allocator(image: &mut [u8], m: &mut [u8], p: usize, taken: u32, left: u64) -> u64
    requires { BlockLeft image.old m.old p × (record { taken = taken; left = left } ≡ allocator_in m.old) }
    ensures { Steps image.old m.old image.new m.new × (result ≡ (allocator_in m.new).left) }
{
    let mut a = Allocator { taken, left };
    store_block(&mut a, image, m, p);
    a.left
}

// The header goes into block 0, and the checkpoint ends.
fn store_header(image: &mut [u8], m: &mut [u8])
    requires { HeaderNext image.old m.old }
    ensures { Steps image.old m.old image.new m.new × (left (store_of (flat_of m.new)) ≡ 0) }
{
    engine_writer::write_header(&mut image[..BLOCK_SIZE], m);
    keep_header(m);
}

// One store: the frozen pages in list order, then the directory, then the header; answers how many are left. Frozen pages are counted
// from the first one on.
fn store_next(image: &mut [u8], m: &mut [u8]) -> u64
    requires { Ready image.old m.old }
    ensures { Steps image.old m.old image.new m.new × (result ≡ left (store_of (flat_of m.new))) }
{
    let p = memory_pages::first_frozen(m);
    let n = engine_allocator::blocks_left(m, memory_pages::count_frozen(m, p));
    if n == 0 {
        store_header(image, m);
        return 0;
    }
    let h = memory_layout::get_head(m);
    lend_allocator(image, m, p, h.taken, n) + 1
}

// Whether a step may be made: there is a store, the image, of len bytes, is exactly its blocks long, and a checkpoint runs.
fn check_step(len: usize, m: &[u8]) -> Result<(), Refusal>
    ensures { number_in result ≡ step_refusal len (store_in m.now) }
{
    if !memory_layout::holds_store(m) {
        return Err(Refusal::NoStore);
    }
    let h = memory_layout::get_head(m);
    if len != BLOCK_SIZE * h.blocks as usize {
        return Err(Refusal::ImageMismatch);
    }
    if !is_running(m) {
        return Err(Refusal::NoCheckpoint);
    }
    Ok(())
}

// Makes one store; answers how many are left.
pub fn step(image: &mut [u8], m: &mut [u8]) -> Answer
    ensures { Stores (step_call (length image.old)) image.old m.old result image.new m.new }
{
    check_step(image.len(), m)?;
    let n = store_next(image, m);
    Ok(Reply::Count(n))
}

// ---- run

// Makes stores by steps, at most as many as the limit; answers how many.
pub fn run(image: &mut [u8], m: &mut [u8], limit: u64) -> Answer
    ensures { Stores (run_call limit (length image.old)) image.old m.old result image.new m.new }
{
    check_step(image.len(), m)?;
    let left = engine_allocator::blocks_left(m, memory_pages::count_frozen(m, 0)) + 1;
    let k = limit.min(left);
    // How many are due falls with each; none of these steps is refused.
    for due in (0..k).rev() {
        let _ = step(image, m);
    }
    Ok(Reply::Count(k))
}
