// What any bytes are as an image: recovery's tests but that of the memory.
#![tactic(auto)]

ghost use Rattle.std.specs.Prelude.{◌≡◌, true, ◌+◌, ◌*◌, ◌≤◌, length};
ghost use Rattle.basics.specs.Basics.{all};
ghost use Rattle.basics.specs.Lists.{over};
ghost use Rattle.block_forms.specs.Limits.{block_size};
ghost use Rattle.block_forms.specs.Block.{as_directory};
ghost use Rattle.block_forms.specs.Decode.{decode_block};
ghost use Rattle.image.specs.View.{view, block_at, block_count};
ghost use Rattle.image.specs.Stages.{refuses, holds, capacity_limit, block_ok, entries_due, read_directories, page_test};
ghost use Rattle.image.specs.Whole.{header_stage, pages_stage, read_image};
ghost use Rattle.image.specs.Answers.{Filled, Testable, accepts, stage_of, pages_answer, image_answer};

use block_forms::{BLOCK_LIMIT, BLOCK_SIZE, ENTRIES_PER_BLOCK, Header};
use block_reader::Block;
use image_rows::ROWS;
use refusals::Refusal;

// What an image holds: its header, and the blocks of the pages in order, as many as it says; the other entries are 0, since there is no heap.
#[derive(Drop)]
pub struct Image {
    pub header: Header,
    pub entries: [u32; ROWS],
}

// Block e of an image, copied out whole.
pub fn block_at(image: &[u8], e: usize) -> [u8; BLOCK_SIZE]
    requires { block_size * e + block_size ≤ length image.now }
    ensures { result ≡ block_at image.now e }
{
    let at = BLOCK_SIZE * e;
    let mut block = [0u8; BLOCK_SIZE];
    block.copy_from_slice(&image[at..at + BLOCK_SIZE]);
    block
}

// The tests of refusal 24, with columns for the tuples of all pages.
fn test_rows(
    image: &[u8],
    entries: &[u32],
    h: Header,
    places: &mut [u64],
    numbers: &mut [u32],
    owners: &mut [u64],
    marks: &mut [u8],
) -> bool
    requires { Testable image.now entries.now h.capacity places.old numbers.old owners.old marks.old }
    ensures { result ≡ accepts (page_test (view image.now) h entries.now) }
{
    let mut to: usize = 0;
    for &e in entries {
        let block = block_at(image, e as usize);
        let Some(page) = image_page::good_page(&block, h.level, h.capacity as usize - to) else {
            return false;
        };
        image_page::add_rows(&block, page, places, numbers, owners, marks, to);
        to += page.count as usize;
    }
    image_rows::columns_ok(places, numbers, owners, marks, to, h.next)
}

// The tests of refusal 24.
fn pages_ok(image: &[u8], entries: &[u32], h: Header) -> bool
    requires entries_value { all (block_ok (block_count image.now)) entries.now ≡ true }
    requires capacity_le_capacity_limit { h.capacity ≤ capacity_limit }
    ensures { result ≡ accepts (page_test (view image.now) h entries.now) }
{
    let mut places = [0u64; ROWS];
    let mut numbers = [0u32; ROWS];
    let mut owners = [0u64; ROWS];
    let mut marks = [0u8; ROWS];
    test_rows(
        image,
        entries,
        h,
        &mut places,
        &mut numbers,
        &mut owners,
        &mut marks,
    )
}

// The entries of a directory block over those of out from a place on.
fn put_entries(out: &mut [u32], at: usize, entries: &[u16])
    requires { at + length entries.now ≤ length out.old }
    ensures { out.new ≡ over out.old at entries.now }
{
    for (i, &e) in entries.iter().enumerate() {
        out[at + i] = u32::from(e);
    }
}

// The entries of a directory block of this level go into out from a place on, if they are as many as are due; how many they are.
fn add_entries(
    block: &[u8; BLOCK_SIZE],
    level: u32,
    left: usize,
    out: &mut [u32],
    at: usize,
) -> Option<usize>
    requires { at + left ≤ length out.old }
    ensures { Filled (entries_due level left (as_directory (decode_block block.now))) at out.old result out.new }
{
    let Block::Directory { count, level: k } = block_reader::read_block(block)? else {
        return None;
    };
    if k != level || count != left.min(ENTRIES_PER_BLOCK) {
        return None;
    }
    let entries = block_reader::read_entries(block, count);
    put_entries(out, at, &entries[..count]);
    Some(count)
}

// The entries of the directory blocks go into out, if there are as many as pages; how many they are.
fn gather(
    image: &[u8],
    level: u32,
    pages: usize,
    directories: &[u32],
    out: &mut [u32],
) -> Option<usize>
    requires directories_value { all (block_ok (block_count image.now)) directories.now ≡ true }
    requires pages_in_bounds { pages ≤ length out.old }
    ensures { Filled (read_directories (view image.now) level pages directories.now) 0 out.old result out.new }
{
    let mut at: usize = 0;
    for &d in directories {
        let block = block_at(image, d as usize);
        at += add_entries(&block, level, pages - at, out, at)?;
    }
    Some(at)
}

// Tests 1 and 22.
pub fn test_header(image: &[u8]) -> Result<Header, Refusal>
    ensures { stage_of result ≡ header_stage image.now }
{
    let len = image.len();
    let n = len / BLOCK_SIZE;
    if len % BLOCK_SIZE != 0 || n < 2 || BLOCK_LIMIT < n {
        return Err(Refusal::ImageLength);
    }
    let block = block_at(image, 0);
    let Block::Header(h) = block_reader::read_block(&block).ok_or(Refusal::BadHeader)? else {
        return Err(Refusal::BadHeader);
    };
    if !image_header::head_ok(h, n as u32) {
        return Err(Refusal::BadHeader);
    }
    Ok(h)
}

// Tests 23 and 24, for a header that passed: the blocks of the pages in order; the other entries are 0.
pub fn test_pages(image: &[u8], h: Header) -> Result<[u32; ROWS], Refusal>
    requires { header_stage image.now ≡ holds h }
    ensures { stage_of result ≡ pages_answer (pages_stage (view image.now) h) }
{
    let pages = h.pages as usize;
    let used = h.directories as usize;
    let directories = [h.d0, h.d1, h.d2, h.d3];
    let mut entries = [0u32; ROWS];
    gather(image, h.level, pages, &directories[..used], &mut entries).ok_or(Refusal::BadDirectory)?;
    if !image_header::entries_ok(&entries[..pages], &directories[..used], h.blocks) {
        return Err(Refusal::BadDirectory);
    }
    if !pages_ok(image, &entries[..pages], h) {
        return Err(Refusal::BadPage);
    }
    Ok(entries)
}

// All of recovery's tests but that of the memory.
pub fn test_image(image: &[u8]) -> Result<Image, Refusal>
    ensures { stage_of result ≡ image_answer (read_image image.now) }
{
    let header = test_header(image)?;
    let entries = test_pages(image, header)?;
    Ok(Image { header, entries })
}
