// What a header may count and name, and what its directories may name.
#![tactic(auto)]

ghost use Rattle.std.specs.Prelude.{◌≡◌, not, ◌≤◌, length};
ghost use Rattle.basics.specs.Basics.{all, is_in};
ghost use Rattle.image_header.specs.Names.{capacity_limit, directories_for, block_ok, is_zero, counts_ok, header_ok, entries_ok};

use block_forms::Header;

// The largest capacity.
const CAPACITY_LIMIT: u32 = image_rows::ROWS as u32;

// A block that may be named in an image of n blocks.
fn block_ok(n: u32, b: u32) -> bool
    ensures { result ≡ block_ok n b }
{
    0 < b && b < n
}

// Each may be named in an image of n blocks.
fn in_blocks(s: &[u32], n: u32) -> bool
    ensures { result ≡ all (block_ok n) s.now }
{
    s.iter().all(|b| block_ok(n, *b))
}

// Each is 0.
fn all_zero(s: &[u32]) -> bool
    ensures { result ≡ all is_zero s.now }
{
    s.iter().all(|b| *b == 0)
}

// None of s stands in t.
fn apart(s: &[u32], t: &[u32]) -> bool
    ensures { result ≡ all (λ e. not (is_in e t.now)) s.now }
{
    s.iter().all(|b| !image_rows::is_in(t, 0, *b))
}

// The directories' entries, in an image of n blocks.
pub fn entries_ok(entries: &[u32], directories: &[u32], n: u32) -> bool
    requires { length entries.now ≤ capacity_limit }
    ensures { result ≡ entries_ok n directories.now entries.now }
{
    in_blocks(entries, n) && apart(entries, directories) && image_rows::distinct(entries)
}

// How many directory blocks p pages take.
pub fn directories_for(p: usize) -> usize
    requires { p ≤ capacity_limit }
    ensures { (result ≡ directories_for p) × (result ≤ 4) }
{
    (p + (block_forms::ENTRIES_PER_BLOCK - 1)) / block_forms::ENTRIES_PER_BLOCK
}

// The counts in a header of an image of n blocks.
fn counts_ok(h: Header, n: u32) -> bool
    ensures { result ≡ counts_ok n h }
{
    h.blocks == n
        && 1 <= h.capacity
        && h.capacity <= CAPACITY_LIMIT
        && h.pages <= h.capacity
        && h.directories as usize == directories_for(h.pages as usize)
}

// A header of an image of n blocks.
pub fn head_ok(h: Header, n: u32) -> bool
    ensures { result ≡ header_ok n h }
{
    if !counts_ok(h, n) {
        return false;
    }
    let at = h.directories as usize;
    let ds = [h.d0, h.d1, h.d2, h.d3];
    let (used, unused) = ds.split_at(at);
    in_blocks(used, n) && image_rows::distinct(used) && all_zero(unused)
}
