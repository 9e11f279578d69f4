// Sizes of rows: all together, whether they have room in a block, whether two pages are small enough for one, and where a page that is too
// large is divided.
#![tactic(auto)]

ghost use Rattle.std.specs.Prelude.{◌≡◌, ◌<◌, leb};
ghost use Rattle.basics.specs.Basics.{sum};
ghost use Rattle.block_forms.specs.Limits.{record_space, join_sum};
ghost use Rattle.model.specs.Rules.{held_size};
ghost use Rattle.memory_layout.specs.Elements.{rows_from, RowRange};
ghost use Rattle.engine_sizes.specs.Parts.{IsFirstPart};

use block_forms::PageLayout;

// The size of the rows from s up to e. The sum has 32 bits, so that twice as many rows are added at once as with 64.
pub fn rows_size(m: &[u8], s: usize, e: usize) -> usize
    requires { RowRange m.now s e }
    ensures { result ≡ sum held_size (rows_from m.now s e) }
{
    let mut all: u32 = 0;
    for i in s..e {
        all += memory_rows::size_at(m, i) as u32;
    }
    all as usize
}

// So many rows have room in a block whatever their sizes.
const SURELY_FIT: usize = PageLayout::RECORD_SPACE / PageLayout::MOST_RECORD;

// Whether the rows from s up to e have room in a block. Where they are few, they are not looked at.
pub fn fit_block(m: &[u8], s: usize, e: usize) -> bool
    requires { RowRange m.now s e }
    ensures { result ≡ leb (sum held_size (rows_from m.now s e)) record_space }
{
    e - s <= SURELY_FIT || PageLayout::fits(rows_size(m, s, e))
}

// Whether the rows from s up to e, those of two pages, are small enough for one page. Adding stops as soon as the sum is too large.
pub fn small_enough(m: &[u8], s: usize, e: usize) -> bool
    requires { RowRange m.now s e }
    ensures { result ≡ leb (sum held_size (rows_from m.now s e)) join_sum }
{
    let mut all: usize = 0;
    for i in s..e {
        let w = memory_rows::size_at(m, i);
        if !PageLayout::joins(all, w) {
            return false;
        }
        all += w;
    }
    true
}

// The first part of rows that are split: how many they are, and their size.
#[derive(Clone, Copy)]
pub struct FirstPart {
    pub count: usize,
    pub size: usize,
}

// Where the rows from s up to e are split: two ends walk towards each other until they meet at row i. `left` and `right` are the sums of what
// each side took and of the row that is next for it; the smaller one takes its row, on a tie the right one.
pub fn first_part(m: &[u8], s: usize, e: usize) -> FirstPart
    requires { RowRange m.now s e × (s < e) }
    ensures { IsFirstPart result (rows_from m.now s e) }
{
    let mut i = s;
    let mut j = e - 1;
    let mut left = memory_rows::size_at(m, i);
    let mut right = memory_rows::size_at(m, j);
    while i < j {
        if left < right {
            i += 1;
            left += memory_rows::size_at(m, i);
        } else {
            j -= 1;
            right += memory_rows::size_at(m, j);
        }
    }
    FirstPart {
        count: i + 1 - s,
        size: left,
    }
}
