// Bit fields in a block of bytes, most significant bit first. A field is read and written by way of its window: the whole
// bytes that it is in, as one number.
#![tactic(auto)]

ghost use Rattle.std.specs.Prelude.{◌≡◌, ◌+◌, ◌*◌, ◌^◌, ◌<◌, ◌≤◌, length};
ghost use Rattle.block_bits.specs.Bits.{bits_of, bits_in, field, mixed, Middle, Inside};
ghost use Rattle.basics.specs.Lists.{over};
ghost use Rattle.block_bits.specs.Fields.{put_all, fields_of, AllInside};

// The number in the n bytes of block from byte p on.
fn load(block: &[u8], p: usize, n: usize) -> u64
    requires { (n ≤ 8) × (p + n ≤ length block.now) }
    ensures { (result ≡ field (bits_in block.now) (8 * p) (8 * n)) × (result < 2 ^ (8 * n)) }
{
    let mut acc: u64 = 0;
    for b in &block[p..p + n] {
        acc = acc * 256 + u64::from(*b);
    }
    acc
}

// Puts the n bytes of x over those of block from byte p on.
fn store(block: &mut [u8], p: usize, n: usize, x: u64)
    requires { (n ≤ 8) × (p + n ≤ length block.old) }
    ensures { bits_in block.new ≡ over (bits_in block.old) (8 * p) (bits_of (8 * n) x) }
{
    for i in 0..n {
        block[p + i] = ((x >> (8 * (n - 1 - i))) % 256) as u8;
    }
}

// old, of r + k + t bits, with the k low bits of x in the place of its own above its t low bits.
fn mix(old: u64, r: usize, k: usize, t: usize, x: u64) -> u64
    requires { Middle old r k t }
    ensures { result ≡ mixed k t old x }
{
    let high = ((old >> (k + t)) << k) + x % (1 << k);
    (high << t) + old % (1 << t)
}

// The number in the `width` bits of block from bit `at` on.
pub fn get_bits(block: &[u8], at: usize, width: usize) -> u64
    requires { Inside block.now at width }
    ensures { (result ≡ field (bits_in block.now) at width) × (result < 2 ^ width) }
{
    let off = at % 8;
    let n = (off + width + 7) / 8;
    let t = 8 * n - off - width;
    (load(block, at / 8, n) >> t) % (1 << width)
}

// Puts the `width` low bits of value over those of block from bit `at` on.
pub fn put_bits(block: &mut [u8], at: usize, width: usize, value: u64)
    requires { Inside block.old at width }
    ensures { bits_in block.new ≡ over (bits_in block.old) at (bits_of width value) }
{
    let off = at % 8;
    let n = (off + width + 7) / 8;
    let t = 8 * n - off - width;
    let old = load(block, at / 8, n);
    store(block, at / 8, n, mix(old, off, width, t, value));
}

// Puts the values one after another over the bits of block from bit `at` on, each at the width beside it.
pub fn put_fields(block: &mut [u8], mut at: usize, widths: &[u8], values: &[u64])
    requires all_inside { AllInside block.old at widths.now }
    requires values_len { length values.now ≡ length widths.now }
    ensures { bits_in block.new ≡ put_all (bits_in block.old) at (fields_of widths.now values.now) }
{
    for (width, value) in widths.iter().zip(values) {
        let width = usize::from(*width);
        put_bits(block, at, width, *value);
        at += width;
    }
}
