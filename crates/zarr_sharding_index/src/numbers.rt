//! Pairs of an index as numbers of eight bytes, little endian.
ghost use Rattle.std.specs.Prelude.{◌≡◌, ◌+◌, ◌-◌, ◌*◌, ◌^◌, ◌≤◌, ◌<◌, ◌%◌, ◌++◌, drop, get_or, length, slice_set, take, Some};
ghost use Rattle.std.specs.List.{remove};
ghost use Rattle.zarr_codecs_meaning.specs.Encoding.{absent_pair, pair_cells};
ghost use Rattle.zarr_codecs_meaning.specs.Numbers.{number, word};
ghost use Rattle.zarr_codecs_meaning.specs.Payloads.{cells_in, fixed};
ghost use Rattle.zarr_codecs_meaning.specs.Types.{uint64};
ghost use Rattle.zarr_sharding_index.specs.Stored.{AreStoredAsIs};
ghost use Rattle.zarr_sharding_index.specs.Views.{pair_of, pairs_of_bytes};

use zarr_codecs_traits::ByteRange;

/// How many pairs bytes hold, whose numbers they are where they hold nothing else.
pub(crate) fn count_pairs(bytes: &[u8]) -> usize
    ensures count { result ≡ length (pairs_of_bytes bytes.now) }
    ensures room { 16 * length (pairs_of_bytes bytes.now) < 2 ^ 63 }
    ensures within { 16 * length (pairs_of_bytes bytes.now) ≤ length bytes.now }
    ensures cells { length bytes.now % 16 ≡ 0 → cells_in uint64 (fixed bytes.now)
        ≡ Some (pair_cells (pairs_of_bytes bytes.now)) }
    ensures stored { length bytes.now % 16 ≡ 0 →
        AreStoredAsIs (pairs_of_bytes bytes.now) bytes.now }
{
    bytes.len() / 16
}

/// The pair with a number that bytes hold.
pub(crate) fn pair_at(bytes: &[u8], n: usize) -> ByteRange
    requires { n < length (pairs_of_bytes bytes.now) }
    ensures { pair_of result ≡ get_or (pairs_of_bytes bytes.now) n absent_pair }
{
    let start = pair_start(bytes, n);
    ByteRange {
        offset: number(&bytes[start..start + 8]),
        length: number(&bytes[start + 8..start + 16]),
    }
}

/// Replaces the pair with a number that bytes hold.
pub(crate) fn put_pair(bytes: &mut [u8], n: usize, pair: ByteRange)
    requires { n < length (pairs_of_bytes bytes.old) }
    ensures pairs { pairs_of_bytes bytes.new
        ≡ slice_set (pairs_of_bytes bytes.old) n (pair_of pair) }
    ensures long { length bytes.new ≡ length bytes.old }
{
    let start = pair_start(bytes, n);
    let new = pair_bytes(pair.offset, pair.length);
    bytes[start..start + 16].copy_from_slice(&new);
}

/// Moves the pairs from a number on up by one place, over the last one.
pub(crate) fn move_up(bytes: &mut [u8], n: usize)
    requires below { n < length (pairs_of_bytes bytes.old) }
    requires whole { length bytes.old % 16 ≡ 0 }
    ensures pairs { pairs_of_bytes bytes.new ≡ take (n + 1) (pairs_of_bytes bytes.old)
        ++ take (length (pairs_of_bytes bytes.old) - (n + 1)) (drop n (pairs_of_bytes bytes.old)) }
    ensures long { length bytes.new ≡ length bytes.old }
{
    let start = pair_start(bytes, n);
    let end = bytes.len() - 16;
    bytes.copy_within(start..end, start + 16);
}

/// Moves the pairs behind a number down by one place, over the one with it. Gives how many bytes
/// they have then.
pub(crate) fn move_down(bytes: &mut [u8], n: usize) -> usize
    requires below { n < length (pairs_of_bytes bytes.old) }
    requires whole { length bytes.old % 16 ≡ 0 }
    ensures pairs { pairs_of_bytes (take result bytes.new)
        ≡ remove (pairs_of_bytes bytes.old) n }
    ensures left { result + 16 ≡ length bytes.old }
    ensures long { length bytes.new ≡ length bytes.old }
{
    let start = pair_start(bytes, n);
    let size = bytes.len();
    bytes.copy_within(start + 16..size, start);
    size - 16
}

/// Where the pair with a number begins.
fn pair_start(bytes: &[u8], n: usize) -> usize
    requires { n < length (pairs_of_bytes bytes.now) }
    ensures start { result ≡ 16 * n }
    ensures within { result + 16 ≤ length bytes.now }
    ensures room { result + 16 < 2 ^ 64 }
{
    let _known = count_pairs(bytes);
    16 * n
}

/// The bytes of an offset, and then those of a length.
pub(crate) fn pair_bytes(offset: u64, size: u64) -> [u8; 16]
    ensures bytes { result ≡ word offset ++ word size }
    ensures offset { offset < 2 ^ 64 }
    ensures size { size < 2 ^ 64 }
{
    let [a, b, c, d, e, f, g, h] = offset.to_le_bytes();
    let [i, j, k, l, m, n, o, p] = size.to_le_bytes();
    [a, b, c, d, e, f, g, h, i, j, k, l, m, n, o, p]
}

/// The number that eight bytes write, the lowest first.
fn number(bytes: &[u8]) -> u64
    requires { length bytes.now ≡ 8 }
    ensures { result ≡ number 256 bytes.now }
{
    match bytes {
        [a, b, c, d, e, f, g, h] => u64::from_le_bytes([*a, *b, *c, *d, *e, *f, *g, *h]),
        _ => unreachable!(),
    }
}
