//! The index of a shard in memory.
ghost use Rattle.std.specs.Prelude.{◌≡◌, ◌%◌, length};

use crate::numbers::{count_pairs, move_down, move_up, pair_at, pair_bytes, put_pair};
use std::alloc::{AllocError, Global};
use zarr_codecs_arrays::ArrayBytes;
use zarr_codecs_traits::ByteRange;

/// The index of a shard: for each subchunk, row-major, the offset of its slice from the shard's
/// first byte and how long the slice is, or that it is absent (Zarr sharding codec, "Binary shard
/// format"). A contract sees it as the list of all pairs.
#[derive(Debug, Drop)]
pub struct ShardIndex {
    bytes: Vec<u8>,
    ghost whole: { length bytes.items % 16 ≡ 0 },
}

impl ShardIndex {
    ghost use Rattle.std.specs.Prelude.{◌≡◌, ◌∷◌, ◌++◌, ◌<◌, ◌≤◌, ◌*◌, ◌^◌, List, [], length, get_or, slice_set, replicate, Some, IfOk, OnOk, OnErr};
    ghost use Rattle.std.specs.List.{insert, remove};
    ghost use Rattle.zarr_codecs_arrays.specs.Views.{payload_of};
    ghost use Rattle.zarr_codecs_meaning.specs.Decoding.{pairs_of_cells};
    ghost use Rattle.zarr_codecs_meaning.specs.Encoding.{absent_pair, pair_cells};
    ghost use Rattle.zarr_codecs_meaning.specs.Payloads.{cells_in};
    ghost use Rattle.zarr_codecs_meaning.specs.Types.{Cell, uint64};
    ghost use Rattle.zarr_sharding_index.specs.Stored.{AreStoredAsIs};
    ghost use Rattle.zarr_sharding_index.specs.Views.{pair_of, pairs_of, pairs_of_bytes};

    /// An index without subchunks.
    #[tactic(auto, using(crate::proofs::PairBytes::no_pairs))]
    pub fn new(alloc: Global) -> ShardIndex
        ensures { pairs_of result ≡ [] }
    {
        ShardIndex {
            bytes: Vec::new(alloc),
        }
    }

    /// The index that numbers of 64 bits are, in pairs. `Err` only where these are no such numbers.
    pub fn from_numbers(numbers: ArrayBytes) -> Result<ShardIndex, AllocError>
        ensures { (cells : List Cell) → cells_in uint64 (payload_of numbers) ≡ Some cells
            → IfOk result (λ index. pairs_of index ≡ pairs_of_cells cells) }
    {
        match numbers {
            ArrayBytes::Fixed(bytes) => {
                if bytes.len() % 16 != 0 {
                    return Err(AllocError);
                }
                Ok(ShardIndex { bytes })
            }
            _ => Err(AllocError),
        }
    }

    /// The offsets and lengths as numbers of 64 bits.
    pub fn into_numbers(self) -> ArrayBytes
        ensures cells { cells_in uint64 (payload_of result)
            ≡ Some (pair_cells (pairs_of self)) }
        ensures room { 16 * length (pairs_of self) < 2 ^ 63 }
    {
        let _known = count_pairs(self.bytes.as_slice());
        ArrayBytes::Fixed(self.bytes)
    }

    /// The bytes of the offsets and lengths. A codec that encodes elements as they are stores these
    /// (`ArrayToBytesCodecTraits::encodes_as_is`).
    pub fn into_bytes(self) -> Vec<u8>
        ensures stored { AreStoredAsIs (pairs_of self) result.items }
        ensures pairs { pairs_of_bytes result.items ≡ pairs_of self }
        ensures long { length result.items ≡ 16 * length (pairs_of self) }
    {
        let _known = count_pairs(self.bytes.as_slice());
        self.bytes
    }

    /// The bytes of the offsets and lengths, as `into_bytes` gives them.
    pub fn as_bytes(&self) -> &[u8]
        ensures { AreStoredAsIs (pairs_of self.now) result.now }
    {
        let bytes = self.bytes.as_slice();
        let _known = count_pairs(bytes);
        bytes
    }

    /// The index that these bytes are, sixteen for each subchunk, as `into_bytes` gives them.
    pub fn from_bytes(bytes: Vec<u8>) -> ShardIndex
        requires { length bytes.items % 16 ≡ 0 }
        ensures { pairs_of result ≡ pairs_of_bytes bytes.items }
    {
        ShardIndex { bytes }
    }

    /// An equal index. `Err` only where an allocation failed.
    pub fn try_clone(&self, alloc: Global) -> Result<ShardIndex, AllocError>
        ensures { IfOk result (λ copy. pairs_of copy ≡ pairs_of self.now) }
    {
        Ok(ShardIndex {
            bytes: self.bytes.as_slice().to_vec(alloc)?,
        })
    }

    /// The index of so many subchunks, each of which is absent.
    pub fn all_absent(alloc: Global, count: usize) -> Result<ShardIndex, AllocError>
        ensures { IfOk result (λ index. pairs_of index ≡ replicate count absent_pair) }
    {
        let Some(total) = count.checked_mul(16) else {
            return Err(AllocError);
        };
        Ok(ShardIndex {
            bytes: vec![in alloc; 255u8; total]?,
        })
    }

    /// How many subchunks the index is of.
    pub fn len(&self) -> usize
        ensures { result ≡ length (pairs_of self.now) }
    {
        count_pairs(self.bytes.as_slice())
    }

    /// The pair of the subchunk with this number.
    pub fn get(&self, n: usize) -> ByteRange
        requires { n < length (pairs_of self.now) }
        ensures { pair_of result ≡ get_or (pairs_of self.now) n absent_pair }
    {
        pair_at(self.bytes.as_slice(), n)
    }

    /// Replaces the pair of the subchunk with this number.
    pub fn put(&mut self, n: usize, pair: ByteRange)
        requires { n < length (pairs_of self.old) }
        ensures { pairs_of self.new ≡ slice_set (pairs_of self.old) n (pair_of pair) }
    {
        put_pair(self.bytes.as_mut_slice(), n, pair);
    }

    /// Adds the pair of one subchunk more. An `Err` leaves the index as it was.
    pub fn push(&mut self, pair: ByteRange) -> Result<(), AllocError>
        ensures ok { OnOk result (pairs_of self.new ≡ pairs_of self.old ++ (pair_of pair ∷ [])) }
        ensures err { OnErr result (pairs_of self.new ≡ pairs_of self.old) }
    {
        let bytes = pair_bytes(pair.offset, pair.length);
        self.bytes.extend_from_slice(&bytes)
    }

    /// Inserts a pair at this number, at most `len`; those from it on move up by one. An `Err`
    /// leaves the index as it was.
    pub fn insert(&mut self, n: usize, pair: ByteRange) -> Result<(), AllocError>
        requires { n ≤ length (pairs_of self.old) }
        ensures ok { OnOk result
            (pairs_of self.new ≡ insert (pairs_of self.old) n (pair_of pair)) }
        ensures err { OnErr result (pairs_of self.new ≡ pairs_of self.old) }
    {
        self.push(pair)?;
        move_up(self.bytes.as_mut_slice(), n);
        self.put(n, pair);
        Ok(())
    }

    /// Removes the pair with this number, below `len`; those behind it move down by one.
    pub fn remove(&mut self, n: usize)
        requires { n < length (pairs_of self.old) }
        ensures { pairs_of self.new ≡ remove (pairs_of self.old) n }
    {
        let left = move_down(self.bytes.as_mut_slice(), n);
        self.bytes.truncate(left);
    }

    /// Gives back the memory that the index doesn't use.
    pub fn shrink_to_fit(&mut self)
        ensures { pairs_of self.new ≡ pairs_of self.old }
    {
        self.bytes.shrink_to_fit();
    }
}
