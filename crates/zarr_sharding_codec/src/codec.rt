//! The codec `sharding_indexed`.

use zarr_codecs_options::SubchunkWriteOrder;
use zarr_codecs_traits::ArrayToBytesCodecTraits;
use zarr_grids_boxes::ChunkShape;
use zarr_sharding_index::ShardingIndexLocation;

/// The codec `sharding_indexed` (Zarr sharding codec): an array is cut into subchunks, each of
/// which is encoded by the codecs `I`, and an index that the codecs `X` encode tells where each one
/// stands. A subchunk of the fill value alone isn't stored; those at the ends are cut short. It
/// suits arrays of as many dimensions, of types that aren't optional, where its codecs suit each
/// subchunk and the index, and the index always has the same number of bytes, fewer than 2^63. A
/// part of an array is read from the index and from the slices of the subchunks that it meets. The
/// codecs of the index have to be an `IndexCodec`.
#[derive(Debug, Drop)]
pub struct ShardingCodec<I: ArrayToBytesCodecTraits, X: ArrayToBytesCodecTraits> {
    pub(crate) subchunk_shape: ChunkShape,
    pub(crate) inner_codecs: I,
    pub(crate) index_codecs: X,
    pub(crate) index_location: ShardingIndexLocation,
    pub(crate) subchunk_write_order: SubchunkWriteOrder,
}

impl<I: ArrayToBytesCodecTraits, X: ArrayToBytesCodecTraits> ShardingCodec<I, X> {
    ghost use Rattle.std.specs.Prelude.{◌≡◌};
    ghost use Rattle.zarr_codecs_meaning.specs.Chains.{sharded};
    ghost use Rattle.zarr_codecs_options.specs.declared.subchunk_write_order.SubchunkWriteOrder.TheVariants as order;
    ghost use Rattle.zarr_sharding_index.specs.Views.{location_of};
    ghost use Rattle.zarr_sharding_codec.specs.Views.{index_of, inner_of, order_of, shard_chain, subchunk_of};

    /// Shards of subchunks of this shape. The subchunks are written in any order, without gaps.
    pub fn new(
        subchunk_shape: ChunkShape,
        inner_codecs: I,
        index_codecs: X,
        index_location: ShardingIndexLocation,
    ) -> ShardingCodec<I, X>
        ensures meaning { shard_chain I.meaning X.meaning result ≡ sharded subchunk_shape
            (I.meaning inner_codecs) (X.meaning index_codecs) (location_of index_location) }
        ensures inner { inner_of result ≡ inner_codecs }
        ensures index { index_of result ≡ index_codecs }
        ensures order { order_of result ≡ order.Unordered }
    {
        ShardingCodec {
            subchunk_shape,
            inner_codecs,
            index_codecs,
            index_location,
            subchunk_write_order: SubchunkWriteOrder::Unordered,
        }
    }

    /// The shape of the subchunks.
    pub fn subchunk_shape(&self) -> &ChunkShape
        ensures { result.now ≡ subchunk_of self.now }
    {
        &self.subchunk_shape
    }

    /// The codec with another order in which the subchunks are written.
    pub fn with_subchunk_write_order(self, order: SubchunkWriteOrder) -> ShardingCodec<I, X>
        ensures meaning { shard_chain I.meaning X.meaning result
            ≡ shard_chain I.meaning X.meaning self }
        ensures inner { inner_of result ≡ inner_of self }
        ensures index { index_of result ≡ index_of self }
        ensures order { order_of result ≡ order }
    {
        let mut codec = self;
        codec.subchunk_write_order = order;
        codec
    }
}
