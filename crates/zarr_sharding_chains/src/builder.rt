//! A builder of shards.
use crate::default_codec::default_codec;
use std::alloc::{AllocError, Global};
use std::sync::Arc;
use zarr_codecs_array_to_array::ArrayToArrayCodec;
use zarr_codecs_bytes::BytesCodec;
use zarr_codecs_chains::{ArrayToBytesCodec, CodecChain};
use zarr_codecs_traits::BytesToBytesCodecTraits;
use zarr_codecs_types::DataType;
use zarr_grids_boxes::ChunkShape;
use zarr_sharding_codec::ShardingCodec;
use zarr_sharding_index::ShardingIndexLocation;

/// A builder of the codec `sharding_indexed` whose subchunks and index have chains without shards.
/// What isn't said has defaults: for subchunks the codec between arrays and bytes of the data type
/// (this project's profile), for the index `bytes` with the lowest byte first, which stands at the
/// end (Zarr sharding codec, "Configuration parameters").
#[derive(Debug, Drop)]
pub struct ShardingCodecBuilder<B: BytesToBytesCodecTraits> {
    subchunk_shape: ChunkShape,
    array_to_array: Vec<ArrayToArrayCodec>,
    array_to_bytes: ArrayToBytesCodec<B>,
    bytes_to_bytes: Vec<B>,
    index_array_to_array: Vec<ArrayToArrayCodec>,
    index_array_to_bytes: ArrayToBytesCodec<B>,
    index_bytes_to_bytes: Vec<B>,
    index_location: ShardingIndexLocation,
}

impl<B: BytesToBytesCodecTraits> ShardingCodecBuilder<B> {
    ghost use Rattle.std.specs.Prelude.{◌≡◌, [], IfOk};
    ghost use Rattle.std.specs.Arc.{arc_value};
    ghost use Rattle.zarr_codecs_types.specs.Views.{type_of};
    ghost use Rattle.zarr_codecs_options.specs.declared.subchunk_write_order.SubchunkWriteOrder.TheVariants as order;
    ghost use Rattle.zarr_codecs_chains.specs.Configured.{little_bytes};
    ghost use Rattle.zarr_codecs_chains.specs.Views.{codec_chain, meaning_of};
    ghost use Rattle.zarr_sharding_codec.specs.Views.{order_of, shard_chain};
    ghost use Rattle.zarr_sharding_chains.specs.Builders.{HasCodecs, built_chain, default_chain, parts_of};

    /// A builder of shards of subchunks of this shape, for arrays of a data type. `Err` only where
    /// an allocation failed.
    pub fn new(
        alloc: Global,
        subchunk_shape: ChunkShape,
        data_type: &DataType,
    ) -> Result<ShardingCodecBuilder<B>, AllocError>
        ensures subchunk { IfOk result (λ builder. (parts_of builder).subchunk ≡ subchunk_shape) }
        ensures arrays { IfOk result (λ builder. (parts_of builder).arrays ≡ []) }
        ensures codec { IfOk result (λ builder. codec_chain B.meaning (parts_of builder).codec
            ≡ default_chain (type_of data_type.now)) }
        ensures bytes { IfOk result (λ builder. (parts_of builder).bytes ≡ []) }
        ensures index_arrays { IfOk result (λ builder. (parts_of builder).index_arrays ≡ []) }
        ensures index { IfOk result
            (λ builder. codec_chain B.meaning (parts_of builder).index_codec ≡ little_bytes) }
        ensures index_bytes { IfOk result (λ builder. (parts_of builder).index_bytes ≡ []) }
        ensures location { IfOk result
            (λ builder. (parts_of builder).location ≡ ShardingIndexLocation.End) }
    {
        let array_to_bytes = default_codec(alloc, data_type)?;
        Ok(ShardingCodecBuilder {
            subchunk_shape,
            array_to_array: Vec::new(alloc),
            array_to_bytes,
            bytes_to_bytes: Vec::new(alloc),
            index_array_to_array: Vec::new(alloc),
            index_array_to_bytes: ArrayToBytesCodec::Bytes(BytesCodec::little()),
            index_bytes_to_bytes: Vec::new(alloc),
            index_location: ShardingIndexLocation::End,
        })
    }

    /// With this codec between the index and its bytes.
    pub fn index_array_to_bytes_codec(self, codec: ArrayToBytesCodec<B>) -> Self
        ensures { parts_of result ≡ record (parts_of self) { index_codec = codec } }
    {
        let mut builder = self;
        builder.index_array_to_bytes = codec;
        builder
    }

    /// With these bytes to bytes codecs of the index, in the order in which they encode.
    pub fn index_bytes_to_bytes_codecs(self, codecs: Vec<B>) -> Self
        ensures { parts_of result ≡ record (parts_of self) { index_bytes = codecs.items } }
    {
        let mut builder = self;
        builder.index_bytes_to_bytes = codecs;
        builder
    }

    /// With these array to array codecs of subchunks, in the order in which they encode.
    pub fn array_to_array_codecs(self, codecs: Vec<ArrayToArrayCodec>) -> Self
        ensures { parts_of result ≡ record (parts_of self) { arrays = codecs.items } }
    {
        let mut builder = self;
        builder.array_to_array = codecs;
        builder
    }

    /// With this codec between subchunks and their bytes.
    pub fn array_to_bytes_codec(self, codec: ArrayToBytesCodec<B>) -> Self
        ensures { parts_of result ≡ record (parts_of self) { codec = codec } }
    {
        let mut builder = self;
        builder.array_to_bytes = codec;
        builder
    }

    /// With these bytes to bytes codecs of subchunks, in the order in which they encode.
    pub fn bytes_to_bytes_codecs(self, codecs: Vec<B>) -> Self
        ensures { parts_of result ≡ record (parts_of self) { bytes = codecs.items } }
    {
        let mut builder = self;
        builder.bytes_to_bytes = codecs;
        builder
    }

    /// With the index there.
    pub fn index_location(self, index_location: ShardingIndexLocation) -> Self
        ensures { parts_of result ≡ record (parts_of self) { location = index_location } }
    {
        let mut builder = self;
        builder.index_location = index_location;
        builder
    }

    /// The codec, which writes subchunks in any order, without gaps.
    pub fn build(self) -> ShardingCodec<CodecChain<B>, CodecChain<B>>
        ensures meaning { shard_chain (meaning_of B.meaning) (meaning_of B.meaning) result
            ≡ built_chain B.meaning (parts_of self) }
        ensures codecs { HasCodecs (parts_of self) result }
        ensures order { order_of result ≡ order.Unordered }
    {
        let ShardingCodecBuilder {
            subchunk_shape,
            array_to_array,
            array_to_bytes,
            bytes_to_bytes,
            index_array_to_array,
            index_array_to_bytes,
            index_bytes_to_bytes,
            index_location,
        } = self;
        let inner = CodecChain::new(array_to_array, array_to_bytes, bytes_to_bytes);
        let index = CodecChain::new(
            index_array_to_array,
            index_array_to_bytes,
            index_bytes_to_bytes,
        );
        ShardingCodec::new(subchunk_shape, inner, index, index_location)
    }

    /// The codec as `build` makes it, shared. `Err` only where an allocation failed.
    pub fn build_arc(
        self,
        alloc: Global,
    ) -> Result<Arc<ShardingCodec<CodecChain<B>, CodecChain<B>>>, AllocError>
        ensures meaning { IfOk result (λ codec.
            shard_chain (meaning_of B.meaning) (meaning_of B.meaning) (arc_value codec)
            ≡ built_chain B.meaning (parts_of self)) }
        ensures codecs { IfOk result (λ codec. HasCodecs (parts_of self) (arc_value codec)) }
        ensures order { IfOk result (λ codec. order_of (arc_value codec) ≡ order.Unordered) }
    {
        match Arc::new(alloc, self.build()) {
            Ok(codec) => Ok(codec),
            Err(_failed) => Err(AllocError),
        }
    }
}
