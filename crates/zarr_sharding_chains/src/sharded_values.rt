//! What reading and writing values whole, codecs around it, and options of shards need of a chain
//! of codecs around a shard.
use crate::sharded_chain::ShardedChain;
use std::alloc::{AllocError, Global};
use zarr_codecs_around::ThenBytes;
use zarr_codecs_around::array_metadata::array_copies;
use zarr_codecs_arrays::{ArrayBytes, CodecError, Elements};
use zarr_codecs_regions::WholeValues;
use zarr_codecs_traits::{ArrayToBytesCodecTraits, BytesToBytesCodecTraits};
use zarr_codecs_types::DataType;
use zarr_sharding_inner::{InnerCodec, ShardingCodecOptions, TakesShardingOptions};

impl<B: BytesToBytesCodecTraits, I: InnerCodec> WholeValues for ShardedChain<B, I> {
    ghost use Rattle.zarr_sharding_chains.specs.Views.{sharded_function, sharded_lawful, sharded_meaning};

    ghost meaning = { sharded_meaning I.meaning B.meaning };

    ghost is_function = { sharded_function I.is_function };

    fn fits_array(
        &self,
        alloc: Global,
        data_type: &DataType,
        shape: &[u64],
    ) -> Result<bool, AllocError> {
        self.fits(alloc, data_type, shape)
    }

    fn encode_array(
        &self,
        alloc: Global,
        bytes: ArrayBytes,
        elements: &Elements,
        shape: &[u64],
    ) -> Result<Vec<u8>, CodecError> {
        self.encode_in_order(alloc, bytes, elements, shape)
    }

    fn decode_value(
        &self,
        alloc: Global,
        value: Vec<u8>,
        elements: &Elements,
        shape: &[u64],
    ) -> Result<ArrayBytes, CodecError> {
        self.decode_in_order(alloc, value, elements, shape)
    }

    fn keeps_fill(&self) -> bool {
        false
    }

    ghost lawful = { sharded_lawful I.meaning I.lawful B.meaning B.lawful };
}

impl<B: BytesToBytesCodecTraits, I: InnerCodec> InnerCodec for ShardedChain<B, I> {
    fn makes_no_shard(&self) -> bool {
        false
    }

    fn row_major(&self, alloc: Global) -> Result<ShardedChain<B, I>, AllocError> {
        let array_to_array = array_copies(alloc, self.array_to_array.as_slice())?;
        let others = self.others.row_major(alloc)?;
        Ok(ShardedChain {
            array_to_array,
            others,
        })
    }
}

impl<B: BytesToBytesCodecTraits, I: InnerCodec + TakesShardingOptions> TakesShardingOptions
    for ShardedChain<B, I> {
    ghost use Rattle.std.specs.Prelude.{◌∷◌};
    ghost use Rattle.zarr_sharding_codec.specs.Views.{inner_of, order_of};
    ghost use Rattle.zarr_sharding_chains.specs.Views.{HaveSameCodecs, shard_of};

    ghost orders = { λ chain. order_of (shard_of chain) ∷ I.orders (inner_of (shard_of chain)) };

    ghost can_be_exact = { λ chain. I.can_be_exact (inner_of (shard_of chain)) };

    ghost same_codecs = { λ chain other. HaveSameCodecs I.same_codecs chain other };

    fn with_codec_specific_options(self, options: ShardingCodecOptions) -> Self {
        let ShardedChain {
            array_to_array,
            others,
        } = self;
        let (shard, bytes_to_bytes) = others.into_parts();
        let shard = shard.with_codec_specific_options(options);
        ShardedChain {
            array_to_array,
            others: ThenBytes::new(shard, bytes_to_bytes),
        }
    }
}
