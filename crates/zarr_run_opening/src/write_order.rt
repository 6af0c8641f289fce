//! The write order of an array.
ghost use Rattle.std.specs.Prelude.{◌≡◌};
ghost use Rattle.zarr_sharding_chains.specs.ArrayChains.{array_meaning};
ghost use Rattle.zarr_array_core.specs.Views.{document_of, path_of};
ghost use Rattle.zarr_run_opening.specs.Sessions.{FollowsOrder};

use std::alloc::Global;
use zarr_array_core::ArrayCore;
use zarr_codecs_chains::{ArrayToBytesCodec, BytesCodec, CodecChain};
use zarr_codecs_options::SubchunkWriteOrder;
use zarr_codecs_traits::BytesToBytesCodecTraits;
use zarr_sharding_chains::ArrayChain;
use zarr_sharding_inner::{ShardingCodecOptions, TakesShardingOptions};

/// Gives the shards of an array a write order, at every depth. It needs no memory.
pub(crate) fn set_write_order<B: BytesToBytesCodecTraits>(
    alloc: Global,
    array: &mut ArrayCore<ArrayChain<B>>,
    order: SubchunkWriteOrder,
)
    ensures path { path_of array.new ≡ path_of array.old }
    ensures document { document_of (array_meaning B.meaning) array.new
        ≡ document_of (array_meaning B.meaning) array.old }
    ensures exact { FollowsOrder B.meaning order array.new }
{
    let codecs = array.replace_codecs(stand_in(alloc));
    let codecs = codecs.with_codec_specific_options(ShardingCodecOptions {
        subchunk_write_order: order,
    });
    drop(array.replace_codecs(codecs));
}

/// A chain that takes no memory, which stands in for an array's while that is changed.
fn stand_in<B: BytesToBytesCodecTraits>(alloc: Global) -> ArrayChain<B> {
    let codec = ArrayToBytesCodec::Bytes(BytesCodec::little());
    ArrayChain::Plain(CodecChain::new(Vec::new(alloc), codec, Vec::new(alloc)))
}
