//! Options of shards that no document says.
ghost use Rattle.std.specs.Prelude.{◌≡◌, Bool, List, map, true};
ghost use Rattle.zarr_codecs_options.specs.declared.subchunk_write_order.SubchunkWriteOrder.{SubchunkWriteOrder};
ghost use Rattle.zarr_sharding_inner.specs.Orders.{is_row_major};

use zarr_codecs_options::SubchunkWriteOrder;
use zarr_codecs_traits::ArrayToBytesCodecTraits;

/// Options of the codec `sharding_indexed`, which are no part of its metadata: the order in which
/// subchunks are written, `Unordered` by default. They apply to shards at every depth.
#[derive(Clone, Copy, Debug, PartialEq, Eq)]
pub struct ShardingCodecOptions {
    /// The order of the subchunks in a shard's value.
    pub subchunk_write_order: SubchunkWriteOrder,
}

impl Default for ShardingCodecOptions {
    ghost use Rattle.std.specs.Prelude.{◌≡◌};
    ghost use Rattle.zarr_codecs_options.specs.declared.subchunk_write_order.SubchunkWriteOrder.TheVariants as order;

    ghost is_default = { λ options. options ≡ record { subchunk_write_order = order.Unordered } };

    fn default() -> Self {
        ShardingCodecOptions {
            subchunk_write_order: SubchunkWriteOrder::Unordered,
        }
    }
}

impl ShardingCodecOptions {
    ghost use Rattle.std.specs.Prelude.{◌≡◌};

    /// The order of the subchunks in a shard's value.
    pub fn subchunk_write_order(&self) -> SubchunkWriteOrder
        ensures { result ≡ self.now.subchunk_write_order }
    {
        self.subchunk_write_order
    }

    /// Says the order of the subchunks, and gives the options back for more.
    pub fn set_subchunk_write_order(
        &mut self,
        subchunk_write_order: SubchunkWriteOrder,
    ) -> &mut Self
        ensures same { result.ghost_name ≡ self.entry.ghost_name }
        ensures value { result.now
            ≡ record self.old { subchunk_write_order = subchunk_write_order } }
    {
        *self = self.with_subchunk_write_order(subchunk_write_order);
        self
    }

    /// The options with this order of the subchunks.
    pub fn with_subchunk_write_order(self, subchunk_write_order: SubchunkWriteOrder) -> Self
        ensures { result ≡ record self { subchunk_write_order = subchunk_write_order } }
    {
        let mut options = self;
        options.subchunk_write_order = subchunk_write_order;
        options
    }
}

/// A codec between arrays and bytes that takes options for the shards in it, at every depth.
pub trait TakesShardingOptions: ArrayToBytesCodecTraits {
    /// The orders in which the subchunks of its shards are written, from the outermost inwards.
    ghost orders: { Self → List SubchunkWriteOrder };

    /// Whether what it makes of elements depends on these alone where all subchunks are written
    /// row-major.
    ghost can_be_exact: { Self → Bool };

    /// Whether two have the same codecs, each under the name that it keeps: of their shards the
    /// orders of writing alone may differ.
    ghost same_codecs: { Self → Self → Type 0 };

    /// The codec with these options for each of its shards.
    fn with_codec_specific_options(self, options: ShardingCodecOptions) -> Self
        ensures meaning { Self.meaning result ≡ Self.meaning self }
        ensures codecs { same_codecs self result }
        ensures orders { orders result ≡ map (λ _. options.subchunk_write_order) (orders self) }
        ensures exact { is_row_major options.subchunk_write_order ≡ true →
            Self.is_function result ≡ can_be_exact self };
}
