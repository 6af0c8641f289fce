//! Types, codecs and shards that are made by their constructors and anew of their configurations,
//! as no call of calls/ makes them. What codecs make of values, and of metadata, is shown there.

use std::alloc::Global;
use zarr_codecs::{
    ArrayToArrayCodecTraits, ArrayToBytesCodec, ArrayToBytesCodecTraits, BytesCodec, CodecChain,
    DataType, Elements, FillValue, OptionalCodec, OptionalCodecConfiguration, PackBitsCodec,
    ReshapeCodec, ReshapeDim, ReshapeShape, TransposeCodec, TransposeOrder, VlenCodec,
    VlenCodecConfiguration, data_type,
};
use zarr_codecs_reverse::ReverseCodec;
use zarr_grids::ChunkShape;
use zarr_scarcity_scripts::{Stop, expect};
use zarr_sharding::{ShardingCodec, ShardingCodecBuilder, ShardingCodecConfiguration};

type Chain = CodecChain<ReverseCodec>;

/// A fill value of optional numbers, and a type of one number.
fn run_types(alloc: Global) -> Result<(), Stop> {
    let number = FillValue::from_i16(alloc, -5)?;
    let fill = FillValue::present(alloc, number)?;
    let optional = data_type::optional(alloc, data_type::int16())?;
    expect(Elements::new(optional, fill).is_some())?;
    expect(data_type::int16().components(alloc)?.len() == 1)
}

/// Whether a codec between arrays makes three rows of two of two rows of three.
fn expect_turned<C: ArrayToArrayCodecTraits>(alloc: Global, codec: &C) -> Result<(), Stop> {
    let shape = codec.encoded_shape(alloc, &[2, 3])?;
    expect(matches!(shape.as_slice(), [3, 2]))
}

/// The order of two dimensions that changes their places.
fn order(alloc: Global) -> Result<TransposeOrder, Stop> {
    match TransposeOrder::new(alloc, vec![in alloc; 1, 0]?)? {
        Some(order) => Ok(order),
        None => Err(Stop::Other),
    }
}

fn run_transpose(alloc: Global) -> Result<(), Stop> {
    let configuration = TransposeCodec::new(order(alloc)?).configuration(alloc)?;
    let codec = TransposeCodec::new_with_configuration(alloc, &configuration)?;
    expect_turned(alloc, &codec)
}

/// The second dimension of the array, and what is left.
fn shape(alloc: Global) -> Result<ReshapeShape, Stop> {
    let named = ReshapeDim::InputDims(vec![in alloc; 1]?);
    match ReshapeShape::new(vec![in alloc; named, ReshapeDim::Auto]?) {
        Some(shape) => Ok(shape),
        None => Err(Stop::Other),
    }
}

fn run_reshape(alloc: Global) -> Result<(), Stop> {
    let configuration = ReshapeCodec::new(shape(alloc)?).configuration(alloc)?;
    let codec = ReshapeCodec::new_with_configuration(alloc, &configuration)?;
    expect_turned(alloc, &codec)
}

/// What `vlen` on default codecs is configured by.
fn vlen_configuration(alloc: Global) -> Result<VlenCodecConfiguration, Stop> {
    let codec = VlenCodec::<ReverseCodec>::new_default(alloc);
    Ok(codec.configuration(alloc)?)
}

fn run_vlen(alloc: Global) -> Result<(), Stop> {
    let configuration = vlen_configuration(alloc)?;
    let codec = VlenCodec::<ReverseCodec>::new_with_configuration(alloc, &configuration)?;
    expect_fit(alloc, codec.index_codecs(), &DataType::UInt64)
}

/// The chain of a codec alone.
fn alone(alloc: Global, codec: ArrayToBytesCodec<ReverseCodec>) -> Chain {
    CodecChain::new(Vec::new(alloc), codec, Vec::new(alloc))
}

/// What `optional` of `packbits` and `bytes` is configured by.
fn optional_configuration(alloc: Global) -> Result<OptionalCodecConfiguration, Stop> {
    let mask = alone(alloc, ArrayToBytesCodec::PackBits(PackBitsCodec::default()));
    let data = alone(alloc, ArrayToBytesCodec::Bytes(BytesCodec::default()));
    let codec = OptionalCodec::new(mask, data)?;
    Ok(codec.configuration(alloc)?)
}

fn run_optional(alloc: Global) -> Result<(), Stop> {
    let configuration = optional_configuration(alloc)?;
    let codec = OptionalCodec::<ReverseCodec>::new_with_configuration(alloc, &configuration)?;
    expect_fit(alloc, codec.mask_codecs(), &DataType::Bool)
}

/// A codec between arrays and bytes fits two elements of a type.
fn expect_fit<C: ArrayToBytesCodecTraits>(
    alloc: Global,
    codec: &C,
    data_type: &DataType,
) -> Result<(), Stop> {
    expect(codec.fits(alloc, data_type, &[2])?)
}

/// A builder of shards of subchunks of two cells.
fn builder(alloc: Global) -> Result<ShardingCodecBuilder<ReverseCodec>, Stop> {
    let shape = ChunkShape::new(vec![in alloc; 2]?)?;
    Ok(ShardingCodecBuilder::new(alloc, shape, &DataType::UInt8)?)
}

/// What a shard that is built is configured by.
fn shard_configuration(alloc: Global) -> Result<ShardingCodecConfiguration, Stop> {
    let codec = builder(alloc)?.build();
    Ok(codec.configuration(alloc)?)
}

/// A shard made of that and copied, and one that is built and shared.
fn run_shards(alloc: Global) -> Result<(), Stop> {
    let configuration = shard_configuration(alloc)?;
    let codec: ShardingCodec<Chain, Chain> = ShardingCodec::new_with_configuration(
        alloc,
        &configuration,
    )?;
    expect_fit(alloc, &codec.try_clone(alloc)?, &DataType::UInt8)?;
    let shared = builder(alloc)?.build_arc(alloc)?;
    expect_fit(alloc, &*shared, &DataType::UInt8)
}

/// Each of these.
pub(crate) fn run(alloc: Global) -> Result<(), Stop> {
    run_types(alloc)?;
    run_transpose(alloc)?;
    run_reshape(alloc)?;
    run_vlen(alloc)?;
    run_optional(alloc)?;
    run_shards(alloc)
}
