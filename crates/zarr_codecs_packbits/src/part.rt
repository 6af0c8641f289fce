//! Parts of a packed array.
ghost use Rattle.std.specs.Prelude.{◌≡◌, ◌<◌, ◌^◌, true, unwrap_or};
ghost use Rattle.std.specs.List.{list_all};
ghost use Rattle.zarr_grids_boxes.specs.Boxes.{product};
ghost use Rattle.zarr_codecs_meaning.specs.Chains.Padding.{no_padding_byte};
ghost use Rattle.zarr_codecs_meaning.specs.Fits.{bits_fit, bits_in};
ghost use Rattle.zarr_codecs_types.specs.Views.{components_of};
ghost use Rattle.zarr_codecs_arrays.specs.Views.{elements_of};
ghost use Rattle.zarr_codecs_traits.specs.Indexers.{are_inside, asked_of};
ghost use Rattle.zarr_codecs_packbits.specs.Packing.{Suits};
ghost use Rattle.zarr_codecs_packbits.specs.Views.{padding_of};

use crate::codec::PackBitsCodec;
use zarr_codecs_traits::ArrayPart;
use zarr_codecs_types::Component;

/// The elements that are asked for of an array that `packbits` suits, with the components of an
/// element. Each place that is asked for is one of the array.
#[derive(Clone, Copy)]
pub(crate) struct PackedPart<'a> {
    pub codec: PackBitsCodec,
    pub components: &'a [Component],
    pub part: ArrayPart<'a>,
    ghost suits: { Suits codec (elements_of part.elements.now).type components.now },
    ghost inside: { are_inside part.shape.now (asked_of part.indexer) ≡ true },
    ghost small: { product part.shape.now < 2 ^ 63 },
}

/// How elements are packed without a padding byte: the codec, the components of an element, and how
/// many bits it keeps of one.
#[derive(Clone, Copy)]
pub(crate) struct PackedBits<'a> {
    pub codec: PackBitsCodec,
    pub components: &'a [Component],
    pub bits: u128,
    ghost untold: { padding_of codec.padding ≡ no_padding_byte },
    ghost fit: { list_all (bits_fit (unwrap_or codec.first_bit 0) codec.last_bit)
        (components_of components.now) ≡ true },
    ghost counted: { bits ≡ bits_in (unwrap_or codec.first_bit 0) codec.last_bit
        (components_of components.now) },
}
