//! Slices that are the elements of their subchunks as they stand in memory.

use crate::codec::ShardingCodec;
use crate::subchunks::whole_width;
use zarr_codecs_arrays::takes_all_bytes;
use zarr_codecs_traits::{ArrayToBytesCodecTraits, ByteRange, WholeArray};
use zarr_sharding_index::pair::{is_absent, slice_at};

impl<I: ArrayToBytesCodecTraits, X: ArrayToBytesCodecTraits> ShardingCodec<I, X> {
    ghost use Rattle.std.specs.Prelude.{◌≡◌, true, IfSome};
    ghost use Rattle.zarr_codecs_arrays.specs.Views.{elements_of};
    ghost use Rattle.zarr_codecs_meaning.specs.Decoding.{decoded};
    ghost use Rattle.zarr_codecs_meaning.specs.Fits.{fits};
    ghost use Rattle.zarr_sharding_codec.specs.Reading.{AreBytes};
    ghost use Rattle.zarr_sharding_codec.specs.Views.{inner_of};
    ghost use Rattle.zarr_sharding_index.specs.Views.{pair_of};
    ghost use Rattle.zarr_sharding_places.specs.Pieces.{piece_decoded};

    /// Whether a slice is known to be the elements of its subchunk as they stand in memory, so that
    /// nothing need be decoded: the inner codecs encode elements as they are, all bytes are values
    /// of the data type, and there are as many as the subchunk's elements have.
    pub(crate) fn is_as_is(&self, slice: &[u8], subchunk: WholeArray<'_>) -> bool
        requires { fits (I.meaning (inner_of self.now)) (elements_of subchunk.elements.now).type
            subchunk.shape.now ≡ true }
        ensures { result ≡ true → AreBytes (elements_of subchunk.entry.elements.now)
            (decoded (I.meaning (inner_of self.now)) (elements_of subchunk.entry.elements.now)
            subchunk.entry.shape.now slice.now) slice.now }
    {
        if !self.inner_codecs.encodes_as_is() || !takes_all_bytes(subchunk.elements.data_type()) {
            return false;
        }
        let Some(_) = whole_width(slice.len(), subchunk) else {
            return false;
        };
        true
    }

    /// The slice of a pair, where it is known to be the elements of the subchunk as they stand in
    /// memory.
    pub(crate) fn slice_as_is<'a>(
        &self,
        value: &'a [u8],
        pair: ByteRange,
        subchunk: WholeArray<'_>,
    ) -> Option<&'a [u8]>
        requires { fits (I.meaning (inner_of self.now)) (elements_of subchunk.elements.now).type
            subchunk.shape.now ≡ true }
        ensures { IfSome result (λ slice. AreBytes (elements_of subchunk.entry.elements.now)
            (piece_decoded (I.meaning (inner_of self.now))
            (elements_of subchunk.entry.elements.now) value.now subchunk.entry.shape.now
            (pair_of pair)) slice.now) }
    {
        if is_absent(pair) {
            return None;
        }
        let Some(slice) = slice_at(value, pair) else {
            return None;
        };
        if !self.is_as_is(slice, subchunk) {
            return None;
        }
        Some(slice)
    }
}
