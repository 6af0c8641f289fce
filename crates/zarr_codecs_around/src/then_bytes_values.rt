//! What reading and writing values whole, and codecs around it, need of a codec with bytes codecs
//! after it.
use crate::byte_codecs::copies;
use crate::then_bytes::ThenBytes;
use std::alloc::{AllocError, Global};
use zarr_codecs_arrays::{ArrayBytes, CodecError, Elements};
use zarr_codecs_regions::WholeValues;
use zarr_codecs_traits::{ArrayToBytesCodecTraits, BytesToBytesCodecTraits};
use zarr_codecs_types::DataType;
use zarr_sharding_inner::InnerCodec;

impl<A: InnerCodec, B: BytesToBytesCodecTraits> WholeValues for ThenBytes<A, B> {
    ghost use Rattle.zarr_codecs_around.specs.ThenBytes.{then_function, then_lawful, then_meaning};

    ghost meaning = { then_meaning A.meaning B.meaning };

    ghost is_function = { then_function A.is_function };

    fn fits_array(
        &self,
        alloc: Global,
        data_type: &DataType,
        shape: &[u64],
    ) -> Result<bool, AllocError> {
        self.fits(alloc, data_type, shape)
    }

    fn encode_array(
        &self,
        alloc: Global,
        bytes: ArrayBytes,
        elements: &Elements,
        shape: &[u64],
    ) -> Result<Vec<u8>, CodecError> {
        self.encode_in_order(alloc, bytes, elements, shape)
    }

    fn decode_value(
        &self,
        alloc: Global,
        value: Vec<u8>,
        elements: &Elements,
        shape: &[u64],
    ) -> Result<ArrayBytes, CodecError> {
        self.decode_in_order(alloc, value, elements, shape)
    }

    fn keeps_fill(&self) -> bool {
        self.codec.makes_no_shard()
    }

    ghost lawful = { then_lawful A.meaning A.lawful B.meaning B.lawful };
}

impl<A: InnerCodec, B: BytesToBytesCodecTraits> InnerCodec for ThenBytes<A, B> {
    fn makes_no_shard(&self) -> bool {
        self.codec.makes_no_shard()
    }

    fn row_major(&self, alloc: Global) -> Result<ThenBytes<A, B>, AllocError> {
        let codec = self.codec.row_major(alloc)?;
        let bytes_to_bytes = copies(alloc, self.bytes_to_bytes.as_slice())?;
        Ok(ThenBytes {
            codec,
            bytes_to_bytes,
        })
    }
}
