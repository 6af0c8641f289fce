//! The codec `bytes`, made by its constructors.
use zarr_codecs::{BytesCodec, Endianness};

#[test]
fn bytes_is_made_with_an_order_or_without(rt: HostRuntime) {
    assert!(rt; matches!(BytesCodec::new(None).endian, None));
    assert!(rt; matches!(BytesCodec::little().endian, Some(Endianness::Little)));
    assert!(rt; matches!(BytesCodec::big().endian, Some(Endianness::Big)));
}
