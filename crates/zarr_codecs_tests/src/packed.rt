//! `packbits` made by its constructors. What it makes of values is in calls/packbits.calls.
use zarr_codecs::{PackBitsCodec, PackBitsPaddingEncoding};

#[test]
fn all_bits_are_kept_by_default(rt: HostRuntime) {
    let all = PackBitsCodec::new(PackBitsPaddingEncoding::None, None, None);
    assert!(rt; PackBitsCodec::default() == all);
}

#[test]
fn a_codec_keeps_the_bits_that_it_is_made_with(rt: HostRuntime) {
    let codec = PackBitsCodec::new(PackBitsPaddingEncoding::FirstByte, Some(1), Some(2));
    assert!(rt; codec.padding == PackBitsPaddingEncoding::FirstByte);
    assert!(rt; codec.first_bit == Some(1) && codec.last_bit == Some(2));
}
