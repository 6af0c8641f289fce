//! How metadata of codecs is written.

/// Options of how the metadata of codecs is written. There are none in this project's profile.
#[derive(Clone, Copy, Debug, PartialEq, Eq)]
pub struct CodecMetadataOptions {}

impl Default for CodecMetadataOptions {
    fn default() -> Self {
        CodecMetadataOptions {}
    }
}
