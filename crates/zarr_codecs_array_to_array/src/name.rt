//! The names of codecs that have two.

/// Which of its two names a codec has in metadata (this project's profile): the default name, or
/// its alias, which begins with `zarrs.`.
#[derive(Clone, Copy, Debug, PartialEq, Eq)]
pub enum CodecName {
    Default,
    Alias,
}
