//! The codecs between arrays: `transpose`, `reshape` and `squeeze`.
#![tactic(auto)]

pub mod codec;
pub mod dimensions;
mod metadata;
pub mod name;
pub mod new_shape;
pub mod order;
pub mod reshape;
mod sizes;
pub mod squeeze;
mod strided;
pub mod transpose;
mod walks;

pub use codec::ArrayToArrayCodec;
pub use dimensions::ReshapeDim;
pub use name::CodecName;
pub use new_shape::ReshapeShape;
pub use order::TransposeOrder;
pub use reshape::{ReshapeCodec, ReshapeCodecConfiguration};
pub use squeeze::{SqueezeCodec, SqueezeCodecConfiguration};
pub use transpose::{TransposeCodec, TransposeCodecConfiguration};
