//! Codecs between arrays and their shapes, made by their constructors. Which shapes they give is in
//! calls/array_codecs.calls.
use std::alloc::{AllocError, Global};
use zarr_codecs::{ReshapeDim, ReshapeShape, SqueezeCodec};

#[test]
fn squeeze_has_one_form(rt: HostRuntime) {
    assert!(rt; SqueezeCodec::default() == SqueezeCodec::new());
}

/// Whether two dimensions of which one has so many places and the other what is left, or both what
/// is left, are a shape.
fn are_shape(alloc: Global, first: ReshapeDim) -> Result<bool, AllocError> {
    Ok(ReshapeShape::new(vec![in alloc; first, ReshapeDim::Auto]?).is_some())
}

#[test]
fn what_is_left_is_left_once(rt: HostRuntime) {
    assert!(rt; matches!(are_shape(rt.alloc(), ReshapeDim::Auto), Ok(false)));
    assert!(rt; matches!(are_shape(rt.alloc(), ReshapeDim::Size(3)), Ok(true)));
}
