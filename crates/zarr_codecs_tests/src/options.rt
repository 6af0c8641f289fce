//! Options of calls that encode and decode.
use zarr_codecs::CodecOptions;

#[test]
fn options_are_false_by_default(rt: HostRuntime) {
    let options = CodecOptions::default();
    assert!(rt; !options.store_empty_chunks() && !options.workers());
    assert!(rt; !options.experimental_partial_encoding());
}

#[test]
fn options_are_set_one_after_another(rt: HostRuntime) {
    let mut options = CodecOptions::default();
    options
        .set_store_empty_chunks(true)
        .set_workers(true)
        .set_workers(false);
    assert!(rt; options.store_empty_chunks() && !options.workers());
    options.set_experimental_partial_encoding(true);
    assert!(rt; options.experimental_partial_encoding());
}

#[test]
fn options_are_made_of_others(rt: HostRuntime) {
    let options = CodecOptions::default().with_workers(true);
    let others = options
        .with_experimental_partial_encoding(true)
        .with_store_empty_chunks(true);
    assert!(rt; options.workers() && !options.experimental_partial_encoding());
    assert!(rt; others.workers() && others.experimental_partial_encoding());
    assert!(rt; others == others.with_store_empty_chunks(true) && others != options);
}
