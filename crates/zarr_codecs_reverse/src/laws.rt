//! A law of the codec. Its function does nothing: its contract is the law.
ghost use Rattle.zarr_codecs_reverse.specs.Reversing.{ReadsLawful};

/// Each codec that metadata says is lawful: it undoes what it makes.
pub fn reads_lawful()
    ensures { ReadsLawful }
{}
