//! Laws of sections. Each function does nothing: its contract is the law.
ghost use Rattle.zarr_codecs_sections.specs.Laws.{VariableIsEncoded, VariableIsDecoded, VlenIsRefused, OptionsAreEncoded, OptionsAreDecoded, OptionalIsRefused, SectionsOfNothing};

/// The encoded offsets and the encoded bytes are joined to what elements of variable length are
/// encoded to.
pub fn variable_encoded()
    ensures { VariableIsEncoded }
{}

/// Elements of variable length are decoded section by section.
pub fn variable_decoded()
    ensures { VariableIsDecoded }
{}

/// `vlen` refuses where a chain inside of it does, or the last offset is too large.
pub fn vlen_refused()
    ensures { VlenIsRefused }
{}

/// The encoded mask and the encoded elements are joined to what optional elements are encoded to.
pub fn options_encoded()
    ensures { OptionsAreEncoded }
{}

/// Optional elements are decoded section by section.
pub fn options_decoded()
    ensures { OptionsAreDecoded }
{}

/// `optional` refuses where a chain inside of it does.
pub fn optional_refused()
    ensures { OptionalIsRefused }
{}

/// The chain of a section is asked only where there are elements.
pub fn sections_of_nothing()
    ensures { SectionsOfNothing }
{}
