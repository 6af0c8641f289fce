//! Laws of data types, cells and fill values. Each function does nothing: its contract is the law.
ghost use Rattle.zarr_codecs_types.specs.Laws.{SameTypeIsEqual, SameCellIsEqual, OptionalTypesNest, MetadataReadsBack, FillIsValue, FillReadsBack};

/// Data types compare as equal exactly where they are the same.
pub fn same_type_is_equal()
    ensures { SameTypeIsEqual }
{}

/// Cells compare as equal exactly where they are the same.
pub fn same_cell_is_equal()
    ensures { SameCellIsEqual }
{}

/// An optional type is read alike however deep it stands in another.
pub fn optional_types_nest()
    ensures { OptionalTypesNest }
{}

/// What is written for a data type reads as that type.
pub fn metadata_reads_back()
    ensures { MetadataReadsBack }
{}

/// What is read as a fill value is a value of the data type.
pub fn fill_is_value()
    ensures { FillIsValue }
{}

/// What is written for a value of a data type reads as that value.
pub fn fill_reads_back()
    ensures { FillReadsBack }
{}
