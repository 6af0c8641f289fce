//! Worked examples and laws of version 2 documents and of their version 3 documents.
ghost use Rattle.zarr_array_v2.specs.Laws.{ConvertsFields, ReadsByName, ReadsOnlyNames, ConvertsAttributes, TakesAttributes, JoinsAgain, SplitsAgain, ConvertsParts, ConvertsDot};
ghost use Rattle.zarr_array_v2.specs.Reading.{GridSays, KeysSay, CodecsSay, ChainsSay, RefusesDtypes, TypeRows};
ghost use Rattle.zarr_array_v2.specs.Worked.{DocumentRows, FillRows, RefusalRows};

/// Whole documents of both versions.
pub fn document_rows()
    ensures { DocumentRows }
{}

/// Fill values of both versions.
pub fn fill_rows()
    ensures { FillRows }
{}

/// What has no place in version 3.
pub fn refusal_rows()
    ensures { RefusalRows }
{}

/// What stands at each name of a version 3 document that was made from version 2.
pub fn converts_fields()
    ensures { ConvertsFields }
{}

/// The fields of a version 2 document are those that stand at their names.
pub fn reads_by_name()
    ensures { ReadsByName }
{}

/// Members that agree at the names of the fields have the same fields.
pub fn reads_only_names()
    ensures { ReadsOnlyNames }
{}

/// Other attributes change nothing else in the version 3 document.
pub fn converts_attributes()
    ensures { ConvertsAttributes }
{}

/// Taking the attributes away takes nothing else.
pub fn takes_attributes()
    ensures { TakesAttributes }
{}

/// A document is put together again from its attributes and the rest.
pub fn joins_again()
    ensures { JoinsAgain }
{}

/// What was put together comes apart into the same parts.
pub fn splits_again()
    ensures { SplitsAgain }
{}

/// A document that was put together from its two parts converts as a whole one.
pub fn converts_parts()
    ensures { ConvertsParts }
{}

/// A document without a separator converts as one with a dot.
pub fn converts_dot()
    ensures { ConvertsDot }
{}

/// The grid that a reader of version 3 finds is `regular`, of the sizes in `chunks`.
pub fn grid_says()
    ensures { GridSays }
{}

/// The keys that a reader of version 3 finds are those of `v2`.
pub fn keys_say()
    ensures { KeysSay }
{}

/// The codecs that a reader of version 3 finds, in their order.
pub fn codecs_say()
    ensures { CodecsSay }
{}

/// Behind `bytes` a reader of version 3 takes the caller's codecs alone.
pub fn chains_say()
    ensures { ChainsSay }
{}

/// A dtype that is not known gives no data type.
pub fn refuses_dtypes()
    ensures { RefusesDtypes }
{}

/// The data types of known dtypes.
pub fn type_rows()
    ensures { TypeRows }
{}
