//! Writes of cells.
use zarr_codecs_arrays::ArrayBytes;
use zarr_codecs_options::CodecOptions;
use zarr_run_commands::CommandCells;

/// Cells as a command gives them, and the options that they are written with.
#[derive(Clone, Copy)]
pub struct CellWrite<'a> {
    pub cells: &'a CommandCells,
    pub options: &'a CodecOptions,
}

/// Elements, and the options that they are written with.
#[derive(Clone, Copy)]
pub(crate) struct ElementWrite<'a> {
    pub elements: &'a ArrayBytes,
    pub options: &'a CodecOptions,
}
