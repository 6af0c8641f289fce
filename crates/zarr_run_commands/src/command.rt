//! Commands and replies.

use serde_json::Value;
use zarr_codecs_arrays::ArrayBytes;
use zarr_codecs_options::{CodecOptions, SubchunkWriteOrder};
use zarr_grids_boxes::ArraySubset;
use zarr_run_meaning::Cause;

/// The cells that a command gives.
#[derive(Debug, Drop)]
pub enum CommandCells {
    Bytes(ArrayBytes),
    /// A JSON list of cells. Another value is refused when the command runs.
    Json(Value),
    /// The JSON list of these whole numbers.
    Numbers(Vec<u64>),
}

/// What a session is asked to do.
#[derive(Debug, Drop)]
pub enum Command {
    /// Creates an array, whose shards' subchunks are written in this order.
    Create {
        path: String,
        document: Value,
        order: SubchunkWriteOrder,
    },
    /// Reopens an array with another write order: one that is held, where what is stored for it is
    /// the document that was written or opened, or else one that is stored.
    Reopen {
        path: String,
        order: SubchunkWriteOrder,
    },
    /// Writes the cells of a box, row-major.
    WriteBox {
        path: String,
        region: ArraySubset,
        cells: CommandCells,
        options: CodecOptions,
    },
    /// Writes the cells of a chunk, row-major.
    WriteChunk {
        path: String,
        chunk: Vec<u64>,
        cells: CommandCells,
        options: CodecOptions,
    },
    /// Reads the cells of a box, row-major.
    ReadBox {
        path: String,
        region: ArraySubset,
        options: CodecOptions,
    },
    /// Reads the cells of a chunk, row-major.
    ReadChunk {
        path: String,
        chunk: Vec<u64>,
        options: CodecOptions,
    },
    /// Erases the chunks whose indices lie in a box.
    EraseChunks {
        path: String,
        chunks: ArraySubset,
    },
    /// Writes the shard of a chunk anew, without gaps.
    Compact {
        path: String,
        chunk: Vec<u64>,
        options: CodecOptions,
    },
    /// Stores each chunk anew that has a key.
    Rewrite {
        path: String,
        options: CodecOptions,
    },
}

impl Command {
    ghost use Rattle.std.specs.Prelude.{◌≡◌};
    ghost use Rattle.zarr_run_meaning.specs.Requests.{path_of};
    ghost use Rattle.zarr_run_commands.specs.Commands.{asked};

    /// The path that it names.
    pub fn path(&self) -> &str
        ensures { result.now ≡ path_of (asked self.now) }
    {
        match self {
            Command::Create { path, .. } => path.as_str(),
            Command::Reopen { path, .. } => path.as_str(),
            Command::WriteBox { path, .. } => path.as_str(),
            Command::WriteChunk { path, .. } => path.as_str(),
            Command::ReadBox { path, .. } => path.as_str(),
            Command::ReadChunk { path, .. } => path.as_str(),
            Command::EraseChunks { path, .. } => path.as_str(),
            Command::Compact { path, .. } => path.as_str(),
            Command::Rewrite { path, .. } => path.as_str(),
        }
    }
}

/// What a session answers to a command.
#[derive(Debug, Drop)]
pub enum Reply {
    Done,
    /// The cells of the box or chunk that was read.
    Cells(ArrayBytes),
    /// Whether a compaction changed what is stored.
    Compacted(bool),
    /// The command was refused after this many chunks had been written.
    Refused { cause: Cause, applied: u64 },
}
