//! The commands of a script at two arrays of version 2: `/v`, in the order F, and `/w/n`, of
//! numbers with a compressor.

use zarr_run_scarcity_tables::{Array, Asks, Line, Names, Script};

/// Arrays of version 2. A refused create may leave attributes.
pub(crate) const OLDER: Script = Script {
    workers: false,
    lines: &LINES,
    lines_after: &[REOPEN_ROW, REOPEN_SQUARE, READ_SQUARE, READ_ROW],
    read_square: READ_SQUARE,
    read_row: READ_ROW,
    square: Names {
        document: "v/.zarray",
        attributes: Some("v/.zattrs"),
        chunks: &["v/0/0", "v/0/1", "v/1/0", "v/1/1"],
    },
    row: Names {
        document: "w/n/.zarray",
        attributes: Some("w/n/.zattrs"),
        chunks: &["w/n/0", "w/n/1"],
    },
};

/// Reads the whole of `/v`.
const READ_SQUARE: Line = Line {
    text: r#"{"op":"read_box","path":"/v","box":[[0,4],[0,4]]}"#,
    array: Array::Square,
    asks: Asks::Read(&[0, 1, 2, 3, 4, 5, 6, 7, 8, 9, 10, 11, 12, 13, 14, 15]),
};

/// Reads the chunks of `/w/n`, of which the last one passes the array.
const READ_ROW: Line = Line {
    text: r#"{"op":"read_box","path":"/w/n","box":[[0,4]]}"#,
    array: Array::Row,
    asks: Asks::Read(&[0, 1, 2, 3]),
};

/// Reopens `/v`.
const REOPEN_SQUARE: Line = Line {
    text: r#"{"op":"reopen","path":"/v","order":"C"}"#,
    array: Array::Square,
    asks: Asks::Reopen,
};

/// Reopens `/w/n`.
const REOPEN_ROW: Line = Line {
    text: r#"{"op":"reopen","path":"/w/n","order":"Random"}"#,
    array: Array::Row,
    asks: Asks::Reopen,
};

/// On `/v`: the middle, which intersects all chunks; a zero that keeps its chunk's key, which the
/// rewrite takes out. On `/w/n`: a box that intersects both chunks, and the erasure of one. Both
/// are reopened and read.
const LINES: [Line; 12] = [
    Line {
        text: r#"{"op":"create","path":"/v","document":{"zarr_format":2,"shape":[4,4],"chunks":[2,2],"dtype":"|u1","compressor":null,"fill_value":0,"order":"F","filters":[],"dimension_separator":"/","attributes":{"x":[1]}}}"#,
        array: Array::Square,
        asks: Asks::Create,
    },
    Line {
        text: r#"{"op":"write_box","path":"/v","box":[[1,3],[1,3]],"cells":[1,2,3,4]}"#,
        array: Array::Square,
        asks: Asks::Put(
            &[(0, 5, 1), (1, 6, 2), (2, 9, 3), (3, 10, 4)],
            &[(0, 0, true), (1, 1, true), (2, 2, true), (3, 3, true)],
        ),
    },
    Line {
        text: r#"{"op":"create","path":"/w/n","document":{"zarr_format":2,"shape":[3],"chunks":[2],"dtype":">i2","compressor":{"id":"x-reverse"},"fill_value":null,"order":"C","filters":null}}"#,
        array: Array::Row,
        asks: Asks::Create,
    },
    Line {
        text: r#"{"op":"write_box","path":"/w/n","box":[[1,3]],"cells":[21,22]}"#,
        array: Array::Row,
        asks: Asks::Put(&[(0, 1, 21), (1, 2, 22)], &[(0, 0, true), (1, 1, true)]),
    },
    REOPEN_SQUARE,
    Line {
        text: r#"{"op":"write_box","path":"/v","box":[[1,2],[1,2]],"cells":[0],"options":{"partial":true}}"#,
        array: Array::Square,
        asks: Asks::Put(&[(0, 5, 0)], &[]),
    },
    REOPEN_ROW,
    Line {
        text: r#"{"op":"rewrite","path":"/v"}"#,
        array: Array::Square,
        asks: Asks::Put(&[], &[(0, 0, false)]),
    },
    Line {
        text: r#"{"op":"erase_chunks","path":"/w/n","box":[[0,1]]}"#,
        array: Array::Row,
        asks: Asks::Put(&[(0, 0, 0), (0, 1, 0)], &[(0, 0, false)]),
    },
    Line {
        text: r#"{"op":"read_chunk","path":"/v","chunk":[1,1]}"#,
        array: Array::Square,
        asks: Asks::Read(&[10, 11, 14, 15]),
    },
    READ_SQUARE,
    READ_ROW,
];
