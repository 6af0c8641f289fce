//! The commands of a script at two arrays without shards: `/a`, and `/b/c`, of numbers whose bytes
//! are reversed.

use zarr_run_scarcity_tables::{Array, Asks, Line, Names, Script};

/// Arrays without shards.
pub(crate) const PLAIN: Script = Script {
    workers: false,
    lines: &LINES,
    lines_after: &LINES_AFTER,
    read_square: READ_SQUARE,
    read_row: READ_ROW,
    square: Names {
        document: "a/zarr.json",
        attributes: None,
        chunks: &["a/c/0/0", "a/c/0/1", "a/c/1/0", "a/c/1/1"],
    },
    row: Names {
        document: "b/c/zarr.json",
        attributes: None,
        chunks: &["b/c/c.0", "b/c/c.1"],
    },
};

/// Reads the whole of `/a`.
const READ_SQUARE: Line = Line {
    text: r#"{"op":"read_box","path":"/a","box":[[0,4],[0,4]]}"#,
    array: Array::Square,
    asks: Asks::Read(&[0, 1, 2, 3, 4, 5, 6, 7, 8, 9, 10, 11, 12, 13, 14, 15]),
};

/// Reads the chunks of `/b/c`, of which the last one passes the array.
const READ_ROW: Line = Line {
    text: r#"{"op":"read_box","path":"/b/c","box":[[0,4]]}"#,
    array: Array::Row,
    asks: Asks::Read(&[0, 1, 2, 3]),
};

/// Reopens `/a`.
const REOPEN_SQUARE: Line = Line {
    text: r#"{"op":"reopen","path":"/a","order":"C"}"#,
    array: Array::Square,
    asks: Asks::Reopen,
};

/// Reopens `/b/c`.
const REOPEN_ROW: Line = Line {
    text: r#"{"op":"reopen","path":"/b/c","order":"Random"}"#,
    array: Array::Row,
    asks: Asks::Reopen,
};

/// On `/a`: the middle, which intersects all chunks; the right of the two rows on top; zeros below,
/// which take two keys out; one chunk as a whole; the erasure of the two chunks on the left; and
/// zeros that keep their key, in a whole chunk and in a part of one. On `/b/c`: a box that
/// intersects both chunks; one chunk as a whole; the erasure of the other one. Both are reopened,
/// rewritten, and read by box and by chunk.
const LINES: [Line; 21] = [
    Line {
        text: r#"{"op":"create","path":"/a","document":{"zarr_format":3,"node_type":"array","shape":[4,4],"data_type":"uint8","chunk_grid":{"name":"regular","configuration":{"chunk_shape":[2,2]}},"chunk_key_encoding":{"name":"default"},"fill_value":0,"codecs":["bytes"]}}"#,
        array: Array::Square,
        asks: Asks::Create,
    },
    Line {
        text: r#"{"op":"write_box","path":"/a","box":[[1,3],[1,3]],"cells":[1,2,3,4]}"#,
        array: Array::Square,
        asks: Asks::Put(
            &[(0, 5, 1), (1, 6, 2), (2, 9, 3), (3, 10, 4)],
            &[(0, 0, true), (1, 1, true), (2, 2, true), (3, 3, true)],
        ),
    },
    Line {
        text: r#"{"op":"create","path":"/b/c","document":{"zarr_format":3,"node_type":"array","shape":[3],"data_type":"int16","chunk_grid":{"name":"regular","configuration":{"chunk_shape":[2]}},"chunk_key_encoding":{"name":"default","configuration":{"separator":"."}},"fill_value":0,"codecs":[{"name":"bytes","configuration":{"endian":"big"}},"x-reverse"],"attributes":{"x":[1]},"dimension_names":["y"]}}"#,
        array: Array::Row,
        asks: Asks::Create,
    },
    Line {
        text: r#"{"op":"write_box","path":"/b/c","box":[[1,3]],"cells":[21,22]}"#,
        array: Array::Row,
        asks: Asks::Put(&[(0, 1, 21), (1, 2, 22)], &[(0, 0, true), (1, 1, true)]),
    },
    Line {
        text: r#"{"op":"write_box","path":"/a","box":[[0,2],[1,4]],"cells":[5,6,7,8,9,10]}"#,
        array: Array::Square,
        asks: Asks::Put(
            &[
                (0, 1, 5),
                (1, 2, 6),
                (1, 3, 7),
                (0, 5, 8),
                (1, 6, 9),
                (1, 7, 10),
            ],
            &[(0, 0, true), (1, 1, true)],
        ),
    },
    REOPEN_SQUARE,
    Line {
        text: r#"{"op":"write_box","path":"/a","box":[[2,4],[0,4]],"cells":[0,0,0,0,0,0,0,0]}"#,
        array: Array::Square,
        asks: Asks::Put(
            &[
                (0, 8, 0),
                (0, 9, 0),
                (1, 10, 0),
                (1, 11, 0),
                (0, 12, 0),
                (0, 13, 0),
                (1, 14, 0),
                (1, 15, 0),
            ],
            &[(0, 2, false), (1, 3, false)],
        ),
    },
    Line {
        text: r#"{"op":"write_chunk","path":"/b/c","chunk":[1],"cells":[23,24]}"#,
        array: Array::Row,
        asks: Asks::Put(&[(0, 2, 23), (0, 3, 24)], &[(0, 1, true)]),
    },
    Line {
        text: r#"{"op":"write_chunk","path":"/a","chunk":[1,1],"cells":[11,12,13,14]}"#,
        array: Array::Square,
        asks: Asks::Put(
            &[(0, 10, 11), (0, 11, 12), (0, 14, 13), (0, 15, 14)],
            &[(0, 3, true)],
        ),
    },
    REOPEN_ROW,
    Line {
        text: r#"{"op":"erase_chunks","path":"/a","box":[[0,2],[0,1]]}"#,
        array: Array::Square,
        asks: Asks::Put(
            &[
                (0, 0, 0),
                (0, 1, 0),
                (0, 4, 0),
                (0, 5, 0),
                (1, 8, 0),
                (1, 9, 0),
                (1, 12, 0),
                (1, 13, 0),
            ],
            &[(0, 0, false), (1, 2, false)],
        ),
    },
    Line {
        text: r#"{"op":"erase_chunks","path":"/b/c","box":[[0,1]]}"#,
        array: Array::Row,
        asks: Asks::Put(&[(0, 0, 0), (0, 1, 0)], &[(0, 0, false)]),
    },
    Line {
        text: r#"{"op":"write_box","path":"/a","box":[[0,2],[0,2]],"cells":[0,0,0,0],"options":{"empty":true}}"#,
        array: Array::Square,
        asks: Asks::Put(
            &[(0, 0, 0), (0, 1, 0), (0, 4, 0), (0, 5, 0)],
            &[(0, 0, true)],
        ),
    },
    Line {
        text: r#"{"op":"write_box","path":"/a","box":[[2,3],[0,1]],"cells":[0],"options":{"partial":true}}"#,
        array: Array::Square,
        asks: Asks::Put(&[(0, 8, 0)], &[(0, 2, true)]),
    },
    Line {
        text: r#"{"op":"compact","path":"/a","chunk":[1,1]}"#,
        array: Array::Square,
        asks: Asks::Compact { has_gaps: false },
    },
    Line {
        text: r#"{"op":"rewrite","path":"/a","options":{"empty":true}}"#,
        array: Array::Square,
        asks: Asks::Put(&[], &[]),
    },
    Line {
        text: r#"{"op":"rewrite","path":"/b/c"}"#,
        array: Array::Row,
        asks: Asks::Put(&[], &[]),
    },
    Line {
        text: r#"{"op":"read_chunk","path":"/a","chunk":[1,1]}"#,
        array: Array::Square,
        asks: Asks::Read(&[10, 11, 14, 15]),
    },
    Line {
        text: r#"{"op":"read_chunk","path":"/b/c","chunk":[1]}"#,
        array: Array::Row,
        asks: Asks::Read(&[2, 3]),
    },
    READ_SQUARE,
    READ_ROW,
];

/// Opens both arrays again in another session, and reads them.
const LINES_AFTER: [Line; 4] = [REOPEN_ROW, REOPEN_SQUARE, READ_SQUARE, READ_ROW];
