//! The commands of a script at two arrays in shards: `/s`, whose chunks are shards, and `/t/n`,
//! whose chunks are shards of shards.

use zarr_run_scarcity_tables::{Array, Asks, Line, Names, Script};

/// Arrays in shards. A chunk that is all fill loses its key also where a part of it is written.
pub(crate) const SHARDS: Script = Script {
    workers: false,
    lines: &LINES,
    lines_after: &[REOPEN_ROW, REOPEN_SQUARE, READ_SQUARE, READ_ROW],
    read_square: READ_SQUARE,
    read_row: READ_ROW,
    square: Names {
        document: "s/zarr.json",
        attributes: None,
        chunks: &["s/c/0/0", "s/c/0/1", "s/c/1/0", "s/c/1/1"],
    },
    row: Names {
        document: "t/n/zarr.json",
        attributes: None,
        chunks: &["t/n/c/0", "t/n/c/1"],
    },
};

/// Reads the whole of `/s`.
const READ_SQUARE: Line = Line {
    text: r#"{"op":"read_box","path":"/s","box":[[0,4],[0,4]]}"#,
    array: Array::Square,
    asks: Asks::Read(&[0, 1, 2, 3, 4, 5, 6, 7, 8, 9, 10, 11, 12, 13, 14, 15]),
};

/// Reads the whole of `/t/n`.
const READ_ROW: Line = Line {
    text: r#"{"op":"read_box","path":"/t/n","box":[[0,8]]}"#,
    array: Array::Row,
    asks: Asks::Read(&[0, 1, 2, 3, 4, 5, 6, 7]),
};

/// Reopens `/s`.
const REOPEN_SQUARE: Line = Line {
    text: r#"{"op":"reopen","path":"/s","order":"C"}"#,
    array: Array::Square,
    asks: Asks::Reopen,
};

/// Reopens `/t/n`.
const REOPEN_ROW: Line = Line {
    text: r#"{"op":"reopen","path":"/t/n","order":"C"}"#,
    array: Array::Row,
    asks: Asks::Reopen,
};

/// Both are written twice in part, which leaves gaps in each chunk, and compacted, of `/s` one
/// chunk of four. One chunk of `/s` becomes all fill by a part, which takes its key, and is stored
/// without a slice; the rewrite takes it out. One chunk of `/t/n` is erased.
const LINES: [Line; 19] = [
    Line {
        text: r#"{"op":"create","path":"/s","order":"C","document":{"zarr_format":3,"node_type":"array","shape":[4,4],"data_type":"uint8","chunk_grid":{"name":"regular","configuration":{"chunk_shape":[2,2]}},"chunk_key_encoding":{"name":"default"},"fill_value":0,"codecs":[{"name":"sharding_indexed","configuration":{"chunk_shape":[1,2],"codecs":["bytes"],"index_codecs":[{"name":"bytes","configuration":{"endian":"little"}}]}}]}}"#,
        array: Array::Square,
        asks: Asks::Create,
    },
    Line {
        text: r#"{"op":"create","path":"/t/n","order":"C","document":{"zarr_format":3,"node_type":"array","shape":[8],"data_type":"int16","chunk_grid":{"name":"regular","configuration":{"chunk_shape":[4]}},"chunk_key_encoding":{"name":"default"},"fill_value":0,"codecs":[{"name":"sharding_indexed","configuration":{"chunk_shape":[2],"codecs":[{"name":"sharding_indexed","configuration":{"chunk_shape":[1],"codecs":[{"name":"bytes","configuration":{"endian":"big"}}],"index_codecs":[{"name":"bytes","configuration":{"endian":"little"}}]}}],"index_codecs":[{"name":"bytes","configuration":{"endian":"little"}}],"index_location":"start"}}]}}"#,
        array: Array::Row,
        asks: Asks::Create,
    },
    Line {
        text: r#"{"op":"write_box","path":"/s","box":[[1,3],[1,3]],"cells":[1,2,3,4],"options":{"partial":true}}"#,
        array: Array::Square,
        asks: Asks::Put(
            &[(0, 5, 1), (1, 6, 2), (2, 9, 3), (3, 10, 4)],
            &[(0, 0, true), (1, 1, true), (2, 2, true), (3, 3, true)],
        ),
    },
    Line {
        text: r#"{"op":"write_box","path":"/t/n","box":[[1,7]],"cells":[21,22,23,24,25,26],"options":{"partial":true}}"#,
        array: Array::Row,
        asks: Asks::Put(
            &[
                (0, 1, 21),
                (0, 2, 22),
                (0, 3, 23),
                (1, 4, 24),
                (1, 5, 25),
                (1, 6, 26),
            ],
            &[(0, 0, true), (1, 1, true)],
        ),
    },
    Line {
        text: r#"{"op":"write_box","path":"/s","box":[[1,3],[1,3]],"cells":[5,6,7,8],"options":{"partial":true}}"#,
        array: Array::Square,
        asks: Asks::Put(&[(0, 5, 5), (1, 6, 6), (2, 9, 7), (3, 10, 8)], &[]),
    },
    Line {
        text: r#"{"op":"write_box","path":"/t/n","box":[[3,6]],"cells":[27,28,0],"options":{"partial":true}}"#,
        array: Array::Row,
        asks: Asks::Put(&[(0, 3, 27), (1, 4, 28), (1, 5, 0)], &[]),
    },
    Line {
        text: r#"{"op":"compact","path":"/s","chunk":[0,1]}"#,
        array: Array::Square,
        asks: Asks::Compact { has_gaps: true },
    },
    Line {
        text: r#"{"op":"compact","path":"/t/n","chunk":[0]}"#,
        array: Array::Row,
        asks: Asks::Compact { has_gaps: true },
    },
    Line {
        text: r#"{"op":"write_box","path":"/s","box":[[2,3],[2,3]],"cells":[0],"options":{"partial":true}}"#,
        array: Array::Square,
        asks: Asks::Put(&[(0, 10, 0)], &[(0, 3, false)]),
    },
    Line {
        text: r#"{"op":"write_chunk","path":"/s","chunk":[1,1],"cells":[0,0,0,0],"options":{"empty":true}}"#,
        array: Array::Square,
        asks: Asks::Put(&[], &[(0, 3, true)]),
    },
    Line {
        text: r#"{"op":"rewrite","path":"/s"}"#,
        array: Array::Square,
        asks: Asks::Put(&[], &[(3, 3, false)]),
    },
    Line {
        text: r#"{"op":"rewrite","path":"/t/n","options":{"partial":true}}"#,
        array: Array::Row,
        asks: Asks::Put(&[], &[]),
    },
    Line {
        text: r#"{"op":"compact","path":"/s","chunk":[0,0]}"#,
        array: Array::Square,
        asks: Asks::Compact { has_gaps: false },
    },
    Line {
        text: r#"{"op":"compact","path":"/t/n","chunk":[1]}"#,
        array: Array::Row,
        asks: Asks::Compact { has_gaps: false },
    },
    REOPEN_SQUARE,
    Line {
        text: r#"{"op":"erase_chunks","path":"/t/n","box":[[0,1]]}"#,
        array: Array::Row,
        asks: Asks::Put(
            &[(0, 0, 0), (0, 1, 0), (0, 2, 0), (0, 3, 0)],
            &[(0, 0, false)],
        ),
    },
    Line {
        text: r#"{"op":"read_box","path":"/s","box":[[1,3],[0,2]]}"#,
        array: Array::Square,
        asks: Asks::Read(&[4, 5, 8, 9]),
    },
    READ_SQUARE,
    READ_ROW,
];
