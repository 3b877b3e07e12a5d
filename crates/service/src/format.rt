// The numbers of the service file, and its fields by their names.
ghost use Rattle.std.specs.Prelude.{◌≡◌};
ghost use Rattle.service.specs.File.{head_named, head_order, row_named, row_order, row_said};

use rows::{Row, Turn};

// The version that is written, and the only one that is read.
pub const VERSION: u64 = 1;

// How many bytes the head has.
pub const HEAD: usize = 23;

// How many bytes a row has.
pub const ROW: usize = 41;

// The widths of the head's fields in bits, in the order in which the fields stand.
pub const HEAD_WIDTHS: [u32; 8] = [4, 6, 6, 32, 63, 63, 7, 3];

// Those of a row's.
pub const ROW_WIDTHS: [u32; 7] = [6, 63, 64, 64, 64, 63, 4];

// What the head of a file says, field by field; T and R are said as T-1 and R-1.
#[derive(Clone, Copy)]
pub struct FileHead {
    pub version: u64,
    pub tokens: u64,
    pub resources: u64,
    pub limit: u64,
    pub time: u64,
    pub last: u64,
    pub count: u64,
    pub zero: u64,
}

// What a row of a file says, field by field.
#[derive(Clone, Copy)]
pub struct FileRow {
    pub job: u64,
    pub turn: u64,
    pub declared: u64,
    pub held: u64,
    pub asked: u64,
    pub since: u64,
    pub zero: u64,
}

// The fields by their names, and in the order in which they stand.
impl From<[u64; 8]> for FileHead {
    ghost from_gives = { λ values head. head ≡ head_named values };

    fn from(values: [u64; 8]) -> FileHead {
        let [version, tokens, resources, limit, time, last, count, zero] = values;
        FileHead {
            version,
            tokens,
            resources,
            limit,
            time,
            last,
            count,
            zero,
        }
    }
}

impl From<FileHead> for [u64; 8] {
    ghost from_gives = { λ head values. values ≡ head_order head };

    fn from(head: FileHead) -> [u64; 8] {
        [
            head.version,
            head.tokens,
            head.resources,
            head.limit,
            head.time,
            head.last,
            head.count,
            head.zero,
        ]
    }
}

impl From<[u64; 7]> for FileRow {
    ghost from_gives = { λ values row. row ≡ row_named values };

    fn from(values: [u64; 7]) -> FileRow {
        let [job, turn, declared, held, asked, since, zero] = values;
        FileRow {
            job,
            turn,
            declared,
            held,
            asked,
            since,
            zero,
        }
    }
}

impl From<FileRow> for [u64; 7] {
    ghost from_gives = { λ row values. values ≡ row_order row };

    fn from(row: FileRow) -> [u64; 7] {
        [
            row.job,
            row.turn,
            row.declared,
            row.held,
            row.asked,
            row.since,
            row.zero,
        ]
    }
}

// The row of a table that they describe.
impl From<FileRow> for Row {
    ghost from_gives = { λ said row. row ≡ row_said said };

    fn from(said: FileRow) -> Row {
        Row {
            turn: Turn(said.turn),
            declared: said.declared,
            held: said.held,
            asked: said.asked,
            since: said.since,
        }
    }
}
