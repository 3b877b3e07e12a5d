// Head and rows of a file, to and from bytes. One generic pair for both would take the widths and their number beside, and
// say no more.
ghost use Rattle.std.specs.Prelude.{◌≤◌, ◌≡◌, length};
ghost use Rattle.laws.specs.Front.{over};
ghost use Rattle.service.specs.File.{head_bytes, head_size, row_bytes, row_size};
ghost use Rattle.service.specs.Promises.{ReadHead, ReadRow};

use crate::format;
use crate::format::{FileHead, FileRow};

// The head with which the bytes begin.
pub fn head_in(bytes: &[u8]) -> FileHead
    requires { head_size ≤ length bytes.now }
    ensures { ReadHead bytes.now result }
{
    let mut values = [0u64; 8];
    fields::read_all(bytes, &format::HEAD_WIDTHS, &mut values);
    FileHead::from(values)
}

// The row with which the bytes begin.
pub fn row_in(bytes: &[u8]) -> FileRow
    requires { row_size ≤ length bytes.now }
    ensures { ReadRow bytes.now result }
{
    let mut values = [0u64; 7];
    fields::read_all(bytes, &format::ROW_WIDTHS, &mut values);
    FileRow::from(values)
}

// Writes a head at the front of the room; what comes after it is kept.
pub fn put_head(head: FileHead, room: &mut [u8])
    requires { head_size ≤ length room.old }
    ensures { room.new ≡ over (head_bytes head) room.old }
{
    fields::write(room, &format::HEAD_WIDTHS, &<[u64; 8]>::from(head));
}

// Writes a row at the front of the room; what comes after it is kept.
pub fn put_row(row: FileRow, room: &mut [u8])
    requires { row_size ≤ length room.old }
    ensures { room.new ≡ over (row_bytes row) room.old }
{
    fields::write(room, &format::ROW_WIDTHS, &<[u64; 7]>::from(row));
}
