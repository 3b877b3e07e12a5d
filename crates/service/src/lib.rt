// The service file: its head and its rows, each read and written as a list of fields.
#![tactic(auto)]

mod format;
mod parts;

pub use format::{FileHead, FileRow, HEAD, ROW, VERSION};
pub use parts::{head_in, put_head, put_row, row_in};
