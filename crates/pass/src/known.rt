// What a call knows of a table.
use line::Line;
use request::Seen;
use rows::Standing;

// What a call about a job sees; what stands before the job; and the line. Where the table is not sound, only that is known.
#[derive(Clone, Copy)]
pub struct Survey {
    pub line: Line,
    pub seen: Seen,
    pub standing: Standing,
}
