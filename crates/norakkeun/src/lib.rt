// What firmware in C or Rust links: the calls on a table, the writing of records and service files, under C's names and in C's
// layout.
// `norakkeun.h` beside this folder declares them again; that the two agree is shown by running, not proved.
#![tactic(auto)]

mod calls;
mod files;
mod lent;
mod records;
mod version;

pub use calls::{
    norakkeun_ask, norakkeun_beat, norakkeun_complete, norakkeun_give_up, norakkeun_open,
    norakkeun_overdue, norakkeun_release, norakkeun_report, norakkeun_start,
};
pub use files::{norakkeun_load, norakkeun_save};
pub use lent::{
    norakkeun_ask_in, norakkeun_beat_in, norakkeun_complete_in, norakkeun_give_up_in,
    norakkeun_open_in, norakkeun_overdue_of, norakkeun_release_in, norakkeun_report_of,
};
pub use records::{
    norakkeun_record_ask, norakkeun_record_beat, norakkeun_record_complete,
    norakkeun_record_give_up, norakkeun_record_open, norakkeun_record_release,
    norakkeun_record_start,
};
pub use version::norakkeun_version;
