// A table into its service file, and back.
ghost use Rattle.std.specs.Prelude.{◌≡◌};
ghost use Rattle.loading.specs.Meaning.{load_answer, load_table};
ghost use Rattle.numbers.specs.Numbers.{event_in_numbers, saved_in_numbers};
ghost use Rattle.saving.specs.Meaning.{room_after, save_answer};

use arbiter::Table;
use loading::load;
use numbers::{SavedFile, Told};
use saving::save;

// The table's service file at the front of the lent room.
#[unsafe(no_mangle)]
pub extern "C" fn norakkeun_save(table: Table, room: &mut [u8]) -> SavedFile
    ensures value { result ≡ saved_in_numbers (save_answer table room.old) }
    ensures room_after { room.new ≡ room_after table room.old }
{
    SavedFile::from(save(&table, room))
}

// The table in a service file. A refused load gives the all-zero table, which is not sound.
#[unsafe(no_mangle)]
pub extern "C" fn norakkeun_load(file: &[u8]) -> Told
    ensures { result ≡ event_in_numbers (load_answer file.now) (load_table file.now) }
{
    Told::from(load(file))
}
