// Entering a string into the table.
ghost use Rattle.std.specs.Prelude.{◌≡◌, ◌<◌, ◌≤◌, length};
ghost use Rattle.text.specs.Strings.{number_of};
ghost use Rattle.text.specs.Table.{table_size, strings_of, is_table, added_to};
ghost use Rattle.text.specs.Answers.{read_table, refusal_of, entry_of, enter_cells, cells_after};

use crate::{EntryError, MAXIMUM_LENGTH, ROW_SIZE, copying};

const MAXIMUM_STRINGS: usize = 256;

// The number of a string that was entered.
fn find(cells: &[u16], units: &[u16]) -> Option<u64>
    ensures { result ≡ number_of (read_table cells.now) units.now }
{
    if crate::is_table(cells) {
        for n in 0..usize::from(cells[0]) {
            if crate::text_at(cells, n) == units {
                return Some(n as u64);
            }
        }
    }
    None
}

// Adds a string as number n: its length, its code units, then the count.
fn add(cells: &mut [u16], units: &[u16], n: usize)
    requires { (length cells.old ≡ table_size) × (length units.now ≤ 32) × (n < 256) }
    ensures { cells.new ≡ added_to cells.old units.now n }
{
    let row = 1 + ROW_SIZE * n;
    let start = row + 1;
    let end = start + units.len();
    cells[row] = units.len() as u16;
    copying::copy(&mut cells[start..end], units);
    cells[0] = (n + 1) as u16;
}

// The number of the refusal.
pub fn refusal_number(e: EntryError) -> u64
    ensures { result ≡ refusal_of e }
{
    match e {
        EntryError::Malformed => 1,
        EntryError::TooLong => 3,
        EntryError::Full => 7,
    }
}

// Enters a string; an equal one has its number already.
pub fn enter(cells: &mut [u16], units: &[u16]) -> Result<u64, EntryError>
    ensures answer { entry_of result (strings_of cells.new) ≡ enter_cells cells.old units.now }
    ensures after { cells.new ≡ cells_after cells.old units.now (enter_cells cells.old units.now) }
    ensures table { is_table cells.new ≡ is_table cells.old }
{
    if !crate::is_table(cells) {
        return Err(EntryError::Malformed);
    }
    if units.len() > MAXIMUM_LENGTH {
        return Err(EntryError::TooLong);
    }
    match find(cells, units) {
        Some(n) => Ok(n),
        None => {
            let n = usize::from(cells[0]);
            if n < MAXIMUM_STRINGS {
                add(cells, units, n);
                Ok(n as u64)
            } else {
                Err(EntryError::Full)
            }
        }
    }
}
