// The strings that were entered, by number, in lent cells: a count, then for each string its length and 32 code units.
// entry: entering one. indices: which strings are array indices. copying: how their code units are copied.
#![tactic(auto)]

ghost use Rattle.std.specs.Prelude.{◌≡◌, true, [], ◌<◌, eqb, length};
ghost use Rattle.property.specs.ArrayIndex.{array_index};
ghost use Rattle.text.specs.Strings.{text_of, length_of};
ghost use Rattle.text.specs.Table.{table_size, length_at, text_at, strings_of, is_table};
ghost use Rattle.text.specs.Answers.{read_table, count_answer, emptied};

pub mod copying;
pub mod entry;
pub mod indices;

// Why a string is not entered: the cells are no table, it is too long, or the table is full. Refusals 1, 3 and 7.
#[derive(Clone, Copy)]
pub enum EntryError {
    Malformed,
    TooLong,
    Full,
}

const MAXIMUM_LENGTH: usize = 32;

const ROW_SIZE: usize = 33;

const TABLE_SIZE: usize = 8449;

// Whether the cells have the right length and a count that the table can have.
// (Of what methods read `Run` says it; the functions below that take cells alone ask it by a clause, which is plainer than a struct of one slice.)
pub fn is_table(cells: &[u16]) -> bool
    ensures { result ≡ is_table cells.now }
{
    cells.len() == TABLE_SIZE && cells[0] <= 256
}

// Makes the table hold no string: only the count changes. False where the length is another.
pub fn make_empty(cells: &mut [u16]) -> bool
    ensures answer { result ≡ eqb (length cells.old) table_size }
    ensures after { cells.new ≡ emptied cells.old }
    ensures empty { result ≡ true → strings_of cells.new ≡ [] }
    ensures table { result ≡ true → is_table cells.new ≡ true }
{
    if cells.len() == TABLE_SIZE {
        cells[0] = 0;
        true
    } else {
        false
    }
}

// How many strings the table holds.
pub fn count(cells: &[u16]) -> Option<u64>
    ensures { result ≡ count_answer cells.now }
{
    if is_table(cells) {
        Some(u64::from(cells[0]))
    } else {
        None
    }
}

// The length of string n; a stored length above the greatest reads as the greatest.
#[tactic(auto, unfolding(crate::specs::Table::length_at))]
fn length_at(cells: &[u16], n: usize) -> usize
    requires { (length cells.now ≡ table_size) × (n < 256) }
    ensures { result ≡ length_at cells.now n }
{
    usize::from(cells[1 + ROW_SIZE * n]).min(MAXIMUM_LENGTH)
}

// The code units of string n.
pub fn text_at(cells: &[u16], n: usize) -> &[u16]
    requires { (length cells.now ≡ table_size) × (n < 256) }
    ensures { result.now ≡ text_at cells.now n }
{
    let start = 2 + ROW_SIZE * n;
    let end = start + length_at(cells, n);
    &cells[start..end]
}

// The code units of a string: none for a number that was not entered.
fn text_of(cells: &[u16], n: u64) -> &[u16]
    ensures { result.now ≡ text_of (read_table cells.now) n }
{
    if is_table(cells) && n < u64::from(cells[0]) {
        return text_at(cells, n as usize);
    }
    &[]
}

// The length of string n, and 0 for a number that was not entered.
pub fn length_of(cells: &[u16], n: u64) -> usize
    ensures { result ≡ length_of (read_table cells.now) n }
{
    text_of(cells, n).len()
}

// 6.1.7: the array index that string n is, if it is one.
pub fn array_index_of(cells: &[u16], n: u64) -> Option<u64>
    ensures { result ≡ (array_index (text_of (read_table cells.now) n)) }
{
    indices::array_index(text_of(cells, n))
}
