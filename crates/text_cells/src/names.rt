// The names of the first line.
ghost use Rattle.std.specs.Prelude.{◌≡◌, [], ◌<◌, ◌≤◌, length, get_or, MatchOption};
ghost use Rattle.text.specs.Strings.{number_of};
ghost use Rattle.text_form.specs.Cells.{cells_of};
ghost use Rattle.text_form.specs.Lines.{names, columns_of};
ghost use Rattle.text_cells.specs.Answers.{Located, told};

use crate::cells;

fn name_of(column: u64) -> &'static [u8]
    requires { column < 7 }
    ensures { result.now ≡ get_or names column [] }
{
    match column {
        0 => b"step",
        1 => b"object",
        2 => b"key",
        3 => b"value",
        4 => b"receiver",
        5 => b"descriptor",
        _ => b"sheet",
    }
}

// The column in which a name stands first.
fn column_of(line: &[u8], starts: &[usize; 8], name: &[u8]) -> Option<u64>
    requires { Located line.now starts.now × (length (cells_of line.now) ≡ 7) }
    ensures { MatchOption result (number_of (cells_of line.now) name.now ≡ None) (λ i. (number_of (cells_of line.now) name.now ≡ Some i) × (i < 7)) }
{
    (0..7).find(|i| cells::cell_in(line, starts, *i) == name)
}

// The columns of the seven names. False where the line is another.
// (Into seven words that the caller has; `text_reader::columns_in` makes an `Option` of it.)
pub fn put_columns(line: &[u8], columns: &mut [u64]) -> bool
    requires { (length line.now ≤ 16384) × (length columns.old ≡ 7) }
    ensures { told result columns.new ≡ columns_of line.now }
{
    let Some(starts) = cells::cells_of(line) else {
        return false;
    };
    for name in 0..7 {
        match column_of(line, &starts, name_of(name)) {
            Some(column) => columns[name as usize] = column,
            None => return false,
        }
    }
    true
}
