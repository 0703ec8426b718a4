// The 58 bytes of a step from the cells of a line.
ghost use Rattle.std.specs.Prelude.{◌≡◌, length};
ghost use Rattle.text_form.specs.Cells.{cells_of};
ghost use Rattle.text_form.specs.Lines.{record_in};
ghost use Rattle.text_cells.specs.Answers.{Located, told, AreColumns};

use crate::cells::cell_in;
use crate::hexadecimal::put_part;

// How many bytes the part of each name has.
const SIZES: [usize; 6] = [1, 1, 9, 9, 9, 29];

// Into lent bytes; false where a cell is broken, and the bytes are then of no account. Parts differ in size, so the place is counted by itself.
pub fn put_record(line: &[u8], starts: &[usize; 8], columns: &[u64], bytes: &mut [u8]) -> bool
    requires { Located line.now starts.now × (AreColumns columns.now × (length bytes.old ≡ 58)) }
    ensures { told result bytes.new ≡ record_in columns.now (cells_of line.now) }
{
    let mut at = 0;
    for (name, size) in SIZES.iter().enumerate() {
        let end = at + *size;
        if !put_part(cell_in(line, starts, columns[name]), &mut bytes[at..end]) {
            return false;
        }
        at = end;
    }
    true
}
