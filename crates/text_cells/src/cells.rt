// Where the seven cells of a line stand.
ghost use Rattle.std.specs.Prelude.{◌≡◌, ◌≢◌, [], ◌+◌, ◌<◌, ◌≤◌, length, get_or, drop, MatchOption};
ghost use Rattle.text_form.specs.Cells.{until, cells_of};
ghost use Rattle.text_cells.specs.Answers.{Located};

// The place of the next separator, or the end.
pub fn next_separator(bytes: &[u8], from: usize, separator: u8) -> usize
    requires { from ≤ length bytes.now }
    ensures { (result ≡ from + until separator (drop from bytes.now)) × (result ≤ length bytes.now) }
{
    let rest = &bytes[from..];
    from + rest
        .iter()
        .position(|b| *b == separator)
        .unwrap_or(rest.len())
}

// Where each cell starts, and the one behind the last would, if there are seven.
// (A separator is where it is found, so the place goes from cell to cell.)
pub fn cells_of(line: &[u8]) -> Option<[usize; 8]>
    requires { length line.now ≤ 16384 }
    ensures { MatchOption result (length (cells_of line.now) ≢ 7) (λ starts. (length (cells_of line.now) ≡ 7) × Located line.now starts) }
{
    let mut starts = [0usize; 8];
    let mut at: usize = 0;
    for i in 0..7 {
        if line.len() < at {
            return None;
        }
        at = next_separator(line, at, b' ') + 1;
        starts[i + 1] = at;
    }
    (at == line.len() + 1).then_some(starts)
}

// The cell of a column.
pub fn cell_in<'a, 'b>(line: &'a [u8], starts: &'b [usize; 8], column: u64) -> &'a [u8]
    requires { Located line.now starts.now × (column < 7) }
    ensures { result.now ≡ get_or (cells_of line.now) column [] }
{
    let i = column as usize;
    let from = starts[i];
    let end = starts[i + 1] - 1;
    &line[from..end]
}
