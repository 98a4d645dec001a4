// Rows that have a number for each segment.
ghost use Rattle.std.specs.Prelude.{◌≡◌};
ghost use Rattle.state.specs.Record.{of_segment};

// The number of a segment; 0 past the sixteenth.
pub fn of_segment(rows: &[u16; 16], segment: u8) -> u16
    ensures { result ≡ of_segment rows.now segment }
{
    if 16 <= segment {
        return 0;
    }
    let i = segment as usize;
    rows[i]
}
