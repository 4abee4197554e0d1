ghost use Rattle.std.specs.Prelude.{◌≡◌};
ghost use Rattle.bsv_flow.specs.Positions as spec;

/// The line and the column of a byte, counted from 1.
pub(crate) fn position(source: &[u8], at: u32) -> (u64, u64)
    ensures line { result.0 ≡ spec.line source.now at }
    ensures column { result.1 ≡ spec.column source.now at }
{
    let front = &source[..source.len().min(at as usize)];
    let mut line = 1;
    let mut column = 1;
    for byte in front {
        if *byte == b'\n' {
            line += 1;
            column = 1;
        } else {
            column += 1;
        }
    }
    (line, column)
}
