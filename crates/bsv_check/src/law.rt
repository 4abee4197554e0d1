ghost use Rattle.bsv_check.specs.Rightness.{ProgramsRight};

/// A program that is typed with widths and fits is in order.
pub fn programs_are_right()
    ensures { ProgramsRight }
{}
