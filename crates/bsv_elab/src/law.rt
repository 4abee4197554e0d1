ghost use Rattle.bsv_elab.specs.Rightness.{TreesRight};

/// What is built of a typed program is a tree.
pub fn trees_are_right()
    ensures { TreesRight }
{}
