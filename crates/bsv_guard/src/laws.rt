ghost use Rattle.bsv_design.specs.design.Designs.{DesignData, IsDesign};
ghost use Rattle.bsv_design.specs.scheme.Schemes.{Scheme, AreAlike, design_scheme};
ghost use Rattle.bsv_guard.specs.ElementLaws.{ElementLaws};
ghost use Rattle.bsv_guard.specs.Fitting.{DesignFits, FittingLaws, IsFitting};
ghost use Rattle.bsv_guard.specs.Sound.{IsSound};
ghost use Rattle.bsv_guard.specs.Turns.{TurnLaws};

/// A law of every scheme: what holds of one element follows from few facts on what it does.
pub fn sound_schemes()
    // A sound scheme keeps the laws of one element.
    ensures elements { (S : Scheme) → IsSound S → ElementLaws S }
    // It keeps more of them where words have their widths.
    ensures fitting { (S : Scheme) → IsSound S → IsFitting S → FittingLaws S }
    // An element that is ready can be run whole.
    ensures turns { (S : Scheme) → IsSound S → IsFitting S → TurnLaws S }
    // What is like a sound scheme is sound.
    ensures alike { (S T : Scheme) → AreAlike S T → IsSound S → IsSound T }
    ensures fitting_alike { (S T : Scheme) → AreAlike S T → IsFitting S → IsFitting T }
{}

/// A law of every design: its scheme is sound, and its words have their widths.
pub fn sound_designs()
    ensures sound { (b : DesignData) → IsDesign b → IsSound (design_scheme b) }
    ensures fitting { (b : DesignData) → IsDesign b → IsFitting (design_scheme b) }
    ensures fits { (b : DesignData) → IsDesign b → DesignFits b }
{}
