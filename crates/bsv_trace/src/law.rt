ghost use Rattle.std.specs.Prelude.{◌≡◌, ◌⊎◌, ℕ, List, map};
ghost use Rattle.bsv_design.specs.design.Designs.{DesignData, IsDesign};
ghost use Rattle.bsv_design.specs.scheme.Schemes.{Asking, Outline, outline};
ghost use Rattle.bsv_trace.specs.Lines.{AreMethods, AsksFor};

/// A line of a trace has one meaning: it does not ask for two things, and of each line it is
/// decided whether it asks for something. That is so where no two methods have one name, no name
/// has an opening bracket, and every argument has 1 to 128 bits. The methods of a design are such.
pub fn one_request()
    ensures only { (outlines : List Outline) (line : List ℕ) (q other : Asking)
        → AreMethods outlines → AsksFor outlines line q → AsksFor outlines line other
        → other ≡ q }
    ensures decided { (outlines : List Outline) (line : List ℕ) → AreMethods outlines
        → ((q : Asking) × AsksFor outlines line q)
        ⊎ ((q : Asking) → AsksFor outlines line q → ⊥) }
    ensures design { (b : DesignData) → IsDesign b → AreMethods (map outline b.elements) }
{}
