ghost use Rattle.std.specs.Prelude.{◌≡◌, ℕ, Bool, List};
ghost use Rattle.bsv_bits.specs.Words.{Bits};
ghost use Rattle.bsv_design.specs.scheme.Seen.{design_data};
ghost use Rattle.bsv_design.specs.declared.design.Design.{Design as TheDesign};
ghost use Rattle.bsv_design.specs.scheme.Schemes.{Scheme, Asking, AreAlike, design_scheme};
ghost use Rattle.bsv_design.specs.scheme.States.{emptied};
ghost use Rattle.bsv_design.specs.declared.fired.Fired.{Fired};
ghost use Rattle.bsv_design.specs.declared.schedule.Schedule.{Schedule};
ghost use Rattle.bsv_schedule.specs.relating.Elements.{relating};
ghost use Rattle.bsv_schedule.specs.relating.Relating.{Agrees};
ghost use Rattle.bsv_prim.specs.declared.part.Part.{Part};
ghost use Rattle.bsv_clock.specs.Shows.{Carries, Cell, Given};
ghost use Rattle.bsv_clock.specs.Clocks.{IsClock};
ghost use Rattle.bsv_clock.specs.Events.{Happens, TellAlike, results_in_turn, results_under};
ghost use Rattle.bsv_clock.specs.Feeding.{IsFed};
ghost use Rattle.bsv_clock.specs.Grounds.{BelongTogether, Fit, IsLawful, IsScheduleOf, KeepsRules};
ghost use Rattle.bsv_clock.specs.Grounds.{PreemptsNameRules};
ghost use Rattle.bsv_clock.specs.Looks.{calls_in_turn};
ghost use Rattle.bsv_clock.specs.Runs.{AllFit, Row, Runs, TellRunsAlike};
ghost use Rattle.bsv_clock.specs.Settling as settling;
ghost use Rattle.bsv_clock.specs.Settling.{Doing, IsSettled, DoesWithin, RestsOnUrgent};
ghost use Rattle.bsv_clock.specs.Settling.{SeesRestOnUrgent, deeds, end_of, fired_in, look_of};
ghost use Rattle.bsv_clock.specs.Steadiness.{IsSteady, LooksDecide};
ghost use Rattle.bsv_clock.specs.Values.{AreQuiet, AskAlike, HappenAlike};

/// What the laws of a clock ask holds of every design in which no two calls of one element break the
/// rule of one element, and of what is like such a design, as the tree from which it was made.
pub fn lawful()
    ensures designs { (d : TheDesign) → KeepsRules (design_scheme (design_data d))
        → IsLawful (design_scheme (design_data d)) }
    ensures agrees { (d : TheDesign) → Agrees (relating (design_scheme (design_data d))) }
    ensures named { (d : TheDesign) → PreemptsNameRules (relating (design_scheme (design_data d))) }
    ensures alike { (S T : Scheme) → AreAlike S T → IsLawful S → IsLawful T }
    ensures schedule_alike { (S T : Scheme) (made : Schedule) → AreAlike S T
        → IsScheduleOf S made → IsScheduleOf T made }
    ensures fit_alike { (S T : Scheme) (q : Asking) (s : List Part) → AreAlike S T
        → Fit S q s → Fit T q s }
{}

/// The law of steadiness: an element that is ready under the look after elements that go before it and
/// each other is ready after them, and does the same. What an element does rests on the parts alone at
/// which its methods look.
pub fn steady()
    ensures steady { (aggressive : Bool) (S : Scheme) → IsLawful S → IsSteady aggressive S }
    ensures looks { (aggressive : Bool) (S : Scheme) → IsLawful S → LooksDecide aggressive S }
{}

/// By urgency it settles what each element does in a clock: each decision rests on the more urgent
/// elements alone, there is one way in which all are as decided, and that is the clock.
pub fn settled()
    ensures rests { (aggressive : Bool) (S : Scheme) (made : Schedule) → IsLawful S
        → IsScheduleOf S made → RestsOnUrgent aggressive S made }
    ensures sees { (S : Scheme) (made : Schedule) → IsScheduleOf S made → SeesRestOnUrgent S made }
    ensures settles { (aggressive : Bool) (S : Scheme) (made : Schedule) (q : Asking)
        (s : List Part)
        → IsLawful S → IsScheduleOf S made
        → IsSettled aggressive S made q s (settling.the_clock aggressive S made q s) }
    ensures within { (aggressive : Bool) (S : Scheme) (made : Schedule) (q : Asking) (s : List Part)
        → IsLawful S → DoesWithin S (settling.the_clock aggressive S made q s) }
    ensures one { (aggressive : Bool) (S : Scheme) (made : Schedule) (q : Asking) (s : List Part)
        (D : Doing) → IsLawful S → IsScheduleOf S made → IsSettled aggressive S made q s D
        → (n : ℕ) → D n ≡ settling.the_clock aggressive S made q s n }
    ensures calls { (aggressive : Bool) (S : Scheme) (made : Schedule) (q : Asking) (s : List Part)
        → BelongTogether S made q s
        → calls_in_turn S q (emptied S.kinds s)
        (fired_in made (settling.the_clock aggressive S made q s))
        ≡ deeds (settling.the_clock aggressive S made q s) made.execution }
    ensures results { (aggressive : Bool) (S : Scheme) (made : Schedule) (q : Asking)
        (s : List Part)
        → BelongTogether S made q s
        → results_in_turn S q (emptied S.kinds s)
        (fired_in made (settling.the_clock aggressive S made q s))
        ≡ results_under S q (look_of S made s (settling.the_clock aggressive S made q s))
        (fired_in made (settling.the_clock aggressive S made q s)) }
{}

/// From each state that fits, with requests that fit, there is exactly one clock: one list of elements
/// that fire, and one state after it.
pub fn one_clock()
    ensures some { (aggressive : Bool) (S : Scheme) (made : Schedule) (q : Asking) (s : List Part)
        → BelongTogether S made q s
        → IsClock aggressive S made q s
        (fired_in made (settling.the_clock aggressive S made q s))
        (end_of S made s (settling.the_clock aggressive S made q s)) }
    ensures fired { (aggressive : Bool) (S : Scheme) (made : Schedule) (q : Asking) (s : List Part)
        (fired others : List ℕ) (after end : List Part) → BelongTogether S made q s
        → IsClock aggressive S made q s fired after → IsClock aggressive S made q s others end
        → fired ≡ others }
    ensures after { (aggressive : Bool) (S : Scheme) (made : Schedule) (q : Asking) (s : List Part)
        (fired others : List ℕ) (after end : List Part) → BelongTogether S made q s
        → IsClock aggressive S made q s fired after → IsClock aggressive S made q s others end
        → after ≡ end }
{}

/// What the parts are given in a clock is what the laws of their kinds ask for.
pub fn fed()
    ensures { (aggressive : Bool) (S : Scheme) (made : Schedule) (q : Asking) (s : List Part)
        → BelongTogether S made q s
        → IsFed S made s (settling.the_clock aggressive S made q s) }
{}

/// Value methods stop nothing, and nothing stops them; asking one changes nothing else of the clock.
pub fn value_methods()
    ensures quiet { (S : Scheme) (made : Schedule) → IsLawful S → IsScheduleOf S made
        → AreQuiet S made }
    ensures free { (aggressive : Bool) (S : Scheme) (made : Schedule) (q r : Asking) (s : List Part)
        → IsLawful S → IsScheduleOf S made → AskAlike S q r
        → HappenAlike aggressive S made q r s }
{}

/// What happens in a clock is one, and so is a run; and schemes that do the same run the same.
pub fn one_run()
    ensures told { (aggressive : Bool) (S : Scheme) (made : Schedule) (q : Asking) (s : List Part)
        (fired others : Fired) (after end : List Part) → BelongTogether S made q s
        → Happens aggressive S made q s fired after → Happens aggressive S made q s others end
        → TellAlike fired others }
    ensures runs { (aggressive : Bool) (S : Scheme) (made : Schedule) (qs : List Asking)
        (rows others : List Row) → IsLawful S → IsScheduleOf S made
        → AllFit S qs
        → Runs aggressive S made qs rows → Runs aggressive S made qs others
        → TellRunsAlike rows others }
    ensures alike { (aggressive : Bool) (S T : Scheme) (made : Schedule) (q : Asking)
        (s : List Part)
        (fired : Fired) (after : List Part) → AreAlike S T
        → Happens aggressive S made q s fired after → Happens aggressive T made q s fired after }
{}

/// Hardware that carries a scheme carries each one that does the same, as the tree from which a design was
/// made.
pub fn carried()
    ensures { (aggressive : Bool) (S T : Scheme) (made : Schedule) (cells : List Cell)
        (widths : List ℕ) (gives : List Bits → List Bits → Given) → AreAlike S T
        → Carries aggressive S made cells widths gives → Carries aggressive T made cells widths
        gives }
{}
