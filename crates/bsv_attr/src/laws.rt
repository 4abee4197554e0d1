ghost use Rattle.std.specs.Prelude.{◌≡◌, ◌↔◌, ℕ, Result};
ghost use Rattle.bsv_attr.specs.declared.fault.AttrFault.{AttrFault};
ghost use Rattle.bsv_attr.specs.Asserting.{IsAccepted, IsAnswer, NamesImplicit, NamesStopper};
ghost use Rattle.bsv_attr.specs.Obeying.{Obeys};
ghost use Rattle.bsv_schedule.specs.relating.Elements.{relating};
ghost use Rattle.bsv_attr.specs.Stopping.{ListStops};
ghost use Rattle.bsv_design.specs.declared.schedule.Schedule.{Schedule};
ghost use Rattle.bsv_design.specs.declared.design.Design.{Design as TheDesign};
ghost use Rattle.bsv_design.specs.scheme.Schemes.{Scheme, AreAlike, design_scheme};
ghost use Rattle.bsv_design.specs.scheme.Seen.{design_data};
ghost use Rattle.bsv_schedule.specs.execution_order.Orders.{ExecutionOrder};
ghost use Rattle.bsv_graph.specs.Orders.{In};
ghost use Rattle.bsv_schedule.specs.relating.Relating.{Relating, Agrees};
ghost use Rattle.bsv_schedule.specs.stopping.Stops.{Stops, AreStops};
ghost use Rattle.bsv_schedule.specs.urgency_order.Orders.{UrgencyOrder};

use bsv_schedule::obeyed as pairs_obeyed;

/// Whatever a schedule is, the marks of a scheme have one answer.
pub fn answered()
    ensures some { (S : Scheme) (s : Schedule)
        → (answer : Result (Unit {0}) AttrFault) × IsAnswer S s answer }
    ensures one { (S : Scheme) (s : Schedule) (x y : Result (Unit {0}) AttrFault)
        → IsAnswer S s x → IsAnswer S s y → x ≡ y }
{}

/// Where the lists of a schedule have what each element stops, an element is in the list of another exactly where that
/// one stops it.
pub fn listed()
    ensures { (r : Relating) (s : Schedule) (f n : ℕ) → Agrees r → UrgencyOrder r s.urgency
        → AreStops r s.execution s.urgency s.stops
        → (In s.urgency f × ListStops s.stops f n) ↔ Stops r s.execution s.urgency f n }
{
    pairs_obeyed();
}

/// The schedule of a design obeys the attributes, where both orders are the design's, its lists have what each element
/// stops, and the asserting attributes are accepted.
pub fn obeyed()
    ensures { (d : TheDesign) (s : Schedule)
        → ExecutionOrder (relating (design_scheme (design_data d))) s.execution
        → UrgencyOrder (relating (design_scheme (design_data d))) s.urgency
        → AreStops (relating (design_scheme (design_data d))) s.execution s.urgency s.stops
        → IsAccepted (design_scheme (design_data d)) s → Obeys (design_scheme (design_data d)) s }
{
    pairs_obeyed();
}

/// A schedule that obeys the attributes of a scheme obeys those of a scheme that does the same.
pub fn same_obeyed()
    ensures { (S T : Scheme) (s : Schedule) → AreAlike S T → Obeys T s → Obeys S s }
{}

/// What the asserting attributes refuse in a scheme they refuse in a scheme that does the same.
pub fn same_asserted()
    ensures accepted { (S T : Scheme) (s : Schedule) → AreAlike S T
        → IsAccepted S s ↔ IsAccepted T s }
    ensures no_implicit { (S T : Scheme) (r place : ℕ) → AreAlike S T
        → NamesImplicit S r place ↔ NamesImplicit T r place }
    ensures fires { (S T : Scheme) (s : Schedule) (r f : ℕ) → AreAlike S T
        → NamesStopper S s r f ↔ NamesStopper T s r f }
{}
