ghost use Rattle.std.specs.Prelude.{◌≡◌, ℕ, ◌<◌, ◌⊎◌, List, length, Result};
ghost use Rattle.bsv_design.specs.declared.attributes.Pair.{Pair};
ghost use Rattle.bsv_graph.specs.declared.edge.Edge.{Edge};
ghost use Rattle.bsv_schedule.specs.execution_order.Orders.{
  ExecutionOrder,
  WireCycle,
  ValueClash,
  ExecutionCycle,
  Executes,
};
ghost use Rattle.bsv_graph.specs.Orders.{IsLeastOrder, IsBefore};
ghost use Rattle.bsv_schedule.specs.relating.Relating.{Relating, Agrees, feed_edges};
ghost use Rattle.bsv_schedule.specs.stopping.Stops.{AreStops, Ordered};
ghost use Rattle.bsv_schedule.specs.urgency_order.Orders.{
  UrgencyOrder,
  UrgencyCycle,
  MethodBehindRule,
  Urges,
};
ghost use Rattle.bsv_graph.specs.Walks.{HasEdge, IsAcyclic};
ghost use Rattle.bsv_schedule.specs.declared.execution_order.fault.OrderFault.{OrderFault};
ghost use Rattle.bsv_schedule.specs.declared.urgency_order.fault.UrgencyFault.{UrgencyFault};
ghost use Rattle.bsv_schedule.specs.execution_order.Answers.{IsExecutionAnswer};
ghost use Rattle.bsv_schedule.specs.urgency_order.Answers.{IsUrgencyAnswer};

/// There is at most one least order, and so one execution order and one urgency order; and where these are given, each
/// element stops the same others.
pub fn one_order()
    ensures least { (n : ℕ) (es : List Edge) (xs ys : List ℕ)
        → IsLeastOrder n es xs → IsLeastOrder n es ys → xs ≡ ys }
    ensures execution { (r : Relating) (xs ys : List ℕ)
        → ExecutionOrder r xs → ExecutionOrder r ys → xs ≡ ys }
    ensures urgency { (r : Relating) (xs ys : List ℕ)
        → UrgencyOrder r xs → UrgencyOrder r ys → xs ≡ ys }
    ensures stops { (r : Relating) (execution urgency : List ℕ) (xs ys : List (List ℕ))
        → AreStops r execution urgency xs → AreStops r execution urgency ys → xs ≡ ys }
{}

/// However elements relate, they have an execution order or one of the faults, and where their feeds have no cycle, an
/// urgency order or one of the faults; and each two lists say what stops what.
pub fn answered()
    ensures execution { (r : Relating)
        → ((xs : List ℕ) × Executes r xs)
        ⊎ ((a : ℕ) × WireCycle r a)
        ⊎ ((v : ℕ) × ValueClash r v)
        ⊎ ((k : ℕ) × ExecutionCycle r k × (k < length r.ordering)) }
    ensures urgency { (r : Relating) → IsAcyclic (feed_edges r)
        → ((xs : List ℕ) × Urges r xs)
        ⊎ ((k : ℕ) × UrgencyCycle r k × (k < length r.urging))
        ⊎ ((m : ℕ) × (q : ℕ) × MethodBehindRule r m q) }
    ensures stops { (r : Relating) (execution urgency : List ℕ)
        → (lists : List (List ℕ)) × AreStops r execution urgency lists }
{}

/// What a clock needs of the two orders holds of them.
pub fn ordered()
    ensures { (r : Relating) (execution urgency : List ℕ) → Agrees r
        → ExecutionOrder r execution → UrgencyOrder r urgency → Ordered r execution urgency }
{}

/// The pairs of the attributes are in the orders as they are listed.
pub fn obeyed()
    ensures execution { (r : Relating) (xs : List ℕ) (a b : ℕ) → Agrees r
        → ExecutionOrder r xs → HasEdge r.ordering a b → IsBefore xs a b }
    ensures urgency { (r : Relating) (xs : List ℕ) (a b : ℕ) → Agrees r
        → UrgencyOrder r xs → HasEdge r.urging a b → IsBefore xs a b }
{}

/// Elements that relate so have at most one answer: an execution order, or a fault.
pub fn one_execution()
    ensures { (r : Relating) (x y : Result (List ℕ) OrderFault)
        → IsExecutionAnswer r x → IsExecutionAnswer r y → x ≡ y }
{}

/// Elements that relate so have at most one answer: an urgency order, or a fault.
pub fn one_urgency()
    ensures { (r : Relating) (pairs : List Pair) (x y : Result (List ℕ) UrgencyFault)
        → IsUrgencyAnswer r pairs x → IsUrgencyAnswer r pairs y → x ≡ y }
{}
