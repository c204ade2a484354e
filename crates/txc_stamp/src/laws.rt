//! Lemmas about the definitions. They have no code.
ghost use Rattle.std.specs.Prelude.{◌≡◌, ◌↔◌, ◌≤◌, ◌&&◌, ℕ, max, IfSome, IsNone};
ghost use Rattle.txc_stamp.specs.Interval.{Interval, Spans, Holds, meet_of};

/// A meet holds at a stamp exactly if both reaches hold there.
pub fn meet_holds_where_both_hold()
    ensures { (a b : Interval) (stamp : ℕ)
        → IfSome (meet_of a b) (λ m. Holds m stamp ↔ (Holds a stamp × Holds b stamp)) }
{}

/// A meet is `None` exactly if no stamp is held by both.
pub fn meet_is_none_where_none_holds()
    ensures { (a b : Interval)
        → IsNone (meet_of a b) ↔ ((stamp : ℕ) → ¬ (Holds a stamp × Holds b stamp)) }
{}

/// A meet is still valid exactly if both are.
pub fn meet_is_still_where_both_are()
    ensures { (a b : Interval) → IfSome (meet_of a b) (λ m. m.still ≡ a.still && b.still) }
{}

/// A span contains no stamp beyond the greater of `known` and the last processed stamp.
pub fn span_ends()
    ensures { (i : Interval) (processed stamp : ℕ)
        → Spans processed i stamp → stamp ≤ max i.known processed }
{}
