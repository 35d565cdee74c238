//! Theorems about the definitions in `specs/` alone. Each function's contract states one, and its
//! body is empty.

ghost use Rattle.std.specs.Prelude.{◌≡◌, ◌≤◌, ◌+◌, ◌*◌, ◌↔◌, ◌++◌, ℕ, List, [], drop, length};
ghost use Rattle.std.specs.Prelude.{All, Contains, map};
ghost use Rattle.std.specs.List.Sorted.{IsStrictlyIncreasing};
ghost use Rattle.nl_attr.specs.Fixed as fixed;
ghost use Rattle.nl_attr.specs.declared.order.Order.{Order};
ghost use Rattle.nl_attr.specs.declared.fault.Reason.{Reason};
ghost use Rattle.nl_attr.specs.declared.broken.BrokenHead.{BrokenHead};
ghost use Rattle.nl_attr.specs.Shape.{Shape};
ghost use Rattle.nl_attr.specs.Numbers.{aligned, AreBytes};
ghost use Rattle.nl_frame.specs.Message.{MessageVal};
ghost use Rattle.nl_frame.specs.Layout.{Layout};
ghost use Rattle.nl_frame.specs.Broken.{IsBrokenHead};
ghost use Rattle.nl_frame.specs.Heads.{AnyHead, Rest, FaultAt, IsFirstFault, Visits, place_of};
ghost use Rattle.nl_frame.specs.Heads.{whole};
ghost use Rattle.nl_attr.specs.Listed.{rounded};
ghost use Rattle.nl_frame.specs.Listed.{messages_events};
ghost use Rattle.nl_frame.specs.HeadOrder.{ComesUpTo, IsEnd, StandsIn, events_of, trail_of};
ghost use Rattle.nl_frame.specs.Limits.{Bounds, AreLimits};
ghost use Rattle.nl_frame.specs.OneList.{IsTheList};
ghost use Rattle.nl_frame.specs.Written.{written, written_len};
ghost use Rattle.nl_frame.specs.Building.{Built, nothing_built};
ghost use Rattle.nl_frame.specs.Calls.{Call, IsCall, KeepsRoom, called, calls_of, put_by_all, run};
ghost use Rattle.nl_frame.specs.Draft.{Draft, Holds};
ghost use Rattle.nl_frame.specs.declared.building.refusal.BuildError.{BuildError};
ghost use Rattle.std.specs.List.{AllByRecursion};
ghost use Rattle.nl_frame.specs.Proper.{IsMismatched, IsProper, IsRanged};

/// At most one list of messages is the layout of a datagram.
#[tactic(auto, using(crate::proofs::Firsts::one_layout))]
pub fn one_layout()
    ensures { (s : Shape) (d : List ℕ) (ms ns : List MessageVal)
        → Layout s ms d → Layout s ns d → ms ≡ ns }
{}

/// Some list of messages is the layout of a datagram exactly where no header breaks a rule.
pub fn layout_or_fault()
    ensures { (s : Shape) (d : List ℕ) → AreBytes d → ((ms : List MessageVal) × Layout s ms d)
        ↔ ((p : ℕ) (r : Reason) → FaultAt s (whole d) p r → ⊥) }
{}

/// A datagram has at most one first error.
pub fn one_first_fault()
    ensures { (s : Shape) (d : Rest) (p q : ℕ) (r t : Reason)
        → IsFirstFault s d p r → IsFirstFault s d q t → (p ≡ q) × (r ≡ t) }
{}

/// At most one header breaks a rule at an offset of a datagram. So the offset of an error says
/// which header is meant.
pub fn one_head_at_fault()
    ensures { (s : Shape) (d : Rest) (b c : BrokenHead) → IsBrokenHead s d b
        → IsBrokenHead s d c → b.fault.place ≡ c.fault.place → b ≡ c }
{}

/// The layout of a datagram, where all limits are in range, is written back. The bytes written are
/// within the same limits, and have it for their one layout.
#[tactic(auto, using(crate::proofs::ProperLayouts::the_list))]
pub fn written_back()
    ensures { (b : Bounds) (d : List ℕ) (ms : List MessageVal) → AreLimits b → AreBytes d
        → length d ≤ b.datagram → Layout b.shape ms d → IsTheList b d ms }
{}

/// The visits of a datagram up to any offset are at most its length, times the depth limit plus
/// one.
pub fn visits_are_bounded()
    ensures { (s : Shape) (d : List ℕ) (q total : ℕ)
        → Visits s (whole d) q total → total ≤ (s.depth + 1) * length d }
{}

/// The visits up to an offset have exactly one sum, also where a header before it breaks a rule.
pub fn one_sum()
    ensures some { (s : Shape) (d : Rest) (q : ℕ) → (total : ℕ) × Visits s d q total }
    ensures only { (s : Shape) (d : Rest) (q a b : ℕ) → Visits s d q a → Visits s d q b → a ≡ b }
{}

/// A scan visits the headers of a datagram each once, in the order of their offsets: each
/// message's, and behind it those in its body. It visits all of them where none breaks a rule,
/// else those up to the first that does.
pub fn heads_in_order()
    // Each stands there: a message that breaks no rule, or a header whose length is within bounds.
    ensures each { (s : Shape) (r : Rest) → All (StandsIn s r) (trail_of s r).0 }
    // Their offsets rise.
    ensures order { (s : Shape) (r : Rest)
        → IsStrictlyIncreasing (map place_of (trail_of s r).0) }
    // They end at the first error, or where no header breaks a rule.
    ensures end { (s : Shape) (r : Rest) → IsEnd s r (trail_of s r).1 }
    // All that stand there before that end are among them, and no other is.
    ensures all { (s : Shape) (r : Rest) (h : AnyHead) → Contains (trail_of s r).0 h
        ↔ (StandsIn s r h × ComesUpTo (trail_of s r).1 h) }
{}

/// Where messages are the layout of a datagram, the events of a scan are theirs: of each message
/// its offset, type and length, and behind it one for each attribute and next hop, in order.
/// Lengths are rounded up, but for an attribute's bytes, since the last padding may be absent.
#[tactic(auto, using(crate::proofs::Listed::layout_events))]
pub fn heads_of_layout()
    ensures { (s : Shape) (d : List ℕ) (ms : List MessageVal) → Layout s ms d
        → map rounded (events_of s (whole d)) ≡ messages_events 0 ms }
{}

/// The length that messages are written as doesn't depend on the byte order.
#[tactic(auto, using(crate::proofs::WrittenLayouts::written_length))]
pub fn written_length()
    ensures { (o : Order) (ms : List MessageVal) → length (written o ms) ≡ written_len ms }
{}

/// Messages that can be written are the layout of the bytes that they are written as.
#[tactic(auto, using(crate::proofs::WrittenLayouts::written_has_layout))]
pub fn written_has_layout()
    ensures { (s : Shape) (ms : List MessageVal)
        → IsProper ms s.depth → IsRanged ms → Layout s ms (written s.order ms) }
{}

/// Messages that are a datagram's layout can be written. They are as long as the datagram with its
/// last padding whole.
#[tactic(auto, using(crate::proofs::ProperLayouts::proper))]
pub fn layout_is_proper()
    ensures proper { (s : Shape) (ms : List MessageVal) (d : List ℕ)
        → Layout s ms d → length d ≤ fixed.LONGEST_REGION → IsProper ms s.depth }
    ensures len { (s : Shape) (ms : List MessageVal) (d : List ℕ)
        → Layout s ms d → written_len ms ≡ aligned (length d) }
    ensures ranged { (s : Shape) (ms : List MessageVal) (d : List ℕ)
        → AreBytes d → Layout s ms d → IsRanged ms }
{}

/// What a builder has built after any sequence of calls.
pub fn calls_build()
    // Where no call fails, what is built holds what was put, in the order of the calls.
    ensures puts { (b : Built) (d : Draft) (L : Bounds) (cs : List Call) → AllByRecursion IsCall cs
        → Holds L b d → (run b cs).refusal ≡ None → Holds L (run b cs) (put_by_all d cs) }
    // An error sticks: no call behind it changes anything.
    ensures sticks { (b : Built) (cs : List Call) (e : BuildError)
        → b.refusal ≡ Some e → run b cs ≡ b }
    // A call that fails changes nothing but the error that is kept.
    ensures refused { (b : Built) (c : Call) (e : BuildError) → (called b c).refusal ≡ Some e
        → called b c ≡ record b { refusal = Some e } }
    // The limits stay those that the builder was made with.
    ensures limits { (b : Built) (cs : List Call) → (run b cs).bounds ≡ b.bounds }
    // No more bytes are used than the slice has. Those behind the accepted ones stay as they were.
    ensures room { (b : Built) (d : Draft) (L : Bounds) (cs : List Call) → AllByRecursion IsCall cs
        → Holds L b d → KeepsRoom b (run b cs) }
{}

/// What a builder has built after the calls that put a list of messages.
pub fn calls_of_messages()
    // They put these messages, where no message is open.
    ensures puts { (d : Draft) (ms : List MessageVal) → d.layers ≡ [] → (IsMismatched ms → ⊥)
        → put_by_all d (calls_of ms) ≡ record d { ended = d.ended ++ ms } }
    // Where these can be written within the limits and the slice, no call fails. The bytes built
    // are those that the messages are written as, and the slice behind them is as it was.
    ensures builds { (L : Bounds) (free : List ℕ) (ms : List MessageVal) → AreLimits L
        → IsProper ms L.shape.depth → IsRanged ms → written_len ms ≤ L.datagram
        → written_len ms ≤ length free → run (nothing_built L free) (calls_of ms)
        ≡ record (nothing_built L free) {
          front = written L.shape.order ms;
          free = drop (written_len ms) free;
        } }
{}
