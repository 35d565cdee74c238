//! Theorems about the definitions in `specs/` alone. Each function's contract states one, and its
//! body is empty.

ghost use Rattle.std.specs.Prelude.{◌≡◌, ◌≤◌, ◌<◌, ◌+◌, ◌-◌, ◌*◌, ◌^◌, ◌↔◌};
ghost use Rattle.std.specs.Prelude.{◌++◌, drop, ℕ, ℤ, List, length, FitsSigned};
ghost use Rattle.std.specs.Prelude.{All, Contains, map};
ghost use Rattle.std.specs.Int.{w32, cast_unsigned};
ghost use Rattle.std.specs.List.Sorted.{IsStrictlyIncreasing};
ghost use Rattle.nl_attr.specs.Fixed as fixed;
ghost use Rattle.nl_attr.specs.declared.order.Order.{Order};
ghost use Rattle.nl_attr.specs.declared.tree.Ctx.{Ctx};
ghost use Rattle.nl_attr.specs.declared.fault.Reason.{Reason};
ghost use Rattle.nl_attr.specs.declared.broken.BrokenHead.{BrokenHead};
ghost use Rattle.nl_attr.specs.Broken.{IsBrokenHead};
ghost use Rattle.nl_attr.specs.Shape.{Shape};
ghost use Rattle.nl_attr.specs.Numbers.{aligned, num, number_of, AreBytes};
ghost use Rattle.nl_attr.specs.Tree.{Items};
ghost use Rattle.nl_attr.specs.Layout.{Fits};
ghost use Rattle.nl_attr.specs.Heads.{FaultAt, Head, HeadAt, IsFirstFault, IsSound, start_of};
ghost use Rattle.nl_attr.specs.HeadOrder.{ComesBefore, IsEnd, event_of, trail_of};
ghost use Rattle.nl_attr.specs.Listed.{items_events, rounded};
ghost use Rattle.nl_attr.specs.Visits.{Visits};
ghost use Rattle.nl_attr.specs.Written.{written, items_len};
ghost use Rattle.nl_attr.specs.Proper.{IsProper, IsRanged};

use crate::events::{SORT_BYTES, SORT_HOPS, SORT_LIST, SORT_MESSAGE, SORT_NEXT_HOP};
use crate::limits::{
    FARTHEST_END, LONGEST_CONTAINER, LONGEST_ITEM, LONGEST_REGION, MOST_LEVELS, MOST_VISITS,
};
use crate::tree::{
    IFLA_LINKINFO, NLA_F_NESTED, NLA_F_NET_BYTEORDER, NUMBERS, RTA_METRICS, RTA_MULTIPATH,
};

/// The constants of the code are the numbers that the definitions name.
pub fn constants_are_fixed()
    ensures attributes { (NUMBERS ≡ fixed.NUMBERS)
        × (NLA_F_NESTED ≡ fixed.NLA_F_NESTED)
        × (NLA_F_NET_BYTEORDER ≡ fixed.NLA_F_NET_BYTEORDER)
        × (IFLA_LINKINFO ≡ fixed.IFLA_LINKINFO)
        × (RTA_METRICS ≡ fixed.RTA_METRICS)
        × (RTA_MULTIPATH ≡ fixed.RTA_MULTIPATH) }
    ensures limits { (LONGEST_REGION ≡ fixed.LONGEST_REGION)
        × (LONGEST_ITEM ≡ fixed.LONGEST_ITEM)
        × (LONGEST_CONTAINER ≡ fixed.LONGEST_CONTAINER)
        × (FARTHEST_END ≡ fixed.FARTHEST_END)
        × (MOST_LEVELS ≡ fixed.MOST_LEVELS)
        × (MOST_VISITS ≡ fixed.MOST_VISITS) }
    ensures sorts { (SORT_MESSAGE ≡ fixed.SORT_MESSAGE)
        × (SORT_BYTES ≡ fixed.SORT_BYTES)
        × (SORT_LIST ≡ fixed.SORT_LIST)
        × (SORT_HOPS ≡ fixed.SORT_HOPS)
        × (SORT_NEXT_HOP ≡ fixed.SORT_NEXT_HOP) }
{}

/// Bytes are the encoding of the number that they decode to, and of no other number of that size.
#[tactic(auto, using(crate::proofs::Lemmas::Numbers::number_laws))]
pub fn one_number()
    ensures below { (o : Order) (bytes : List ℕ)
        → AreBytes bytes → number_of o (length bytes) bytes < 256 ^ length bytes }
    ensures is { (o : Order) (bytes : List ℕ)
        → AreBytes bytes → num (number_of o (length bytes) bytes) (length bytes) o ≡ bytes }
    ensures front { (o : Order) (w : ℕ) (bytes : List ℕ) → AreBytes bytes
        → w ≤ length bytes → num (number_of o w bytes) w o ++ drop w bytes ≡ bytes }
    ensures only { (o : Order) (w m n : ℕ)
        → m < 256 ^ w → n < 256 ^ w → num m w o ≡ num n w o → m ≡ n }
{}

/// Four bytes are the two's complement encoding of exactly one number.
#[tactic(auto, using(crate::proofs::Lemmas::Numbers::one_signed))]
pub fn one_signed_number()
    ensures { (o : Order) (bytes : List ℕ) → AreBytes bytes
        → length bytes ≡ 4 → (z : ℤ) × FitsSigned w32 z × (num (cast_unsigned w32 z) 4 o ≡ bytes)
        × ((y : ℤ) → FitsSigned w32 y → num (cast_unsigned w32 y) 4 o ≡ bytes → y ≡ z) }
{}

/// At most one attribute list fits the bytes of a region.
pub fn one_list()
    ensures { (s : Shape) (ctx : Ctx) (l : ℕ) (bytes : List ℕ) (is js : Items)
        → Fits s is bytes ctx l → Fits s js bytes ctx l → is ≡ js }
{}

/// A list fits the bytes of a region exactly where no header in it breaks a rule.
pub fn fits_or_fault()
    ensures { (s : Shape) (ctx : Ctx) (l place : ℕ) (bytes : List ℕ)
        → AreBytes bytes → ((is : Items) × Fits s is bytes ctx l)
        ↔ ((p : ℕ) (r : Reason) → FaultAt s (start_of ctx l place bytes) p r → ⊥) }
{}

/// A region has at most one first error.
pub fn one_first_fault()
    ensures { (s : Shape) (start : Head) (p q : ℕ) (r t : Reason)
        → IsFirstFault s start p r → IsFirstFault s start q t → (p ≡ q) × (r ≡ t) }
{}

/// At most one header breaks a rule at an offset of a region. So the offset of an error says which
/// header is meant.
pub fn one_head_at_fault()
    ensures { (s : Shape) (start : Head) (b c : BrokenHead) → IsBrokenHead s start b
        → IsBrokenHead s start c → b.fault.place ≡ c.fault.place → b ≡ c }
{}

/// The visits of a region up to any offset are bounded: by its length, times the number of levels
/// from its own to the depth limit, both counted.
pub fn visits_are_bounded()
    ensures { (s : Shape) (ctx : Ctx) (l place : ℕ) (bytes : List ℕ) (q total : ℕ) → l ≤ s.depth
        → Visits s (start_of ctx l place bytes) q total → total ≤ (s.depth - l + 1) * length bytes }
{}

/// The visits up to an offset have exactly one sum, also where a header before it breaks a rule.
pub fn one_sum()
    ensures some { (s : Shape) (start : Head) (q : ℕ) → (total : ℕ) × Visits s start q total }
    ensures only { (s : Shape) (start : Head) (q a b : ℕ)
        → Visits s start q a → Visits s start q b → a ≡ b }
{}

/// A scan visits the headers of a region each once, in the order of their offsets. It visits all
/// of them where none breaks a rule, else those up to the first that does.
pub fn heads_in_order()
    // Each visited header stands in the region, and its length is within bounds.
    ensures each { (s : Shape) (start : Head)
        → All (λ h. HeadAt s start h × IsSound s h) (trail_of s start).0 }
    // Their offsets rise.
    ensures order { (s : Shape) (start : Head)
        → IsStrictlyIncreasing (map (λ h. h.place) (trail_of s start).0) }
    // They end at the first error, or where no header breaks a rule.
    ensures end { (s : Shape) (start : Head) → IsEnd s start (trail_of s start).1 }
    // All headers before that end are among them, and no other is.
    ensures all { (s : Shape) (start h : Head) → Contains (trail_of s start).0 h
        ↔ (HeadAt s start h × ComesBefore s (trail_of s start).1 h) }
{}

/// Where a list fits a region, the events of a scan are those of the list. Each attribute and next
/// hop has one, in order: its offset, level, type, flags, sort and length. The length of a nested
/// attribute is rounded up, since the padding behind its last attribute may be missing.
#[tactic(auto, using(crate::proofs::Lemmas::Listed::list_events))]
pub fn heads_of_list()
    ensures { (s : Shape) (ctx : Ctx) (l place : ℕ) (bytes : List ℕ) (is : Items)
        → Fits s is bytes ctx l
        → map rounded (map (event_of s.order) (trail_of s (start_of ctx l place bytes)).0)
        ≡ items_events place l is }
{}

/// A list is written as equally many bytes in either byte order.
#[tactic(auto, using(crate::proofs::Lemmas::Lengths::lengths))]
pub fn written_length()
    ensures { (o : Order) (is : Items) → length (written o is) ≡ items_len is }
{}

/// A list that can be written fits the bytes that it is written as.
#[tactic(auto, using(crate::proofs::Lemmas::Writing::written_fits))]
pub fn written_fits()
    ensures { (s : Shape) (ctx : Ctx) (l : ℕ) (is : Items)
        → IsProper is ctx l s.depth → IsRanged is → Fits s is (written s.order is) ctx l }
{}

/// A list that fits a region can be written. Its written length is the region's, with the last
/// padding whole.
pub fn fitting_is_proper()
    ensures proper { (s : Shape) (ctx : Ctx) (l : ℕ) (bytes : List ℕ) (is : Items)
        → Fits s is bytes ctx l → length bytes ≤ fixed.LONGEST_REGION → IsProper is ctx l s.depth }
    ensures len { (s : Shape) (ctx : Ctx) (l : ℕ) (bytes : List ℕ) (is : Items)
        → Fits s is bytes ctx l → items_len is ≡ aligned (length bytes) }
    ensures ranged { (s : Shape) (ctx : Ctx) (l : ℕ) (bytes : List ℕ) (is : Items)
        → Fits s is bytes ctx l → IsRanged is }
{}
