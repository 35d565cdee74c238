//! Laws over the definitions alone: each contract is a law, and each body is empty.

ghost use Rattle.std.specs.Prelude.{◌≡◌, ◌↔◌, ℕ, List, IsSome, Err};
ghost use Rattle.nl_attr.specs.Numbers.{AreBytes};
ghost use Rattle.nl_attr.specs.declared.order.Order.{Order};
ghost use Rattle.nl_frame.specs.Limits.{Bounds};
ghost use Rattle.rtnl.specs.ByteRows.{Views, is_accepted, viewed_text};
ghost use Rattle.rtnl.specs.Checked.{Checks, ChecksJson, Finding, Finds};
ghost use Rattle.rtnl.specs.Lines.{line_at, line_fault_of};
ghost use Rattle.rtnl.specs.Painted.{Colours, ShowsColoured, coloured_text, painted};
ghost use Rattle.rtnl.specs.Shown.{Answer, Answers, Shows, ShowsJson};
ghost use Rattle.rtnl.specs.Shown.{datagram_json, datagram_text, is_accepted as is_accepted_answer};
ghost use Rattle.rtnl.specs.Followed.{TellsAsPrinted};
ghost use Rattle.rtnl.specs.declared.bytes.rows.RowFormat.{RowFormat};
ghost use Rattle.rtnl.specs.Tabled.{HeadlineOfTables};
ghost use Rattle.rtnl.specs.declared.verdict.Verdict.{Verdict};

use crate::runs::followed::FollowListener;

/// A datagram has one answer: its one layout, or its one refusal. A check finds one thing of it.
#[tactic(auto, using(crate::proofs::Answers::some_answer, crate::proofs::Answers::same_answer, crate::proofs::Answers::same_finding))]
pub fn one_answer()
    ensures some { (b : Bounds) (d : List ℕ) → AreBytes d → (a : Answer) × Answers b d a }
    ensures only { (b : Bounds) (d : List ℕ) (x y : Answer)
        → Answers b d x → Answers b d y → x ≡ y }
    ensures checked { (b : Bounds) (d : List ℕ) (x y : Finding)
        → Finds b d x → Finds b d y → x ≡ y }
{}

/// Datagrams have one text and one verdict, shown or checked, and so they have in JSON.
pub fn one_text()
    ensures shown { (b : Bounds) (ds : List (List ℕ)) (t u : List ℕ) (v w : Verdict)
        → Shows b ds t v → Shows b ds u w → (t ≡ u) × (v ≡ w) }
    ensures checked { (b : Bounds) (ds : List (List ℕ)) (t u : List ℕ) (v w : Verdict)
        → Checks b ds t v → Checks b ds u w → (t ≡ u) × (v ≡ w) }
    ensures shown_json { (b : Bounds) (ds : List (List ℕ)) (t u : List ℕ) (v w : Verdict)
        → ShowsJson b ds t v → ShowsJson b ds u w → (t ≡ u) × (v ≡ w) }
    ensures checked_json { (b : Bounds) (ds : List (List ℕ)) (t u : List ℕ) (v w : Verdict)
        → ChecksJson b ds t v → ChecksJson b ds u w → (t ≡ u) × (v ≡ w) }
{}

/// A line of a recording is bad exactly where it has a fault.
#[tactic(auto, using(crate::proofs::BadLines::bad_line))]
pub fn bad_lines()
    ensures { (number : ℕ) (line : List ℕ)
        → (line_at number line ≡ Err number) ↔ IsSome (line_fault_of line) }
{}

/// Over a recording that `run_show` takes, what `run_follow` tells of its lines is what `run_show`
/// writes, with no bad line, and nothing is refused where the verdict is Clean; and so in colours,
/// in JSON, and in bytes.
pub fn follow_is_show<B: FollowListener>()
    ensures text { (b : Bounds) → TellsAsPrinted (Answers b) (datagram_text b.shape.order)
        is_accepted_answer B.heard B.is_ended }
    ensures coloured { (b : Bounds) → TellsAsPrinted (Answers b) (coloured_text b.shape.order)
        is_accepted_answer B.heard B.is_ended }
    ensures json { (b : Bounds) → TellsAsPrinted (Answers b) (datagram_json b.shape.order)
        is_accepted_answer B.heard B.is_ended }
    ensures bytes { (f : RowFormat) (b : Bounds) → TellsAsPrinted (Views b)
        (viewed_text f b.shape.order) is_accepted B.heard B.is_ended }
{}

/// What `run_table` and `run_table_json` promise of a recording carries the headline: of each
/// datagram that they feed, it is refused at its first fault, which leaves the dump's answer and all
/// tables unchanged, or it is taken as the one list of its layout, which is written within the
/// limits and read again. Visits are at most `depth + 1` times the bytes, and no table has more
/// entries than its limit.
pub fn headline_of_tables()
    ensures { HeadlineOfTables }
{}

/// Colours change nothing else: a text in colours is that text with escapes put in, and what
/// `run_show_coloured` writes is what `run_show` writes with escapes put in.
#[tactic(auto, using(crate::proofs::Colours::painted_is, crate::proofs::Colours::shown_is))]
pub fn colours_change_nothing()
    ensures text { (text : List ℕ) → Colours (painted text) text }
    ensures shown { (b : Bounds) (ds : List (List ℕ)) (text : List ℕ) (v : Verdict)
        → ShowsColoured b ds text v
        → (plain : List ℕ) × Colours text plain × Shows b ds plain v }
{}
