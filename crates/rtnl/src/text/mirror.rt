//! The printed text of a mirror.

ghost use Rattle.std.specs.Prelude.{◌≡◌, ◌≤◌, ◌++◌, OnOk, length};
ghost use Rattle.rtnl.specs.Mirroring.{change_line, current_text, doubted_line, standing_line};
ghost use Rattle.rtnl.specs.Mirroring.{table_line, unbegun_line, unbegun_reason};

use crate::pieces::push;
use crate::pieces::segment::Segment;
use nl_dump::Dump;
use nl_mirror::Stale;
use nl_route::Family;
use std::alloc::AllocError;

/// Writes what became of the entry of this number, counted from 1, or of the table of a kind; the
/// sign has a blank behind it.
#[tactic(auto, unfolding(crate::specs::Mirroring::change_line))]
pub(crate) fn push_change_line(
    out: &mut Vec<u8>,
    sign: &str,
    kind: Family,
    number: u64,
) -> Result<(), AllocError>
    ensures { OnOk result (out.new.items ≡ out.old.items ++ change_line sign.now kind number) }
{
    let mut end = Segment::new();
    end.put("\n");
    end.put_field(" ", number);
    push(out, sign)?;
    push(out, kind.row().name)?;
    end.push_to(out)
}

/// Writes why the table of a kind is stale.
#[tactic(auto, unfolding(crate::specs::Mirroring::doubted_line))]
pub(crate) fn push_doubted_line(
    out: &mut Vec<u8>,
    kind: Family,
    why: Stale,
) -> Result<(), AllocError>
    ensures { OnOk result (out.new.items ≡ out.old.items ++ doubted_line kind why) }
{
    push(out, "? ")?;
    push(out, kind.row().name)?;
    push(out, " ")?;
    push(out, why.name())?;
    push(out, "\n")
}

/// Writes why a dump didn't begin.
#[tactic(auto, unfolding(crate::specs::Mirroring::unbegun_reason))]
fn push_unbegun_reason(out: &mut Vec<u8>) -> Result<(), AllocError>
    ensures { OnOk result (out.new.items ≡ out.old.items ++ unbegun_reason) }
{
    push(out, "its sequence number is not above those before\n")
}

/// Writes that a dump didn't begin, since its number is not above those before.
#[tactic(auto, unfolding(crate::specs::Mirroring::unbegun_line))]
pub(crate) fn push_unbegun_line(out: &mut Vec<u8>, dump: &Dump) -> Result<(), AllocError>
    ensures { OnOk result (out.new.items ≡ out.old.items ++ unbegun_line dump.now) }
{
    let kind = dump.kind.row().name;
    let (seq, port) = (dump.seq, dump.port);
    push(out, "dump ")?;
    push(out, kind)?;
    let mut end = Segment::new();
    end.put(" refused: ");
    end.put_field(" port ", port as u64);
    end.put_field(" seq ", seq as u64);
    end.push_to(out)?;
    push_unbegun_reason(out)
}

/// Writes which table follows.
#[tactic(auto, unfolding(crate::specs::Mirroring::table_line))]
pub(crate) fn push_table_line(out: &mut Vec<u8>, kind: Family) -> Result<(), AllocError>
    ensures { OnOk result (out.new.items ≡ out.old.items ++ table_line kind) }
{
    push(out, "table ")?;
    push(out, kind.row().name)?;
    push(out, "\n")
}

/// Writes whether a table is current, or why not.
#[tactic(auto, unfolding(crate::specs::Mirroring::current_text))]
fn push_current(out: &mut Vec<u8>, why: Option<Stale>) -> Result<(), AllocError>
    ensures { OnOk result (out.new.items ≡ out.old.items ++ current_text why) }
{
    match why {
        None => push(out, "yes"),
        Some(why) => {
            push(out, "no: ")?;
            push(out, why.name())
        }
    }
}

/// Writes how a table stands.
#[tactic(auto, unfolding(crate::specs::Mirroring::standing_line))]
pub(crate) fn push_standing_line(
    out: &mut Vec<u8>,
    entries: u32,
    missed: u64,
    why: Option<Stale>,
) -> Result<(), AllocError>
    ensures { OnOk result (out.new.items ≡ out.old.items ++ standing_line entries missed why) }
{
    let mut front = Segment::new();
    front.put(" current ");
    front.put_field(" missed ", missed);
    front.put_field("entries ", entries as u64);
    front.push_to(out)?;
    push_current(out, why)?;
    push(out, "\n")
}
