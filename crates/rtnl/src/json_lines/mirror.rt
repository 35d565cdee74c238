//! The report of a mirror's tables, as lines of JSON.

ghost use Rattle.std.specs.Prelude.{◌≡◌, ◌∷◌, ◌++◌, [], OnOk, codes};
ghost use Rattle.rtnl.specs.Json.{◌⊕◌, fields_tokens};
ghost use Rattle.rtnl.specs.MessagesJson.{item_field};
ghost use Rattle.rtnl.specs.MirroringJson.{added_json, change_fields, changed_json};
ghost use Rattle.rtnl.specs.MirroringJson.{current_fields, doubted_json, removed_json};
ghost use Rattle.rtnl.specs.MirroringJson.{renewed_json, standing_json, unbegun_json};

use crate::json_lines::dump::push_dump;
use crate::json_lines::heads::ItemField;
use crate::json_lines::line::Line;
use nl_attr::Order;
use nl_dump::Dump;
use nl_mirror::Stale;
use nl_route::Family;
use std::alloc::{AllocError, Global};

#[tactic(auto, unfolding(crate::specs::MirroringJson::change_fields))]
fn push_sign(line: &mut Line, sign: &str) -> Result<(), AllocError>
    ensures { OnOk result (line.new ≡ line.old ⊕ fields_tokens (change_fields sign.now)) }
{
    line.text("change", sign)
}

/// Writes the line of an entry that is new.
#[tactic(auto, unfolding(crate::specs::MirroringJson::added_json), using(crate::proofs::Sets::field, crate::proofs::Sets::joins))]
pub(crate) fn push_added<T: ItemField>(
    alloc: Global,
    out: &mut Vec<u8>,
    order: Order,
    number: u64,
    entry: &T,
) -> Result<(), AllocError>
    ensures { OnOk result
        (out.new.items ≡ out.old.items ++ added_json order number (T.item entry.now)) }
{
    let mut line = Line::begin(alloc, out)?;
    push_sign(&mut line, "+")?;
    line.number("entry", number)?;
    entry.push_field(&mut line, order)?;
    line.end(out)
}

/// Writes the field of what an entry was before.
#[tactic(auto, using(crate::proofs::Sets::one))]
fn push_before<T: ItemField>(line: &mut Line, order: Order, before: &T) -> Result<(), AllocError>
    ensures { OnOk result (line.new ≡ line.old
        ⊕ fields_tokens ((codes "before", (item_field order (T.item before.now)).1) ∷ [])) }
{
    line.key("before")?;
    before.push_value(line, order)
}

/// Writes the line of an entry that was replaced.
#[tactic(auto, unfolding(crate::specs::MirroringJson::changed_json), using(crate::proofs::Sets::field, crate::proofs::Sets::joins))]
pub(crate) fn push_changed<T: ItemField>(
    alloc: Global,
    out: &mut Vec<u8>,
    order: Order,
    number: u64,
    entry: &T,
    before: &T,
) -> Result<(), AllocError>
    ensures { OnOk result (out.new.items ≡ out.old.items
        ++ changed_json order number (T.item entry.now) (T.item before.now)) }
{
    let mut line = Line::begin(alloc, out)?;
    push_sign(&mut line, "~")?;
    line.number("entry", number)?;
    entry.push_field(&mut line, order)?;
    push_before(&mut line, order, before)?;
    line.end(out)
}

/// Writes the line of an entry that is gone.
#[tactic(auto, unfolding(crate::specs::MirroringJson::removed_json), using(crate::proofs::Sets::field, crate::proofs::Sets::joins))]
pub(crate) fn push_removed<T: ItemField>(
    alloc: Global,
    out: &mut Vec<u8>,
    order: Order,
    number: u64,
    before: &T,
) -> Result<(), AllocError>
    ensures { OnOk result
        (out.new.items ≡ out.old.items ++ removed_json order number (T.item before.now)) }
{
    let mut line = Line::begin(alloc, out)?;
    push_sign(&mut line, "-")?;
    line.number("entry", number)?;
    before.push_field(&mut line, order)?;
    line.end(out)
}

/// Writes the line of a table that a dump renewed.
#[tactic(auto, unfolding(crate::specs::MirroringJson::renewed_json), using(crate::proofs::Sets::field, crate::proofs::Sets::joins))]
pub(crate) fn push_renewed(
    alloc: Global,
    out: &mut Vec<u8>,
    kind: Family,
    entries: u32,
) -> Result<(), AllocError>
    ensures { OnOk result (out.new.items ≡ out.old.items ++ renewed_json kind entries) }
{
    let mut line = Line::begin(alloc, out)?;
    push_sign(&mut line, "=")?;
    line.text("table", kind.row().name)?;
    line.number("entries", entries.into())?;
    line.end(out)
}

/// Writes the line of a table that is stale.
#[tactic(auto, unfolding(crate::specs::MirroringJson::doubted_json), using(crate::proofs::Sets::field, crate::proofs::Sets::joins))]
pub(crate) fn push_doubted(
    alloc: Global,
    out: &mut Vec<u8>,
    kind: Family,
    why: Stale,
) -> Result<(), AllocError>
    ensures { OnOk result (out.new.items ≡ out.old.items ++ doubted_json kind why) }
{
    let mut line = Line::begin(alloc, out)?;
    push_sign(&mut line, "?")?;
    line.text("table", kind.row().name)?;
    line.text("stale", why.name())?;
    line.end(out)
}

/// Writes the line of a dump that didn't begin, for its sequence number.
#[tactic(auto, unfolding(crate::specs::MirroringJson::unbegun_json), using(crate::proofs::Sets::field, crate::proofs::Sets::joins))]
pub(crate) fn push_unbegun(alloc: Global, out: &mut Vec<u8>, dump: &Dump) -> Result<(), AllocError>
    ensures { OnOk result (out.new.items ≡ out.old.items ++ unbegun_json dump.now) }
{
    let mut line = Line::begin(alloc, out)?;
    push_dump(&mut line, dump)?;
    line.text("refused", "seq")?;
    line.end(out)
}

/// Writes whether a table is current, or why not.
#[tactic(auto, unfolding(crate::specs::MirroringJson::current_fields), using(crate::proofs::Sets::field))]
fn push_current(line: &mut Line, why: Option<Stale>) -> Result<(), AllocError>
    ensures { OnOk result (line.new ≡ line.old ⊕ fields_tokens (current_fields why)) }
{
    match why {
        None => line.boolean("current", true),
        Some(why) => {
            line.boolean("current", false)?;
            line.text("stale", why.name())
        }
    }
}

/// Writes the line of a table's counts, and whether it is current.
#[tactic(auto, unfolding(crate::specs::MirroringJson::standing_json), using(crate::proofs::Sets::field, crate::proofs::Sets::joins))]
pub(crate) fn push_standing(
    alloc: Global,
    out: &mut Vec<u8>,
    kind: Family,
    entries: u32,
    missed: u64,
    why: Option<Stale>,
) -> Result<(), AllocError>
    ensures { OnOk result
        (out.new.items ≡ out.old.items ++ standing_json kind entries missed why) }
{
    let mut line = Line::begin(alloc, out)?;
    line.text("table", kind.row().name)?;
    line.number("entries", entries.into())?;
    line.number("missed", missed)?;
    push_current(&mut line, why)?;
    line.end(out)
}
