//! The report of a mirror's tables.

ghost use Rattle.std.specs.Prelude.{◌≡◌, ◌+◌, ◌++◌, List, OnOk, map};
ghost use Rattle.nl_frame.specs.View.{message_view};
ghost use Rattle.nl_mirror.specs.Changes.{held_of};
ghost use Rattle.nl_mirror.specs.Effects.{effect_seen, update_effect};
ghost use Rattle.nl_mirror.specs.Seen.{held_seen};
ghost use Rattle.rtnl.specs.Mirroring.{Hearing, HearsAll, answer_text, answers_text, doubt};
ghost use Rattle.rtnl.specs.Mirroring.{effect_text, end_text, entry_at, has_ended};
ghost use Rattle.rtnl.specs.Mirroring.{is_current, is_shown, kind_text};
ghost use Rattle.rtnl.specs.Mirroring.{of_shown, renewed_text, stands, state_in, table_of};
ghost use Rattle.rtnl.specs.Mirroring.{table_state, table_states, table_text, update_text};
ghost use Rattle.rtnl.specs.Mirroring.{where_so, where_some};

use crate::json_lines::heads::ItemField;
use crate::runs::entries::push_entries;
use crate::runs::mirror_format::MirrorFormat;
use crate::runs::mirrored::{MirrorSettings, TableState, TableStates};
use crate::text::heads::ItemLines;
use nl_attr::Order;
use nl_dump::match_table;
use nl_frame::Message;
use nl_mirror::{Effect, Mirror, Short, Stale, Update};
use nl_route::Family;
use nl_table::{Entry, Table};
use std::alloc::{AllocError, Global};

/// Whether this kind is shown.
pub(crate) fn is_shown(only: Option<Family>, kind: Family) -> bool
    ensures { result ≡ is_shown only kind }
{
    match only {
        Some(only) => only.row().new_type == kind.row().new_type,
        None => true,
    }
}

/// Writes that the entry at this index is new. Printed numbers begin at 1.
fn push_added<F: MirrorFormat, T: Entry + ItemLines + ItemField + Drop>(
    alloc: Global,
    out: &mut Vec<u8>,
    order: Order,
    kind: Family,
    table: &Table<T>,
    place: u32,
) -> Result<(), AllocError>
    ensures { OnOk result (out.new.items ≡ out.old.items
        ++ where_some (F.telling.added order kind (place + 1))
        (entry_at place (held_seen T.item (held_of table.now)))) }
{
    match table.get(place) {
        Some(entry) => F::push_added(alloc, out, order, kind, u64::from(place) + 1, entry),
        None => Ok(()),
    }
}

/// Writes that the entry at this index was replaced, and what it was before.
fn push_changed<F: MirrorFormat, T: Entry + ItemLines + ItemField + Drop>(
    alloc: Global,
    out: &mut Vec<u8>,
    order: Order,
    kind: Family,
    table: &Table<T>,
    place: u32,
    before: &T,
) -> Result<(), AllocError>
    ensures { OnOk result (out.new.items ≡ out.old.items
        ++ where_some (λ now. F.telling.changed order kind (place + 1) now (T.item before.now))
        (entry_at place (held_seen T.item (held_of table.now)))) }
{
    match table.get(place) {
        Some(entry) => {
            F::push_changed(alloc, out, order, kind, u64::from(place) + 1, entry, before)
        }
        None => Ok(()),
    }
}

/// Writes what a message did to a table of this kind.
fn push_effect<F: MirrorFormat, T: Entry + ItemLines + ItemField + Drop>(
    alloc: Global,
    out: &mut Vec<u8>,
    order: Order,
    kind: Family,
    table: &Table<T>,
    effect: &Effect<T>,
) -> Result<(), AllocError>
    ensures { OnOk result (out.new.items ≡ out.old.items ++ effect_text F.report F.telling
        order kind (held_seen T.item (held_of table.now)) (effect_seen T.item effect.now)) }
{
    match effect {
        Effect::Added(place) => push_added::<F, _>(alloc, out, order, kind, table, *place),
        Effect::Changed(place, before) => {
            push_changed::<F, _>(alloc, out, order, kind, table, *place, before)
        }
        Effect::Removed(place, before) => {
            F::push_removed(alloc, out, order, kind, u64::from(*place) + 1, before)
        }
        Effect::Waits | Effect::Nothing => Ok(()),
    }
}

/// Writes what a message did to a table, if its kind is shown.
fn push_shown<F: MirrorFormat, T: Entry + ItemLines + ItemField + Drop>(
    alloc: Global,
    out: &mut Vec<u8>,
    settings: &MirrorSettings,
    kind: Family,
    table: &Table<T>,
    effect: &Effect<T>,
) -> Result<(), AllocError>
    ensures { OnOk result (out.new.items ≡ out.old.items
        ++ where_so (is_shown settings.now.kind kind) (effect_text F.report F.telling
        settings.now.limits.shape.order kind (held_seen T.item (held_of table.now))
        (effect_seen T.item effect.now))) }
{
    if is_shown(settings.kind, kind) {
        push_effect::<F, _>(alloc, out, settings.limits.order(), kind, table, effect)
    } else {
        Ok(())
    }
}

/// Writes what a message did to the table of its family, if that is shown.
fn push_update<F: MirrorFormat>(
    alloc: Global,
    out: &mut Vec<u8>,
    settings: &MirrorSettings,
    mirror: &Mirror,
    update: &Update,
) -> Result<(), AllocError>
    ensures { OnOk result (out.new.items ≡ out.old.items
        ++ update_text F.report F.telling settings.now.limits.shape.order settings.now.kind
        mirror.now (update_effect update.now)) }
{
    match update {
        Update::Link(effect) => {
            push_shown::<F, _>(alloc, out, settings, Family::Link, mirror.links(), effect)
        }
        Update::Addr(effect) => {
            push_shown::<F, _>(alloc, out, settings, Family::Addr, mirror.addrs(), effect)
        }
        Update::Route(effect) => {
            push_shown::<F, _>(alloc, out, settings, Family::Route, mirror.routes(), effect)
        }
        Update::Neigh(effect) => {
            push_shown::<F, _>(alloc, out, settings, Family::Neigh, mirror.neighs(), effect)
        }
        Update::Rule(effect) => {
            push_shown::<F, _>(alloc, out, settings, Family::Rule, mirror.rules(), effect)
        }
        Update::Other => Ok(()),
    }
}

/// Writes what a message did, by the mirror's answer, if `settings.changes`.
fn push_answer<F: MirrorFormat>(
    alloc: Global,
    out: &mut Vec<u8>,
    settings: &MirrorSettings,
    mirror: &Mirror,
    answer: &Result<Update, Short>,
) -> Result<(), AllocError>
    ensures { OnOk result (out.new.items ≡ out.old.items
        ++ where_so settings.now.changes (answer_text F.report F.telling
        settings.now.limits.shape.order settings.now.kind mirror.now answer.now)) }
{
    match answer {
        Ok(update) if settings.changes => push_update::<F>(alloc, out, settings, mirror, update),
        _ => Ok(()),
    }
}

/// Hands messages to a mirror in order. Writes what each did, if `settings.changes`.
pub(crate) fn hear_all<F: MirrorFormat>(
    alloc: Global,
    out: &mut Vec<u8>,
    settings: &MirrorSettings,
    mirror: &mut Mirror,
    messages: Vec<Message>,
) -> Result<(), AllocError>
    ensures { OnOk result ((hs : List Hearing)
        × HearsAll mirror.old (map message_view messages.items) hs mirror.new
        × (out.new.items ≡ out.old.items ++ where_so settings.now.changes (answers_text
        F.report F.telling settings.now.limits.shape.order settings.now.kind hs))) }
{
    for message in messages {
        let answer = mirror.hear(message);
        push_answer::<F>(alloc, out, settings, mirror, &answer)?;
        drop(answer);
    }
    Ok(())
}

fn table_state(mirror: &Mirror, kind: Family) -> TableState
    ensures { result ≡ table_state kind mirror.now }
{
    TableState {
        dump_running: mirror.dump(kind).is_some(),
        stale: mirror.stale(kind).is_some(),
    }
}

pub(crate) fn table_states(mirror: &Mirror) -> TableStates
    ensures { result ≡ table_states mirror.now }
{
    TableStates {
        link: table_state(mirror, Family::Link),
        addr: table_state(mirror, Family::Addr),
        route: table_state(mirror, Family::Route),
        neigh: table_state(mirror, Family::Neigh),
        rule: table_state(mirror, Family::Rule),
    }
}

/// Writes a whole table that a dump renewed.
#[tactic(auto, using(crate::proofs::Sets::joins))]
fn push_renewed<F: MirrorFormat, T: Entry + ItemLines + ItemField + Drop>(
    alloc: Global,
    out: &mut Vec<u8>,
    order: Order,
    kind: Family,
    table: &Table<T>,
) -> Result<(), AllocError>
    ensures { OnOk result (out.new.items ≡ out.old.items ++ renewed_text F.report F.telling
        order kind (held_seen T.item (held_of table.now))) }
{
    F::push_renewed(alloc, out, kind, table.len())?;
    push_entries::<F, _>(alloc, out, order, table)
}

/// Writes the whole table of a kind, which a dump renewed.
fn push_renewed_kind<F: MirrorFormat>(
    alloc: Global,
    out: &mut Vec<u8>,
    order: Order,
    mirror: &Mirror,
    kind: Family,
) -> Result<(), AllocError>
    ensures { OnOk result (out.new.items ≡ out.old.items ++ renewed_text F.report F.telling
        order kind (table_of kind mirror.now)) }
{
    match_table!(kind, mirror, table => push_renewed::<F, _>(alloc, out, order, kind, table))
}

/// Writes the whole table of a kind, if a dump of it has ended.
fn push_ended<F: MirrorFormat>(
    alloc: Global,
    out: &mut Vec<u8>,
    order: Order,
    mirror: &Mirror,
    kind: Family,
    has_ended: bool,
) -> Result<(), AllocError>
    ensures { OnOk result (out.new.items ≡ out.old.items ++ where_so has_ended (renewed_text
        F.report F.telling order kind (table_of kind mirror.now))) }
{
    if has_ended {
        push_renewed_kind::<F>(alloc, out, order, mirror, kind)
    } else {
        Ok(())
    }
}

/// Writes why the table of a kind is stale, where it is.
fn push_doubt<F: MirrorFormat>(
    alloc: Global,
    out: &mut Vec<u8>,
    mirror: &Mirror,
    kind: Family,
) -> Result<(), AllocError>
    ensures { OnOk result (out.new.items ≡ out.old.items
        ++ where_some (F.telling.doubted kind) (doubt kind mirror.now)) }
{
    match mirror.stale(kind) {
        Some(why) => F::push_doubted(alloc, out, kind, why),
        None => Ok(()),
    }
}

/// Writes why the table of a kind is stale, if it is, and if that is news.
fn push_new_doubt<F: MirrorFormat>(
    alloc: Global,
    out: &mut Vec<u8>,
    mirror: &Mirror,
    kind: Family,
    is_news: bool,
) -> Result<(), AllocError>
    ensures { OnOk result (out.new.items ≡ out.old.items
        ++ where_so is_news (where_some (F.telling.doubted kind) (doubt kind mirror.now))) }
{
    if is_news {
        push_doubt::<F>(alloc, out, mirror, kind)
    } else {
        Ok(())
    }
}

/// Whether a dump of a kind ran in the state `was`, and none runs now.
fn has_ended(was: TableState, mirror: &Mirror, kind: Family) -> bool
    ensures { result ≡ has_ended was mirror.now kind }
{
    was.dump_running && mirror.dump(kind).is_none()
}

/// Writes a table, if its dump ended, and why it is stale, if that is news. `was` is its state
/// before the step.
#[tactic(auto, using(crate::proofs::Sets::joins))]
fn push_news<F: MirrorFormat>(
    alloc: Global,
    out: &mut Vec<u8>,
    order: Order,
    was: TableState,
    mirror: &Mirror,
    kind: Family,
) -> Result<(), AllocError>
    ensures { OnOk result (out.new.items ≡ out.old.items
        ++ kind_text F.report F.telling order was mirror.now kind) }
{
    let has_ended = has_ended(was, mirror, kind);
    push_ended::<F>(alloc, out, order, mirror, kind, has_ended)?;
    push_new_doubt::<F>(alloc, out, mirror, kind, has_ended || !was.stale)
}

/// Writes a table's new state, if its kind is shown.
fn push_table_state<F: MirrorFormat>(
    alloc: Global,
    out: &mut Vec<u8>,
    settings: &MirrorSettings,
    was: TableState,
    mirror: &Mirror,
    kind: Family,
) -> Result<(), AllocError>
    ensures { OnOk result (out.new.items ≡ out.old.items
        ++ where_so (is_shown settings.now.kind kind) (kind_text F.report F.telling
        settings.now.limits.shape.order was mirror.now kind)) }
{
    if is_shown(settings.kind, kind) {
        push_news::<F>(alloc, out, settings.limits.order(), was, mirror, kind)
    } else {
        Ok(())
    }
}

/// Writes the new state of each table that is shown.
fn push_each_table_state<F: MirrorFormat>(
    alloc: Global,
    out: &mut Vec<u8>,
    settings: &MirrorSettings,
    was: &TableStates,
    mirror: &Mirror,
) -> Result<(), AllocError>
    ensures { OnOk result (out.new.items ≡ out.old.items
        ++ of_shown settings.now.kind (λ k. kind_text F.report F.telling
        settings.now.limits.shape.order (state_in was.now k) mirror.now k)) }
{
    push_table_state::<F>(alloc, out, settings, was.link, mirror, Family::Link)?;
    push_table_state::<F>(alloc, out, settings, was.addr, mirror, Family::Addr)?;
    push_table_state::<F>(alloc, out, settings, was.route, mirror, Family::Route)?;
    push_table_state::<F>(alloc, out, settings, was.neigh, mirror, Family::Neigh)?;
    push_table_state::<F>(alloc, out, settings, was.rule, mirror, Family::Rule)
}

/// Writes the new state of each table that is shown, if `settings.changes`.
pub(crate) fn push_all_table_states<F: MirrorFormat>(
    alloc: Global,
    out: &mut Vec<u8>,
    settings: &MirrorSettings,
    was: &TableStates,
    mirror: &Mirror,
) -> Result<(), AllocError>
    ensures { OnOk result (out.new.items ≡ out.old.items
        ++ where_so settings.now.changes (of_shown settings.now.kind (λ k. kind_text
        F.report F.telling settings.now.limits.shape.order (state_in was.now k) mirror.now k))) }
{
    if settings.changes {
        push_each_table_state::<F>(alloc, out, settings, was, mirror)
    } else {
        Ok(())
    }
}

/// Writes a whole table, and its state.
fn push_table<F: MirrorFormat, T: Entry + ItemLines + ItemField + Drop>(
    alloc: Global,
    out: &mut Vec<u8>,
    order: Order,
    kind: Family,
    table: &Table<T>,
    why: Option<Stale>,
) -> Result<(), AllocError>
    ensures { OnOk result (out.new.items ≡ out.old.items ++ table_text F.report F.telling
        order kind (held_seen T.item (held_of table.now)) why) }
{
    F::push_kind(alloc, out, kind)?;
    push_entries::<F, _>(alloc, out, order, table)?;
    F::push_standing(alloc, out, kind, table.len(), table.missed(), why)
}

/// Writes the whole table of a kind, and its state.
fn push_table_kind<F: MirrorFormat>(
    alloc: Global,
    out: &mut Vec<u8>,
    order: Order,
    mirror: &Mirror,
    kind: Family,
) -> Result<(), AllocError>
    ensures { OnOk result (out.new.items ≡ out.old.items ++ table_text F.report F.telling
        order kind (table_of kind mirror.now) (doubt kind mirror.now)) }
{
    let why = mirror.stale(kind);
    match_table!(kind, mirror, table => push_table::<F, _>(alloc, out, order, kind, table, why))
}

/// Writes the whole table of a kind and its state, if the kind is shown.
fn push_shown_table<F: MirrorFormat>(
    alloc: Global,
    out: &mut Vec<u8>,
    settings: &MirrorSettings,
    mirror: &Mirror,
    kind: Family,
) -> Result<(), AllocError>
    ensures { OnOk result (out.new.items ≡ out.old.items
        ++ where_so (is_shown settings.now.kind kind) (table_text F.report F.telling
        settings.now.limits.shape.order kind (table_of kind mirror.now) (doubt kind mirror.now))) }
{
    if is_shown(settings.kind, kind) {
        push_table_kind::<F>(alloc, out, settings.limits.order(), mirror, kind)
    } else {
        Ok(())
    }
}

/// Writes each whole table that is shown, and its state.
fn push_tables<F: MirrorFormat>(
    alloc: Global,
    out: &mut Vec<u8>,
    settings: &MirrorSettings,
    mirror: &Mirror,
) -> Result<(), AllocError>
    ensures { OnOk result (out.new.items ≡ out.old.items ++ of_shown settings.now.kind
        (λ k. table_text F.report F.telling settings.now.limits.shape.order k
        (table_of k mirror.now) (doubt k mirror.now))) }
{
    push_shown_table::<F>(alloc, out, settings, mirror, Family::Link)?;
    push_shown_table::<F>(alloc, out, settings, mirror, Family::Addr)?;
    push_shown_table::<F>(alloc, out, settings, mirror, Family::Route)?;
    push_shown_table::<F>(alloc, out, settings, mirror, Family::Neigh)?;
    push_shown_table::<F>(alloc, out, settings, mirror, Family::Rule)
}

/// Writes the tables at the end, unless `settings.changes`.
#[tactic(auto, unfolding(crate::specs::Mirroring::end_text))]
pub(crate) fn push_end<F: MirrorFormat>(
    alloc: Global,
    out: &mut Vec<u8>,
    settings: &MirrorSettings,
    mirror: &Mirror,
) -> Result<(), AllocError>
    ensures { OnOk result (out.new.items ≡ out.old.items ++ end_text F.report F.telling
        settings.now.limits.shape.order settings.now mirror.now) }
{
    if !settings.changes {
        push_tables::<F>(alloc, out, settings, mirror)
    } else {
        Ok(())
    }
}

/// Whether the table of a kind is current, or not shown.
fn stands(only: Option<Family>, mirror: &Mirror, kind: Family) -> bool
    ensures { result ≡ stands only mirror.now kind }
{
    !is_shown(only, kind) || mirror.stale(kind).is_none()
}

/// Whether each table that is shown is current.
pub(crate) fn is_current(only: Option<Family>, mirror: &Mirror) -> bool
    ensures { result ≡ is_current only mirror.now }
{
    stands(only, mirror, Family::Link)
        && stands(only, mirror, Family::Addr)
        && stands(only, mirror, Family::Route)
        && stands(only, mirror, Family::Neigh)
        && stands(only, mirror, Family::Rule)
}
