//! The report of a mirror, as text and as JSON.

use crate::json_lines::heads::ItemField;
use crate::json_lines::mirror as fields;
use crate::pieces::push;
use crate::runs::report::{InJson, InText, ReportFormat};
use crate::text::heads::ItemLines;
use crate::text::mirror as lines;
use nl_attr::Order;
use nl_dump::Dump;
use nl_mirror::Stale;
use nl_route::Family;
use std::alloc::{AllocError, Global};

/// The report of a mirror: dumps that didn't begin, changes, and the state of its tables.
pub(crate) trait MirrorFormat: ReportFormat {
    ghost use Rattle.std.specs.Prelude.{◌≡◌, ◌++◌, OnOk};
    ghost use Rattle.rtnl.specs.Mirroring.{MirrorReport};

    ghost telling: { MirrorReport };

    /// Writes that a dump didn't begin, since its sequence number is not above those before.
    fn push_unbegun(alloc: Global, out: &mut Vec<u8>, dump: &Dump) -> Result<(), AllocError>
        ensures { OnOk result (out.new.items ≡ out.old.items ++ telling.unbegun dump.now) };

    /// Writes that the entry of this number, counted from 1, is new.
    fn push_added<T: ItemLines + ItemField>(
        alloc: Global,
        out: &mut Vec<u8>,
        order: Order,
        kind: Family,
        number: u64,
        entry: &T,
    ) -> Result<(), AllocError>
        ensures { OnOk result (out.new.items
            ≡ out.old.items ++ telling.added order kind number (T.item entry.now)) };

    /// Writes that the entry of this number was replaced, and what it was before.
    fn push_changed<T: ItemLines + ItemField>(
        alloc: Global,
        out: &mut Vec<u8>,
        order: Order,
        kind: Family,
        number: u64,
        entry: &T,
        before: &T,
    ) -> Result<(), AllocError>
        ensures { OnOk result (out.new.items ≡ out.old.items
            ++ telling.changed order kind number (T.item entry.now) (T.item before.now)) };

    /// Writes that the entry of this number is gone.
    fn push_removed<T: ItemLines + ItemField>(
        alloc: Global,
        out: &mut Vec<u8>,
        order: Order,
        kind: Family,
        number: u64,
        before: &T,
    ) -> Result<(), AllocError>
        ensures { OnOk result (out.new.items
            ≡ out.old.items ++ telling.removed order kind number (T.item before.now)) };

    /// Writes that a dump renewed the table of a kind, and how many entries it has now.
    fn push_renewed(
        alloc: Global,
        out: &mut Vec<u8>,
        kind: Family,
        entries: u32,
    ) -> Result<(), AllocError>
        ensures { OnOk result (out.new.items
            ≡ out.old.items ++ telling.renewed kind entries) };

    /// Writes why the table of a kind is stale.
    fn push_doubted(
        alloc: Global,
        out: &mut Vec<u8>,
        kind: Family,
        why: Stale,
    ) -> Result<(), AllocError>
        ensures { OnOk result (out.new.items ≡ out.old.items ++ telling.doubted kind why) };

    /// Writes which table follows.
    fn push_kind(alloc: Global, out: &mut Vec<u8>, kind: Family) -> Result<(), AllocError>
        ensures { OnOk result (out.new.items ≡ out.old.items ++ telling.table kind) };

    /// Writes the counts of the table of a kind, and whether it is current.
    fn push_standing(
        alloc: Global,
        out: &mut Vec<u8>,
        kind: Family,
        entries: u32,
        missed: u64,
        why: Option<Stale>,
    ) -> Result<(), AllocError>
        ensures { OnOk result (out.new.items
            ≡ out.old.items ++ telling.standing kind entries missed why) };
}

impl MirrorFormat for InText {
    ghost use Rattle.rtnl.specs.Mirroring.{in_text};

    ghost telling = { in_text };

    fn push_unbegun(_alloc: Global, out: &mut Vec<u8>, dump: &Dump) -> Result<(), AllocError> {
        lines::push_unbegun_line(out, dump)
    }

    #[tactic(auto, using(crate::proofs::Sets::joins))]
    fn push_added<T: ItemLines + ItemField>(
        alloc: Global,
        out: &mut Vec<u8>,
        order: Order,
        kind: Family,
        number: u64,
        entry: &T,
    ) -> Result<(), AllocError> {
        lines::push_change_line(out, "+ ", kind, number)?;
        entry.push(alloc, out, order)
    }

    #[tactic(auto, using(crate::proofs::Sets::joins))]
    fn push_changed<T: ItemLines + ItemField>(
        alloc: Global,
        out: &mut Vec<u8>,
        order: Order,
        kind: Family,
        number: u64,
        entry: &T,
        before: &T,
    ) -> Result<(), AllocError> {
        lines::push_change_line(out, "~ ", kind, number)?;
        entry.push(alloc, out, order)?;
        push(out, "was\n")?;
        before.push(alloc, out, order)
    }

    #[tactic(auto, using(crate::proofs::Sets::joins))]
    fn push_removed<T: ItemLines + ItemField>(
        alloc: Global,
        out: &mut Vec<u8>,
        order: Order,
        kind: Family,
        number: u64,
        before: &T,
    ) -> Result<(), AllocError> {
        lines::push_change_line(out, "- ", kind, number)?;
        before.push(alloc, out, order)
    }

    fn push_renewed(
        _alloc: Global,
        out: &mut Vec<u8>,
        kind: Family,
        entries: u32,
    ) -> Result<(), AllocError> {
        lines::push_change_line(out, "= ", kind, entries.into())
    }

    fn push_doubted(
        _alloc: Global,
        out: &mut Vec<u8>,
        kind: Family,
        why: Stale,
    ) -> Result<(), AllocError> {
        lines::push_doubted_line(out, kind, why)
    }

    fn push_kind(_alloc: Global, out: &mut Vec<u8>, kind: Family) -> Result<(), AllocError> {
        lines::push_table_line(out, kind)
    }

    fn push_standing(
        _alloc: Global,
        out: &mut Vec<u8>,
        _kind: Family,
        entries: u32,
        missed: u64,
        why: Option<Stale>,
    ) -> Result<(), AllocError> {
        lines::push_standing_line(out, entries, missed, why)
    }
}

impl MirrorFormat for InJson {
    ghost use Rattle.rtnl.specs.MirroringJson.{in_json};

    ghost telling = { in_json };

    fn push_unbegun(alloc: Global, out: &mut Vec<u8>, dump: &Dump) -> Result<(), AllocError> {
        fields::push_unbegun(alloc, out, dump)
    }

    fn push_added<T: ItemLines + ItemField>(
        alloc: Global,
        out: &mut Vec<u8>,
        order: Order,
        _kind: Family,
        number: u64,
        entry: &T,
    ) -> Result<(), AllocError> {
        fields::push_added(alloc, out, order, number, entry)
    }

    fn push_changed<T: ItemLines + ItemField>(
        alloc: Global,
        out: &mut Vec<u8>,
        order: Order,
        _kind: Family,
        number: u64,
        entry: &T,
        before: &T,
    ) -> Result<(), AllocError> {
        fields::push_changed(alloc, out, order, number, entry, before)
    }

    fn push_removed<T: ItemLines + ItemField>(
        alloc: Global,
        out: &mut Vec<u8>,
        order: Order,
        _kind: Family,
        number: u64,
        before: &T,
    ) -> Result<(), AllocError> {
        fields::push_removed(alloc, out, order, number, before)
    }

    fn push_renewed(
        alloc: Global,
        out: &mut Vec<u8>,
        kind: Family,
        entries: u32,
    ) -> Result<(), AllocError> {
        fields::push_renewed(alloc, out, kind, entries)
    }

    fn push_doubted(
        alloc: Global,
        out: &mut Vec<u8>,
        kind: Family,
        why: Stale,
    ) -> Result<(), AllocError> {
        fields::push_doubted(alloc, out, kind, why)
    }

    fn push_kind(_alloc: Global, _out: &mut Vec<u8>, _kind: Family) -> Result<(), AllocError> {
        Ok(())
    }

    fn push_standing(
        alloc: Global,
        out: &mut Vec<u8>,
        kind: Family,
        entries: u32,
        missed: u64,
        why: Option<Stale>,
    ) -> Result<(), AllocError> {
        fields::push_standing(alloc, out, kind, entries, missed, why)
    }
}
