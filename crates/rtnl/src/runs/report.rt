//! The report of a dump, as text and as JSON.

use crate::ending::Ending;
use crate::json_lines::body::push_body as push_body_fields;
use crate::json_lines::dump as fields;
use crate::json_lines::heads::ItemField;
use crate::json_lines::line::Line;
use crate::text::body::push_body;
use crate::text::dump as lines;
use crate::text::heads::ItemLines;
use nl_attr::Order;
use nl_dump::{Dump, FeedError};
use nl_frame::{Body, ReadError};
use std::alloc::{AllocError, Global};

/// The report of a dump: which dump is read, the datagrams that were refused, the entries, and how
/// the dump ended.
pub(crate) trait ReportFormat {
    ghost use Rattle.std.specs.Prelude.{◌≡◌, ◌≢◌, ◌++◌, OnOk};
    ghost use Rattle.nl_frame.specs.Message.{object};
    ghost use Rattle.nl_frame.specs.View.{body_view};
    ghost use Rattle.rtnl.specs.Tabled.{Report};

    ghost report: { Report };

    /// Writes which dump is read.
    fn push_front(alloc: Global, out: &mut Vec<u8>, dump: &Dump) -> Result<(), AllocError>
        ensures { OnOk result (out.new.items ≡ out.old.items ++ report.front dump.now) };

    /// Writes why the datagram of this number was refused, or nothing after `NotWaiting`. It fails
    /// where `error` is `Memory`.
    fn push_refusal(
        alloc: Global,
        out: &mut Vec<u8>,
        number: usize,
        error: FeedError,
    ) -> Result<(), AllocError>
        ensures refusal { OnOk result (error ≢ FeedError.Memory) }
        ensures text { OnOk result (out.new.items
            ≡ out.old.items ++ report.refusal number error) };

    /// Writes the entry of this number, counted from 1.
    fn push_entry<T: ItemLines + ItemField>(
        alloc: Global,
        out: &mut Vec<u8>,
        order: Order,
        number: u64,
        entry: &T,
    ) -> Result<(), AllocError>
        ensures { OnOk result (out.new.items ≡ out.old.items
            ++ report.entry order number (object (T.item entry.now).0 (T.item entry.now).1)) };

    /// Writes the entry of this number, which has this body.
    fn push_body(
        alloc: Global,
        out: &mut Vec<u8>,
        order: Order,
        number: u64,
        body: &Body,
    ) -> Result<(), AllocError>
        ensures { OnOk result (out.new.items
            ≡ out.old.items ++ report.entry order number (body_view body.now)) };

    /// Writes how the dump ended.
    fn push_ending(
        alloc: Global,
        out: &mut Vec<u8>,
        dump: &Dump,
        ending: &Ending,
    ) -> Result<(), AllocError>
        ensures { OnOk result (out.new.items
            ≡ out.old.items ++ report.ending dump.now ending.now) };
}

/// A report in lines of text.
pub(crate) struct InText;

impl ReportFormat for InText {
    ghost use Rattle.rtnl.specs.Tabled.{in_text};

    ghost report = { in_text };

    fn push_front(_alloc: Global, out: &mut Vec<u8>, dump: &Dump) -> Result<(), AllocError> {
        lines::push_dump_line(out, dump)
    }

    fn push_refusal(
        _alloc: Global,
        out: &mut Vec<u8>,
        number: usize,
        error: FeedError,
    ) -> Result<(), AllocError> {
        lines::push_feed_error(out, number, error)
    }

    #[tactic(auto, using(crate::proofs::Sets::joins))]
    fn push_entry<T: ItemLines + ItemField>(
        alloc: Global,
        out: &mut Vec<u8>,
        order: Order,
        number: u64,
        entry: &T,
    ) -> Result<(), AllocError> {
        lines::push_entry_line(out, number)?;
        entry.push(alloc, out, order)
    }

    #[tactic(auto, using(crate::proofs::Sets::joins))]
    fn push_body(
        alloc: Global,
        out: &mut Vec<u8>,
        order: Order,
        number: u64,
        body: &Body,
    ) -> Result<(), AllocError> {
        lines::push_entry_line(out, number)?;
        push_body(alloc, out, order, body)
    }

    #[tactic(auto, unfolding(crate::specs::Tabled::ending_text))]
    fn push_ending(
        _alloc: Global,
        out: &mut Vec<u8>,
        _dump: &Dump,
        ending: &Ending,
    ) -> Result<(), AllocError> {
        lines::push_end_line(out, ending.standing.state)?;
        lines::push_counts_line(out, ending)?;
        lines::push_sums_line(out, &ending.standing)?;
        lines::push_complete_line(out, ending.complete)
    }
}

/// A report in lines of JSON.
pub(crate) struct InJson;

impl ReportFormat for InJson {
    ghost use Rattle.rtnl.specs.TabledJson.{in_json};

    ghost report = { in_json };

    fn push_front(_alloc: Global, _out: &mut Vec<u8>, _dump: &Dump) -> Result<(), AllocError> {
        Ok(())
    }

    #[tactic(auto, unfolding(crate::specs::TabledJson::refusal_json))]
    fn push_refusal(
        alloc: Global,
        out: &mut Vec<u8>,
        number: usize,
        error: FeedError,
    ) -> Result<(), AllocError> {
        match error {
            FeedError::NotWaiting => Ok(()),
            FeedError::Total => fields::push_total(alloc, out, number),
            FeedError::TooLarge => fields::push_refused(alloc, out, number, ReadError::TooLarge),
            FeedError::Layout(fault) => fields::push_refused(
                alloc,
                out,
                number,
                ReadError::Layout(fault),
            ),
            FeedError::Memory => Err(AllocError),
        }
    }

    #[tactic(auto, unfolding(crate::specs::TabledJson::entry_json, crate::specs::MessagesJson::body_fields), using(crate::proofs::Sets::field))]
    fn push_entry<T: ItemLines + ItemField>(
        alloc: Global,
        out: &mut Vec<u8>,
        order: Order,
        number: u64,
        entry: &T,
    ) -> Result<(), AllocError> {
        let mut line = Line::begin(alloc, out)?;
        line.number("entry", number)?;
        entry.push_field(&mut line, order)?;
        line.end(out)
    }

    #[tactic(auto, unfolding(crate::specs::TabledJson::entry_json), using(crate::proofs::Sets::field))]
    fn push_body(
        alloc: Global,
        out: &mut Vec<u8>,
        order: Order,
        number: u64,
        body: &Body,
    ) -> Result<(), AllocError> {
        let mut line = Line::begin(alloc, out)?;
        line.number("entry", number)?;
        push_body_fields(&mut line, order, 0, 0, body)?;
        line.end(out)
    }

    #[tactic(auto, unfolding(crate::specs::TabledJson::ending_json), using(crate::proofs::Sets::field, crate::proofs::Sets::joins))]
    fn push_ending(
        alloc: Global,
        out: &mut Vec<u8>,
        dump: &Dump,
        ending: &Ending,
    ) -> Result<(), AllocError> {
        let mut line = Line::begin(alloc, out)?;
        fields::push_dump(&mut line, dump)?;
        fields::push_end(&mut line, ending.standing.state)?;
        fields::push_counts(&mut line, ending)?;
        fields::push_losses(&mut line, &ending.standing)?;
        fields::push_sums(&mut line, &ending.standing)?;
        line.boolean("complete", ending.complete)?;
        line.end(out)
    }
}
