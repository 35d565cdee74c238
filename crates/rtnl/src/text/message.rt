//! The printed text of messages.

ghost use Rattle.std.specs.Prelude.{◌≡◌, ◌++◌, OnOk, map};
ghost use Rattle.nl_frame.specs.View.{message_view};
ghost use Rattle.rtnl.specs.Messages.{message_line, message_text, messages_text};

use crate::names::flags::Bits;
use crate::names::types::message_type;
use crate::pieces::push;
use crate::pieces::segment::Segment;
use crate::text::body::push_body;
use crate::text::flags::push_names;
use nl_attr::Order;
use nl_frame::Message;
use std::alloc::{AllocError, Global};

/// Writes the line of a message's header.
#[tactic(auto, unfolding(crate::specs::Messages::message_line), using(crate::proofs::Sets::joins))]
fn push_message_line(
    out: &mut Vec<u8>,
    kind: u16,
    flags: u16,
    seq: u32,
    port: u32,
) -> Result<(), AllocError>
    ensures { OnOk result (out.new.items ≡ out.old.items ++ message_line kind flags seq port) }
{
    let (verb, name, names) = message_type(kind);
    let mut front = Segment::new();
    front.put(" ");
    front.put_field("message ", kind as u64);
    front.push_to(out)?;
    push(out, verb)?;
    push(out, name)?;
    let mut middle = Segment::new();
    middle.put(" ");
    middle.put_hex4(flags);
    middle.put(" flags 0x");
    middle.push_to(out)?;
    push_names(out, Bits::Message(names), flags.into())?;
    let mut end = Segment::new();
    end.put("\n");
    end.put_field(" port ", port as u64);
    end.put_field(" seq ", seq as u64);
    end.push_to(out)
}

/// Writes a message: the line of its header, and its body.
#[tactic(auto, unfolding(crate::specs::Messages::message_text), using(crate::proofs::Sets::joins))]
pub(crate) fn push_message(
    alloc: Global,
    out: &mut Vec<u8>,
    order: Order,
    message: &Message,
) -> Result<(), AllocError>
    ensures { OnOk result
        (out.new.items ≡ out.old.items ++ message_text order (message_view message.now)) }
{
    push_message_line(out, message.kind, message.flags, message.seq, message.port)?;
    push_body(alloc, out, order, &message.body)
}

/// Writes messages, one after another.
pub(crate) fn push_messages(
    alloc: Global,
    out: &mut Vec<u8>,
    order: Order,
    messages: &[Message],
) -> Result<(), AllocError>
    ensures { OnOk result
        (out.new.items ≡ out.old.items ++ messages_text order (map message_view messages.now)) }
{
    for message in messages {
        push_message(alloc, out, order, message)?;
    }
    Ok(())
}
