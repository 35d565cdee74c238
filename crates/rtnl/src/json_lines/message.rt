//! Messages as objects.

ghost use Rattle.std.specs.Prelude.{◌≡◌, ◌∷◌, [], ◌++◌, OnOk, codes, map};
ghost use Rattle.json.specs.Tree.{json_tokens};
ghost use Rattle.nl_frame.specs.View.{message_view};
ghost use Rattle.rtnl.specs.Json.{◌⊕◌, array, fields_tokens, string, values_tokens};
ghost use Rattle.rtnl.specs.MessagesJson.{header_fields, message_json, messages_json};
ghost use Rattle.rtnl.specs.Types.{type_name};

use crate::json_lines::body::push_body;
use crate::json_lines::flags::push_names;
use crate::json_lines::line::Line;
use crate::names::flags::Bits;
use crate::names::types::message_type;
use nl_attr::Order;
use nl_frame::Message;
use std::alloc::AllocError;

/// Writes a field with the type of a message.
#[inline(always)]
#[tactic(auto, using(crate::proofs::Sets::one, crate::proofs::Unescaped::unescaped_parts))]
fn push_type(line: &mut Line, kind: u16, verb: &str, name: &str) -> Result<(), AllocError>
    requires { type_name kind ≡ verb.now ++ name.now }
    ensures { OnOk result
        (line.new ≡ line.old ⊕ fields_tokens ((codes "type", string (type_name kind)) ∷ [])) }
{
    line.key("type")?;
    line.joined(verb, name)
}

#[tactic(auto, unfolding(crate::specs::MessagesJson::header_fields), using(crate::proofs::Sets::field))]
fn push_header(line: &mut Line, message: &Message) -> Result<(), AllocError>
    ensures { OnOk result (line.new ≡ line.old
        ⊕ fields_tokens
        (header_fields message.now.kind message.now.flags message.now.seq message.now.port)) }
{
    let (verb, name, names) = message_type(message.kind);
    line.number("message", message.kind.into())?;
    push_type(line, message.kind, verb, name)?;
    line.number("flags", message.flags.into())?;
    push_names(
        line,
        "flag_names",
        Bits::Message(names),
        message.flags as u32,
    )?;
    line.number("seq", message.seq.into())?;
    line.number("port", message.port.into())
}

#[tactic(auto, unfolding(crate::specs::MessagesJson::message_json), using(crate::proofs::Sets::whole_value, crate::proofs::Sets::field))]
fn push_message(line: &mut Line, order: Order, message: &Message) -> Result<(), AllocError>
    ensures { OnOk result
        (line.new ≡ line.old ⊕ json_tokens (message_json order (message_view message.now))) }
{
    line.begin_object()?;
    push_header(line, message)?;
    push_body(line, order, message.kind, message.flags, &message.body)?;
    line.end_object()
}

#[tactic(auto, using(crate::proofs::Sets::all_written))]
fn push_each(line: &mut Line, order: Order, messages: &[Message]) -> Result<(), AllocError>
    ensures { OnOk result (line.new
        ≡ line.old ⊕ values_tokens (messages_json order (map message_view messages.now))) }
{
    for message in messages {
        push_message(line, order, message)?;
    }
    Ok(())
}

/// Writes a field with messages.
#[tactic(auto, using(crate::proofs::Sets::whole_value))]
pub(crate) fn push_messages(
    line: &mut Line,
    order: Order,
    messages: &[Message],
) -> Result<(), AllocError>
    ensures { OnOk result (line.new ≡ line.old
        ⊕ fields_tokens
        ((codes "messages", array (messages_json order (map message_view messages.now))) ∷ [])) }
{
    line.key("messages")?;
    line.begin_array()?;
    push_each(line, order, messages)?;
    line.end_array()
}
