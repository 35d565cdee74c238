//! The body of a message as a field.

ghost use Rattle.std.specs.Prelude.{◌≡◌, ◌≤◌, ◌∷◌, [], OnOk, codes};
ghost use Rattle.nl_frame.specs.View.{body_view};
ghost use Rattle.rtnl.specs.Json.{IsUnescaped, ◌⊕◌, fields_tokens};
ghost use Rattle.rtnl.specs.MessagesJson.{answered_json, body_fields, done_field, error_field};
ghost use Rattle.rtnl.specs.MessagesJson.{echo_of, extack_fields, get_field, has_attributes};
ghost use Rattle.rtnl.specs.MessagesJson.{kind_fields, meant_fields};

use crate::json_lines::data::inside::{LEVELS, known, meaning_at, push_data};
use crate::json_lines::data::kinds::Scope;
use crate::json_lines::data::leaves::{bytes_from, bytes_up_to};
use crate::json_lines::heads::ItemField;
use crate::json_lines::line::Line;
use nl_attr::{Order, align4};
use nl_frame::{Body, Header};
use nl_route::match_object;
use nl_values::{Format, Set};
use std::alloc::AllocError;

/// A flag of an error: it doesn't repeat the request's payload.
const NLM_F_CAPPED: u16 = 0x100;

/// A flag of an error or a DONE: attributes follow it.
const NLM_F_ACK_TLVS: u16 = 0x200;

/// How many bytes of the request's payload an error repeats, by the length of the request. An
/// acknowledgement repeats none.
pub(crate) fn echo_of(flags: u16, is_ack: bool, len: u32) -> u32
    ensures value { result ≡ echo_of flags is_ack len }
    ensures bound { result ≤ 4294967279 }
{
    if is_ack || flags & NLM_F_CAPPED != 0 {
        return 0;
    }
    len.saturating_sub(16)
}

/// Whether attributes follow an error or a DONE with these flags.
pub(crate) fn has_attributes(flags: u16) -> bool
    ensures { result ≡ has_attributes flags }
{
    flags & NLM_F_ACK_TLVS != 0
}

/// Writes the name of a message type, where it is known.
fn push_kind(line: &mut Line, name: &str) -> Result<(), AllocError>
    requires { IsUnescaped name.now }
    ensures { OnOk result (line.new ≡ line.old ⊕ fields_tokens (kind_fields name.now)) }
{
    if name.is_empty() {
        return Ok(());
    }
    line.text("kind", name)
}

/// Writes the name of a message type, and what the payload of such a message means.
fn push_meant(line: &mut Line, order: Order, kind: u16, payload: &[u8]) -> Result<(), AllocError>
    ensures { OnOk result
        (line.new ≡ line.old ⊕ fields_tokens (meant_fields order kind payload.now)) }
{
    let known = known(Some(Set::MESSAGES), kind);
    push_kind(line, known.name)?;
    let scope = Scope {
        order,
        family: bytes_up_to(payload, 1),
    };
    let meaning = meaning_at(scope.order, LEVELS, known.format, &[], payload);
    push_data(line, scope, meaning, payload)
}

/// Writes the attributes of an error or a DONE, where its flags say that they are there.
fn push_extack(line: &mut Line, order: Order, flags: u16, attrs: &[u8]) -> Result<(), AllocError>
    ensures { OnOk result
        (line.new ≡ line.old ⊕ fields_tokens (extack_fields order flags attrs.now)) }
{
    if !has_attributes(flags) {
        return Ok(());
    }
    let scope = Scope { order, family: &[] };
    let meaning = meaning_at(scope.order, LEVELS, Format::List(Set::EXTACK), &[], attrs);
    push_data(line, scope, meaning, attrs)
}

/// Writes the header of the request that an error answers, and the payload that it repeats.
fn push_answered(
    line: &mut Line,
    order: Order,
    answered: &Header,
    payload: &[u8],
) -> Result<(), AllocError>
    ensures { OnOk result (line.new ≡ line.old
        ⊕ fields_tokens ((codes "answers", answered_json order answered.now payload.now) ∷ [])) }
{
    line.key("answers")?;
    line.begin_object()?;
    line.number("len", answered.len.into())?;
    line.number("type", answered.kind.into())?;
    line.number("flags", answered.flags.into())?;
    line.number("seq", answered.seq.into())?;
    line.number("port", answered.port.into())?;
    push_meant(line, order, answered.kind, payload)?;
    line.end_object()
}

fn push_error(
    line: &mut Line,
    order: Order,
    flags: u16,
    code: i32,
    answered: &Header,
    tail: &[u8],
) -> Result<(), AllocError>
    ensures { OnOk result (line.new ≡ line.old
        ⊕ fields_tokens (error_field order flags code answered.now tail.now ∷ [])) }
{
    let echoed = echo_of(flags, code == 0, answered.len);
    line.key("error")?;
    line.begin_object()?;
    line.signed("code", code)?;
    push_answered(line, order, answered, bytes_up_to(tail, echoed as usize))?;
    line.digits("tail", tail)?;
    push_extack(
        line,
        order,
        flags,
        bytes_from(tail, align4(echoed) as usize),
    )?;
    line.end_object()
}

fn push_done(
    line: &mut Line,
    order: Order,
    flags: u16,
    status: i32,
    tail: &[u8],
) -> Result<(), AllocError>
    ensures { OnOk result
        (line.new ≡ line.old ⊕ fields_tokens (done_field order flags status tail.now ∷ [])) }
{
    line.key("done")?;
    line.begin_object()?;
    line.signed("status", status)?;
    line.digits("tail", tail)?;
    push_extack(line, order, flags, tail)?;
    line.end_object()
}

#[tactic(auto, unfolding(crate::specs::MessagesJson::get_field, crate::specs::Json::fields_tokens), using(crate::proofs::Sets::whole_value))]
fn push_get(line: &mut Line, family: u8, tail: &[u8]) -> Result<(), AllocError>
    ensures { OnOk result (line.new ≡ line.old ⊕ fields_tokens (get_field family tail.now ∷ [])) }
{
    line.key("get")?;
    line.begin_object()?;
    line.number("family", family.into())?;
    line.digits("tail", tail)?;
    line.end_object()
}

/// Writes the body of a message of this type and with these flags, under its word.
#[tactic(auto, unfolding(crate::specs::MessagesJson::body_fields, crate::specs::MessagesJson::bytes_field))]
pub(crate) fn push_body(
    line: &mut Line,
    order: Order,
    kind: u16,
    flags: u16,
    body: &Body,
) -> Result<(), AllocError>
    ensures { OnOk result (line.new
        ≡ line.old ⊕ fields_tokens (body_fields order kind flags (body_view body.now))) }
{
    match_object!(body, Body, object => object.push_field(line, order), {
        Body::Noop(payload) | Body::Overrun(payload) => line.digits("bytes", payload),
        Body::Other(payload) => {
            line.digits("bytes", payload)?;
            push_meant(line, order, kind, payload)
        }
        Body::Error {
            code,
            answered,
            tail,
        } => push_error(line, order, flags, *code, answered, tail),
        Body::Done { status, tail } => push_done(line, order, flags, status.unwrap_or(0), tail),
        Body::Get { family, tail } => push_get(line, *family, tail),
    })
}
