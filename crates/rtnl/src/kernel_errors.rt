//! What the kernel says of an error: where it refuses a request, and where it ends a dump by one.

ghost use Rattle.std.specs.Prelude.{◌≡◌, ◌≤◌, IsTrue, length, option_map};
ghost use Rattle.nl_attr.specs.Fixed as fixed;
ghost use Rattle.nl_frame.specs.View.{message_view};
ghost use Rattle.rtnl.specs.Kernel.{kernel_name};
ghost use Rattle.rtnl.specs.KernelErrors.{are_attributes, error_name, error_of, error_view, failed};
ghost use Rattle.rtnl.specs.KernelErrors.{number_in, refused, request_name, said_by};
ghost use Rattle.rtnl.specs.KernelErrors.{shown_attributes};

use crate::json_lines::body::{echo_of, has_attributes};
use crate::json_lines::data::inside::{LEVELS, is_known, meaning_at};
use crate::json_lines::data::kinds::only_in_region;
use crate::json_lines::data::leaves::bytes_from;
use crate::names::kernel::{KernelName, set_name};
use crate::names::values::stem;
use nl_attr::{LONGEST_REGION, Order, align4};
use nl_frame::{Body, Header, Message};
use nl_values::{Format, Names, Set};

/// The attributes of an answer: the kernel's message, and the offset of the attribute that it is
/// about.
const NLMSGERR_ATTR_MSG: u16 = 1;

const NLMSGERR_ATTR_OFFS: u16 = 2;

/// What the kernel says of an error.
#[derive(Clone, Copy, Debug, PartialEq, Eq)]
pub struct KernelError<'a> {
    /// The type of the request that it refuses. `None` where it ends a dump: that doesn't say it.
    pub request: Option<u16>,
    /// The error: below 0, a number of errno with the other sign.
    pub code: i32,
    /// The kernel's message without the zero byte at its end, which may be no text. It is empty
    /// where there is none.
    pub message: &'a [u8],
    /// The offset of the attribute that it is about, counted from the header of the request.
    pub offset: Option<u32>,
}

/// Whether bytes are attributes of an answer, which break no rule.
fn are_attributes(order: Order, bytes: &[u8]) -> bool
    ensures value { result ≡ are_attributes order bytes.now }
    ensures bound { IsTrue result → length bytes.now ≤ fixed.LONGEST_REGION }
{
    if bytes.len() > LONGEST_REGION {
        return false;
    }
    let meaning = meaning_at(order, LEVELS, Format::List(Set::EXTACK), &[], bytes);
    is_known(meaning)
}

/// The attributes behind an answer with these flags; none where these say so, or one breaks a rule.
fn shown_attributes(order: Order, flags: u16, attrs: &[u8]) -> &[u8]
    ensures attributes { result.now ≡ shown_attributes order flags attrs.entry.now }
    ensures bound { length result.now ≤ fixed.LONGEST_REGION }
{
    if has_attributes(flags) && are_attributes(order, attrs) {
        attrs
    } else {
        &[]
    }
}

/// The number that four bytes are.
fn number_in(order: Order, bytes: &[u8]) -> Option<u32>
    ensures { result ≡ number_in order bytes.now }
{
    if bytes.len() == 4 {
        Some(order.read_u32(bytes))
    } else {
        None
    }
}

/// What an answer says by its code and its attributes.
fn said_by(order: Order, request: Option<u16>, code: i32, attrs: &[u8]) -> KernelError<'_>
    requires { length attrs.now ≤ fixed.LONGEST_REGION }
    ensures { error_view result ≡ said_by order request code attrs.entry.now }
{
    KernelError {
        request,
        code,
        message: stem(only_in_region(order, attrs, NLMSGERR_ATTR_MSG)),
        offset: number_in(order, only_in_region(order, attrs, NLMSGERR_ATTR_OFFS)),
    }
}

/// What an answer with a code says of an error; nothing where it is an acknowledgement.
fn refused<'a>(
    order: Order,
    flags: u16,
    code: i32,
    answered: &Header,
    tail: &'a [u8],
) -> Option<KernelError<'a>>
    ensures { option_map error_view result
        ≡ refused order flags code answered.now tail.entry.now }
{
    if code == 0 {
        return None;
    }
    let echoed = align4(echo_of(flags, code == 0, answered.len)) as usize;
    let attrs = shown_attributes(order, flags, bytes_from(tail, echoed));
    Some(said_by(order, Some(answered.kind), code, attrs))
}

/// What the end of a dump says of an error; nothing where its status isn't below 0.
fn failed(order: Order, flags: u16, status: Option<i32>, tail: &[u8]) -> Option<KernelError<'_>>
    ensures { option_map error_view result ≡ failed order flags status tail.entry.now }
{
    let status = status?;
    if status < 0 {
        let attrs = shown_attributes(order, flags, tail);
        Some(said_by(order, None, status, attrs))
    } else {
        None
    }
}

/// What the kernel says of the error in a message. `None` where it says none: the message is of
/// another type, an acknowledgement, or the end of a dump that has not failed.
///
/// An attribute that stands more than once says nothing, and none does where one breaks a rule.
pub fn kernel_error(order: Order, message: &Message) -> Option<KernelError<'_>>
    ensures { option_map error_view result ≡ error_of order (message_view message.entry.now) }
{
    match &message.body {
        Body::Error {
            code,
            answered,
            tail,
        } => refused(order, message.flags, *code, answered, tail),
        Body::Done { status, tail } => failed(order, message.flags, *status, tail),
        _ => None,
    }
}

/// The name of the number of errno that a code is with the other sign, as `ENOENT` of -2. `None`
/// where the kernel's headers have no name for it.
pub fn error_name(code: i32) -> Option<&'static str>
    ensures { option_map (λ r. r.now) result ≡ error_name code }
{
    if code < 0 {
        Names::ERRNO.name(u64::from(code.unsigned_abs()))
    } else {
        None
    }
}

/// The name of a type of messages of rtnetlink in the kernel's headers, as `RTM_NEWQDISC`. `None`
/// where they have none.
pub fn request_name(kind: u16) -> Option<KernelName>
    ensures { option_map kernel_name result ≡ request_name kind }
{
    set_name(Some(Set::MESSAGES), kind)
}
