//! `rtnlc_family_of` and `rtnlc_holds`: what message and attribute types say, for a caller that
//! walks by itself. They take no memory.

ghost use Rattle.std.specs.Prelude.{◌≡◌};
ghost use Rattle.nl_frame.specs.Form.{form_of};
ghost use Rattle.rtnl_c.specs.Numbers.{context_in, context_number};
ghost use Rattle.rtnl_c.specs.Numbers.{family_answer, holds_answer, held};

use nl_attr::{AttrFlags, Content, Ctx, SORT_BYTES, SORT_HOPS, SORT_LIST, holds};
use nl_frame::Form;

/// What a message's body begins with: `struct rtnlc_family` of include/rtnlc.h.
#[repr(C)]
#[derive(Clone, Copy)]
pub struct BodyHead {
    /// The size of the family's header in bytes, behind which there are attributes; 0 for a
    /// message of no family.
    pub head_size: u8,
    /// The number of the attributes' context (`enum rtnlc_context`), or 0.
    pub context: u8,
}

/// What an attribute holds: `struct rtnlc_holds` of include/rtnlc.h.
#[repr(C)]
#[derive(Clone, Copy)]
pub struct Holds {
    /// `SORT_BYTES`, `SORT_LIST` or `SORT_HOPS`; 0 where no context has the number.
    pub sort: u8,
    /// The number of the context of the attributes in it, or in its next hops; else 0.
    pub context: u8,
}

/// The number of a context.
pub(crate) fn number(ctx: Ctx) -> u8
    ensures { result ≡ context_number ctx }
{
    match ctx {
        Ctx::Link => 1,
        Ctx::LinkInfo => 2,
        Ctx::Addr => 3,
        Ctx::Route => 4,
        Ctx::Metrics => 5,
        Ctx::Neigh => 6,
        Ctx::Rule => 7,
        Ctx::Plain => 8,
    }
}

/// The context of a number. `None` where there is no such number.
pub(crate) fn context(number: u8) -> Option<Ctx>
    ensures { result ≡ context_in number }
{
    match number {
        1 => Some(Ctx::Link),
        2 => Some(Ctx::LinkInfo),
        3 => Some(Ctx::Addr),
        4 => Some(Ctx::Route),
        5 => Some(Ctx::Metrics),
        6 => Some(Ctx::Neigh),
        7 => Some(Ctx::Rule),
        8 => Some(Ctx::Plain),
        _ => None,
    }
}

/// What an attribute holds, in the numbers of C.
fn answer(content: Content) -> Holds
    ensures { result ≡ held content }
{
    let (sort, context) = match content {
        Content::Bytes => (SORT_BYTES, 0),
        Content::List(inner) => (SORT_LIST, number(inner)),
        Content::Hops => (SORT_HOPS, number(Ctx::Route)),
    };
    Holds { sort, context }
}

/// What the body of a message of this type begins with.
#[unsafe(no_mangle)]
pub extern "C" fn rtnlc_family_of(message_type: u16) -> BodyHead
    ensures { result ≡ family_answer (form_of message_type) }
{
    match Form::of(message_type) {
        Form::Object(family) => {
            let row = family.row();
            BodyHead {
                head_size: row.head_size as u8,
                context: number(row.context),
            }
        }
        Form::Noop | Form::Error | Form::Done | Form::Overrun | Form::Get | Form::Other =>
            BodyHead {
                head_size: 0,
                context: 0,
            },
    }
}

/// What an attribute holds in the context of this number, by its own number and its flag
/// `NLA_F_NESTED`.
#[unsafe(no_mangle)]
pub extern "C" fn rtnlc_holds(context_number: u8, number: u16, nested: bool) -> Holds
    ensures { result ≡ holds_answer (context_in context_number) number nested }
{
    match context(context_number) {
        None => Holds {
            sort: 0,
            context: 0,
        },
        Some(ctx) => {
            let net = false;
            answer(holds(ctx, number, AttrFlags { nested, net }))
        }
    }
}
