//! What a message type says of the body's layout.

ghost use Rattle.std.specs.Prelude.{◌≡◌};
ghost use Rattle.nl_frame.specs.Form.{form_of, least_body};

use nl_route::Family;

/// The layout of a body: which fields of fixed size it begins with, if any.
#[derive(Clone, Copy, Debug, PartialEq, Eq, Hash)]
pub enum Form {
    Noop,
    Error,
    Done,
    Overrun,
    /// NEW, DEL and SET of a family: its header, as `ifinfomsg`, and attributes.
    Object(Family),
    /// GET of a family: one byte, the address family, and the rest.
    Get,
    /// Any other type: bytes.
    Other,
}

impl Form {
    /// The form of the body of this message type. Types are those of linux/netlink.h and, from
    /// RTM_NEWLINK on, of linux/rtnetlink.h. Each type has an arm, so that one jump leads to it.
    #[tactic(auto, using(crate::proofs::Forms::agree))]
    #[inline(always)]
    pub fn of(kind: u16) -> Form
        ensures { result ≡ form_of kind }
    {
        match kind {
            1 => Form::Noop,
            2 => Form::Error,
            3 => Form::Done,
            4 => Form::Overrun,
            16 => Form::Object(Family::Link),
            17 => Form::Object(Family::Link),
            18 => Form::Get,
            19 => Form::Object(Family::Link),
            20 => Form::Object(Family::Addr),
            21 => Form::Object(Family::Addr),
            22 => Form::Get,
            24 => Form::Object(Family::Route),
            25 => Form::Object(Family::Route),
            26 => Form::Get,
            28 => Form::Object(Family::Neigh),
            29 => Form::Object(Family::Neigh),
            30 => Form::Get,
            32 => Form::Object(Family::Rule),
            33 => Form::Object(Family::Rule),
            34 => Form::Get,
            _ => Form::Other,
        }
    }

    /// The least length of such a body, in bytes: a shorter one breaks the rule `ShortBody`.
    pub fn least(self) -> usize
        ensures { result ≡ least_body self }
    {
        match self {
            Form::Error => 20,
            Form::Object(family) => family.row().head_size,
            Form::Get => 1,
            Form::Noop | Form::Done | Form::Overrun | Form::Other => 0,
        }
    }
}
