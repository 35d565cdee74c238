//! The names that the kernel's headers give message types and attributes, in two parts.

ghost use Rattle.std.specs.Prelude.{◌≡◌, option_map, None};
ghost use Rattle.rtnl.specs.Kernel.{any_message_name, attribute_name, control_name, family_end};
ghost use Rattle.rtnl.specs.Kernel.{kernel_name, set_name};
ghost use Rattle.rtnl.specs.Kernel.{message_name, named_in, prefix_of, verb_front};
ghost use Rattle.rtnl.specs.Further.{further_rows};
ghost use Rattle.rtnl.specs.Named.{find_named};

use crate::json_lines::data::inside::known;
use crate::names::attributes::find;
use crate::names::further::further;
use crate::names::named::find_named;
use nl_attr::Ctx;
use nl_route::{Family, RouteType, Verb};
use nl_values::Set;

/// A name, whose second part stands right behind the first: `IFLA_` and `IFNAME`.
pub type KernelName = (&'static str, &'static str);

/// What the names of the attributes of a context begin with.
#[tactic(auto, unfolding(crate::specs::Kernel::prefix_of))]
fn prefix(ctx: Ctx) -> &'static str
    ensures { result.now ≡ prefix_of ctx }
{
    match ctx {
        Ctx::Link => "IFLA_",
        Ctx::LinkInfo => "IFLA_INFO_",
        Ctx::Addr => "IFA_",
        Ctx::Route => "RTA_",
        Ctx::Metrics => "RTAX_",
        Ctx::Neigh => "NDA_",
        Ctx::Rule => "FRA_",
        Ctx::Plain => "",
    }
}

/// The name of an attribute that lines of text print without one.
fn further_name(ctx: Ctx, number: u16) -> Option<KernelName>
    ensures { option_map kernel_name result
        ≡ named_in (prefix_of ctx) (find_named number (further_rows ctx)) None }
{
    match find_named(further(ctx), number) {
        Some((name, _)) => Some((prefix(ctx), name)),
        None => None,
    }
}

/// The name of an attribute in the kernel's headers, as `IFLA_IFNAME`; none where it has none here.
pub fn attribute_name(ctx: Ctx, number: u16) -> Option<KernelName>
    ensures { option_map kernel_name result ≡ attribute_name ctx number }
{
    match find(ctx, number) {
        Some((name, _)) => Some((prefix(ctx), name)),
        None => further_name(ctx, number),
    }
}

/// What the name of a family's message type begins with.
#[tactic(auto, unfolding(crate::specs::Kernel::verb_front))]
fn verb_name(verb: Verb) -> &'static str
    ensures { result.now ≡ verb_front verb }
{
    match verb {
        Verb::New => "RTM_NEW",
        Verb::Del => "RTM_DEL",
        Verb::Get => "RTM_GET",
        Verb::Set => "RTM_SET",
    }
}

/// What the name of a family's message type ends with.
#[tactic(auto, unfolding(crate::specs::Kernel::family_end))]
fn family_name(family: Family) -> &'static str
    ensures { result.now ≡ family_end family }
{
    match family {
        Family::Link => "LINK",
        Family::Addr => "ADDR",
        Family::Route => "ROUTE",
        Family::Neigh => "NEIGH",
        Family::Rule => "RULE",
    }
}

/// The name of a message type of netlink itself.
#[tactic(auto, unfolding(crate::specs::Kernel::control_name))]
fn control_name(kind: u16) -> Option<KernelName>
    ensures { option_map kernel_name result ≡ control_name kind }
{
    match kind {
        1 => Some(("NLMSG_", "NOOP")),
        2 => Some(("NLMSG_", "ERROR")),
        3 => Some(("NLMSG_", "DONE")),
        4 => Some(("NLMSG_", "OVERRUN")),
        _ => None,
    }
}

/// The name of a message type in the kernel's headers, as `RTM_NEWLINK`; none where it has none here.
pub fn message_name(kind: u16) -> Option<KernelName>
    ensures { option_map kernel_name result ≡ message_name kind }
{
    match RouteType::of(kind) {
        Some(of) => Some((verb_name(of.verb), family_name(of.family))),
        None => control_name(kind),
    }
}

/// The name of an attribute of a set in the kernel's headers; none where it has none here.
pub(crate) fn set_name(set: Option<Set>, number: u16) -> Option<KernelName>
    ensures { option_map kernel_name result ≡ set_name set number }
{
    let Some(of) = set else {
        return None;
    };
    let name = known(set, number).name;
    if name.is_empty() {
        return None;
    }
    Some((of.prefix(), name))
}

/// The name of a message type of any kind, as `RTM_NEWQDISC`; none where it has none here.
pub(crate) fn any_message_name(kind: u16) -> Option<KernelName>
    ensures { option_map kernel_name result ≡ any_message_name kind }
{
    match message_name(kind) {
        Some(name) => Some(name),
        None => set_name(Some(Set::MESSAGES), kind),
    }
}
