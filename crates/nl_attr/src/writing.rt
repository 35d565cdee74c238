//! Writing an attribute list as bytes: the public calls. They measure the list, reserve memory for
//! it, and then append it.

ghost use Rattle.std.specs.Prelude.{◌≡◌, ◌↔◌, ◌⊎◌, IfSome};
ghost use Rattle.nl_attr.specs.Shape.{shape_of};
ghost use Rattle.nl_attr.specs.View.{attrs_view};
ghost use Rattle.nl_attr.specs.Written.{items_len};
ghost use Rattle.nl_attr.specs.Proper.{IsMismatched, IsLong};
ghost use Rattle.nl_attr.specs.Writes.{WritesList};

use crate::appending::append_list;
use crate::fault::WriteError;
use crate::limits::Depth;
use crate::measuring::{Extent, measure};
use crate::order::Order;
use crate::tree::{Attr, Ctx};

/// How many bytes an attribute list is written as, in either byte order. `None` where `write_list`
/// would answer `Mismatch` or `TooLong`. The nesting depth isn't checked.
pub fn list_len(attrs: &[Attr], ctx: Ctx) -> Option<u32>
    ensures none { (result ≡ None)
        ↔ (IsMismatched (attrs_view attrs.now) ctx ⊎ IsLong (attrs_view attrs.now)) }
    ensures len { IfSome result (λ n. n ≡ items_len (attrs_view attrs.now)) }
{
    let len = measure(attrs, ctx, Depth::standard())?.len?;
    Some(len as u32)
}

/// Appends an attribute list to `out`, in little-endian byte order. Each attribute is padded with
/// zeros, the last one too.
///
/// After an error `out` holds what it held before. The error is the first of these that applies:
///
/// - `Mismatch`: an attribute's type is 16,384 or more, or its value isn't what its context, type
///   and flags say that it holds.
/// - `TooDeep`: a nested attribute opens a level beyond `depth`.
/// - `TooLong`: an attribute or a next hop has more than 65,535 bytes, or a region more than
///   1,048,576.
/// - `Memory`: `out` has no room, and an allocation failed.
pub fn write_list(
    attrs: &[Attr],
    ctx: Ctx,
    depth: Depth,
    out: &mut Vec<u8>,
) -> Result<(), WriteError>
    ensures { WritesList (shape_of Order.Little depth) (attrs_view attrs.now) ctx
        out.old out.new result }
{
    write_list_ordered(attrs, ctx, depth, out, Order::Little)
}

/// Appends an attribute list in this byte order. All else is as in `write_list`.
pub fn write_list_ordered(
    attrs: &[Attr],
    ctx: Ctx,
    depth: Depth,
    out: &mut Vec<u8>,
    order: Order,
) -> Result<(), WriteError>
    ensures { WritesList (shape_of order depth) (attrs_view attrs.now) ctx
        out.old out.new result }
{
    let len = Extent::length(measure(attrs, ctx, depth))?;
    out.reserve(len)?;
    append_list(attrs, order, out);
    Ok(())
}
