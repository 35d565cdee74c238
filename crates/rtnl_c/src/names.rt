//! `rtnlc_type_name` and `rtnlc_attr_name`: names in the kernel's headers. They take no memory.

ghost use Rattle.std.specs.Prelude.{option_map};
ghost use Rattle.rtnl.specs.Kernel as kernel;
ghost use Rattle.rtnl_c.specs.Codes.{nothing_there};
ghost use Rattle.rtnl_c.specs.Names.{attribute_name_in};
ghost use Rattle.rtnl_c.specs.Numbers.{context_in};
ghost use Rattle.rtnl_c.specs.Put.{PutsFound};

use crate::codes::END;
use crate::numbers::context;
use crate::put::Put;
use rtnl::{KernelName, attribute_name, message_name};

/// Puts a name into `out`, where there is one.
fn put_name(name: Option<KernelName>, out: &mut [u8]) -> Put
    ensures { PutsFound (option_map kernel.kernel_name name.entry) nothing_there
        out.old out.new result }
{
    match name {
        Some((front, rest)) => Put::both(front.as_bytes(), rest.as_bytes(), out),
        None => Put::none(END),
    }
}

/// Puts the name of a message type into `out`; 255 where it has none, 17 where `out` has less room.
#[unsafe(no_mangle)]
pub extern "C" fn rtnlc_type_name(message_type: u16, out: &mut [u8]) -> Put
    ensures { PutsFound (kernel.message_name message_type) nothing_there out.old out.new result }
{
    put_name(message_name(message_type), out)
}

/// Puts the name of an attribute in the context of this number into `out`; 255 where it has none or
/// no context has the number, 17 where `out` has less room.
#[unsafe(no_mangle)]
pub extern "C" fn rtnlc_attr_name(context_number: u8, number: u16, out: &mut [u8]) -> Put
    ensures { PutsFound (attribute_name_in (context_in context_number) number) nothing_there
        out.old out.new result }
{
    match context(context_number) {
        Some(ctx) => put_name(attribute_name(ctx, number), out),
        None => Put::none(END),
    }
}
