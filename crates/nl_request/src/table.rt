//! The number of a routing table, in a header's byte or in an attribute.

ghost use Rattle.std.specs.Prelude.{◌≡◌, ◌≤◌, Some, IfErr, length};
ghost use Rattle.nl_frame.specs.Calls.{run};
ghost use Rattle.nl_frame.specs.Parts.{over};
ghost use Rattle.nl_request.specs.Parts.{calls_of_part};
ghost use Rattle.nl_request.specs.Tables.{head_table, table_part};

use nl_attr::{NO_FLAGS, Order};
use nl_frame::{BuildError, Builder};

/// The table's number in the header, as `rtm_table`: 0, `RT_TABLE_UNSPEC`, where it is above 255.
#[inline(always)]
pub(crate) fn table_byte(table: u32) -> u8
    ensures { result ≡ head_table table }
{
    if table < 256 { table as u8 } else { 0 }
}

/// Writes an attribute with the table's number, where that is above 255. `number` is `RTA_TABLE`
/// or `FRA_TABLE`.
#[inline(always)]
pub(crate) fn put_table(
    builder: &mut Builder,
    out: &mut [u8],
    number: u16,
    table: u32,
    order: Order,
) -> Result<(), BuildError>
    requires fits { builder.old.len ≤ length out.old }
    ensures built { over builder.new out.new
        ≡ run (over builder.old out.old) (calls_of_part (table_part number order table)) }
    ensures refused { IfErr result (λ e. builder.new.refusal ≡ Some e) }
    ensures fits { builder.new.len ≤ length out.new }
{
    if table >= 256 {
        return builder.put_u32(out, number, NO_FLAGS, table, order);
    }
    Ok(())
}
