//! A caller of `nl_attr`.

ghost use Rattle.std.specs.Prelude.{◌≡◌, ◌<◌, ◌≤◌, ◌==◌, ◌∷◌, ◌++◌, [], List};
ghost use Rattle.std.specs.Prelude.{length, map, count_by, IfOk, IfErr, Ok, Err};
ghost use Rattle.nl_attr.specs.Walk.{IsWalk, IsPart};
ghost use Rattle.nl_attr.specs.declared.order.Order.{Order};
ghost use Rattle.nl_attr.specs.declared.walk.attrs.Part.{Part};

use nl_attr::{Attrs, Fault, LONGEST_REGION};

/// How many attributes of a region have this number, or the region's fault. It takes no memory.
pub fn count_of(region: &[u8], number: u16) -> Result<usize, Fault>
    requires { length region.now ≤ LONGEST_REGION }
    // The region is these attributes, from its first byte to its last.
    ensures counted { IfOk result (λ count. (parts : List Part)
        × IsWalk 4 IsPart Order.Little 0 region.now (map (λ p. Ok p) parts)
        × (count ≡ count_by (λ p. p.number == number) parts)) }
    // These attributes stand before the fault.
    ensures refused { IfErr result (λ fault. (parts : List Part)
        × IsWalk 4 IsPart Order.Little 0 region.now (map (λ p. Ok p) parts ++ Err fault ∷ [])) }
    // It is at a byte of the region.
    ensures place { IfErr result (λ fault. fault.place < length region.now) }
{
    let mut count = 0;
    for part in Attrs::of(region) {
        if part?.number == number {
            count += 1;
        }
    }
    Ok(count)
}
