//! Tables of numbers, each with its name and what else is known of it.

ghost use Rattle.std.specs.Prelude.{◌≡◌, map, option_map};
ghost use Rattle.rtnl.specs.Named.{named_view};
ghost use Rattle.rtnl.specs.Named as spec;

/// A number, its name, and what else is known of it.
pub(crate) type Named<T> = (u16, &'static str, T);

/// The first row of a number.
pub(crate) fn find_named<T: Copy>(rows: &[Named<T>], number: u16) -> Option<(&'static str, T)>
    ensures { option_map (λ row. (row.0.now, row.1)) result
        ≡ spec.find_named number (map named_view rows.now) }
{
    for (key, name, rest) in rows {
        if *key == number {
            return Some((name, *rest));
        }
    }
    None
}
