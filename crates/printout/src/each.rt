//! Lists as text.
ghost use Rattle.std.specs.Prelude.{◌≡◌, ◌++◌, List, ℕ, Some};
ghost use Rattle.std.specs.List.{flat_map};
ghost use Rattle.std.specs.Fmt.{WritesOnOk};

use std::fmt;
use std::fmt::{Display, Formatter};

/// Writes each item between the two texts.
pub fn write_each<T: Display, W: fmt::Write>(
    before: &str,
    items: &[T],
    after: &str,
    f: &mut Formatter<W>,
) -> fmt::Result
    ensures { (text : T → List ℕ) → ((x : T) → T.output x ≡ Some (text x)) → WritesOnOk W.Write.write_str_gives f.old result (flat_map (λ x. before.now ++ (text x ++ after.now)) items.now) f.new }
{
    for item in items {
        write!(f, "{before}{item}{after}")?;
    }
    Ok(())
}
