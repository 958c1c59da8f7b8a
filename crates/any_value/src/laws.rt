//! What holds of the calls of this crate.
ghost use Rattle.std.specs.Prelude.{◌≡◌, true, ◌↔◌};
ghost use Rattle.any_value.specs.Views.{any_view};

use crate::value::Value;

/// Whether two values are the same: `==` says true of these, and of no others.
#[tactic(auto, using(crate::specs::Equal::any_same, crate::specs::Equal::any_alike))]
pub fn is_same_value<'a>(one: &Value<'a>, other: &Value<'a>) -> bool
    ensures { (result ≡ true) ↔ (any_view one.now ≡ any_view other.now) }
{
    one == other
}
