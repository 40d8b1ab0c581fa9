//! What a task may use, by the class of its area.

ghost use Rattle.std.specs.Prelude.{◌≡◌, ◌≤◌};
ghost use Rattle.xs_base.specs.Layout.{most_bytes};
ghost use Rattle.xs_image.specs.User.{user_features, user_size};

use xs_base::{Class, Features};
use xs_layout::Layout;

/// The components that a task with an area of the class may use.
pub fn user_features(layout: &Layout, class: Class) -> Features
    ensures { result.0 ≡ user_features layout.now class }
{
    match class {
        Class::Small => layout.default_features(),
        Class::Large => layout.features(),
    }
}

/// The bytes of the standard format with those components.
#[tactic(auto, using(xs_base::proofs::SizeLemmas::end_low, xs_base::proofs::SizeLemmas::end_most))]
pub fn user_size(layout: &Layout, class: Class) -> u32
    ensures size { result ≡ user_size layout.now class }
    ensures low { 576 ≤ result }
    ensures high { result ≤ most_bytes }
{
    // The rows pass every test of a table.
    let _ = layout.len();
    match class {
        Class::Small => layout.default_size(),
        Class::Large => layout.full_size(),
    }
}
