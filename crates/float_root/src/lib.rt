// The square root, correctly rounded.
#![tactic(auto)]

ghost use Rattle.std.specs.Prelude.{◌≡◌};
ghost use Rattle.float_root.specs.Root as Spec;

// Rust's `f32::sqrt`. Below 0 it is a NaN, and -0.0 is its own root.
#[tactic(auto, using(crate::proofs::LibraryRoot::root_is))]
pub fn sqrt(x: f32) -> f32
    ensures { result ≡ Spec.root x }
{
    x.sqrt()
}
