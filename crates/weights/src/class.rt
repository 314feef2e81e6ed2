//! The class kind's value: a class from 0 to 7 and a cost.
ghost use Rattle.std.specs.Prelude.{◌≡◌, ◌≤◌};

/// No class weight has a class above 7.
#[derive(Clone, Copy, PartialEq, Eq, PartialOrd, Ord, Debug)]
pub struct Class {
    class: u32,
    cost: u32,
    ghost low: { class ≤ 7 },
}

mod weight;
