//! Orders in which values may be level.
ghost use Rattle.std.specs.Prelude.{◌≡◌, ◌≢◌};
ghost use Rattle.weights.specs.Order.{side_from};
ghost use Rattle.weights.specs.declared.order.Side.{Side};
ghost use Rattle.weights.specs.declared.order.Side.TheVariants.{Before, Level, After};

use std::cmp::Ordering;

/// Where one value stands to another.
// Not the library's Ordering: its Equal would be read as one value, and two weights may be level and yet two.
#[derive(Clone, Copy, PartialEq, Eq, Debug)]
pub enum Side {
    Before,
    Level,
    After,
}

/// What is less is before.
impl From<Ordering> for Side {
    ghost from_gives = { λ o r. r ≡ side_from o };

    fn from(order: Ordering) -> Side {
        match order {
            Ordering::Less => Side::Before,
            Ordering::Equal => Side::Level,
            Ordering::Greater => Side::After,
        }
    }
}

/// Values that are compared, with the three laws that a kind must show: a value is level with itself; u is before v
/// exactly when v is after u; if u is not after v, and v is not after w, then u is not after w.
pub trait Ordered: Copy {
    ghost side: { Self → Self → Side };

    /// Where this value stands to the other.
    fn side_of(&self, other: &Self) -> Side
        ensures { result ≡ side self.now other.now };

    ghost level: { (u : Self) → side u u ≡ Level };

    ghost mirrored: { (u : Self) (v : Self) → side u v ≡ Before → side v u ≡ After };

    ghost back: { (u : Self) (v : Self) → side v u ≡ After → side u v ≡ Before };

    ghost passes: { (u : Self) (v : Self) (w : Self) → (side u v ≢ After) → (side v w ≢ After) → side u w ≢ After };
}
