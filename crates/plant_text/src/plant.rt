//! What a text tells of a plant.
use plant_tables::Tables;
use weights::{Class, Cost};

/// A plant of either kind of weights.
#[derive(Drop)]
pub enum Plant {
    Costs(Tables<Cost>),
    Classes(Tables<Class>),
}
