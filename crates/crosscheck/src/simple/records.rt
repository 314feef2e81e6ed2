//! Networks and changes.

/// A weight: the class decides, then the cost. A weight of the cost kind has class 0.
#[derive(Clone, Copy, PartialEq, Eq, PartialOrd, Ord)]
pub struct Weight {
    pub class: u32,
    pub cost: u32,
}

/// A link with its end nodes, its weight, and whether it is present. Link k stands at index k - 1.
#[derive(Clone, Copy)]
// An absent link keeps its weight, which a flip brings back: so the two are no Option.
pub struct Link {
    pub a: u32,
    pub b: u32,
    pub weight: Weight,
    pub present: bool,
}

/// What a change does to its link.
#[derive(Clone, Copy, PartialEq)]
pub enum Action {
    Set(Weight),
    Remove,
    Flip,
}

/// A change of the link of this number.
#[derive(Clone, Copy)]
pub struct Change {
    pub link: u32,
    pub action: Action,
}

/// Where the link of this number stands in a table. For number 0 that is past the end of every table.
pub fn index(number: u32) -> usize {
    number.wrapping_sub(1) as usize
}

/// Makes a change.
pub fn apply(links: &mut [Link], change: Change) {
    if let Some(link) = links.get_mut(index(change.link)) {
        match change.action {
            Action::Set(weight) => {
                link.weight = weight;
                link.present = true;
            }
            Action::Remove => link.present = false,
            Action::Flip => link.present = !link.present,
        }
    }
}
