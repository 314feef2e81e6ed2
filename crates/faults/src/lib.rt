//! Every ground on which a call refuses, and the one table of layers, codes and places.
#![tactic(auto)]

ghost use Rattle.std.specs.Prelude.{◌≡◌};
ghost use Rattle.faults.specs.declared.DrawFault.TheVariants.{NotOpened};
ghost use Rattle.faults.specs.declared.PlayerFault.TheVariants.{Refused};
ghost use Rattle.faults.specs.Table.{at, of_weight, of_open, of_draw, of_fabric, of_blank, of_player, of_text};

/// The part that a call belongs to. Weights belong to the book.
#[derive(Clone, Copy, PartialEq, Eq, Debug)]
pub enum Layer {
    Text,
    Book,
    Planner,
    Player,
    Fabric,
}

/// A refusal as it is reported: the layer of the call that found it, its code, and the place: a link, a change or a
/// moment by number, or 0. In code a ground is a case of an enum; its number is for reports and documents.
#[derive(Clone, Copy, PartialEq, Eq, Debug)]
pub struct Fault {
    pub layer: Layer,
    pub code: u32,
    pub place: u32,
}

/// Why a weight is not made.
#[derive(Clone, Copy, PartialEq, Eq, Debug)]
pub enum WeightFault {
    /// The class is above 7.
    ClassAbove,
}

/// Why a network is not opened.
#[derive(Clone, Copy, PartialEq, Eq, Debug)]
pub enum OpenFault {
    /// No node, or more than 4,096.
    NodeCount,
    /// More than 16,384 links.
    LinkCount,
    /// The ends list and the link table differ in length, or the tree table or the work area is too short.
    ShortTables,
    /// An end of this link is no node.
    EndOutside(u32),
    /// Both ends of this link are one node.
    SameEnds(u32),
    /// The present links do not join all nodes.
    NotJoined,
}

/// Why a batch is not drawn.
#[derive(Clone, Copy, PartialEq, Eq, Debug)]
pub enum DrawFault {
    /// The book's open was refused.
    NotOpened(OpenFault),
    /// More than 65,536 changes.
    ChangeCount,
    /// The start list, the entry table or the work area is too short.
    ShortTables,
    /// This change names a link that is not there.
    LinkOutside(u32),
    /// This change removes a link that is absent by then.
    RemoveAbsent(u32),
    /// After this change the present links do not join all nodes.
    Parted(u32),
}

/// Why a fabric refuses a link.
#[derive(Clone, Copy, PartialEq, Eq, Debug)]
pub enum FabricFault {
    /// The link is 0 or over the size.
    LinkOutside(u32),
    /// The link to enable carries already.
    CarriesAlready(u32),
    /// The link to disable does not carry.
    CarriesNot(u32),
}

/// Why a blank fabric is not made.
#[derive(Clone, Copy, PartialEq, Eq, Debug)]
pub enum BlankFault {
    /// No node, or more than 4,096.
    NodeCount,
    /// More than 16,384 links.
    LinkCount,
    /// Too few bytes.
    ShortMemory,
    /// An end of this link is no node.
    EndOutside(u32),
    /// Both ends of this link are one node.
    SameEnds(u32),
}

/// Why a player's call is refused.
#[derive(Clone, Copy, PartialEq, Eq, Debug)]
pub enum PlayerFault {
    /// The fabric's size is not the plan's number of links.
    OtherSize,
    /// The fabric is neither blank nor carries exactly the start list.
    NotBlank,
    /// From this moment no entry leads that way.
    NoEntry(u32),
    /// The fabric refuses a link.
    Refused(FabricFault),
    /// The plan has no node, its tables are too short, or it is not the plan that was laid.
    OtherPlan,
}

/// Why a text is refused, with the line; line 0 where the whole text has too many bytes.
// Not an Option: 0 is what the refusal's line prints there.
#[derive(Clone, Copy, PartialEq, Eq, Debug)]
pub enum TextFault {
    /// The line is not one of the format.
    Malformed(u32),
    /// The line may not stand where it stands.
    OutOfPlace(u32),
    /// The line passes a count.
    OverCount(u32),
}

impl Fault {
    fn new(layer: Layer, code: u32, place: u32) -> Fault
        ensures { result ≡ at layer code place }
    {
        Fault { layer, code, place }
    }
}

impl From<WeightFault> for Fault {
    ghost from_gives = { λ f r. r ≡ of_weight f };

    fn from(fault: WeightFault) -> Fault {
        match fault {
            WeightFault::ClassAbove => Fault::new(Layer::Book, 16, 0),
        }
    }
}

impl From<OpenFault> for Fault {
    ghost from_gives = { λ f r. r ≡ of_open f };

    fn from(fault: OpenFault) -> Fault {
        match fault {
            OpenFault::NodeCount => Fault::new(Layer::Book, 10, 0),
            OpenFault::LinkCount => Fault::new(Layer::Book, 11, 0),
            OpenFault::ShortTables => Fault::new(Layer::Book, 12, 0),
            OpenFault::EndOutside(link) => Fault::new(Layer::Book, 13, link),
            OpenFault::SameEnds(link) => Fault::new(Layer::Book, 14, link),
            OpenFault::NotJoined => Fault::new(Layer::Book, 15, 0),
        }
    }
}

impl From<DrawFault> for Fault {
    ghost from_gives = { λ f r. r ≡ of_draw f };

    fn from(fault: DrawFault) -> Fault {
        match fault {
            DrawFault::NotOpened(open) => open.into(),
            DrawFault::ChangeCount => Fault::new(Layer::Planner, 20, 0),
            DrawFault::ShortTables => Fault::new(Layer::Planner, 21, 0),
            DrawFault::LinkOutside(change) => Fault::new(Layer::Planner, 22, change),
            DrawFault::RemoveAbsent(change) => Fault::new(Layer::Planner, 23, change),
            DrawFault::Parted(change) => Fault::new(Layer::Planner, 24, change),
        }
    }
}

impl From<FabricFault> for Fault {
    ghost from_gives = { λ f r. r ≡ of_fabric f };

    fn from(fault: FabricFault) -> Fault {
        match fault {
            FabricFault::LinkOutside(link) => Fault::new(Layer::Fabric, 40, link),
            FabricFault::CarriesAlready(link) => Fault::new(Layer::Fabric, 41, link),
            FabricFault::CarriesNot(link) => Fault::new(Layer::Fabric, 42, link),
        }
    }
}

impl From<BlankFault> for Fault {
    ghost from_gives = { λ f r. r ≡ of_blank f };

    fn from(fault: BlankFault) -> Fault {
        match fault {
            BlankFault::NodeCount => Fault::new(Layer::Fabric, 10, 0),
            BlankFault::LinkCount => Fault::new(Layer::Fabric, 11, 0),
            BlankFault::ShortMemory => Fault::new(Layer::Fabric, 12, 0),
            BlankFault::EndOutside(link) => Fault::new(Layer::Fabric, 13, link),
            BlankFault::SameEnds(link) => Fault::new(Layer::Fabric, 14, link),
        }
    }
}

impl From<OpenFault> for DrawFault {
    ghost from_gives = { λ f r. r ≡ NotOpened f };

    fn from(fault: OpenFault) -> DrawFault {
        DrawFault::NotOpened(fault)
    }
}

impl From<FabricFault> for PlayerFault {
    ghost from_gives = { λ f r. r ≡ Refused f };

    fn from(fault: FabricFault) -> PlayerFault {
        PlayerFault::Refused(fault)
    }
}

/// The report of the player's own code; at code 33 the place is the link, and the fabric's code stands in the case.
impl From<PlayerFault> for Fault {
    ghost from_gives = { λ f r. r ≡ of_player f };

    fn from(fault: PlayerFault) -> Fault {
        match fault {
            PlayerFault::OtherSize => Fault::new(Layer::Player, 30, 0),
            PlayerFault::NotBlank => Fault::new(Layer::Player, 31, 0),
            PlayerFault::NoEntry(moment) => Fault::new(Layer::Player, 32, moment),
            PlayerFault::Refused(fabric) => Fault::new(
                Layer::Player,
                33,
                Fault::from(fabric).place,
            ),
            PlayerFault::OtherPlan => Fault::new(Layer::Player, 34, 0),
        }
    }
}

impl From<TextFault> for Fault {
    ghost from_gives = { λ f r. r ≡ of_text f };

    fn from(fault: TextFault) -> Fault {
        match fault {
            TextFault::Malformed(_) => Fault::new(Layer::Text, 1, 0),
            TextFault::OutOfPlace(_) => Fault::new(Layer::Text, 2, 0),
            TextFault::OverCount(_) => Fault::new(Layer::Text, 3, 0),
        }
    }
}
