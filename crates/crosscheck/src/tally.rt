//! Counts of what was compared, and of what disagreed.
use std::fmt;

/// What disagreed.
#[derive(Clone, Copy)]
pub enum Finding {
    /// The second implementation with what was known beforehand.
    Known,
    Class,
    OpenAnswer,
    DrawAnswer,
    StartList,
    Entries,
    Work,
    Links,
    Tree,
    Carrying,
    Player,
    Memory,
}

impl fmt::Display for Finding {
    fn fmt<W: fmt::Write>(&self, f: &mut fmt::Formatter<W>) -> fmt::Result {
        f.write_str(match self {
            Finding::Known => "what was known beforehand",
            Finding::Class => "the making of a class weight",
            Finding::OpenAnswer => "the answer of open",
            Finding::DrawAnswer => "the answer of draw",
            Finding::StartList => "the start list",
            Finding::Entries => "the entries",
            Finding::Work => "the work count",
            Finding::Links => "the link table",
            Finding::Tree => "the tree table",
            Finding::Carrying => "what carries",
            Finding::Player => "the answer of a player",
            Finding::Memory => "memory past a fabric",
        })
    }
}

/// The counts of one group of cases.
#[derive(Default, Drop)]
pub struct Tally {
    cases: u64,
    plans: u64,
    changes: u64,
    refusals: u64,
    moments: u64,
    cancels: u64,
    pub disagreements: u64,
    /// The case of the first disagreement, counted from 1, and what disagreed.
    pub first: Option<(u64, Finding)>,
}

impl Tally {
    /// Counts a disagreement unless both agree.
    pub fn expect(&mut self, agree: bool, finding: Finding) {
        if agree {
            return;
        }
        self.disagreements = self.disagreements.saturating_add(1);
        self.first = self.first.or(Some((self.cases, finding)));
    }

    pub fn count_case(&mut self) {
        self.cases = self.cases.saturating_add(1);
    }

    pub fn count_plan(&mut self, changes: usize) {
        self.plans = self.plans.saturating_add(1);
        self.changes = self.changes.saturating_add(changes as u64);
    }

    pub fn count_refusal(&mut self) {
        self.refusals = self.refusals.saturating_add(1);
    }

    pub fn count_moment(&mut self) {
        self.moments = self.moments.saturating_add(1);
    }

    pub fn count_cancel(&mut self) {
        self.cancels = self.cancels.saturating_add(1);
    }
}

/// What was compared.
impl fmt::Display for Tally {
    fn fmt<W: fmt::Write>(&self, f: &mut fmt::Formatter<W>) -> fmt::Result {
        let Tally {
            cases,
            plans,
            changes,
            refusals,
            moments,
            cancels,
            ..
        } = self;
        write!(
            f,
            "{cases} cases, {plans} plans of {changes} changes, {refusals} refused, "
        )?;
        write!(f, "{moments} moments played, {cancels} changes cancelled")
    }
}
