//! What open and draw have to answer for a case.
use crate::simple::records::{Action, Change, Link, apply, index};
use crate::simple::tree::{Forest, least_tree};
use crate::simple::work::work_count;
use std::alloc::{AllocError, AllocFailed, Global};

/// How long the tables are that are lent. The ends list is as long as the list of links.
#[derive(Clone, Copy)]
pub struct Lent {
    pub links: usize,
    pub tree: usize,
    pub open_work: usize,
    pub start: usize,
    pub entries: usize,
    pub draw_work: usize,
}

impl Lent {
    /// Just what n nodes, m links and k changes need.
    pub fn exact(n: usize, m: usize, k: usize) -> Lent {
        let size = n.saturating_add(m);
        Lent {
            links: m,
            tree: n.saturating_sub(1),
            open_work: size.saturating_mul(64),
            start: n.saturating_sub(1),
            entries: k,
            draw_work: size.saturating_add(k).saturating_mul(64),
        }
    }

    /// The same with each table longer that may be.
    pub fn longer(self, more: usize) -> Lent {
        Lent {
            links: self.links,
            tree: self.tree.saturating_add(more),
            open_work: self.open_work.saturating_add(more),
            start: self.start.saturating_add(more),
            entries: self.entries.saturating_add(more),
            draw_work: self.draw_work.saturating_add(more),
        }
    }
}

/// A network of n nodes, changes of it, and the lengths of the tables.
#[derive(Drop)]
pub struct Case {
    pub n: u32,
    pub links: Vec<Link>,
    pub changes: Vec<Change>,
    pub lent: Lent,
}

impl Case {
    /// A case with tables just as long as needed.
    pub fn exact(n: u32, links: Vec<Link>, changes: Vec<Change>) -> Case {
        let lent = Lent::exact(n as usize, links.len(), changes.len());
        Case {
            n,
            links,
            changes,
            lent,
        }
    }
}

/// Why a case is refused.
#[derive(Clone, Copy, PartialEq, Eq)]
pub enum Refusal {
    /// No node, or more than 4,096.
    NodeCount,
    /// More than 16,384 links.
    LinkCount,
    /// The link table has another length than the ends list, or the tree table or the work area of open is too short.
    OpenTables,
    /// An end of this link is no node.
    EndOutside(u32),
    /// Both ends of this link are one node.
    SameEnds(u32),
    /// The present links do not join all nodes.
    NotJoined,
    /// More than 65,536 changes.
    ChangeCount,
    /// The start list, the entry table or the work area of draw is too short.
    DrawTables,
    /// This change is of no link.
    LinkOutside(u32),
    /// This change removes a link that is absent by then.
    RemoveAbsent(u32),
    /// After this change the present links do not join all nodes.
    Parted(u32),
}

/// Why there is no forecast of an answer that is granted.
#[derive(Drop)]
pub enum Stop {
    Refused(Refusal),
    Memory(AllocError),
}

impl From<AllocError> for Stop {
    fn from(e: AllocError) -> Stop {
        Stop::Memory(e)
    }
}

impl<T: Drop> From<AllocFailed<T>> for Stop {
    fn from(e: AllocFailed<T>) -> Stop {
        Stop::Memory(e.into())
    }
}

impl From<Refusal> for Stop {
    fn from(refusal: Refusal) -> Stop {
        Stop::Refused(refusal)
    }
}

/// The answer to a case: what is granted, or a refusal.
pub type Answer<T> = Result<T, Refusal>;

/// Tells a refusal apart from memory that ran out.
pub fn answered<T>(forecast: Result<T, Stop>) -> Result<Answer<T>, AllocError> {
    match forecast {
        Ok(value) => Ok(Ok(value)),
        Err(Stop::Refused(refusal)) => Ok(Err(refusal)),
        Err(Stop::Memory(e)) => Err(e),
    }
}

/// Refuses if it is so.
fn refuse_if(so: bool, refusal: Refusal) -> Answer<()> {
    if so { Err(refusal) } else { Ok(()) }
}

/// Refuses ends that are no nodes, and ends that are one node.
fn check_ends(n: u32, links: &[Link]) -> Answer<()> {
    for (number, link) in (1u32..).zip(links) {
        let outside = link.a == 0 || link.a > n || link.b == 0 || link.b > n;
        refuse_if(outside, Refusal::EndOutside(number))?;
        refuse_if(link.a == link.b, Refusal::SameEnds(number))?;
    }
    Ok(())
}

/// The tree that a granted open leaves.
pub fn open(heap: Global, case: &Case) -> Result<Forest, Stop> {
    let needs = Lent::exact(case.n as usize, case.links.len(), 0);
    let lent = case.lent;
    refuse_if(case.n == 0 || case.n > 4096, Refusal::NodeCount)?;
    refuse_if(case.links.len() > 16384, Refusal::LinkCount)?;
    let short = lent.links != needs.links
        || lent.tree < needs.tree
        || lent.open_work < needs.open_work;
    refuse_if(short, Refusal::OpenTables)?;
    check_ends(case.n, case.links.as_slice())?;
    let tree = least_tree(heap, case.n, case.links.as_slice())?;
    Ok(tree.ok_or(Refusal::NotJoined)?)
}

/// Refuses changes of no link, and removes of a link that is absent by then.
fn check_changes(case: &Case) -> Result<(), Stop> {
    let mut links = case.links.clone()?;
    for (place, change) in (1u32..).zip(case.changes.iter()) {
        let link = links
            .get(index(change.link))
            .ok_or(Refusal::LinkOutside(place))?;
        let absent = change.action == Action::Remove && !link.present;
        refuse_if(absent, Refusal::RemoveAbsent(place))?;
        apply(links.as_mut_slice(), *change);
    }
    Ok(())
}

/// A plan: the least tree of each moment, the entry of each change, the work count, and the links after the batch. As in
/// the planner's tables, 0 stands for no link in an entry.
#[derive(Drop)]
pub struct Plan {
    pub trees: Vec<Forest>,
    pub entries: Vec<(u32, u32)>,
    pub work: u64,
    pub links: Vec<Link>,
}

/// The entry of a change between two trees: the link that only the first has, and the one that only the second has.
fn entry(before: &Forest, after: &Forest) -> (u32, u32) {
    let leaving = before.only_here(after).unwrap_or(0);
    let coming = after.only_here(before).unwrap_or(0);
    (leaving, coming)
}

/// The plan of a batch of which no change is faulty by itself, from the tree before it.
fn plan_from(heap: Global, case: &Case, start: Forest) -> Result<Plan, Stop> {
    let mut links = case.links.clone()?;
    let mut trees = Vec::new(heap);
    let mut entries = Vec::new(heap);
    let mut tree = start;
    for (place, change) in (1u32..).zip(case.changes.iter()) {
        apply(links.as_mut_slice(), *change);
        let next = least_tree(heap, case.n, links.as_slice())?.ok_or(Refusal::Parted(place))?;
        entries.push(entry(&tree, &next))?;
        trees.push(std::mem::replace(&mut tree, next))?;
    }
    trees.push(tree)?;
    let work = work_count(heap, case.n, case.links.as_slice(), case.changes.as_slice())?;
    Ok(Plan {
        trees,
        entries,
        work,
        links,
    })
}

/// The plan that a granted draw gives.
pub fn draw(heap: Global, case: &Case) -> Result<Plan, Stop> {
    let start = open(heap, case)?;
    let k = case.changes.len();
    let needs = Lent::exact(case.n as usize, case.links.len(), k);
    let lent = case.lent;
    refuse_if(k > 65536, Refusal::ChangeCount)?;
    let short = lent.start < needs.start
        || lent.entries < needs.entries
        || lent.draw_work < needs.draw_work;
    refuse_if(short, Refusal::DrawTables)?;
    check_changes(case)?;
    plan_from(heap, case, start)
}

/// The links after a draw: with all changes made if it is granted, and as they stood if it is refused.
pub fn links_after(heap: Global, case: &Case) -> Result<Vec<Link>, AllocError> {
    match answered(draw(heap, case))? {
        Ok(plan) => Ok(plan.links),
        Err(_) => case.links.clone(),
    }
}
