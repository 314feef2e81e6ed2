//! Compares the planner's answers and tables with those of the second implementation.
use crate::failure::Failure;
use crate::group::Group;
use crate::loan::{BLANK, Drawing, Kind, Loan};
use crate::play::play;
use crate::simple::forecast;
use crate::simple::forecast::{Answer, Case, Plan, Refusal, answered};
use crate::simple::records::Change;
use crate::simple::tree::Forest;
use crate::tally::Finding;
use faults::{DrawFault, Fault, Layer};
use planner::Drawn;
use std::alloc::{AllocError, Global};

/// How a refusal is reported. Codes up to 16 are the book's, the others are the planner's.
impl From<Refusal> for Fault {
    fn from(refusal: Refusal) -> Fault {
        let (layer, code, place) = match refusal {
            Refusal::NodeCount => (Layer::Book, 10, 0),
            Refusal::LinkCount => (Layer::Book, 11, 0),
            Refusal::OpenTables => (Layer::Book, 12, 0),
            Refusal::EndOutside(link) => (Layer::Book, 13, link),
            Refusal::SameEnds(link) => (Layer::Book, 14, link),
            Refusal::NotJoined => (Layer::Book, 15, 0),
            Refusal::ChangeCount => (Layer::Planner, 20, 0),
            Refusal::DrawTables => (Layer::Planner, 21, 0),
            Refusal::LinkOutside(change) => (Layer::Planner, 22, change),
            Refusal::RemoveAbsent(change) => (Layer::Planner, 23, change),
            Refusal::Parted(change) => (Layer::Planner, 24, change),
        };
        Fault { layer, code, place }
    }
}

/// A draw of the planner: its case, its answer, and the tables as it left them.
#[derive(Clone, Copy)]
struct Draw<'a, W> {
    case: &'a Case,
    answer: Result<Drawn, DrawFault>,
    loan: &'a Loan<W>,
}

/// Whether a table has this front, and past it nothing was written.
fn fronted<T: PartialEq + Copy>(table: &[T], front: &[T], blank: T) -> bool {
    table
        .strip_prefix(front)
        .is_some_and(|rest| rest.iter().all(|x| *x == blank))
}

/// What the tree table begins with after an open: the least tree, or nothing if the open is refused.
fn tree_front(heap: Global, opened: Answer<Forest>) -> Result<Vec<u32>, AllocError> {
    match opened {
        Ok(tree) => tree.numbers(heap),
        Err(_) => Ok(Vec::new(heap)),
    }
}

impl Group {
    /// Opens and draws a case, plays the plan if there is one, and counts each disagreement. Gives the plan or the refusal
    /// that there should be.
    pub fn compare<W: Kind>(&mut self, case: &Case) -> Result<Answer<Plan>, Failure> {
        self.tally.count_case();
        let tree = self.compare_open::<W>(case)?;
        let mut loan = Loan::<W>::of(self.heap, case)?;
        let answer = loan.draw();
        let draw = Draw {
            case,
            answer,
            loan: &loan,
        };
        self.compare_draw(draw, tree.as_slice())
    }

    /// Draws a case and then further changes from the same book, and compares the second draw. If the first is refused,
    /// the second finds what the first found.
    pub fn compare_second<W: Kind>(
        &mut self,
        first: &Case,
        further: &[Change],
    ) -> Result<Answer<Plan>, Failure> {
        self.tally.count_case();
        let heap = self.heap;
        let links = forecast::links_after(heap, first)?;
        let second = Case::exact(first.n, links, further.to_vec(heap)?);
        let tree = tree_front(heap, answered(forecast::open(heap, &second))?)?;
        let mut loan = Loan::<W>::of(heap, first)?;
        let answer = loan.draw_again(Drawing::of(heap, &second)?);
        let draw = Draw {
            case: &second,
            answer,
            loan: &loan,
        };
        self.compare_draw(draw, tree.as_slice())
    }

    /// Opens a case alone. Gives what the tree table should begin with then.
    fn compare_open<W: Kind>(&mut self, case: &Case) -> Result<Vec<u32>, Failure> {
        let mut loan = Loan::<W>::of(self.heap, case)?;
        let heard = loan.open().map_err(Fault::from);
        self.tally
            .expect(loan.has_links(case.links.as_slice())?, Finding::Links);
        let opened = answered(forecast::open(self.heap, case))?;
        let wanted = opened.as_ref().map(|_| ()).map_err(|e| Fault::from(*e));
        self.tally.expect(heard == wanted, Finding::OpenAnswer);
        let tree = tree_front(self.heap, opened)?;
        let table = loan.opening.tree.as_slice();
        self.tally
            .expect(fronted(table, tree.as_slice(), BLANK), Finding::Tree);
        Ok(tree)
    }

    /// Compares what a draw answered and left; refused, the tree table begins as it did before.
    fn compare_draw<W: Kind>(
        &mut self,
        draw: Draw<'_, W>,
        tree: &[u32],
    ) -> Result<Answer<Plan>, Failure> {
        let forecast = answered(forecast::draw(self.heap, draw.case))?;
        match &forecast {
            Ok(plan) => self.granted(draw, plan)?,
            Err(refusal) => self.refused(draw, *refusal, tree)?,
        }
        Ok(forecast)
    }

    /// Compares a refused draw: everything stands as it stood after the open.
    fn refused<W: Kind>(
        &mut self,
        draw: Draw<'_, W>,
        refusal: Refusal,
        tree: &[u32],
    ) -> Result<(), Failure> {
        let Draw { case, answer, loan } = draw;
        let Drawing { start, entries, .. } = &loan.drawing;
        let tally = &mut self.tally;
        tally.count_refusal();
        let heard = answer.err().map(Fault::from);
        tally.expect(heard == Some(Fault::from(refusal)), Finding::DrawAnswer);
        tally.expect(fronted(start.as_slice(), &[], BLANK), Finding::StartList);
        let bare = fronted(entries.as_slice(), &[], (BLANK, BLANK));
        tally.expect(bare, Finding::Entries);
        let same = fronted(loan.opening.tree.as_slice(), tree, BLANK);
        tally.expect(same, Finding::Tree);
        tally.expect(loan.has_links(case.links.as_slice())?, Finding::Links);
        Ok(())
    }

    /// Compares a granted draw, and plays its plan.
    fn granted<W: Kind>(&mut self, draw: Draw<'_, W>, plan: &Plan) -> Result<(), Failure> {
        let Draw { case, answer, loan } = draw;
        self.tally.count_plan(case.changes.len());
        let Ok(drawn) = answer else {
            self.tally.expect(false, Finding::DrawAnswer);
            return Ok(());
        };
        let counts = drawn.n == case.n
            && drawn.m as usize == case.links.len()
            && drawn.k as usize == case.changes.len();
        self.tally.expect(counts, Finding::DrawAnswer);
        self.tally.expect(drawn.work == plan.work, Finding::Work);
        self.compare_tables(loan, plan)?;
        let sheet = player::Plan {
            n: drawn.n,
            m: drawn.m,
            k: drawn.k,
            start: loan.drawing.start.as_slice(),
            entries: loan.drawing.entries.as_slice(),
        };
        play(self, &sheet, loan.opening.ends.as_slice(), plan)
    }

    /// Compares the tables that a granted draw left with its plan.
    fn compare_tables<W: Kind>(&mut self, loan: &Loan<W>, plan: &Plan) -> Result<(), Failure> {
        let Drawing { start, entries, .. } = &loan.drawing;
        if let (Some(first), Some(last)) = (plan.trees.first(), plan.trees.last()) {
            let front = first.numbers(self.heap)?;
            let same = fronted(start.as_slice(), front.as_slice(), BLANK);
            self.tally.expect(same, Finding::StartList);
            let front = last.numbers(self.heap)?;
            let same = fronted(loan.opening.tree.as_slice(), front.as_slice(), BLANK);
            self.tally.expect(same, Finding::Tree);
        }
        let blank = (BLANK, BLANK);
        let same = fronted(entries.as_slice(), plan.entries.as_slice(), blank);
        self.tally.expect(same, Finding::Entries);
        let same = loan.has_links(plan.links.as_slice())?;
        self.tally.expect(same, Finding::Links);
        Ok(())
    }
}
