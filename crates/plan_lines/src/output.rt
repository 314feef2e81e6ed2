//! The lines that a plan prints.
ghost use Rattle.std.specs.Prelude.{Some};
ghost use Rattle.plan_lines.specs.Output.{tree_line, entry_line, work_line};

use std::fmt;

/// The links of the start tree, as `TREE 1 2 3`.
#[derive(Clone, Copy)]
pub struct TreeLine<'a>(pub &'a [u32]);

/// The entry of a change: the link that leaves and the link that comes, or 0 and 0.
#[derive(Clone, Copy)]
pub struct EntryLine {
    pub change: u32,
    pub leaving: u32,
    pub coming: u32,
}

/// The work count, as `WORK 39`.
#[derive(Clone, Copy)]
pub struct WorkLine(pub u64);

impl fmt::Display for TreeLine<'_> {
    ghost output = { λ x. Some (tree_line x.0.now) };

    fn fmt<W: fmt::Write>(&self, f: &mut fmt::Formatter<W>) -> fmt::Result {
        f.write_str("TREE")?;
        for link in self.0 {
            write!(f, " {link}")?;
        }
        Ok(())
    }
}

impl fmt::Display for EntryLine {
    ghost output = { λ x. Some (entry_line x.change x.leaving x.coming) };

    fn fmt<W: fmt::Write>(&self, f: &mut fmt::Formatter<W>) -> fmt::Result {
        let EntryLine {
            change,
            leaving,
            coming,
        } = *self;
        write!(f, "{change} {leaving} {coming}")
    }
}

impl fmt::Display for WorkLine {
    ghost output = { λ x. Some (work_line x.0) };

    fn fmt<W: fmt::Write>(&self, f: &mut fmt::Formatter<W>) -> fmt::Result {
        write!(f, "WORK {}", self.0)
    }
}
