//! Worked texts and laws of the text format, and tests of it.
#![tactic(auto)]

ghost use Rattle.plant_texts.specs.Laws.{ReadsBack, PartsJoin, NumbersOneWay};
ghost use Rattle.plant_texts.specs.Worked.{FourSwitches, RefusedTexts, PrintedLines};

#[cfg(test)]
mod tests;

/// The four-switch plant is read whole, eight short texts are refused as they should be, and lines are printed as they
/// should be.
pub fn worked_texts()
    ensures read { FourSwitches }
    ensures refused { RefusedTexts }
    ensures printed { PrintedLines }
{}

/// A plant that was read, written out again, gives the text back. So do the lines of a text and the words of a line
/// when they are joined again, and so does a number.
pub fn format_laws()
    ensures texts { ReadsBack }
    ensures parts { PartsJoin }
    ensures numbers { NumbersOneWay }
{}
