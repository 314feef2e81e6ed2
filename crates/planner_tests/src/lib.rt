//! Examples of the planner at work: worked plants, every refusal, the limits, and plans that a shortcut would get wrong.

#[cfg(test)]
mod helpers;
#[cfg(test)]
mod limits;
#[cfg(test)]
mod plants;
#[cfg(test)]
mod refusals;
#[cfg(test)]
mod shortcuts;
