// Rule sheets of every kind, tried on examples and corners.
#![tactic(auto)]

#[cfg(test)]
mod packed;
#[cfg(test)]
mod refusals;
#[cfg(test)]
mod supplement;
#[cfg(test)]
mod written_meaning;
#[cfg(test)]
mod written_sheet;
