// The turns of plans, tried on examples, corners and long runs.
#![tactic(auto)]

#[cfg(test)]
mod account;
#[cfg(test)]
mod fixtures;
#[cfg(test)]
mod language;
#[cfg(test)]
mod limits;
#[cfg(test)]
mod many_turns;
#[cfg(test)]
mod pages;
#[cfg(test)]
mod refusals;
#[cfg(test)]
mod runs;
#[cfg(test)]
mod slips;
