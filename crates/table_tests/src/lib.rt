// The building of tables, tried on examples and corners. What they come to was found otherwise, by joining the states of LR(1).
#![tactic(auto)]

#[cfg(test)]
mod conflicts;
#[cfg(test)]
mod items;
#[cfg(test)]
mod limits;
#[cfg(test)]
mod lookaheads;
#[cfg(test)]
mod random;
#[cfg(test)]
mod range;
#[cfg(test)]
mod readings;
#[cfg(test)]
mod rebuilding;
#[cfg(test)]
mod recursion;
#[cfg(test)]
mod refusals;
#[cfg(test)]
mod script;
#[cfg(test)]
mod table;
#[cfg(test)]
mod useful;
#[cfg(test)]
mod worked;
