//! Tests of timetables: turns worked out by hand, turns found in another way, budgets at their edges,
//! the list that is filled in, refusals, and servers slot by slot.
#![tactic(auto)]

#[cfg(test)]
mod budgets;
#[cfg(test)]
mod by_hand;
#[cfg(test)]
mod lists;
#[cfg(test)]
mod other_way;
#[cfg(test)]
mod timetables;
