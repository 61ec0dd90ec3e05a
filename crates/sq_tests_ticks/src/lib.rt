//! Tests of ticks over shards: drawn circuits, drawn tables that change tick by tick, and drawn orders of tasks, beside the values over
//! whole tables. Nothing else stands here.
#![tactic(auto)]

#[cfg(test)]
mod changes;
#[cfg(test)]
mod drawn;
#[cfg(test)]
mod edges;
#[cfg(test)]
mod ended;
#[cfg(test)]
mod generated;
#[cfg(test)]
mod held;
#[cfg(test)]
mod nodes;
#[cfg(test)]
mod orders;
#[cfg(test)]
mod parts;
#[cfg(test)]
mod pieces;
#[cfg(test)]
mod ready;
#[cfg(test)]
mod sequences;
#[cfg(test)]
mod ticks;
