//! Tests of a tick played over shards: its pieces beside the values over whole tables, and orders that are refused. Nothing else stands here.
#![tactic(auto)]

#[cfg(test)]
mod circuits;
#[cfg(test)]
mod drawn;
#[cfg(test)]
mod held;
#[cfg(test)]
mod orders;
#[cfg(test)]
mod played;
#[cfg(test)]
mod programs;
#[cfg(test)]
mod refused;
