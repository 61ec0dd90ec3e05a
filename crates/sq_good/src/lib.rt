//! A test, at run time, that tables are good for a circuit: what calls that play ticks or evaluate whole tables ask of tables that no proof
//! knows, such as those that are drawn or read from a text.
#![tactic(auto)]

mod good;

pub use good::are_good;
