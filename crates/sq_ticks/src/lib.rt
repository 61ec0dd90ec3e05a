//! The ticks of an input: its program text as the bytes come, the program that it stands for, and the ticks that its change lines make,
//! each printed as soon as its commit line has come.
//!
//! The views are those of the engine (`sq_engine`), over the circuit that the planner makes of the program (`sq_plan`).
#![tactic(auto)]

mod counted;
mod judge;
pub mod laws;
mod play;
mod read;
mod run;
mod text;
mod tick;

pub use judge::{Judged, judge_text};
pub use play::{Played, play_lines, play_none};
pub use read::{PIECE, read_piece};
pub use run::Stop;
pub use text::Text;

fn is_send_and_sync<T: Send + Sync>() {}

// What ticks leave may be handed to another thread, and be shared.
fn what_was_played_crosses_threads() {
    is_send_and_sync::<Played>();
}

// So may texts, and the causes of a stop.
fn texts_and_stops_cross_threads() {
    is_send_and_sync::<Stop>();
    is_send_and_sync::<Text>();
}
