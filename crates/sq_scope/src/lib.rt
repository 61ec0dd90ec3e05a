//! Names and scopes: what a FROM brings in sight, what a reference finds there, and expressions with numbers in the place of names.
#![tactic(auto)]

mod calls;
mod found_columns;
mod grouped;
mod index;
mod keys;
mod layout;
mod list_items;
mod names;
mod numbered;
mod references;
mod repeating;
mod scope;
mod sources_row;
mod stars;

pub use calls::{push_cond_calls, push_list_calls};
pub use found_columns::Found;
pub use grouped::{Groups, group_cond, group_expr, group_kinds, kind_at, kind_of};
pub use keys::Keys;
pub use list_items::{ListItem, chosen};
pub use names::names_fault;
pub use numbered::{row_cond, row_expr};
pub use references::{has_ambiguous_column, has_unknown_column};
pub use repeating::repeats;
pub use scope::{Columns, Scope, Source};
pub use sources_row::Row;
pub use stars::each_star_once;

fn is_send_and_sync<T: Send + Sync>() {}

// Each type of data may be handed to another thread, and be shared.
fn data_crosses_threads() {
    is_send_and_sync::<Found>();
    is_send_and_sync::<Groups>();
    is_send_and_sync::<Keys>();
}

fn items_cross_threads<'a>() {
    is_send_and_sync::<ListItem<'a>>();
}

fn sources_cross_threads<'a>() {
    is_send_and_sync::<Columns<'a>>();
    is_send_and_sync::<Source<'a>>();
}

fn scopes_cross_threads<'a>() {
    is_send_and_sync::<Scope<'a>>();
    is_send_and_sync::<Row<'a>>();
}
