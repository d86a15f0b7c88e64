//! The state that the nodes of a store share: its folder, its history and its lock. It stands on `hist_journal`, and on
//! `folder_disk`, `scratch_rename` and `file_lock` for what a turn touches.
//! Its one contract above: a turn adds its entries and keeps the history lawful and main what the history makes of it
//! (`Shelf`); which histories are lawful, and what follows of that, stands in `laws`.
#![tactic(auto)]

mod answer_laws;
mod answers;
mod death_plan;
mod examples;
mod laws;
mod ledger;
mod node_table;
mod order_laws;
mod parts;
mod setup;
mod shelf;
mod shelf_parts;
mod store;

pub use answer_laws::{causes_by_the_start, causes_have_a_test, causes_stay, updates_stay};
pub use answers::{AddNodeError, Loaded, PlanMade, RestartError, Taken, Want};
pub use death_plan::DeathPlan;
pub use examples::{
    ExampleEdit, histories_are_lawful, histories_are_unlawful, histories_come_to,
    stores_have_their_base,
};
pub use laws::{
    images_go_on, images_hold_what_is_synced, lawful_by_the_start, lawful_has_a_test,
    longer_is_legal, open_is_pending, prefix_is_legal, quiet_is_fresh,
};
pub use order_laws::{
    calls_end, changes_are_raised, counts_rise, numbers_never_fall, updates_end_once,
};
pub use parts::{Parts, ValueOf};
pub use setup::Setup;
pub use shelf::Shelf;
pub use shelf_parts::ShelfParts;
pub use store::{DeviceStart, Limits, PlannedDeath, SectionSeen, Store};
