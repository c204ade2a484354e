//! Slots in an ordered map: each of its keys has a value, or is vacant. Changing an existing slot needs no new
//! memory in the map, so logged changes can be undone without allocation.
#![tactic(auto)]

mod slots;

pub use slots::{SlotKey, change, drop_vacant, make, settle, take_back, value_at};
