//! Cache nodes that threads share, each with the history of its steps, which is stored or ghost.
#![tactic(auto)]

mod advanced;
mod counting;
mod error;
mod held;
mod history;
mod insertion;
pub mod laws;
mod log;
mod node_front;
mod node_pass;
mod node_remains;
mod planned;
mod prepared;
mod settings;
mod shared_node;
mod stored_node;

pub use advanced::{Advanced, Ended, MAX_TOGETHER};
pub use error::NodeError;
pub use insertion::Insertion;
pub use log::MAX_PASSES;
pub use node_front::NodeFront;
pub use node_pass::{NodePass, audit, meet};
pub use node_remains::NodeRemains;
pub use settings::NodeSettings;
pub use shared_node::SharedNode;
pub use stored_node::StoredNode;
