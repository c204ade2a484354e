use txc_node::Value;
use txc_tags::Key;

/// A completed call, and its value.
#[derive(Debug, Drop)]
pub struct Recorded {
    pub key: Key,
    pub value: Value,
}
