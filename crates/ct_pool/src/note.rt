// What a seat knows. No value of it is made: it has fields of the code's types so that its fields in
// definitions are plain lists and records.
use ct_core::View;
use std::collections::LinkedList;

/// The root's seat has the first three fields, a worker's seat the last one, while it is live.
pub struct Note {
    pub count: u64,
    pub made: u64,
    pub joined: LinkedList<View>,
    pub live: bool,
    pub sight: View,
}
