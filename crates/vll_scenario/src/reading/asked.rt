//! A call of a script, before it is checked.
use sqlite_items::Items;
use vll_proc::Text;

/// A call as a script asks for it: a procedure's name, and the arguments.
#[derive(Drop)]
pub struct Asked {
    pub name: Text,
    pub args: Items<u64>,
}
