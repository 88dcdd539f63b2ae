//! What the bench answers to a line that it accepts.
use layout::table::Published;

/// The count of the packet that is kept now, or what a read by a layout shows: the rows are in the table.
#[derive(Clone, Copy, PartialEq, Eq, Debug)]
pub enum Reply {
    Kept { count: usize },
    Shown { layout: Published, present: usize },
}
