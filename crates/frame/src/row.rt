//! A row of the table that read fills.

/// What read shows of one item: whether it is present, its place in the packet, its value. An absent item has the default row,
/// place and value 0. The flag stands beside the two, and is no Option: question 22 asks of
/// an absent row that has a value.
#[derive(Clone, Copy, PartialEq, Eq, Debug, Default)]
pub struct Row {
    pub present: bool,
    pub place: usize,
    pub value: u64,
}
