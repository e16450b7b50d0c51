//! Where aggregates may stand.

/// Whether aggregates may stand in an expression.
#[derive(Clone, Copy, Debug, PartialEq, Eq)]
pub enum Aggregates {
    /// In an item of the select list, outside of aggregates.
    Allowed,
    Refused,
}
