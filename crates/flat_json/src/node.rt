//! The nodes of a tree.

/// A value of a tree, which says where its parts stand in the tree's lists.
#[derive(Clone, Copy, Debug, Drop)]
pub enum Node {
    Null,
    Bool(bool),
    /// A whole number.
    Whole(u64),
    /// A whole number below 0.
    Negative(i64),
    /// Another number, which is finite.
    Float(f64),
    /// The text at this place.
    Text(u32),
    /// The nodes from a place on, and how many there are.
    List(u32, u32),
    /// The keys from a place on, the nodes of their values from another, and how many there are of each.
    Object(u32, u32, u32),
}
