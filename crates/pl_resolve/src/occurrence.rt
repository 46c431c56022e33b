//! Where names stand in a program, and what is done with each.

use pl_base::{Place, Text};

/// What is done with a name.
#[derive(Clone, Copy, Debug, PartialEq, Eq)]
pub enum Use {
    /// It is read whole.
    Read,
    /// It stands before a list in parentheses: a part is read, or a function called.
    ReadAt,
    /// It stands before braces.
    ReadIn,
    /// It is assigned whole: by `=`, in an output list, or as the index of a loop.
    Assign,
    /// A part is assigned.
    AssignAt,
    /// It is assigned in braces.
    AssignIn,
    /// A part is deleted.
    Delete,
    /// It stands behind `@`, and is no occurrence of a variable.
    Handle,
}

/// A name in the text.
#[derive(Debug, Drop, PartialEq, Eq)]
pub struct Occurrence {
    pub name: Text,
    pub place: Place,
    pub how: Use,
}
