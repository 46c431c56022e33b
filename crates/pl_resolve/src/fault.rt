//! A name that stands for nothing.

use pl_base::{Place, Text};

/// A name that is neither a variable of its scope nor a function, and where it stands.
#[derive(Debug, Drop, PartialEq, Eq)]
pub struct NameFault {
    pub name: Text,
    pub place: Place,
}
