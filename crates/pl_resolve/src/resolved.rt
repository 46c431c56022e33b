//! A program whose names are known.

use crate::scope::Scope;
use pl_base::{Mode, Seq, Text};
use pl_syntax::Program;

/// A program with its scopes, the script's first and then those of the functions in order, the mode in
/// which its operators work, and the texts of the extras that it may ask for, in the order of their numbers.
#[derive(Debug, Drop)]
pub struct Resolved {
    pub program: Program,
    pub scopes: Seq<Scope>,
    pub mode: Mode,
    pub extras: Seq<Text>,
}
