//! A body that is looked at, with the variables that it writes.

ghost use Rattle.std.specs.Prelude.{◌≡◌, map, IfOk};
ghost use Rattle.pl_resolve.specs.Scopes.{distinct};
ghost use Rattle.pl_meaning.specs.Parts.{written_in};

use indexmap::IndexSet;
use pl_base::{NoMemory, Text};
use pl_meaning::Frame;
use pl_resolve::Resolved;
use pl_syntax::{Name, Stmt, StmtKind, Target};
use sqlite_items::Items;
use std::alloc::Global;

/// A body with where it stands, its loop's index, and the names of the variables of which it writes a part, each once.
#[derive(Drop)]
pub(crate) struct Body<'p> {
    pub(crate) program: &'p Resolved,
    pub(crate) frame: Frame,
    pub(crate) index: &'p Name,
    pub(crate) items: &'p Items<Stmt>,
    pub(crate) written: IndexSet<Text>,
    ghost names: { written.keys ≡ distinct (map (λ n. n.text) (written_in items.now)) },
}

/// The names of the variables of which a body writes a part, each once.
pub(crate) fn written_names(alloc: Global, items: &Items<Stmt>) -> Result<IndexSet<Text>, NoMemory>
    ensures { IfOk result (λ names. names.keys ≡ distinct (map (λ n. n.text) (written_in items.now))) }
{
    let mut names = IndexSet::new(alloc);
    for s in items.as_slice() {
        if let StmtKind::Assign(Target::Indexed(n, _), _) = &s.kind {
            names.insert(n.text.copy(alloc)?)?;
        }
    }
    Ok(names)
}
