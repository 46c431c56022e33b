//! The variables that a body writes.

ghost use Rattle.std.specs.Prelude.{◌≡◌, ◌==◌, [], IfOk, OnOk};
ghost use Rattle.std.specs.List.{list_any};
ghost use Rattle.std.specs.Option.{option_copied};
ghost use Rattle.pl_syntax.specs.declared.stmt.Stmt.{out-Stmt};
ghost use Rattle.pl_syntax.specs.declared.stmt.StmtKind.{out-StmtKind};
ghost use Rattle.pl_meaning.specs.Parts.{written_in, written_by};
ghost use Rattle.pl_meaning.specs.Logs.{loop_question};
ghost use Rattle.pl_meaning.specs.Loops.{with_one, slots_from, written_slots as slots_of_loop};
ghost use Rattle.pl_loop.specs.Coming.{maybe};

use crate::iterating::body_frame;
use pl_base::NoMemory;
use pl_meaning::{Frame, Loop, slot_of};
use pl_resolve::Resolved;
use pl_syntax::{Name, Stmt, StmtKind, Target};
use std::alloc::Global;

/// The variable that a statement writes a part of, if it does.
fn written_name(s: &Stmt) -> Option<&Name>
    ensures { maybe (option_copied result) ≡ written_by (out-StmtKind (out-Stmt s.now).kind) }
{
    match &s.kind {
        StmtKind::Assign(Target::Indexed(name, _), _) => Some(name),
        _ => None,
    }
}

/// Whether a slot is among these.
fn has(slots: &[u32], slot: u32) -> bool
    ensures { result ≡ list_any (λ s. s == slot) slots.now }
{
    slots.iter().any(|s| *s == slot)
}

/// Adds a slot, unless it is there.
fn add(slots: &mut Vec<u32>, slot: Option<u32>) -> Result<(), NoMemory>
    ensures { OnOk result (slots.new.items ≡ with_one slots.old.items slot) }
{
    let Some(slot) = slot else {
        return Ok(());
    };
    match has(slots, slot) {
        true => Ok(()),
        false => {
            slots.push(slot)?;
            Ok(())
        }
    }
}

/// The slots of the variables that statements write a part of, each once.
fn written_slots(
    alloc: Global,
    program: &Resolved,
    frame: Frame,
    body: &[Stmt],
) -> Result<Vec<u32>, NoMemory>
    ensures { IfOk result (λ slots. slots.items ≡ slots_from program.now frame [] (written_in body.now)) }
{
    let mut slots = Vec::new(alloc);
    for s in body {
        let Some(name) = written_name(s) else {
            continue;
        };
        add(&mut slots, slot_of(program, frame, &name.text))?;
    }
    Ok(slots)
}

/// The slots of the variables that a loop writes, each once.
pub(crate) fn loop_slots(
    alloc: Global,
    program: &Resolved,
    question: Loop<'_>,
) -> Result<Vec<u32>, NoMemory>
    ensures { IfOk result (λ slots. slots.items ≡ slots_of_loop program.now (loop_question question.entry)) }
{
    written_slots(
        alloc,
        program,
        body_frame(question),
        question.body.as_slice(),
    )
}
