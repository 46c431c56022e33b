//! Small programs: their scopes, and their unknown names.

use pl_base::{NoMemory, Or, Place, Seq, Text};
use pl_resolve::{NameFault, Resolved, resolve};
use pl_syntax::{Expr, ExprKind, Function, Name, Program, Stmt, StmtKind, Target};
use sqlite_items::Items;
use std::alloc::Global;

fn place(col: u32) -> Place {
    Place {
        line: 1,
        col,
        at: col,
    }
}

fn name(alloc: Global, text: &[u8], col: u32) -> Result<Name, NoMemory> {
    Ok(Name {
        text: Text::of(alloc, text)?,
        place: place(col),
    })
}

fn call(alloc: Global, text: &[u8], col: u32) -> Result<Expr, NoMemory> {
    Ok(Expr {
        kind: ExprKind::Apply(name(alloc, text, col)?, Items::new(alloc)),
        place: place(col),
    })
}

/// `to = of();`
fn assignment(alloc: Global, to: &[u8], of: &[u8]) -> Result<Stmt, NoMemory> {
    Ok(Stmt {
        kind: StmtKind::Assign(Target::Whole(name(alloc, to, 1)?), call(alloc, of, 5)?),
        place: place(1),
        show: false,
    })
}

/// One assignment, with no local function.
fn program(alloc: Global, to: &[u8], of: &[u8]) -> Result<Program, NoMemory> {
    let mut body = Items::new(alloc);
    body.push(assignment(alloc, to, of)?)?;
    Ok(Program {
        body,
        functions: Items::new(alloc),
    })
}

/// `function y = sq(x)`, without a body.
fn square(alloc: Global) -> Result<Function, NoMemory> {
    let mut params = Seq::empty(alloc);
    params.push(Some(name(alloc, b"x", 17)?))?;
    let mut outs = Seq::empty(alloc);
    outs.push(name(alloc, b"y", 10)?)?;
    Ok(Function {
        name: name(alloc, b"sq", 14)?,
        params,
        outs,
        body: Items::new(alloc),
    })
}

/// The column of the unknown name, and 0 where each is known.
fn unknown(resolved: &Result<Resolved, Or<NameFault>>) -> u32 {
    match resolved {
        Err(Or::Is(fault)) => fault.place.col,
        _ => 0,
    }
}

#[test]
fn an_unknown_name_is_refused(rt: HostRuntime) -> Result<(), NoMemory> {
    let resolved = resolve(rt.alloc(), program(rt.alloc(), b"x", b"foo")?);
    assert_eq!(rt; unknown(&resolved), 5);
    let resolved = resolve(
        rt.alloc(),
        program(rt.alloc(), b"x", b"codistributed.zeros")?,
    );
    assert_eq!(rt; unknown(&resolved), 0);
    Ok(())
}

#[test]
fn a_function_has_its_own_scope(rt: HostRuntime) -> Result<(), NoMemory> {
    let mut tree = program(rt.alloc(), b"z", b"sq")?;
    tree.functions.push(square(rt.alloc())?)?;
    let x = Text::of(rt.alloc(), b"x")?;
    if let Ok(resolved) = resolve(rt.alloc(), tree) {
        let of_x = resolved
            .scopes
            .items()
            .get(1)
            .and_then(|scope| scope.slot(&x));
        assert_eq!(rt; of_x, Some(1));
    }
    Ok(())
}
