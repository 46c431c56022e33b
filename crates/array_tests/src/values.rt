//! Workspaces: what is written, emptied, copied and laid over a base.

use pl_array::Arr;
use pl_base::NoMemory;
use pl_values::{Env, Value};

/// The number that a slot holds, and -1 where it is empty.
fn number(env: &Env<'_>, slot: u32) -> i64 {
    match env.get(slot) {
        Some(Value::Array(a)) => a.single().unwrap_or(-2),
        Some(_) => -3,
        None => -1,
    }
}

#[test]
fn a_slot_is_set_and_cleared(rt: HostRuntime) -> Result<(), NoMemory> {
    let mut env = Env::new(rt.alloc(), 2)?;
    env.set(0, Value::Array(Arr::scalar(7)))?;
    assert_eq!(rt; number(&env, 0), 7);
    let copy = env.copy(rt.alloc())?;
    env.clear(0);
    assert_eq!(rt; number(&env, 0), -1);
    assert_eq!(rt; number(&copy, 0), 7);
    Ok(())
}

#[test]
fn a_base_keeps_its_values(rt: HostRuntime) -> Result<(), NoMemory> {
    let mut env = Env::new(rt.alloc(), 1)?;
    env.set(0, Value::Array(Arr::scalar(7)))?;
    let mut over = Env::over(rt.alloc(), &env)?;
    over.set(0, Value::Array(Arr::scalar(8)))?;
    let higher = Env::over(rt.alloc(), &over)?;
    assert_eq!(rt; number(&higher, 0), 8);
    assert_eq!(rt; number(&env, 0), 7);
    Ok(())
}
