//! What a shown statement prints.

ghost use Rattle.std.specs.Prelude.{◌≡◌, IfOk};
ghost use Rattle.pl_operators.specs.Showing.{named_as, shown_value};

use pl_base::NoMemory;
use pl_text::named_text;
use pl_values::Value;
use std::alloc::Global;

/// The text of a shown statement: the name and the value, or the kind of a value that is no array.
pub fn shown(alloc: Global, name: &[u8], v: &Value) -> Result<Vec<u8>, NoMemory>
    ensures { IfOk result (λ text. text.items ≡ shown_value name.now v.now) }
{
    match v {
        Value::Array(a) => named_text(alloc, name, a),
        Value::Func(_) => shown_as(alloc, name, b"<function>"),
        Value::Futures(_) => shown_as(alloc, name, b"<future>"),
        Value::Queue(_) => shown_as(alloc, name, b"<queue>"),
        Value::Pool => shown_as(alloc, name, b"<pool>"),
        Value::Codistributor(_) => shown_as(alloc, name, b"<codistributor>"),
        Value::Part(_) => shown_as(alloc, name, b"<codistributed>"),
        Value::Composite(_) => shown_as(alloc, name, b"<composite>"),
        Value::Whole(_) => shown_as(alloc, name, b"<codistributed>"),
        Value::Opaque(..) => shown_as(alloc, name, b"<job>"),
    }
}

fn shown_as(alloc: Global, name: &[u8], text: &[u8]) -> Result<Vec<u8>, NoMemory>
    ensures { IfOk result (λ line. line.items ≡ named_as name.now text.now) }
{
    let mut line = Vec::from_slice(alloc, name)?;
    line.extend_from_slice(b" = ")?;
    line.extend_from_slice(text)?;
    line.push(b'\n')?;
    Ok(line)
}
