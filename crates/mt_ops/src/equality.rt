ghost use Rattle.std.specs.Prelude.{◌≡◌};
ghost use Rattle.mt_ops.specs.Equality as spec;

use mt_value::{Native, Value};

fn same_native(a: Native, b: Native) -> bool
    ensures { result ≡ spec.same_native a b }
{
    a == b
}

/// Whether `===` holds. Takes no memory.
#[tactic(auto, unfolding(crate::specs::Equality::same))]
pub fn same(a: &Value, b: &Value) -> bool
    ensures { result ≡ spec.same a.now b.now }
{
    match (a, b) {
        (Value::Undefined, Value::Undefined) | (Value::Null, Value::Null) => true,
        (Value::Bool(a), Value::Bool(b)) => *a == *b,
        (Value::Num(a), Value::Num(b)) => *a == *b,
        (Value::Text(a), Value::Text(b)) | (Value::Svc(a), Value::Svc(b)) => *a == *b,
        (Value::Arr(a), Value::Arr(b))
        | (Value::Obj(a), Value::Obj(b))
        | (Value::Fun(a), Value::Fun(b)) => *a == *b,
        (Value::Node(a), Value::Node(b)) | (Value::Event(a), Value::Event(b)) => *a == *b,
        (Value::Native(a), Value::Native(b)) => same_native(*a, *b),
        _ => false,
    }
}
