ghost use Rattle.std.specs.Prelude.{◌≡◌};
ghost use Rattle.serde_json.specs.View.{view};
ghost use Rattle.serde_json.specs.Written.{has_float};

use serde_json::Value;

/// Whether the value is a float, or holds one at any depth.
///
/// As `serde_json` reads them, a whole number past `u64` and `i64`, and `-0`, are floats.
pub fn holds_float(value: &Value) -> bool
    ensures { result ≡ has_float (view value.now) }
{
    match value {
        Value::Number(number) => number.is_f64(),
        Value::Array(items) => {
            for item in items {
                if holds_float(item) {
                    return true;
                }
            }
            false
        }
        Value::Object(members) => {
            for (_key, member) in members.iter() {
                if holds_float(member) {
                    return true;
                }
            }
            false
        }
        Value::Null | Value::Bool(_) | Value::String(_) => false,
    }
}
