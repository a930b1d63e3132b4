//! Which values a table or a list can hold.

ghost use Rattle.std.specs.Prelude.{◌≡◌};
ghost use Rattle.act_rules.specs.Kinds.{is_storable as is_held};

use act_types::Value;

/// Whether a value is a number or a good text, which a table or a list can hold.
pub(crate) fn is_storable(value: &Value) -> bool
    ensures { result ≡ is_held value.now }
{
    match value {
        Value::Unit => false,
        Value::Int(_) => true,
        Value::Text(text) => text.is_good(),
    }
}
