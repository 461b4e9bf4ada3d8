ghost use Rattle.std.specs.Prelude.{◌≡◌, ◌∷◌, [], Contains};
ghost use Rattle.mongo_command.specs.Literal.{text_element};
ghost use Rattle.mongo_command.specs.Arguments.{field_elements, IsNamed};

use mongo_bson::Text;
use mongo_command::{ArgumentField, text_field};

// The field `key`, a text that the metadata owns.
pub(crate) fn owned_text_field<'a>(key: &'static str, text: &'a Text) -> ArgumentField<'a>
    requires { ¬ Contains key.now 0 }
    ensures elements { field_elements result ≡ text_element key.now text.now ∷ [] }
    ensures named { IsNamed result }
{
    text_field(key, text.as_str())
}
