//! Names in texts.

ghost use Rattle.std.specs.Prelude.{◌≡◌, true};
ghost use Rattle.std.specs.Char.{is_ascii_graphic};
ghost use Rattle.std.specs.List.{list_all};
ghost use Rattle.xt_model.specs.Names.{IsName};
ghost use Rattle.text_forms.specs.Names.{is_name};

use xt_model::limits::MOST_TEXT_NAME;

/// Whether all bytes are printable ones other than a space.
#[inline]
fn is_printable(bytes: &[u8]) -> bool
    ensures { result ≡ list_all is_ascii_graphic bytes.now }
{
    bytes.iter().all(|b| b.is_ascii_graphic())
}

/// Whether the bytes may be a name: 1 to 1,024 printable ones other than a space.
#[inline]
#[tactic(auto, using(crate::proofs::NameLaws::is_name_sound))]
pub fn is_name(name: &[u8]) -> bool
    ensures exact { result ≡ is_name name.now }
    ensures sound { result ≡ true → IsName name.now }
{
    !name.is_empty() && (name.len() <= MOST_TEXT_NAME && is_printable(name))
}
