//! What holds of the grammar itself.

ghost use Rattle.std.specs.Prelude.{◌≡◌, ◌↔◌, List, ℕ};
ghost use Rattle.xt_number.specs.Numeral.{Numeral, IsNumber};
ghost use Rattle.xt_number.specs.Reading.{numeral_of};

/// A text has at most one list of parts, and reading it from left to right finds just these.
pub fn texts_are_unambiguous()
    ensures one { (text : List ℕ) → (m n : Numeral) → IsNumber text m → IsNumber text n → m ≡ n }
    ensures read { (text : List ℕ) → (n : Numeral) → (numeral_of text ≡ Some n) ↔ IsNumber text n }
{}
