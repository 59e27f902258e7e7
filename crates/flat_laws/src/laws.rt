//! Laws of flat netlists, each as the clause of a function that does nothing.

ghost use Rattle.std.specs.Prelude.{◌≡◌, ◌⊎◌, ◌∷◌, [], ℕ, true, List, Ok, Err};
ghost use Rattle.name_numbers.specs.Names.{Text};
ghost use Rattle.xt_lex.specs.Bytes.{last_line};
ghost use Rattle.xt_model.specs.declared.code.Code.{Code};
ghost use Rattle.xt_model.specs.declared.code.Code.TheVariants.{V3};
ghost use Rattle.text_forms.specs.Forms.{Refusal};
ghost use Rattle.verilog_net.specs.declared.netlist.Netlist.{Netlist};
ghost use Rattle.verilog_net.specs.Reading.{modules_of, netlist_of_text};
ghost use Rattle.hier_flatten.specs.Alone.{is_alone};
ghost use Rattle.hier_flatten.specs.Meaning.{FlatMeans, Outcome};
ghost use Rattle.flat_laws.specs.Laws.{ConnectsBits, IsItself};

/// A flat netlist has no whole bus as a connection.
pub fn flat_netlists_connect_bits()
    ensures { (modules : List Netlist) (last : ℕ) (flat : Netlist) → FlatMeans modules last (Ok flat)
        → ConnectsBits flat }
{}

/// A text that one module alone is read from means that module also where several are admitted, and the module is its
/// own flat netlist. The other way, a text that means one module where several are admitted, with bits alone at its
/// pins, is read as that module; where no instance is of the module itself, it is the flat netlist of its text.
pub fn one_module_is_itself()
    ensures itself { (bytes : Text) (m : Netlist) → netlist_of_text bytes ≡ Ok m → IsItself bytes m }
    ensures read { (bytes : Text) (m : Netlist) → modules_of bytes ≡ Ok (m ∷ []) → ConnectsBits m
        → netlist_of_text bytes ≡ Ok m }
    ensures alone { (bytes : Text) (m : Netlist) → modules_of bytes ≡ Ok (m ∷ []) → is_alone (m ∷ []) ≡ true
        → FlatMeans (m ∷ []) (last_line bytes) (Ok m) }
{}

/// A text that is refused where one module alone is admitted is refused at the same line and by the same code where
/// several are, unless by `V3`, which whole buses and further modules have there.
pub fn other_refusals_are_same()
    ensures { (bytes : Text) (why : Refusal Code) → netlist_of_text bytes ≡ Err why
        → (why.code ≡ V3) ⊎ (modules_of bytes ≡ Err why) }
{}

/// Modules mean one thing alone: one flat netlist, or one refusal or limit.
pub fn modules_mean_one_thing()
    ensures { (modules : List Netlist) (last : ℕ) (a : Outcome) (b : Outcome) → FlatMeans modules last a
        → FlatMeans modules last b → a ≡ b }
{}
