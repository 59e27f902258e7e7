//! Laws of linking, each as the clause of a function that does nothing.

ghost use Rattle.std.specs.Prelude.{◌≡◌};
ghost use Rattle.xt_model.specs.Parts.{Parts};
ghost use Rattle.link_rules.specs.Bare.{Inputs};
ghost use Rattle.link_rules.specs.Link.{IsLinked, IsRefused};
ghost use Rattle.link_rules.specs.declared.fault.LinkFault.{LinkFault};

/// A library, a netlist, parasitics and constraints have one fault at most, make one design at most, and not both.
pub fn linking_has_one_outcome()
    ensures one_fault { (x : Inputs) (f g : LinkFault) → IsRefused x f → IsRefused x g → f ≡ g }
    ensures one_design { (x : Inputs) (d e : Parts) → IsLinked x d → IsLinked x e → d ≡ e }
    ensures not_both { (x : Inputs) (f : LinkFault) (d : Parts) → IsRefused x f → IsLinked x d → ⊥ }
{}
