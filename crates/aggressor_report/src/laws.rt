//! Laws of paths, each as the clause of a function that does nothing.

ghost use Rattle.std.specs.Prelude.{◌≡◌, ℕ, Bool};
ghost use Rattle.xt_model.specs.declared.edge.Edge.{Edge};
ghost use Rattle.xt_model.specs.Parts.{Parts};
ghost use Rattle.xt_model.specs.Assign.{Assignment};
ghost use Rattle.aggressor_report.specs.declared.path.Path.{Path};
ghost use Rattle.aggressor_report.specs.Paths.{IsPath};

/// An edge of a net has one path at most that leads to its latest time, and one to its earliest, in given windows.
pub fn a_path_is_unique()
    ensures { (late : Bool) (d : Parts) (W : Assignment) (m : ℕ) (f : Edge) (p q : Path)
        → IsPath late d W m f p → IsPath late d W m f q → p ≡ q }
{}
