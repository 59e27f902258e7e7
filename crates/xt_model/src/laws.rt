//! Laws of levels and of windows. Each function does nothing; its clauses are the law.

ghost use Rattle.std.specs.Prelude.{◌≡◌, ℕ, List};
ghost use Rattle.xt_model.specs.declared.net.Net.{Net};
ghost use Rattle.xt_model.specs.declared.quad.Quad.{Quad};
ghost use Rattle.xt_model.specs.Levels.{AreLevels, IsLoop, IsOrderBy, IsPairCount};
ghost use Rattle.xt_model.specs.Loops.{IsFirstLoop};
ghost use Rattle.xt_model.specs.Quads.{bottom, IsInRange, IsWithin, join_of, meet_of};

/// Nets have one list of levels at most.
pub fn levels_are_unique()
    ensures { (nets : List Net) (a b : List ℕ) → AreLevels nets a → AreLevels nets b → a ≡ b }
{}

/// Nets and levels have one order at most.
pub fn an_order_is_unique()
    ensures { (nets : List Net) (levels a b : List ℕ) → IsOrderBy nets levels a → IsOrderBy nets levels b → a ≡ b }
{}

/// Nets have one count of coupled pairs.
pub fn a_pair_count_is_unique()
    ensures { (nets : List Net) (a b : ℕ) → IsPairCount nets a → IsPairCount nets b → a ≡ b }
{}

/// Nets with levels have no loop.
pub fn a_loop_excludes_levels()
    ensures { (nets : List Net) (levels path : List ℕ) → AreLevels nets levels → IsLoop nets path → ⊥ }
{}

/// The first loop of nets is a loop, and they have one at most.
pub fn a_first_loop_is_unique()
    ensures is_loop { (nets : List Net) (path : List ℕ) → IsFirstLoop nets path → IsLoop nets path }
    ensures unique { (nets : List Net) (a b : List ℕ) → IsFirstLoop nets a → IsFirstLoop nets b → a ≡ b }
{}

/// Containment is an order of windows, and a window that never switches is the least in range.
pub fn within_is_an_order()
    ensures reflexive { (q : Quad) → IsWithin q q }
    ensures transitive { (q r s : Quad) → IsWithin q r → IsWithin r s → IsWithin q s }
    ensures antisymmetric { (q r : Quad) → IsWithin q r → IsWithin r q → q ≡ r }
    ensures least { (q : Quad) → IsInRange q → IsWithin bottom q }
{}

/// The join is the least window that contains both, the meet the greatest within both.
pub fn joins_and_meets_are_bounds()
    ensures join_left { (q r : Quad) → IsWithin q (join_of q r) }
    ensures join_right { (q r : Quad) → IsWithin r (join_of q r) }
    ensures join_least { (q r s : Quad) → IsWithin q s → IsWithin r s → IsWithin (join_of q r) s }
    ensures meet_left { (q r : Quad) → IsWithin (meet_of q r) q }
    ensures meet_right { (q r : Quad) → IsWithin (meet_of q r) r }
    ensures meet_greatest { (q r s : Quad) → IsWithin s q → IsWithin s r → IsWithin s (meet_of q r) }
{}
