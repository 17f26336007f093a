//! Laws that follow from the definitions together. Each function carries a law as its clauses, and does nothing.
ghost use Rattle.std.specs.Prelude.{◌≡◌, ℕ, List, map, None};
ghost use Rattle.inf_expressions.specs.{declared.operators.Operand.Operand, declared.units.Wanted.Wanted};
ghost use Rattle.inf_expressions.specs.Sources.{Source, found_in_all, meant, postfixes};
ghost use Rattle.inf_expressions.specs.Units.{judged, roots_finding, trees_of};

/// Shows that the symbols of expressions come to the tree of each expression, made from the trees of its parts, and to the
/// findings of all parts.
#[tactic(auto, using(crate::proofs::SourceLaws::trees_are, crate::proofs::SourceLaws::finding_is))]
pub fn symbols_are_read_as_their_trees()
    ensures trees { (wanted : Wanted) (unit : ℕ) (operands : List Operand) (sources : List Source) →
        trees_of wanted unit operands (postfixes sources) ≡ map (meant operands) sources }
    ensures finding { (wanted : Wanted) (unit : ℕ) (operands : List Operand) (sources : List Source) →
        judged wanted unit operands (postfixes sources)
        ≡ roots_finding wanted unit (map (meant operands) sources) (found_in_all unit operands sources None) }
{}

/// Shows that no other expressions have the same symbols.
#[tactic(auto, using(crate::proofs::SourceLaws::one_order))]
pub fn expressions_have_one_order()
    ensures { (sources : List Source) (others : List Source) → postfixes sources ≡ postfixes others → sources ≡ others }
{}
