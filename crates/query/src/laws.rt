//! The laws of what a text is: a query, or a text with a first fault.
ghost use Rattle.std.specs.Prelude.{◌≡◌, ℕ, List};
ghost use Rattle.cells.specs.declared.refused.Refused.{Refused as Fault};
ghost use Rattle.query.specs.Queries.{FirstFault, IsAnswered, IsQuery};
ghost use Rattle.query.specs.Values.{QueryTree};
ghost use Rattle.query.specs.Worked.{regions, regions_tree, sums, sums_tree};

/// A text is one query at most, it has one first fault at most, and no query has a fault.
pub fn a_text_has_one_answer()
    ensures one_query { (text : List ℕ) (q p : QueryTree) → IsQuery text q → IsQuery text p → q ≡ p }
    ensures one_fault { (text : List ℕ) (e f : Fault) → FirstFault text e → FirstFault text f → e ≡ f }
    ensures no_both { (text : List ℕ) (q : QueryTree) (e : Fault) → IsQuery text q → FirstFault text e → ⊥ }
{}

/// Each text is a query or has a first fault: the grammar is decided, where no memory is asked for.
pub fn each_text_has_an_answer()
    ensures { (text : List ℕ) → IsAnswered text }
{}

/// Texts and their trees, rule by rule of the grammar: `SELECT A, SUM(B) FROM T WHERE B > 1 GROUP BY CUBE (A)`, and `SELECT
/// REGION, SUM(UNITS) FROM SALES GROUP BY ROLLUP (REGION) HAVING SUM(UNITS) BETWEEN 1 AND 9 OR GROUPING(REGION) = 1`.
pub fn worked_query()
    ensures sums { IsQuery sums sums_tree }
    ensures regions { IsQuery regions regions_tree }
{}
