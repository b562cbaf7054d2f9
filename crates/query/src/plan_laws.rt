//! Laws of grouping sets and of truth: functions that do nothing, whose clauses say them.
ghost use Rattle.std.specs.Prelude.{◌≡◌, ◌++◌, ℕ, List, [], ◌∷◌, Some, drop, false, length, map, option_map, pos, true};
ghost use Rattle.cells.specs.Values.{Table};
ghost use Rattle.cells.specs.declared.schema.Column.{Column};
ghost use Rattle.query.specs.Having.{having_of, having_truth};
ghost use Rattle.query.specs.Naming.{AgreeAt, columns_named};
ghost use Rattle.query.specs.Plans.{index_of, plan_of, resolved_condition, resolved_item};
ghost use Rattle.query.specs.Trees.{Cube, Empty, MoreElements, NoElements, Not, OneUnit, PredicateTree, Rollup, Sets, Holds};
ghost use Rattle.query.specs.Truth.{truth, truth_by, value_at};
ghost use Rattle.query.specs.Values.{QueryTree};
ghost use Rattle.query.specs.Worked.{A, B, C, both, different_sets_over, either, fails, holds, of_null, sets_over, unknown};
ghost use Rattle.query.specs.declared.item.Item.{Item as ItemTree};
ghost use Rattle.query.specs.declared.test.Test.{Test as TestTree};

use crate::test::{Comparison, Literal, Operand, Test};
use crate::truth::Truth;
use cells::Total;

/// The grouping sets of examples over a table of the columns A, B and C, computed by the definition.
pub fn worked_sets()
    // CUBE(A, B)
    ensures cube { sets_over (Cube (A ∷ B ∷ []) ∷ []) ≡ (0 ∷ 1 ∷ []) ∷ (0 ∷ []) ∷ (1 ∷ []) ∷ [] ∷ [] }
    // CUBE(A, B, C)
    ensures cube_of_three { sets_over (Cube (A ∷ B ∷ C ∷ []) ∷ []) ≡ (0 ∷ 1 ∷ 2 ∷ []) ∷ (0 ∷ 1 ∷ []) ∷ (0 ∷ 2 ∷ []) ∷ (0 ∷ [])
        ∷ (1 ∷ 2 ∷ []) ∷ (1 ∷ []) ∷ (2 ∷ []) ∷ [] ∷ [] }
    // ROLLUP((A, B), C)
    ensures rollup { sets_over (Rollup ((A ++ B) ∷ C ∷ []) ∷ []) ≡ (0 ∷ 1 ∷ 2 ∷ []) ∷ (0 ∷ 1 ∷ []) ∷ [] ∷ [] }
    // A, ROLLUP(B)
    ensures partly { sets_over (OneUnit A ∷ Rollup (B ∷ []) ∷ []) ≡ (0 ∷ 1 ∷ []) ∷ (0 ∷ []) ∷ [] }
    // ROLLUP(A), ROLLUP(B)
    ensures choices { sets_over (Rollup (A ∷ []) ∷ Rollup (B ∷ []) ∷ []) ≡ (0 ∷ 1 ∷ []) ∷ (0 ∷ []) ∷ (1 ∷ []) ∷ [] ∷ [] }
    // GROUPING SETS (A, ROLLUP(B), ())
    ensures listed { sets_over (Sets (MoreElements (OneUnit A) (MoreElements (Rollup (B ∷ [])) (MoreElements Empty NoElements))) ∷ [])
        ≡ (0 ∷ []) ∷ (1 ∷ []) ∷ [] ∷ [] ∷ [] }
    // A, A
    ensures again { sets_over (OneUnit A ∷ OneUnit A ∷ []) ≡ (0 ∷ []) ∷ [] }
    // (C, A)
    ensures rising { sets_over (OneUnit (C ++ A) ∷ []) ≡ (0 ∷ 2 ∷ []) ∷ [] }
    // No GROUP BY.
    ensures none { sets_over [] ≡ [] ∷ [] }
    // ROLLUP(A), ROLLUP(A), and the same with DISTINCT
    ensures repeated { sets_over (Rollup (A ∷ []) ∷ Rollup (A ∷ []) ∷ []) ≡ (0 ∷ []) ∷ (0 ∷ []) ∷ (0 ∷ []) ∷ [] ∷ [] }
    ensures distinct { different_sets_over (Rollup (A ∷ []) ∷ Rollup (A ∷ []) ∷ []) ≡ (0 ∷ []) ∷ [] ∷ [] }
    // DISTINCT GROUPING SETS (A, B, ROLLUP(A)): the first of equal sets stays.
    ensures first { different_sets_over (Sets (MoreElements (OneUnit A)
        (MoreElements (OneUnit B) (MoreElements (Rollup (A ∷ [])) NoElements))) ∷ []) ≡ (0 ∷ []) ∷ (1 ∷ []) ∷ [] ∷ [] }
    // DISTINCT GROUPING SETS ((A, A), A, (B, A), (A, B)): sets are equal where their columns are.
    ensures by_indexes { different_sets_over (Sets (MoreElements (OneUnit (A ++ A))
        (MoreElements (OneUnit A) (MoreElements (OneUnit (B ++ A)) (MoreElements (OneUnit (A ++ B)) NoElements)))) ∷ []) ≡ (0 ∷ [])
        ∷ (0 ∷ 1 ∷ []) ∷ [] }
{}

/// The truth of examples over rows of one cell, computed by the definition.
pub fn worked_truths()
    // NOT (UNITS > 0) where UNITS is NULL
    ensures not_of_unknown { truth (Not (Holds (Test.Compare (Operand.Column 0) Comparison.Greater
        (Operand.Literal (Literal.Int (pos 0)))))) (Total.Null ∷ []) ≡ Truth.Unknown }
    // UNITS IS NULL
    ensures null { truth (Holds (Test.IsNull (Operand.Column 0) false)) (Total.Null ∷ []) ≡ Truth.True }
    // UNITS IS NOT NULL, where UNITS is NULL
    ensures not_null { truth (Holds (Test.IsNull (Operand.Column 0) true)) (Total.Null ∷ []) ≡ Truth.False }
    // Unknown beside true, beside false and beside unknown, where UNITS is NULL.
    ensures unknown { of_null unknown ≡ Truth.Unknown }
    ensures and_unknown { map of_null (both holds unknown ∷ both fails unknown ∷ both unknown unknown ∷ []) ≡ Truth.Unknown
        ∷ Truth.False ∷ Truth.Unknown ∷ [] }
    ensures unknown_and { map of_null (both unknown holds ∷ both unknown fails ∷ []) ≡ Truth.Unknown ∷ Truth.False ∷ [] }
    ensures or_unknown { map of_null (either holds unknown ∷ either fails unknown ∷ either unknown unknown ∷ []) ≡ Truth.True
        ∷ Truth.Unknown ∷ Truth.Unknown ∷ [] }
    ensures unknown_or { map of_null (either unknown holds ∷ either unknown fails ∷ []) ≡ Truth.True ∷ Truth.Unknown ∷ [] }
    // UNITS NOT IN (1, 2), where UNITS is NULL
    ensures not_in { truth (Holds (Test.In (Operand.Column 0) (Literal.Int (pos 1) ∷ Literal.Int (pos 2) ∷ []) true)) (Total.Null ∷ [])
        ≡ Truth.Unknown }
    // UNITS BETWEEN 1 AND 2, where UNITS is 2
    ensures between { truth (Holds (Test.Between (Operand.Column 0) (Operand.Literal (Literal.Int (pos 1)))
        (Operand.Literal (Literal.Int (pos 2))) false)) (Total.Int (pos 2) ∷ []) ≡ Truth.True }
{}

/// What WHERE and HAVING say, in the words of the query. A plan's predicates have the truth of those that the text spells: the
/// name of a column stands for the value in that column, and an item of HAVING for the item's value for the group.
pub fn truth_by_names()
    ensures condition { (columns : List Column) (p : PredicateTree (TestTree (List ℕ))) (cells : List Total) →
        truth (resolved_condition columns p) cells ≡ truth_by (λ name. value_at cells (index_of columns name)) p }
    // Whatever value each item has for a group: those that HAVING names stand behind those of the select list.
    ensures having { (t : Table) (q : QueryTree) (p : PredicateTree (TestTree (ItemTree (List ℕ)))) (value : ItemTree ℕ → Total) →
        q.having ≡ having_of p →
        option_map (λ n. truth n (drop (length (plan_of t q).headings) (map value (plan_of t q).items))) (plan_of t q).having
        ≡ Some (having_truth (λ i. value (resolved_item t.columns i)) p) }
{}

/// The truth of a predicate over values is decided by those at the indexes of the columns that it names.
pub fn truth_by_columns()
    ensures { (p : PredicateTree (TestTree ℕ)) (xs ys : List Total) → AgreeAt (columns_named p) xs ys → truth p xs ≡ truth p ys }
{}
