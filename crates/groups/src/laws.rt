//! Laws of reports and of partial results, and worked reports: functions that do nothing, whose clauses say them.
ghost use Rattle.std.specs.Prelude.{◌≡◌, ℕ, List, [], Ok, map};
ghost use Rattle.std.specs.List.Sorted.{IsPermutation};
ghost use Rattle.aggs.specs.declared.acc.Acc.{Acc};
ghost use Rattle.cells.specs.Values.{RowValue, Table};
ghost use Rattle.cells.specs.declared.cell.Cell.{Cell};
ghost use Rattle.groups.specs.Folds.{Folds};
ghost use Rattle.groups.specs.Groups.{item_value, report_rows, shown};
ghost use Rattle.groups.specs.Names.{shown_where};
ghost use Rattle.groups.specs.Partials.{Stands};
ghost use Rattle.groups.specs.declared.folding.Folding.{Folding};
ghost use Rattle.groups.specs.Worked.{by_having, by_region, by_two, nothing_by_region, sales, sales_by_having, sales_by_region, sales_by_two, sales_of_regions, sales_table};
ghost use Rattle.query.specs.Having.{having_of};
ghost use Rattle.query.specs.Plans.{PlanTree, checked, plan_of};
ghost use Rattle.query.specs.Queries.{IsQuery};
ghost use Rattle.query.specs.Trees.{PredicateTree};
ghost use Rattle.query.specs.Values.{QueryTree};
ghost use Rattle.query.specs.Worked.{regions, regions_tree};
ghost use Rattle.query.specs.declared.item.Item.{Item};
ghost use Rattle.query.specs.declared.test.Test.{Test};

use cells::{Cell, KeyHash, Tuple};
use query::{truth_by_names, worked_query};

/// The order of the rows does not count: the report is the same, and what stands for rows stands for them in any order, as what
/// they went into is of them in any order.
pub fn any_order<H: KeyHash<Cell> + KeyHash<Tuple>>()
    ensures report { (plan : PlanTree) (xs ys : List RowValue) → IsPermutation xs ys → report_rows plan xs ≡ report_rows plan ys }
    ensures stands { (plan : PlanTree) (xs ys : List RowValue) (partial : List (List (List Cell × List (Acc H)))) →
        IsPermutation xs ys → Stands H.KeyHash-2.hash_of plan xs partial → Stands H.KeyHash-2.hash_of plan ys partial }
    ensures folds { (plan : PlanTree) (xs ys : List RowValue) (folding : Folding H) → IsPermutation xs ys → Folds plan xs folding →
        Folds plan ys folding }
{}

/// Worked reports, computed by the definitions: four sales by ROLLUP of their region, which is NULL in one of them, the
/// same query over no rows, and GROUPING of two columns over the four sets of them; then HAVING, which drops two groups of
/// the four, and of no rows the empty set's one group, for whose sum it is unknown.
pub fn worked_reports()
    ensures sales { report_rows by_region sales ≡ sales_by_region }
    ensures nothing { report_rows by_region [] ≡ nothing_by_region }
    ensures two { report_rows by_two sales ≡ sales_by_two }
    ensures having { report_rows by_having sales ≡ sales_by_having }
    ensures unknown { report_rows by_having [] ≡ [] }
{}

/// HAVING, in the words of the query: a report has the rows of those groups alone for which HAVING is true, where an item stands
/// for its value for the group.
pub fn having_by_names()
    ensures { (t : Table) (q : QueryTree) (p : PredicateTree (Test (Item (List ℕ)))) (set : List ℕ) (tuple : List Cell)
        (group : List RowValue) → q.having ≡ having_of p →
        shown (plan_of t q) (map (item_value set tuple group) (plan_of t q).items) ≡ shown_where t q p set tuple group }
{
    truth_by_names();
}

/// A worked text, from its bytes to the rows of its report: the query that it spells, which has no fault for the table of the
/// sales, and the rows of that query's plan over them. Its HAVING, with BETWEEN, OR and GROUPING, drops two groups of four.
pub fn worked_text()
    ensures query { IsQuery regions regions_tree }
    ensures plan { checked sales_table regions_tree ≡ Ok (plan_of sales_table regions_tree) }
    ensures rows { report_rows (plan_of sales_table regions_tree) sales ≡ sales_of_regions }
{
    worked_query();
}
