//! Partial results behind a refusal.
ghost use Rattle.std.specs.Prelude.{◌≡◌, ◌≤◌, IfOk, IsTrue, length};
ghost use Rattle.groups.specs.Groups.{kept};
ghost use Rattle.groups.specs.Partials.{MayMeet, Stands, rows_of};

use cells::{Cell, KeyHash, Plain, Refused, Row, Schema, Total, Tuple};
use groups::{Partial, ReportRow};
use query::{Plan, check, read};
use std::alloc::{AllocError, Global};
use std::test::Fail;
use trie::{Cutting, Piece, Trie};

const TABLE: &str = "SALES (ID INT KEY, REGION TEXT)";

const QUERY: &str = "SELECT REGION, COUNT(*) FROM SALES GROUP BY REGION";

/// Rows beside their keys.
type Pairs = Vec<(Cell, Row)>;

/// What a table of rows is cut into: one piece, if there are any.
type Pieces = Vec<Piece<Cell, Row, Plain>>;

/// One row more.
fn push_row(
    alloc: Global,
    schema: &Schema,
    pairs: &mut Pairs,
    record: &[&[u8]],
) -> Result<(), Refused> {
    let row = Row::read(alloc, record, schema)?;
    let key = row.key().owned(alloc)?;
    pairs.push((key, row))?;
    Ok(())
}

/// The piece of the rows.
fn piece_of(alloc: Global, pairs: Pairs) -> Result<Pieces, AllocError> {
    let rows: Trie<Cell, Row, Plain> = Trie::from_pairs(alloc, pairs)?;
    rows.split(alloc, &Cutting { depth: 0, small: 0 })
}

/// The piece of a table of one row.
fn one_row(alloc: Global, schema: &Schema, record: &[&[u8]]) -> Result<Pieces, Refused> {
    let mut pairs = Vec::new(alloc);
    push_row(alloc, schema, &mut pairs, record)?;
    Ok(piece_of(alloc, pairs)?)
}

/// Whether the piece has one row at most.
fn is_short<H: KeyHash<Cell>>(alloc: Global, sale: &Piece<Cell, Row, H>) -> Result<bool, AllocError>
    ensures { IfOk result (λ short. IsTrue short → length sale.now ≤ 1) }
{
    Ok(sale.entries(alloc)?.len() <= 1)
}

/// The plan of a query.
fn planned(alloc: Global, schema: &Schema, query: &str) -> Result<Plan, Refused> {
    let query = read(alloc, query)?;
    check(alloc, query, schema)
}

/// The partial result of the sale; where it is refused, by the same call made again.
fn folded<H: KeyHash<Cell> + KeyHash<Tuple>>(
    alloc: Global,
    plan: &Plan,
    sale: &Piece<Cell, Row, H>,
) -> Result<Partial<H>, AllocError>
    requires { length sale.now ≤ 1 }
    ensures { IfOk result (λ p. Stands H.KeyHash-2.hash_of plan.now (kept plan.now.condition (rows_of sale.now)) p) }
{
    if let Ok(partial) = Partial::of_piece(alloc, plan, sale) {
        return Ok(partial);
    }
    Partial::of_piece(alloc, plan, sale)
}

/// Both partial results together; where that is refused, by the same call made again.
fn joined<H: KeyHash<Cell> + KeyHash<Tuple>>(
    alloc: Global,
    first: &Partial<H>,
    second: &Partial<H>,
) -> Result<Partial<H>, AllocError>
    requires { MayMeet H.KeyHash-2.hash_of first.now second.now }
{
    if let Ok(both) = first.join(alloc, second) {
        return Ok(both);
    }
    first.join(alloc, second)
}

/// Whether the report of both partial results together has one row that counts two; where it is refused, that of the same ones
/// joined again.
fn finished<H: KeyHash<Cell> + KeyHash<Tuple>>(
    alloc: Global,
    plan: &Plan,
    first: &Partial<H>,
    second: &Partial<H>,
) -> Result<bool, AllocError>
    requires { MayMeet H.KeyHash-2.hash_of first.now second.now }
{
    let both = joined(alloc, first, second)?;
    if let Ok(rows) = Partial::finish(alloc, plan, both) {
        return Ok(counts_two(rows.as_slice()));
    }
    let both = joined(alloc, first, second)?;
    let rows = Partial::finish(alloc, plan, both)?;
    Ok(counts_two(rows.as_slice()))
}

/// Whether the report has one row, whose second value is 2.
fn counts_two(rows: &[ReportRow]) -> bool {
    match rows {
        [row] => matches!(row.totals.as_slice(), [_, Total::Int(2)]),
        _ => false,
    }
}

/// Whether the report of the sale, which is taken twice, has one row that counts two.
fn report_of_two<H: KeyHash<Cell> + KeyHash<Tuple>>(
    alloc: Global,
    plan: &Plan,
    sale: &Piece<Cell, Row, H>,
) -> Result<bool, AllocError> {
    if !is_short(alloc, sale)? {
        return Ok(false);
    }
    let first = folded(alloc, plan, sale)?;
    let second = folded(alloc, plan, sale)?;
    finished(alloc, plan, &first, &second)
}

/// The same of the query.
fn are_two(
    alloc: Global,
    schema: &Schema,
    sale: &Piece<Cell, Row, Plain>,
) -> Result<bool, Refused> {
    let plan = planned(alloc, schema, QUERY)?;
    let are_two = report_of_two(alloc, &plan, sale);
    drop(plan);
    Ok(are_two?)
}

/// The same of a sale.
fn are_two_of_one(alloc: Global, schema: &Schema) -> Result<bool, Refused> {
    let pieces = one_row(alloc, schema, &[b"1", b"north"])?;
    let are_two = match pieces.as_slice() {
        [sale] => are_two(alloc, schema, sale),
        _ => Ok(false),
    };
    drop(pieces);
    are_two
}

/// Run with each allocation refused in turn, too: what is folded, joined and finished again gives what it would have given.
#[test]
fn partial_results_behind_a_refusal(rt: HostRuntime) -> Result<(), Fail> {
    let schema = Schema::read(rt.alloc(), TABLE)?;
    let are_two = are_two_of_one(rt.alloc(), &schema);
    drop(schema);
    assert!(rt; are_two?);
    Ok(())
}
