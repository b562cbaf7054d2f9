//! The grouping sets of GROUP BY.
ghost use Rattle.std.specs.Prelude.{◌≡◌, ◌∷◌, [], IfOk, OnOk, bytes_eq, map};
ghost use Rattle.std.specs.List.{flat_map, list_any};
ghost use Rattle.query.specs.Different.{different, with_new};
ghost use Rattle.query.specs.Marks.{joined, marked_from, marks};
ghost use Rattle.query.specs.Sets.{cube, grouping_sets, indexes, names_column, resolved_sets, rollup, sets_of};

use crate::element::{Element, ElementForm, Unit};
use cells::Column;
use std::alloc::{AllocError, Global};
use std::marker::Model;

/// A grouping set: the indexes of its columns among those of the table, rising.
#[derive(Debug, Drop)]
pub struct GroupSet {
    pub columns: Vec<usize>,
}

impl Model for GroupSet {
    ghost use Rattle.std.specs.Prelude.{ℕ, List};

    ghost Value = { List ℕ };

    ghost view = { λ set. set.columns.items };
}

/// A set as a mark for each column of the table: whether it is in the set.
#[derive(Drop)]
struct Marks {
    marks: Vec<bool>,
}

impl Model for Marks {
    ghost use Rattle.std.specs.Prelude.{Bool, List};

    ghost Value = { List Bool };

    ghost view = { λ m. m.marks.items };
}

/// The grouping sets of GROUP BY, in order; with DISTINCT without those that stand earlier in the list, too.
pub fn resolved_sets(
    alloc: Global,
    columns: &[Column],
    distinct: bool,
    elements: &[Element],
) -> Result<Vec<GroupSet>, AllocError>
    ensures { IfOk result (λ sets. sets.items ≡ resolved_sets columns.now (record { distinct = distinct; elements = elements.now })) }
{
    let sets = grouping_sets(alloc, columns, elements)?;
    if distinct {
        return different_sets(alloc, sets);
    }
    Ok(sets)
}

/// The sets without those that stand earlier in the list, too.
fn different_sets(alloc: Global, sets: Vec<GroupSet>) -> Result<Vec<GroupSet>, AllocError>
    ensures { IfOk result (λ found. found.items ≡ different bytes_eq sets.items) }
{
    let mut different = Vec::new(alloc);
    for set in sets {
        add_set(&mut different, set)?;
    }
    Ok(different)
}

/// Adds the set behind those that are there, unless one of them has the same columns.
fn add_set(sets: &mut Vec<GroupSet>, set: GroupSet) -> Result<(), AllocError>
    ensures { OnOk result (sets.new.items ≡ with_new bytes_eq sets.old.items set) }
{
    if is_among(sets.as_slice(), &set) {
        return Ok(());
    }
    Ok(sets.push(set)?)
}

/// Whether one of the sets has the same columns.
fn is_among(sets: &[GroupSet], set: &GroupSet) -> bool
    ensures { result ≡ list_any (λ other. bytes_eq other set.now) sets.now }
{
    sets.iter().any(|other| other.columns == set.columns)
}

/// The grouping sets that the elements of GROUP BY give, in order: the union of each choice of one set from every
/// element, the last varying fastest.
fn grouping_sets(
    alloc: Global,
    columns: &[Column],
    elements: &[Element],
) -> Result<Vec<GroupSet>, AllocError>
    ensures { IfOk result (λ sets. sets.items ≡ map (indexes columns.now) (grouping_sets elements.now)) }
{
    let marks = grouping_marks(alloc, columns, elements)?;
    let mut sets = Vec::new(alloc);
    for each in marks.as_slice() {
        sets.push(group_set(alloc, each)?)?;
    }
    Ok(sets)
}

/// The indexes that are marked, rising.
fn group_set(alloc: Global, marks: &Marks) -> Result<GroupSet, AllocError>
    ensures { IfOk result (λ set. set ≡ marked_from 0 marks.now) }
{
    let mut columns = Vec::new(alloc);
    for (index, marked) in marks.marks.iter().enumerate() {
        if *marked {
            columns.push(index)?;
        }
    }
    Ok(GroupSet { columns })
}

/// The grouping sets of the elements.
fn grouping_marks(
    alloc: Global,
    columns: &[Column],
    elements: &[Element],
) -> Result<Vec<Marks>, AllocError>
    ensures { IfOk result (λ sets. sets.items ≡ map (marks columns.now) (grouping_sets elements.now)) }
{
    let mut sets = empty_set(alloc, columns)?;
    let mut left = elements.len();
    while left > 0 {
        left -= 1;
        let firsts = element_sets(alloc, columns, &elements[left])?;
        sets = choices(alloc, firsts.as_slice(), sets.as_slice())?;
    }
    Ok(sets)
}

/// The sets of an element.
fn element_sets(
    alloc: Global,
    columns: &[Column],
    element: &Element,
) -> Result<Vec<Marks>, AllocError>
    ensures { IfOk result (λ sets. sets.items ≡ map (marks columns.now) (sets_of element.now)) }
{
    match &element.form {
        ElementForm::Empty => rollup(alloc, columns, &[]),
        ElementForm::Unit(unit) => unit_set(alloc, columns, unit),
        ElementForm::Rollup(units) => rollup(alloc, columns, units.as_slice()),
        ElementForm::Cube(units) => cube(alloc, columns, units.as_slice()),
        ElementForm::Sets(elements) => {
            let mut sets = Vec::new(alloc);
            for inner in elements {
                let mut more = element_sets(alloc, columns, inner)?;
                sets.append(&mut more)?;
            }
            Ok(sets)
        }
    }
}

/// The set of no column alone.
fn empty_set(alloc: Global, columns: &[Column]) -> Result<Vec<Marks>, AllocError>
    ensures { IfOk result (λ sets. sets.items ≡ marks columns.now [] ∷ []) }
{
    let mut sets = Vec::new(alloc);
    sets.push(no_marks(alloc, columns)?)?;
    Ok(sets)
}

/// The set of a unit alone.
fn unit_set(alloc: Global, columns: &[Column], unit: &Unit) -> Result<Vec<Marks>, AllocError>
    ensures { IfOk result (λ sets. sets.items ≡ marks columns.now unit.now ∷ []) }
{
    let mut sets = Vec::new(alloc);
    sets.push(unit_marks(alloc, columns, unit)?)?;
    Ok(sets)
}

/// The sets of ROLLUP.
fn rollup(alloc: Global, columns: &[Column], units: &[Unit]) -> Result<Vec<Marks>, AllocError>
    ensures { IfOk result (λ sets. sets.items ≡ map (marks columns.now) (rollup units.now)) }
{
    let mut sets = empty_set(alloc, columns)?;
    let mut left = units.len();
    while left > 0 {
        left -= 1;
        let first = unit_marks(alloc, columns, &units[left])?;
        let mut longer = joined_each(alloc, &first, sets.as_slice())?;
        longer.push(no_marks(alloc, columns)?)?;
        sets = longer;
    }
    Ok(sets)
}

/// The sets of CUBE.
fn cube(alloc: Global, columns: &[Column], units: &[Unit]) -> Result<Vec<Marks>, AllocError>
    ensures { IfOk result (λ sets. sets.items ≡ map (marks columns.now) (cube units.now)) }
{
    let mut sets = empty_set(alloc, columns)?;
    let mut left = units.len();
    while left > 0 {
        left -= 1;
        let first = unit_marks(alloc, columns, &units[left])?;
        let mut longer = joined_each(alloc, &first, sets.as_slice())?;
        longer.append(&mut sets)?;
        sets = longer;
    }
    Ok(sets)
}

/// The union of each choice of a set from both lists, the second varying faster.
fn choices(alloc: Global, firsts: &[Marks], seconds: &[Marks]) -> Result<Vec<Marks>, AllocError>
    ensures { IfOk result (λ sets. sets.items ≡ flat_map (λ f. map (joined f) seconds.now) firsts.now) }
{
    let mut sets = Vec::new(alloc);
    for first in firsts {
        let mut more = joined_each(alloc, first, seconds)?;
        sets.append(&mut more)?;
    }
    Ok(sets)
}

/// The union of a set with each of several.
fn joined_each(alloc: Global, first: &Marks, others: &[Marks]) -> Result<Vec<Marks>, AllocError>
    ensures { IfOk result (λ sets. sets.items ≡ map (joined first.now) others.now) }
{
    let mut sets = Vec::new(alloc);
    for other in others {
        sets.push(joined(alloc, first, other)?)?;
    }
    Ok(sets)
}

/// The union of two sets.
fn joined(alloc: Global, first: &Marks, second: &Marks) -> Result<Marks, AllocError>
    ensures { IfOk result (λ m. m ≡ joined first.now second.now) }
{
    let mut marks = Vec::new(alloc);
    for (a, b) in first.marks.iter().zip(second.marks.iter()) {
        marks.push(*a || *b)?;
    }
    Ok(Marks { marks })
}

/// The set of no column.
fn no_marks(alloc: Global, columns: &[Column]) -> Result<Marks, AllocError>
    ensures { IfOk result (λ m. m ≡ marks columns.now []) }
{
    let marks = columns.iter().map(|_column| false).collect(alloc)?;
    Ok(Marks { marks })
}

/// The set of the columns that the unit names.
fn unit_marks(alloc: Global, columns: &[Column], unit: &Unit) -> Result<Marks, AllocError>
    ensures { IfOk result (λ m. m ≡ marks columns.now unit.now) }
{
    let marks = columns
        .iter()
        .map(|column| names(unit, column))
        .collect(alloc)?;
    Ok(Marks { marks })
}

/// Whether the unit names the column.
fn names(unit: &Unit, column: &Column) -> bool
    ensures { result ≡ names_column unit.now column.now }
{
    unit.names().iter().any(|name| column.name == *name)
}
