//! The elements of GROUP BY.
ghost use Rattle.std.specs.Prelude.{◌≡◌, IfOk, [], ◌∷◌};
ghost use Rattle.query.specs.ElementViews.{element_tree};
ghost use Rattle.query.specs.Trees.{Empty, OneUnit, Rollup, Cube, Sets, elements_of};

use cells::Text;
use std::alloc::{AllocError, Global};
use std::marker::Model;

/// One or several columns that stand together in a grouping element, by their names in upper case.
#[derive(Drop)]
pub struct Unit {
    names: Vec<Text>,
}

impl Model for Unit {
    ghost use Rattle.std.specs.Prelude.{ℕ, List};

    ghost Value = { List (List ℕ) };

    ghost view = { λ u. u.names.items };
}

impl Unit {
    /// The unit of these names.
    pub fn new(names: Vec<Text>) -> Unit
        ensures { result ≡ names.items }
    {
        Unit { names }
    }

    /// The unit of one name, or want of memory.
    pub fn one(alloc: Global, name: Text) -> Result<Unit, AllocError>
        ensures { IfOk result (λ u. u ≡ name ∷ []) }
    {
        let mut names = Vec::new(alloc);
        names.push(name)?;
        Ok(Unit { names })
    }

    /// The names, in the order of the text.
    pub fn names(&self) -> &[Text]
        ensures { result.now ≡ self.now }
    {
        self.names.as_slice()
    }
}

/// An element of GROUP BY (ISO/IEC 9075-2:1999, 7.9). Clauses see its tree.
#[derive(Drop)]
#[cycle(element)]
pub struct Element {
    pub(crate) form: ElementForm,
}

/// The forms of an element.
#[derive(Drop)]
#[cycle(element)]
pub enum ElementForm {
    /// `()`: no column.
    Empty,
    /// A unit alone.
    Unit(Unit),
    /// `ROLLUP(u, v)`.
    Rollup(Vec<Unit>),
    /// `CUBE(u, v)`.
    Cube(Vec<Unit>),
    /// `GROUPING SETS (e, f)`.
    Sets(Vec<Element>),
}

impl Model for Element {
    ghost use Rattle.query.specs.Trees.{ElementTree, element_size};

    ghost Value = { ElementTree };

    ghost use Rattle.query.specs.Codes.{coded_element};

    ghost coded = { coded_element };

    ghost use Rattle.query.specs.ElementViews.{element_tree};

    ghost view = { λ e. element_tree e.form };

    ghost size = { element_size };

    ghost use Rattle.query.specs.ElementFalls.{element_falls};

    ghost size_decreases = { λ e h. element_falls e.form };
}

impl Element {
    /// Which form of element it is.
    pub fn form(&self) -> &ElementForm
        ensures { element_tree result.now ≡ self.now }
    {
        &self.form
    }

    /// The element without columns.
    pub fn empty() -> Element
        ensures { result ≡ Empty }
    {
        Element {
            form: ElementForm::Empty,
        }
    }

    /// A unit alone.
    pub fn unit(unit: Unit) -> Element
        ensures { result ≡ OneUnit unit }
    {
        Element {
            form: ElementForm::Unit(unit),
        }
    }

    /// ROLLUP of the units.
    pub fn rollup(units: Vec<Unit>) -> Element
        ensures { result ≡ Rollup units.items }
    {
        Element {
            form: ElementForm::Rollup(units),
        }
    }

    /// CUBE of the units.
    pub fn cube(units: Vec<Unit>) -> Element
        ensures { result ≡ Cube units.items }
    {
        Element {
            form: ElementForm::Cube(units),
        }
    }

    /// GROUPING SETS of the elements.
    pub fn sets(elements: Vec<Element>) -> Element
        ensures { result ≡ Sets (elements_of elements.items) }
    {
        Element {
            form: ElementForm::Sets(elements),
        }
    }
}
