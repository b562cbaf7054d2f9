//! How wide the columns of a table are.
ghost use Rattle.std.specs.Prelude.{◌≡◌, ◌∷◌, [], ◌++◌, List, ℕ, IfOk, OnOk, map, max, slice_get, slice_index};
ghost use Rattle.std.specs.List.{enumerate_from};
ghost use Rattle.cells.specs.declared.total.Total.{Total};
ghost use Rattle.forms.specs.Tables.{width_of, widths_of};

use super::cell::{shown, shown_text, width};
use cells::{Text, Total};
use std::alloc::{AllocError, Global};
use std::marker::Model;

/// The widths of the columns of a table in characters, each as great as the greatest of what stands in it. Contracts see the
/// list of them.
#[derive(Debug, Drop)]
pub struct Widths {
    widths: Vec<usize>,
}

impl Model for Widths {
    ghost use Rattle.std.specs.Prelude.{List, ℕ};

    ghost Value = { List ℕ };

    ghost view = { λ w. w.widths.items };
}

impl Widths {
    /// The widths of a table of these headings that has no rows yet. The only error is that a growth was refused.
    pub fn of(alloc: Global, headings: &[Text]) -> Result<Widths, AllocError>
        ensures { IfOk result (λ widths. widths ≡ widths_of headings.now []) }
    {
        let mut widths = Vec::new(alloc);
        for heading in headings {
            let shown = shown_text(alloc, heading.as_str())?;
            widths.push(width(shown.as_slice()))?;
        }
        Ok(Widths { widths })
    }

    /// The widths of a table that has one row more. The only error is that a growth was refused.
    pub fn widen(&mut self, alloc: Global, totals: &[Total]) -> Result<(), AllocError>
        ensures { OnOk result ((headings : List (List ℕ)) (rows : List (List Total)) → self.old ≡ widths_of headings rows →
            self.new ≡ widths_of headings (rows ++ totals.now ∷ [])) }
    {
        let wider = wider(alloc, self.widths.as_slice(), totals)?;
        self.widths = wider;
        Ok(())
    }

    /// The width of the column at a place, or 0 where there is none.
    pub(super) fn at(&self, place: usize) -> usize
        ensures { result ≡ slice_index self.now place }
    {
        match self.widths.get(place) {
            Some(wide) => *wide,
            None => 0,
        }
    }

    /// The widths, column by column.
    pub(super) fn as_slice(&self) -> &[usize]
        ensures { result.now ≡ self.now }
    {
        self.widths.as_slice()
    }
}

/// The widths, each not less than that of the value at its place.
fn wider(alloc: Global, widths: &[usize], totals: &[Total]) -> Result<Vec<usize>, AllocError>
    ensures { IfOk result (λ made. made.items ≡ map (λ at. max at.1 (width_of (slice_get totals.now at.0))) (enumerate_from 0 widths.now)) }
{
    let mut made = Vec::new(alloc);
    for (place, wide) in widths.iter().enumerate() {
        let value = width_at(alloc, totals, place)?;
        made.push((*wide).max(value))?;
    }
    Ok(made)
}

/// The width of the value at a place, or 0 where there is none.
fn width_at(alloc: Global, totals: &[Total], place: usize) -> Result<usize, AllocError>
    ensures { IfOk result (λ wide. wide ≡ width_of (slice_get totals.now place)) }
{
    match totals.get(place) {
        Some(total) => {
            let shown = shown(alloc, total)?;
            Ok(width(shown.as_slice()))
        }
        None => Ok(0),
    }
}
