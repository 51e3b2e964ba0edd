//! What a selector is looked for by.
ghost use Rattle.std.specs.Prelude.{◌≡◌, ◌↔◌, IfOk, true};
ghost use Rattle.tl_css.specs.Program.{selector_of};
ghost use Rattle.tl_css.specs.Selector.{Css};
ghost use Rattle.tl_tree_select.specs.Inner.Columns.{AreMarks};
ghost use Rattle.tl_tree_select.specs.Inner.Compound.{IsCompound};
ghost use Rattle.tl_tree_select.specs.Inner.Finding.{Finds, IsAnswered, IsLookFor};
ghost use Rattle.tl_tree_select.specs.Meaning.{Holds};
ghost use Rattle.tl_tree_select.specs.Page.{Page, seen};

use crate::compound::{first_test, hold_from, is_compound};
use crate::kin::Kin;
use crate::links::{is_marked, one_if};
use crate::look::Look;
use crate::page::Searched;
use crate::stack::marks_of;
use std::alloc::{AllocError, Global};
use tl_css::Selector;
use tl_css::selector::Step;

/// What a selector is looked for by: its tests, where it is a compound, with a look at rows for the
/// first of them, and how many the look answers; else marks of the elements where it holds.
#[derive(Drop)]
pub enum Finder<'s> {
    Compound(&'s [Step], Look<'s>, usize),
    Marked(Vec<bool>),
}

// The marks of the elements where the selector of some steps holds.
fn marked(alloc: Global, page: &Searched<'_, '_>, steps: &[Step]) -> Result<Vec<bool>, AllocError>
    ensures { IfOk result (λ marks. AreMarks (seen page.now) (selector_of steps.now) marks.items) }
{
    let kin = Kin::new(alloc, page, steps)?;
    let marks = marks_of(alloc, page, &kin, steps)?;
    Ok(marks)
}

// What a compound is looked for by.
fn compound<'s>(page: &Searched<'_, '_>, steps: &'s [Step]) -> Finder<'s>
    requires { IsCompound steps.now }
    ensures { Finds (seen page.now) (selector_of steps.now) result }
{
    let Some(test) = first_test(steps) else {
        return Finder::Compound(steps, Look::Element, 0);
    };
    let (look, passes) = Look::of(page, test);
    Finder::Compound(steps, look, one_if(passes) as usize)
}

impl<'s> Finder<'s> {
    /// What a selector is looked for by in a page.
    pub fn new(
        alloc: Global,
        page: &Searched<'_, '_>,
        selector: &'s Selector,
    ) -> Result<Finder<'s>, AllocError>
        ensures { IfOk result (Finds (seen page.now) selector.now) }
    {
        let steps = selector.steps();
        if is_compound(steps) {
            return Ok(compound(page, steps));
        }
        let marks = marked(alloc, page, steps)?;
        Ok(Finder::Marked(marks))
    }

    /// What rows are looked at for.
    pub fn look(&self) -> Look<'_>
        ensures { (page : Page) (e : Css) → Finds page e self.now
            → IsLookFor page e self.now result }
    {
        match self {
            Finder::Compound(_, look, _) => *look,
            Finder::Marked(marks) => Look::Mark(marks),
        }
    }

    /// Whether the selector holds at the row of a number.
    pub fn holds(
        &self,
        alloc: Global,
        page: &Searched<'_, '_>,
        number: usize,
    ) -> Result<bool, AllocError>
        requires { (e : Css) × Finds (seen page.now) e self.now }
        ensures { (e : Css) → Finds (seen page.now) e self.now → IfOk result
            (λ holds. (holds ≡ true) ↔ Holds (seen page.now) e number) }
    {
        match self {
            Finder::Compound(steps, _, _) => hold_from(alloc, page, number, steps, 0),
            Finder::Marked(marks) => Ok(is_marked(marks, number)),
        }
    }

    /// The same where the look answers what it can.
    pub fn holds_seen(
        &self,
        alloc: Global,
        page: &Searched<'_, '_>,
        number: usize,
    ) -> Result<bool, AllocError>
        ensures { (e : Css) → Finds (seen page.now) e self.now
            → IsAnswered (seen page.now) self.now number → IfOk result
            (λ holds. (holds ≡ true) ↔ Holds (seen page.now) e number) }
    {
        match self {
            Finder::Compound(steps, _, asked) => { hold_from(alloc, page, number, steps, *asked) }
            Finder::Marked(marks) => Ok(is_marked(marks, number)),
        }
    }
}
