//! What is done with each page.
use crate::args::Pages;
use crate::selected::Selected;
use crate::tables::Tables;
use crate::task::{Made, Task, Unmade, execute, told_page};
use std::alloc::Global;
use tl_answers::{Key, Output};
use tl_tree_extract::Columns;
use tl_tree_safe::Policy;

/// What is done with each page.
#[derive(Clone, Copy)]
pub enum Job<'j, 'w> {
    /// One task, the same for each.
    Task(&'j Task<'w>),
    /// What is selected, where these are its keys.
    Select(&'j Selected<'w>, &'j [Key<'j>]),
    /// What tables say.
    Tables(&'j Tables),
    /// It is made safe by a policy, and what goes is told.
    Removed(&'j Policy<'w>),
}

// What is made of a page, where nothing is told beside it.
fn untold(alloc: Global, output: Result<Output, Unmade>) -> Result<Made, Unmade> {
    Ok(Made {
        output: output?,
        told: Vec::new(alloc),
    })
}

impl Job<'_, '_> {
    /// Whether no name of a file stands before what is made, whose lines would be no JSON.
    pub fn is_without_names(&self) -> bool {
        match self {
            Job::Task(_) | Job::Removed(_) => false,
            Job::Select(selected, _) => selected.wanted.is_json(),
            Job::Tables(tables) => tables.columns().is_none(),
        }
    }

    /// How values are told apart, where what is made has them in columns.
    pub fn columns(&self) -> Option<Columns> {
        match self {
            Job::Select(selected, _) => selected.wanted.columns(),
            Job::Tables(tables) => tables.columns(),
            Job::Task(_) | Job::Removed(_) => None,
        }
    }

    /// What is made of the text of the page in a file.
    pub fn execute(
        &self,
        alloc: Global,
        pages: &Pages<'_>,
        file: &str,
        text: &[u8],
    ) -> Result<Made, Unmade> {
        let task = match self {
            Job::Task(task) => return untold(alloc, execute(alloc, task, pages.end(), text)),
            Job::Select(selected, keys) => Task::Ask(selected.question(keys, file)),
            Job::Tables(tables) => Task::Ask(tables.question(file)),
            Job::Removed(policy) => return told_page(alloc, policy, file, text),
        };
        untold(alloc, execute(alloc, &task, pages.end(), text))
    }
}
