//! What the words of `table` say.
use tl_answers::{Question, TableForm, TableQuery};
use tl_css::Selector;
use tl_tree_extract::{Columns, Spans};

/// How tables are written.
#[derive(Clone, Copy)]
pub enum Shape {
    /// A line for each row, with values that are told apart so.
    Sheet(Columns),
    /// A line of JSON for each.
    Json,
    /// The same, which says its file.
    JsonOfFile,
}

/// What the words of `table` say.
#[derive(Drop)]
pub struct Tables {
    /// The nodes that are meant, with the tables in them; where it isn't said all tables are.
    pub inside: Option<Selector>,
    /// The number of the one that is meant among these, from 0; all where it isn't said.
    pub number: Option<usize>,
    pub shape: Shape,
    pub spans: Spans,
}

impl Tables {
    /// How values are told apart, where tables aren't JSON.
    pub fn columns(&self) -> Option<Columns> {
        match self.shape {
            Shape::Sheet(columns) => Some(columns),
            Shape::Json | Shape::JsonOfFile => None,
        }
    }

    /// What is asked of a file.
    pub fn question<'k>(&'k self, file: &'k str) -> Question<'k> {
        let form = match self.shape {
            Shape::Sheet(columns) => TableForm::Sheet(columns),
            Shape::Json => TableForm::Json(None),
            Shape::JsonOfFile => TableForm::Json(Some(file)),
        };
        Question::Table(TableQuery {
            within: self.inside.as_ref(),
            number: self.number,
            form,
            spans: self.spans,
        })
    }
}
