//! What the words of `text` say.
use tl_answers::{Field, Listing, Query, Question};
use tl_css::Selector;

/// How texts are written.
#[derive(Clone, Copy, PartialEq, Eq)]
pub enum TextForm {
    /// By their characters.
    Plain,
    /// As they are read.
    Readable,
    /// Comments in their place.
    Comments,
}

/// What the words of `text` say.
#[derive(Drop)]
pub struct Texts {
    pub form: TextForm,
    /// The nodes that texts are inside of; where it isn't said those of the whole page are meant.
    pub inside: Option<Selector>,
    /// The nodes inside of which no text is meant.
    pub left_out: Option<Selector>,
}

impl Texts {
    // What is asked of the whole page.
    fn of_page(&self) -> Question<'_> {
        match self.form {
            TextForm::Plain => Question::Text,
            TextForm::Readable => Question::Readable(self.left_out.as_ref()),
            TextForm::Comments => Question::Comments,
        }
    }

    // What is written of a node.
    fn listing(&self) -> Listing<'_> {
        match self.form {
            TextForm::Plain => Listing::Fields(Field::Text),
            TextForm::Readable => Listing::Readable(self.left_out.as_ref()),
            TextForm::Comments => Listing::Comments,
        }
    }

    /// What is asked.
    pub fn question(&self) -> Question<'_> {
        match &self.inside {
            Some(selector) => Question::Select(Query {
                selector,
                most: None,
                listing: self.listing(),
            }),
            None => self.of_page(),
        }
    }
}
