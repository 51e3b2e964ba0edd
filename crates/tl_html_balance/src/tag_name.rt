//! The names of tags.
ghost use Rattle.std.specs.Prelude.{◌≡◌};
ghost use Rattle.tl_html_balance.specs.Classes.{classes_of};

use crate::class;
use crate::known::classes_of;

/// The name of a tag in lower case, which is looked up once.
#[derive(Clone, Copy)]
pub struct TagName<'n> {
    pub(crate) bytes: &'n [u8],
    pub(crate) classes: u64,
    ghost known: { classes ≡ classes_of bytes.now },
}

impl<'n> TagName<'n> {
    ghost use Rattle.std.specs.Prelude.{◌≡◌};
    ghost use Rattle.tl_names.specs.Elements.{feed_droppers, is_among};
    ghost use Rattle.tl_html_balance.specs.Classes.{has, is};
    ghost use Rattle.tl_html_balance.specs.View.{name_of};

    pub fn new(bytes: &'n [u8]) -> TagName<'n>
        ensures { name_of result ≡ bytes.now }
    {
        TagName {
            bytes,
            classes: classes_of(bytes),
        }
    }

    pub fn bytes(&self) -> &'n [u8]
        ensures { result.now ≡ name_of self.now }
    {
        self.bytes
    }

    /// Whether it has one of these classes.
    #[tactic(auto, unfolding(crate::specs::Classes::is))]
    pub(crate) fn is(&self, wanted: u64) -> bool
        ensures { result ≡ is wanted (name_of self.now) }
    {
        class::has(self.classes, wanted)
    }

    /// Whether a line feed that follows its start tag is dropped.
    pub fn drops_feed(&self) -> bool
        ensures { result ≡ is_among feed_droppers (name_of self.now) }
    {
        self.is(class::FEED_DROPPER)
    }
}
