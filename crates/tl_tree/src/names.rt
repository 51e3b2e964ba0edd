//! Lists of names that rules ask for.
ghost use Rattle.std.specs.Prelude.{List, map, ◌≡◌, ℕ};
ghost use Rattle.tl_html_spec.specs.Balanced.{is_one_of, words};
ghost use Rattle.tl_names.specs.ElementNames.{name_of};
ghost use Rattle.tl_tree.specs.Inner.NameLists.{list_of};

use tl_names::element_name::ElementName;

/// A list of names. `specs/Inner/NameLists` has the names of each.
#[derive(Clone, Copy)]
pub(crate) enum Names {
    Body,
    Button,
    Caption,
    Colgroup,
    Dd,
    Dt,
    Form,
    Frameset,
    Head,
    Li,
    Optgroup,
    Option,
    Paragraph,
    Rtc,
    Ruby,
    Select,
    Table,
    Template,
    Row,
    /// Cells of tables.
    Cells,
    Headings,
    /// What bounds a scope of list items beside other scopes.
    Lists,
    /// In which what is no part of a table is foster parented.
    FosterTargets,
    /// What rows of a table stand in.
    Sections,
    /// What bounds a scope of tables.
    TableScope,
    /// Where parts of a table stand.
    TableContext,
    /// Where rows stand.
    BodyContext,
    /// Where cells stand.
    RowContext,
}

impl Names {
    /// The names of the list, in its order.
    #[tactic(auto, unfolding(tl_names::specs::ElementNames::name_of, tl_names::specs::ElementNames::element_names))]
    #[inline(always)]
    pub(crate) fn members(self) -> &'static [ElementName]
        ensures { result.now ≡ map name_of (words (list_of self)) }
    {
        match self {
            Names::Body => &[ElementName::BODY],
            Names::Button => &[ElementName::BUTTON],
            Names::Caption => &[ElementName::CAPTION],
            Names::Colgroup => &[ElementName::COLGROUP],
            Names::Dd => &[ElementName::DD],
            Names::Dt => &[ElementName::DT],
            Names::Form => &[ElementName::FORM],
            Names::Frameset => &[ElementName::FRAMESET],
            Names::Head => &[ElementName::HEAD],
            Names::Li => &[ElementName::LI],
            Names::Optgroup => &[ElementName::OPTGROUP],
            Names::Option => &[ElementName::OPTION],
            Names::Paragraph => &[ElementName::P],
            Names::Rtc => &[ElementName::RTC],
            Names::Ruby => &[ElementName::RUBY],
            Names::Select => &[ElementName::SELECT],
            Names::Table => &[ElementName::TABLE],
            Names::Template => &[ElementName::TEMPLATE],
            Names::Row => &[ElementName::TR],
            Names::Cells => &[ElementName::TD, ElementName::TH],
            Names::Headings => &[
                ElementName::H1,
                ElementName::H2,
                ElementName::H3,
                ElementName::H4,
                ElementName::H5,
                ElementName::H6,
            ],
            Names::Lists => &[ElementName::OL, ElementName::UL],
            Names::FosterTargets => &[
                ElementName::TABLE,
                ElementName::TBODY,
                ElementName::TFOOT,
                ElementName::THEAD,
                ElementName::TR,
            ],
            Names::Sections => &[ElementName::TBODY, ElementName::TFOOT, ElementName::THEAD],
            Names::TableScope => &[ElementName::HTML, ElementName::TABLE, ElementName::TEMPLATE],
            Names::TableContext => &[ElementName::TABLE, ElementName::TEMPLATE, ElementName::HTML],
            Names::BodyContext => &[
                ElementName::TBODY,
                ElementName::TFOOT,
                ElementName::THEAD,
                ElementName::TEMPLATE,
                ElementName::HTML,
            ],
            Names::RowContext => &[ElementName::TR, ElementName::TEMPLATE, ElementName::HTML],
        }
    }

    /// Whether a name is one of the list.
    #[inline(always)]
    pub(crate) fn has(self, name: ElementName) -> bool
        ensures { (n : List ℕ) → name ≡ name_of n → result ≡ is_one_of (list_of self) n }
    {
        for own in self.members() {
            if name == *own {
                return true;
            }
        }
        false
    }
}
