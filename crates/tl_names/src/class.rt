//! Classes of names that the rules of tree construction ask for.

/// The HTML standard's sections list the names of each; [`ElementName::is`] says whether a name is
/// of it.
///
/// [`ElementName::is`]: crate::element_name::ElementName::is
#[derive(Clone, Copy, PartialEq, Eq, Debug)]
pub enum Class {
    /// The special elements (13.2.4.2).
    Special,
    /// What bounds a scope (13.2.4.2).
    Scope,
    /// What bounds a scope of list items (13.2.4.2).
    ListScope,
    /// What bounds a scope of buttons (13.2.4.2).
    ButtonScope,
    /// What bounds a scope of tables (13.2.4.2), and the context of a table (13.2.6.4.9).
    TableScope,
    /// The special elements that a search for an item goes past (13.2.6.4.7).
    AddressDivParagraph,
    /// Whose end tags are generated (13.2.6.3).
    Implied,
    /// Whose end tags are generated thoroughly (13.2.6.3).
    ImpliedThoroughly,
    /// Headings.
    Heading,
    /// In which what is no part of a table is foster parented (13.2.6.1).
    FosterTarget,
    /// Void elements (13.1.2), and `keygen` and `param`.
    Void,
    /// What holds characters and references up to its own end tag (13.2.5.2).
    Rcdata,
    /// What holds characters alone up to its own end tag (13.2.5.3).
    RawText,
    /// As a context, what a text is read in as it is (13.4).
    Verbatim,
    /// What rows of a table stand in (13.2.6.4.13).
    TableSection,
    /// What stands in a table alone (13.2.6.4.7).
    TablePart,
    /// The context of a table body (13.2.6.4.13).
    TableBodyContext,
    /// The context of a row (13.2.6.4.14).
    TableRowContext,
    /// Cells (13.2.6.4.15).
    Cell,
    /// What stands in a `dl` (13.2.6.4.7).
    Description,
    /// The integration points of MathML for text (13.2.6).
    MathText,
    /// What is special in MathML, and bounds a scope (13.2.4.2).
    MathMark,
    /// Which start tags stay in MathML there (13.2.6).
    MathGlyph,
    /// What is special in SVG, and bounds a scope (13.2.4.2); the integration points there
    /// (13.2.6).
    SvgMark,
    /// The names of SVG that are put into another case (13.2.6.1).
    SvgCased,
    /// Whose start tags end foreign content (13.2.6.5).
    Breakout,
    /// What may decide the insertion mode (13.2.4.1).
    Decisive,
}
