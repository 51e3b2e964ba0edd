//! What open elements say of the tags that may stand inside of them.
ghost use Rattle.std.specs.Prelude.{◌≡◌};
ghost use Rattle.tl_safe_fit.specs.Kinds.{bounds_scope, ends_items, is_anchor, is_closable, is_column_group, is_description, is_flow_inside, is_heading, is_implied, is_implied_in_container, is_item, is_mark, is_nobr, is_paragraph, is_row, is_ruby, is_table, is_table_body};
ghost use Rattle.tl_safe_fit.specs.Levels.{has_room, in_either, level_inside, level_rooms, missing_parts, outermost_level, path_inside};
ghost use Rattle.tl_safe_fit.specs.Words.{words_of};

use crate::kinds::Kind;

// The most elements that are open at once: browsers put none deeper than 512.
const MOST_OPEN: usize = 400;

/// Which parts of tables are added where they are missing.
#[derive(Clone, Copy)]
pub struct Parts {
    pub column_group: bool,
    pub table_body: bool,
    pub row: bool,
}

/// The elements that are open, as far as tags look at them.
#[derive(Clone, Copy)]
pub struct Path {
    /// The kind of the innermost one.
    pub inner: Kind,
    /// Whether the rules are those of "in body".
    pub flow: bool,
    /// Whether a `p` is found before one that ends the search for it, and so below.
    pub paragraph: bool,
    pub item: bool,
    pub description: bool,
    pub anchor: bool,
    pub nobr: bool,
    pub ruby: bool,
}

/// Whether there is room for a tag, by its kind.
#[derive(Clone, Copy)]
pub struct Rooms {
    pub flow: bool,
    pub block: bool,
    pub heading: bool,
    pub item: bool,
    pub description: bool,
    pub anchor: bool,
    pub nobr: bool,
    pub ruby_base: bool,
    pub ruby_text: bool,
    /// `caption`, `colgroup`, `tbody`
    pub part: bool,
    pub column: bool,
    pub row: bool,
    pub cell: bool,
}

/// A place inside of open elements.
#[derive(Clone, Copy)]
pub struct Level {
    pub path: Path,
    /// How many more may be open.
    pub left: usize,
    /// What there is room for.
    pub here: Rooms,
    /// The same once elements are ended whose end tags may be left out.
    pub outside: Rooms,
}

fn bounds_scope(kind: Kind) -> bool
    ensures { result ≡ bounds_scope kind }
{
    matches!(kind, Kind::Table | Kind::Caption | Kind::Cell)
}

fn ends_items(kind: Kind) -> bool
    ensures { result ≡ ends_items kind }
{
    matches!(
        kind,
        Kind::Block
            | Kind::Heading
            | Kind::Preformatted
            | Kind::Item
            | Kind::Description
            | Kind::Void
            | Kind::Rule
            | Kind::Table
            | Kind::Caption
            | Kind::ColumnGroup
            | Kind::Column
            | Kind::TableBody
            | Kind::Row
            | Kind::Cell
    )
}

fn is_implied_in_container(kind: Kind) -> bool
    ensures { result ≡ is_implied_in_container kind }
{
    matches!(
        kind,
        Kind::Paragraph | Kind::Item | Kind::Description | Kind::RubyBase | Kind::RubyText
    )
}

fn is_implied(kind: Kind) -> bool
    ensures { result ≡ is_implied kind }
{
    matches!(kind, Kind::RubyTextContainer) | is_implied_in_container(kind)
}

fn is_closable(kind: Kind) -> bool
    ensures { result ≡ is_closable kind }
{
    matches!(
        kind,
        Kind::Paragraph
            | Kind::Item
            | Kind::Description
            | Kind::RubyBase
            | Kind::RubyTextContainer
            | Kind::RubyText
            | Kind::Caption
            | Kind::ColumnGroup
            | Kind::TableBody
            | Kind::Row
            | Kind::Cell
    )
}

fn is_flow_inside(kind: Kind, flow: bool) -> bool
    ensures { result ≡ is_flow_inside kind flow }
{
    match kind {
        Kind::Table | Kind::ColumnGroup | Kind::TableBody | Kind::Row => false,
        Kind::Caption | Kind::Cell => true,
        _ => flow,
    }
}

// The path inside an element of a kind.
fn path_inside(path: &Path, kind: Kind) -> Path
    ensures { result ≡ path_inside path.now kind }
{
    let in_scope = !bounds_scope(kind);
    let in_search = !ends_items(kind);
    let unmarked = !matches!(kind, Kind::Caption | Kind::Cell);
    Path {
        inner: kind,
        flow: is_flow_inside(kind, path.flow),
        paragraph: matches!(kind, Kind::Paragraph) | (in_scope & path.paragraph),
        item: matches!(kind, Kind::Item) | (in_search & path.item),
        description: matches!(kind, Kind::Description) | (in_search & path.description),
        anchor: matches!(kind, Kind::Anchor) | (unmarked & path.anchor),
        nobr: matches!(kind, Kind::Nobr) | (in_scope & path.nobr),
        ruby: matches!(kind, Kind::Ruby) | (in_scope & path.ruby),
    }
}

// What there is room for inside of a path, where so many more elements may be open.
fn level_rooms(parts: Parts, path: &Path, left: usize) -> Rooms
    ensures { result ≡ level_rooms parts path.now left }
{
    let (one, two, three) = (left > 0, left > 1, left > 2);
    let in_table = matches!(path.inner, Kind::Table);
    let in_body = matches!(path.inner, Kind::TableBody);
    let flow = path.flow & one;
    let block = flow & !path.paragraph;
    Rooms {
        flow,
        block,
        heading: block & !matches!(path.inner, Kind::Heading),
        item: block & !path.item,
        description: block & !path.description,
        anchor: flow & !path.anchor,
        nobr: flow & !path.nobr,
        ruby_base: flow & (!path.ruby | !is_implied(path.inner)),
        ruby_text: flow & (!path.ruby | !is_implied_in_container(path.inner)),
        part: in_table & one,
        column: (matches!(path.inner, Kind::ColumnGroup) & one)
            | (in_table & parts.column_group & two),
        row: (in_body & one) | (in_table & parts.table_body & two),
        cell: (matches!(path.inner, Kind::Row) & one)
            | (in_body & parts.row & two)
            | (in_table & parts.table_body & parts.row & three),
    }
}

// Room in one of two places.
fn in_either(here: &Rooms, there: &Rooms) -> Rooms
    ensures { result ≡ in_either here.now there.now }
{
    Rooms {
        flow: here.flow | there.flow,
        block: here.block | there.block,
        heading: here.heading | there.heading,
        item: here.item | there.item,
        description: here.description | there.description,
        anchor: here.anchor | there.anchor,
        nobr: here.nobr | there.nobr,
        ruby_base: here.ruby_base | there.ruby_base,
        ruby_text: here.ruby_text | there.ruby_text,
        part: here.part | there.part,
        column: here.column | there.column,
        row: here.row | there.row,
        cell: here.cell | there.cell,
    }
}

// Whether there is room for a tag of a kind.
fn has_room(rooms: &Rooms, kind: Kind) -> bool
    ensures { result ≡ has_room rooms.now kind }
{
    match kind {
        Kind::Void | Kind::Ruby | Kind::Other => rooms.flow,
        Kind::Paragraph
        | Kind::Block
        | Kind::LooseBlock
        | Kind::Preformatted
        | Kind::Rule
        | Kind::Table => rooms.block,
        Kind::Heading => rooms.heading,
        Kind::Item => rooms.item,
        Kind::Description => rooms.description,
        Kind::Anchor => rooms.anchor,
        Kind::Nobr => rooms.nobr,
        Kind::RubyBase | Kind::RubyTextContainer => rooms.ruby_base,
        Kind::RubyText => rooms.ruby_text,
        Kind::Caption | Kind::ColumnGroup | Kind::TableBody => rooms.part,
        Kind::Column => rooms.column,
        Kind::Row => rooms.row,
        Kind::Cell => rooms.cell,
    }
}

/// The level outside of all elements.
pub fn outermost_level(parts: Parts) -> Level
    ensures { result ≡ outermost_level parts }
{
    let path = Path {
        inner: Kind::Other,
        flow: true,
        paragraph: false,
        item: false,
        description: false,
        anchor: false,
        nobr: false,
        ruby: false,
    };
    let here = level_rooms(parts, &path, MOST_OPEN);
    Level {
        path,
        left: MOST_OPEN,
        here,
        outside: here,
    }
}

/// The level inside an element of a kind.
pub fn level_inside(parts: Parts, level: &Level, kind: Kind) -> Level
    ensures { result ≡ level_inside parts level.now kind }
{
    let path = path_inside(&level.path, kind);
    let left = level.left.saturating_sub(1);
    let here = level_rooms(parts, &path, left);
    let outside = if is_closable(kind) {
        in_either(&here, &level.outside)
    } else {
        here
    };
    Level {
        path,
        left,
        here,
        outside,
    }
}

/// The parts of tables that are missing around an element of a kind, inside an innermost one of
/// another: the outermost first.
pub fn missing_parts(kind: Kind, inner: Kind) -> &'static [&'static str]
    ensures { words_of result.now ≡ missing_parts kind inner }
{
    match (kind, inner) {
        (Kind::Row, Kind::Table) => &["tbody"],
        (Kind::Cell, Kind::Table) => &["tbody", "tr"],
        (Kind::Cell, Kind::TableBody) => &["tr"],
        (Kind::Column, Kind::Table) => &["colgroup"],
        _ => &[],
    }
}

/// Whether a tag of a kind may stand here.
pub fn has_room_here(level: &Level, kind: Kind) -> bool
    ensures { result ≡ has_room level.now.here kind }
{
    has_room(&level.here, kind)
}

/// Whether it may once elements are ended whose end tags may be left out.
pub fn has_room_outside(level: &Level, kind: Kind) -> bool
    ensures { result ≡ has_room level.now.outside kind }
{
    has_room(&level.outside, kind)
}
