//! Runs of characters (13.2.6): which characters are of one, and which of them go in.
ghost use Rattle.std.specs.Bool.{OnTrue};
ghost use Rattle.std.specs.Char.{is_ascii_whitespace};
ghost use Rattle.std.specs.Prelude.{not, true, ◌==◌, ◌≡◌, ℕ};
ghost use Rattle.tl_dom_spec.specs.Runs.{goes_in, is_of_run, kind_of, takes_any};
ghost use Rattle.tl_tree.specs.Inner.Modes.{mode_of};
ghost use Rattle.tl_tree.specs.Inner.RunKinds.{kind_view};

use crate::mode::Mode;

/// What the rules tell apart: NULs, white space and all others.
#[derive(Clone, Copy)]
pub(crate) enum RunKind {
    Null,
    White,
    Plain,
}

/// The kind of a character.
pub(crate) fn kind_of(byte: u8) -> RunKind
    ensures { kind_view result ≡ kind_of byte }
{
    if byte == 0 {
        RunKind::Null
    } else if byte.is_ascii_whitespace() {
        RunKind::White
    } else {
        RunKind::Plain
    }
}

fn takes_any(mode: Mode) -> bool
    ensures { result ≡ takes_any (mode_of mode) }
{
    match mode {
        Mode::AfterAfterFrameset => false,
        _ => true,
    }
}

/// Whether any character is of the run that one of a kind began, which left this mode.
pub(crate) fn is_any_of_run(mode: Mode, kind: RunKind) -> bool
    ensures { (c : ℕ) → OnTrue result (is_of_run (mode_of mode) (kind_view kind) c ≡ true) }
{
    match kind {
        RunKind::Plain => takes_any(mode),
        _ => false,
    }
}

/// Whether a character is of that run.
pub(crate) fn is_of_run(mode: Mode, kind: RunKind, byte: u8) -> bool
    ensures { result ≡ is_of_run (mode_of mode) (kind_view kind) byte }
{
    match kind {
        RunKind::Null => byte == 0,
        RunKind::White => byte.is_ascii_whitespace(),
        RunKind::Plain => takes_any(mode) || (byte != 0 && !byte.is_ascii_whitespace()),
    }
}

/// Whether all but NULs go in, in HTML content.
pub(crate) fn takes_others(mode: Mode) -> bool
    ensures { (c : ℕ) → OnTrue result (goes_in (mode_of mode) c ≡ not (c == 0)) }
{
    match mode {
        Mode::InBody
        | Mode::InTable
        | Mode::InTableText
        | Mode::InCaption
        | Mode::InTableBody
        | Mode::InRow
        | Mode::InCell
        | Mode::InTemplate
        | Mode::AfterBody
        | Mode::AfterAfterBody => true,
        _ => false,
    }
}

/// Whether white space alone goes in.
pub(crate) fn takes_white_alone(mode: Mode) -> bool
    ensures { (c : ℕ) → OnTrue result (goes_in (mode_of mode) c ≡ is_ascii_whitespace c) }
{
    match mode {
        Mode::InHead
        | Mode::InHeadNoscript
        | Mode::AfterHead
        | Mode::InColumnGroup
        | Mode::InFrameset
        | Mode::AfterFrameset
        | Mode::AfterAfterFrameset => true,
        _ => false,
    }
}

/// Whether all go in.
pub(crate) fn takes_all(mode: Mode) -> bool
    ensures { (c : ℕ) → OnTrue result (goes_in (mode_of mode) c ≡ true) }
{
    match mode {
        Mode::Text => true,
        _ => false,
    }
}

/// Whether a character goes in, in HTML content.
pub(crate) fn goes_in(mode: Mode, byte: u8) -> bool
    ensures { result ≡ goes_in (mode_of mode) byte }
{
    match mode {
        Mode::Initial | Mode::BeforeHtml | Mode::BeforeHead => false,
        Mode::InHead
        | Mode::InHeadNoscript
        | Mode::AfterHead
        | Mode::InColumnGroup
        | Mode::InFrameset
        | Mode::AfterFrameset
        | Mode::AfterAfterFrameset => byte.is_ascii_whitespace(),
        Mode::Text => true,
        _ => byte != 0,
    }
}
