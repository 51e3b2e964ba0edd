//! Which doctypes ask for quirks mode (13.2.6.4.1).
ghost use Rattle.std.specs.Char.{to_ascii_lowercase};
ghost use Rattle.std.specs.List.{list_any};
ghost use Rattle.std.specs.Option.{option_map};
ghost use Rattle.std.specs.Prelude.{IsTrue, is_none, length, map, not, ◌||◌, ◌≡◌};
ghost use Rattle.std.specs.Str.{bytes_eq};
ghost use Rattle.tl_dom_spec.specs.Quirks.{begins_with_one, is_quirky, is_quirky_public, lowered, quirky_beginnings, quirky_ids, quirky_system, transitional_beginnings};
ghost use Rattle.tl_html_spec.specs.Doctypes.{or_empty};
ghost use Rattle.tl_names.specs.Elements.{words_of};
ghost use Rattle.tl_tree.specs.Inner.Store.{bytes_of, doctype_at, is_doctype, is_doctype_number};
ghost use Rattle.tl_tree.specs.Inner.Within.{id_is_within};

use crate::entries::DoctypeEntry;
use crate::lowered::{begins_lowered, is_lowered};
use crate::span::Span;
use crate::store::Store;

static QUIRKY_IDS: [&str; 3] = [
    "-//w3o//dtd w3 html strict 3.0//en//",
    "-/w3c/dtd html 4.0 transitional/en",
    "html",
];

#[rattlefmt::skip]
static QUIRKY_BEGINNINGS: [&str; 55] = [
    "+//silmaril//dtd html pro v0r11 19970101//",
    "-//as//dtd html 3.0 aswedit + extensions//",
    "-//advasoft ltd//dtd html 3.0 aswedit + extensions//",
    "-//ietf//dtd html 2.0 level 1//",
    "-//ietf//dtd html 2.0 level 2//",
    "-//ietf//dtd html 2.0 strict level 1//",
    "-//ietf//dtd html 2.0 strict level 2//",
    "-//ietf//dtd html 2.0 strict//",
    "-//ietf//dtd html 2.0//",
    "-//ietf//dtd html 2.1e//",
    "-//ietf//dtd html 3.0//",
    "-//ietf//dtd html 3.2 final//",
    "-//ietf//dtd html 3.2//",
    "-//ietf//dtd html 3//",
    "-//ietf//dtd html level 0//",
    "-//ietf//dtd html level 1//",
    "-//ietf//dtd html level 2//",
    "-//ietf//dtd html level 3//",
    "-//ietf//dtd html strict level 0//",
    "-//ietf//dtd html strict level 1//",
    "-//ietf//dtd html strict level 2//",
    "-//ietf//dtd html strict level 3//",
    "-//ietf//dtd html strict//",
    "-//ietf//dtd html//",
    "-//metrius//dtd metrius presentational//",
    "-//microsoft//dtd internet explorer 2.0 html strict//",
    "-//microsoft//dtd internet explorer 2.0 html//",
    "-//microsoft//dtd internet explorer 2.0 tables//",
    "-//microsoft//dtd internet explorer 3.0 html strict//",
    "-//microsoft//dtd internet explorer 3.0 html//",
    "-//microsoft//dtd internet explorer 3.0 tables//",
    "-//netscape comm. corp.//dtd html//",
    "-//netscape comm. corp.//dtd strict html//",
    "-//o'reilly and associates//dtd html 2.0//",
    "-//o'reilly and associates//dtd html extended 1.0//",
    "-//o'reilly and associates//dtd html extended relaxed 1.0//",
    "-//sq//dtd html 2.0 hotmetal + extensions//",
    "-//softquad software//dtd hotmetal pro 6.0::19990601::extensions to html 4.0//",
    "-//softquad//dtd hotmetal pro 4.0::19971010::extensions to html 4.0//",
    "-//spyglass//dtd html 2.0 extended//",
    "-//sun microsystems corp.//dtd hotjava html//",
    "-//sun microsystems corp.//dtd hotjava strict html//",
    "-//w3c//dtd html 3 1995-03-24//",
    "-//w3c//dtd html 3.2 draft//",
    "-//w3c//dtd html 3.2 final//",
    "-//w3c//dtd html 3.2//",
    "-//w3c//dtd html 3.2s draft//",
    "-//w3c//dtd html 4.0 frameset//",
    "-//w3c//dtd html 4.0 transitional//",
    "-//w3c//dtd html experimental 19960712//",
    "-//w3c//dtd html experimental 970421//",
    "-//w3c//dtd w3 html//",
    "-//w3o//dtd w3 html 3.0//",
    "-//webtechs//dtd mozilla html 2.0//",
    "-//webtechs//dtd mozilla html//",
];

// Those that are quirky where there is no system identifier.
static TRANSITIONAL_BEGINNINGS: [&str; 2] = [
    "-//w3c//dtd html 4.01 frameset//",
    "-//w3c//dtd html 4.01 transitional//",
];

fn quirky_ids() -> &'static [&'static str]
    ensures { words_of result.now ≡ quirky_ids }
{
    &QUIRKY_IDS
}

fn quirky_beginnings() -> &'static [&'static str]
    ensures { words_of result.now ≡ quirky_beginnings }
{
    &QUIRKY_BEGINNINGS
}

fn transitional_beginnings() -> &'static [&'static str]
    ensures { words_of result.now ≡ transitional_beginnings }
{
    &TRANSITIONAL_BEGINNINGS
}

// Whether an identifier is one of these in lower case.
fn is_one_lowered(words: &[&str], id: &[u8]) -> bool
    ensures { result
        ≡ list_any (bytes_eq (map to_ascii_lowercase id.now)) (words_of words.now) }
{
    for word in words {
        if is_lowered(id, word.as_bytes()) {
            return true;
        }
    }
    false
}

// Whether an identifier begins with one of these in lower case.
fn begins_with_one(beginnings: &[&str], id: &[u8]) -> bool
    ensures { result
        ≡ begins_with_one (words_of beginnings.now) (map to_ascii_lowercase id.now) }
{
    for beginning in beginnings {
        if begins_lowered(id, beginning.as_bytes()) {
            return true;
        }
    }
    false
}

// Whether a public identifier is enough.
fn is_quirky_public(has_system: bool, id: &[u8]) -> bool
    ensures { result ≡ is_quirky_public has_system (map to_ascii_lowercase id.now) }
{
    if is_one_lowered(quirky_ids(), id) {
        return true;
    }
    if begins_with_one(quirky_beginnings(), id) {
        return true;
    }
    !has_system && begins_with_one(transitional_beginnings(), id)
}

// The bytes of an identifier, or none.
fn id_bytes<'s>(store: &'s Store<'_>, id: Option<Span>) -> &'s [u8]
    requires { IsTrue
        (id_is_within (length store.now.page.now) (length store.now.side.items) id) }
    ensures { result.now ≡ or_empty (option_map (bytes_of store.now) id) }
{
    match id {
        Some(span) => store.bytes(span),
        None => &[],
    }
}

// Whether the identifiers of a doctype are enough.
fn has_quirky_ids(store: &Store<'_>, own: DoctypeEntry) -> bool
    requires { IsTrue (is_doctype store.now own) }
    ensures { result
        ≡ (is_quirky_public
        (not (is_none (option_map (bytes_of store.now) own.system_id)))
        (lowered (option_map (bytes_of store.now) own.public_id))
        || bytes_eq (lowered (option_map (bytes_of store.now) own.system_id)) quirky_system) }
{
    let public_id = id_bytes(store, own.public_id);
    let system_id = id_bytes(store, own.system_id);
    is_quirky_public(own.system_id.is_some(), public_id)
        || is_lowered(
            system_id,
            b"http://www.ibm.com/data/dtd/v11/ibmxhtml1-transitional.dtd",
        )
}

/// Whether the doctype of a number does.
pub(crate) fn is_quirky(store: &Store<'_>, number: u32) -> bool
    requires { IsTrue (is_doctype_number store.now number) }
    ensures { result ≡ is_quirky (doctype_at store.now number) }
{
    let own = store.doctype(number);
    if own.forces_quirks {
        return true;
    }
    if store.bytes(own.name) != b"html".as_slice() {
        return true;
    }
    has_quirky_ids(store, own)
}
