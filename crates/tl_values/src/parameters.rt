//! Parameters of the query of a URL.
ghost use Rattle.std.specs.List.{join_with_byte, list_any};
ghost use Rattle.std.specs.Prelude.{IfOk, IfSome, OnOk, filter, length, ◌++◌, ◌<◌, ◌≡◌, ◌≤◌, ◌∷◌};
ghost use Rattle.tl_values.specs.Inner.Parameters.{joined_one, parameters_left};
ghost use Rattle.tl_values.specs.Parameters.{fragment, is_named, is_other_named, marked, name_matches, parameters_of, place_of, query, unasked, unfragmented, without_parameters};

use std::alloc::{AllocError, Global};

// Where the first such byte stands, or else the end.
fn place_of(byte: u8, text: &[u8]) -> usize
    ensures place { result ≡ place_of byte text.now }
    ensures within { result ≤ length text.now }
{
    for (place, own) in text.iter().enumerate() {
        if *own == byte {
            return place;
        }
    }
    text.len()
}

// Whether a pattern stands for a name.
fn name_matches(pattern: &[u8], name: &[u8]) -> bool
    ensures { result ≡ name_matches pattern.now name.now }
{
    let star = place_of(b'*', pattern);
    if star >= pattern.len() {
        return name == pattern;
    }
    name.starts_with(&pattern[..star]) && name[star..].ends_with(&pattern[star + 1..])
}

// Whether the name of a parameter is one of these.
fn is_named(pattern: &[u8], parameter: &[u8]) -> bool
    ensures { result ≡ is_named pattern.now parameter.now }
{
    name_matches(pattern, &parameter[..place_of(b'=', parameter)])
}

// The first parameter of a query, and what stands behind its `&`, if it has one.
fn split_parameter(query: &[u8]) -> (&[u8], Option<&[u8]>)
    ensures parts { parameters_of query.now ≡ result.0.now ∷ parameters_left result.1 }
    ensures shorter { IfSome result.1 (λ more. length more.now < length query.now) }
{
    for (at, byte) in query.iter().enumerate() {
        if *byte == b'&' {
            return (&query[..at], Some(&query[at + 1..]));
        }
    }
    (query, None)
}

// Whether a query has a parameter of these names.
fn has_named(pattern: &[u8], query: &[u8]) -> bool
    ensures { result ≡ list_any (is_named pattern.now) (parameters_of query.now) }
{
    let mut rest = Some(query);
    while let Some(all) = rest {
        let (parameter, more) = split_parameter(all);
        if is_named(pattern, parameter) {
            return true;
        }
        rest = more;
    }
    false
}

// Writes a parameter behind others.
fn write_parameter(is_first: bool, parameter: &[u8], out: &mut Vec<u8>) -> Result<(), AllocError>
    ensures { OnOk result (out.new.items
        ≡ out.old.items ++ joined_one is_first parameter.now) }
{
    if !is_first {
        out.push(b'&')?;
    }
    out.extend_from_slice(parameter)?;
    Ok(())
}

// The parameters of a query that have other names, with one `&` between.
fn others(alloc: Global, pattern: &[u8], query: &[u8]) -> Result<Vec<u8>, AllocError>
    ensures { IfOk result (λ kept. kept.items
        ≡ join_with_byte 38 (filter (is_other_named pattern.now) (parameters_of query.now))) }
{
    let mut kept = Vec::new(alloc);
    let mut is_first = true;
    let mut rest = Some(query);
    while let Some(all) = rest {
        let (parameter, more) = split_parameter(all);
        if !is_named(pattern, parameter) {
            write_parameter(is_first, parameter, &mut kept)?;
            is_first = false;
        }
        rest = more;
    }
    Ok(kept)
}

// What stands before the fragment of a URL.
fn unfragmented(value: &[u8]) -> &[u8]
    ensures { result.now ≡ unfragmented value.now }
{
    &value[..place_of(b'#', value)]
}

// Its fragment, with the mark.
fn fragment(value: &[u8]) -> &[u8]
    ensures { result.now ≡ fragment value.now }
{
    &value[place_of(b'#', value)..]
}

// What stands before its query.
fn unasked(value: &[u8]) -> &[u8]
    ensures { result.now ≡ unasked value.now }
{
    let url = unfragmented(value);
    &url[..place_of(b'?', url)]
}

// Its query, without the mark.
fn query(value: &[u8]) -> &[u8]
    ensures { result.now ≡ query value.now }
{
    let url = unfragmented(value);
    let asked = &url[place_of(b'?', url)..];
    match asked {
        [_, query @ ..] => query,
        [] => asked,
    }
}

// Writes a query, if it isn't empty.
fn write_query(query: &[u8], out: &mut Vec<u8>) -> Result<(), AllocError>
    ensures { OnOk result (out.new.items ≡ out.old.items ++ marked query.now) }
{
    if query.is_empty() {
        return Ok(());
    }
    out.push(b'?')?;
    out.extend_from_slice(query)?;
    Ok(())
}

/// A value without the parameters whose names a pattern stands for.
pub fn without_parameters(
    alloc: Global,
    pattern: &[u8],
    value: &[u8],
) -> Result<Vec<u8>, AllocError>
    ensures { IfOk result (λ new. new.items ≡ without_parameters pattern.now value.now) }
{
    let query = query(value);
    if !has_named(pattern, query) {
        return Ok(value.to_vec(alloc)?);
    }
    let kept = others(alloc, pattern, query)?;
    let mut new = unasked(value).to_vec(alloc)?;
    write_query(kept.as_slice(), &mut new)?;
    new.extend_from_slice(fragment(value))?;
    Ok(new)
}
