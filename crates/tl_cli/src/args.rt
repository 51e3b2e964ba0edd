//! What the words of the program ask for.
ghost use Rattle.std.specs.Prelude.{◌≡◌};
ghost use Rattle.clap.specs.Values.{kind_of};
ghost use Rattle.clap.specs.declared.error.kind.ErrorKind.TheVariants.{OutOfMemory as NoMemory};
ghost use Rattle.tl_cli.specs.declared.args.UsageError.TheVariants.{OutOfMemory};

use crate::edit_words;
use crate::edit_words::{deed, patching};
use crate::links::Links;
use crate::patching::{Deed, Patching};
use crate::selected::{Selected, Wanted};
use crate::tables::{Shape, Tables};
use crate::task::Task;
use crate::terminal::Terminal;
use crate::texts::{TextForm, Texts};
use clap::error::ErrorKind;
use clap::{ArgMatches, Error};
use std::alloc::{AllocError, Global};
use tl_answers::{Hosts, Question};
use tl_commands::{ElementVerb, Verb, program};
use tl_css::{Selector, SelectorError, parse};
use tl_encoding::Encoding;
use tl_page::VERSION;
use tl_tree_extract::{Columns, JsonForm, Spans};
use tl_tree_safe::{ListTexts, Lists};
use url::{ParseError, Url};

/// What is written of pages.
#[derive(Clone, Copy, PartialEq, Eq)]
pub enum Writing {
    /// What is made of each.
    Answers,
    /// The name of the file of each where something is found.
    Names,
    /// Nothing: the first where something is found ends it.
    Nothing,
}

/// What tells what pages are in, behind their byte-order marks.
#[derive(Clone, Copy)]
pub enum Telling {
    /// What they say.
    Pages,
    /// That they are UTF-8, and else what they say.
    Bytes,
    Label(Encoding),
}

/// Whether the names of files are written.
#[derive(Clone, Copy)]
pub enum Naming {
    Never,
    /// Where there are several, or each line says where it stands.
    OfSeveral,
    Always,
}

/// The pages, and how what is made of them is written.
#[derive(Drop)]
pub struct Pages<'w> {
    /// The files; without one standard input is read.
    pub files: Vec<&'w str>,
    /// Whether each answer ends with a byte 0, and not with a line feed.
    pub ends_with_zero: bool,
    /// Whether the name of its file stands before each line.
    pub naming: Naming,
    /// Whether what is written says where it stands, so that the name is said of one file too.
    pub has_places: bool,
    /// What is written of them.
    pub writing: Writing,
    /// What tells what they are in.
    pub encoding: Telling,
    /// Whether one with bytes that are wrong is refused.
    pub is_strict: bool,
    pub terminal: Terminal,
}

impl Pages<'_> {
    /// Whether the names of files are said beside what is made of them.
    pub fn are_named(&self) -> bool {
        match self.naming {
            Naming::Never => false,
            Naming::OfSeveral if self.has_places => !self.files.is_empty(),
            Naming::OfSeveral => self.files.len() > 1,
            Naming::Always => true,
        }
    }

    /// What ends each answer.
    pub fn end(&self) -> &'static str {
        if self.ends_with_zero { "\0" } else { "\n" }
    }
}

/// What is made of the pages.
#[derive(Drop)]
pub enum Action<'w> {
    /// What a task makes.
    Task(Task<'w>),
    /// What is selected.
    Select(Selected<'w>),
    /// Where links lead.
    Links(Links<'w>),
    /// What texts say.
    Text(Texts),
    /// What tables say.
    Tables(Tables),
    /// What is changed where a selector holds.
    Patch(Patching<'w>),
    /// Safe pages, by the lists of these texts.
    Safe(ListTexts<'w>),
    /// The same, and what goes is told.
    Removed(ListTexts<'w>),
    /// The lists of these texts, and no page.
    Policy(ListTexts<'w>),
}

/// What the words ask for.
#[derive(Drop)]
pub struct Args<'w> {
    pub action: Action<'w>,
    pub pages: Pages<'w>,
}

/// Why nothing is made.
#[derive(Drop)]
pub enum UsageError<'w> {
    /// The words are not understood, or ask for help or the version.
    Clap(Error),
    /// They name no command.
    NoCommand,
    /// A text that can be written as no key of a tag.
    NoKey(&'w str),
    /// One that can be written as no name of a tag.
    NoName(&'w str),
    /// No value is said, nor how it is made.
    NoValue,
    /// A text that is no word of a value.
    NoWord(&'w str),
    /// The text that is to be replaced is empty.
    NoLiteral,
    /// A text that is no regular expression, and why.
    NoRegex(regex::Error, &'w str),
    /// A text that is no pattern of names.
    NoNames(&'w str),
    /// Standard input is to be changed in its file.
    NoFile,
    /// Standard input is to be a page and what is put.
    InputTwice,
    /// The suffix of a backup is empty.
    NoSuffix,
    /// A text that is no URL, and why.
    NoUrl(ParseError, &'w str),
    /// It isn't said of what columns are.
    NoColumn,
    /// Places are asked for beside columns.
    NoPlace,
    /// What is in nodes is asked for, and no JSON that has it.
    NoJson,
    /// A label of no encoding.
    NoEncoding(&'w str),
    /// A word that is no number of nodes.
    NoNumber(&'w str),
    /// One that is no number of a table.
    NoTable(&'w str),
    /// A text that is no selector, and why.
    NoSelector(SelectorError, &'w str),
    OutOfMemory,
}

impl From<AllocError> for UsageError<'_> {
    ghost from_gives = { λ _ usage_error. usage_error ≡ OutOfMemory };

    fn from(_: AllocError) -> Self {
        UsageError::OutOfMemory
    }
}

impl From<Error> for UsageError<'_> {
    ghost from_gives = { λ error usage_error. kind_of error ≡ NoMemory →
        usage_error ≡ OutOfMemory };

    fn from(error: Error) -> Self {
        match error.kind() {
            ErrorKind::OutOfMemory => UsageError::OutOfMemory,
            _ => UsageError::Clap(error),
        }
    }
}

// What is written of pages.
fn writing_of(matches: &ArgMatches<'_>) -> Writing {
    if matches.get_flag("quiet") {
        Writing::Nothing
    } else if matches.get_flag("files-with-matches") {
        Writing::Names
    } else {
        Writing::Answers
    }
}

// What an object has of what is in its node.
fn json_form(matches: &ArgMatches<'_>) -> JsonForm {
    if matches.get_flag("tree") {
        JsonForm::Nested
    } else {
        JsonForm::Flat
    }
}

// What is written of each node where the nodes themselves are.
fn wanted_answers(matches: &ArgMatches<'_>) -> Wanted {
    if matches.get_flag("count") {
        Wanted::Count
    } else if matches.get_flag("json") {
        Wanted::Objects(json_form(matches))
    } else if matches.get_flag("jsonl") {
        Wanted::Lines(json_form(matches))
    } else if matches.get_str("attribute").is_some() {
        Wanted::Value
    } else if matches.get_flag("text") {
        Wanted::Text
    } else if matches.get_flag("inside") {
        Wanted::InnerHtml
    } else if matches.get_flag("source") {
        Wanted::Source
    } else if matches.get_flag("number") {
        Wanted::Number
    } else {
        Wanted::OuterHtml
    }
}

// How values of nodes are told apart, where each node has a line of them: of several keys, of a key
// and the text, and where it is said.
fn columns_of(matches: &ArgMatches<'_>, keys: usize) -> Option<Columns> {
    if matches.get_flag("csv") {
        return Some(Columns::Commas);
    }
    let has_several = keys > 1 || keys == 1 && matches.get_flag("text");
    (has_several || matches.get_flag("tsv")).then_some(Columns::Tabs)
}

// What is looked for of each node. Where no node is written it is what takes least.
fn wanted<'w>(matches: &ArgMatches<'w>, keys: usize) -> Result<Wanted, UsageError<'w>> {
    let columns = columns_of(matches, keys);
    let has_text = matches.get_flag("text");
    if columns.is_some() && keys == 0 && !has_text {
        return Err(UsageError::NoColumn);
    }
    if columns.is_some() && matches.get_flag("where") {
        return Err(UsageError::NoPlace);
    }
    if matches.get_flag("tree") && !matches.get_flag("json") && !matches.get_flag("jsonl") {
        return Err(UsageError::NoJson);
    }
    Ok(match (writing_of(matches), columns) {
        (Writing::Answers, Some(columns)) => Wanted::Records(columns, has_text),
        (Writing::Answers, None) => wanted_answers(matches),
        (_, None) if keys == 1 => Wanted::Value,
        (_, _) => Wanted::Count,
    })
}

// The keys that are said.
fn keys<'w>(alloc: Global, matches: &ArgMatches<'w>) -> Result<Vec<&'w str>, AllocError> {
    match matches.get_strs("attribute") {
        Some(keys) => Vec::from_slice(alloc, keys),
        None => Ok(Vec::new(alloc)),
    }
}

// How many nodes at most are meant of each page.
fn most<'w>(matches: &ArgMatches<'w>) -> Result<Option<u32>, UsageError<'w>> {
    if matches.get_flag("first") {
        return Ok(Some(1));
    }
    let Some(word) = matches.get_str("max-count") else {
        return Ok(None);
    };
    match word.parse::<u32>() {
        Ok(number) => Ok(Some(number)),
        Err(_) => Err(UsageError::NoNumber(word)),
    }
}

/// The selector that a text says.
pub fn selector<'w>(alloc: Global, text: &'w str) -> Result<Selector, UsageError<'w>> {
    match parse(alloc, text) {
        Ok(selector) => Ok(selector),
        Err(SelectorError::OutOfMemory) => Err(UsageError::OutOfMemory),
        Err(error) => Err(UsageError::NoSelector(error, text)),
    }
}

// What is selected.
fn selected<'w>(alloc: Global, matches: &ArgMatches<'w>) -> Result<Selected<'w>, UsageError<'w>> {
    let keys = keys(alloc, matches)?;
    Ok(Selected {
        selector: selector(alloc, matches.get_str("SELECTOR").unwrap_or(""))?,
        wanted: wanted(matches, keys.len())?,
        keys,
        is_placed: matches.get_flag("where"),
        most: most(matches)?,
    })
}

/// The URL that a text says.
pub fn url<'w>(alloc: Global, text: &'w str) -> Result<Url, UsageError<'w>> {
    match Url::parse(alloc, text) {
        Ok(url) => Ok(url),
        Err(ParseError::OutOfMemory) => Err(UsageError::OutOfMemory),
        Err(error) => Err(UsageError::NoUrl(error, text)),
    }
}

// The URL of the page, if it is said.
fn base<'w>(alloc: Global, matches: &ArgMatches<'w>) -> Result<Option<Url>, UsageError<'w>> {
    let Some(text) = matches.get_str("base") else {
        return Ok(None);
    };
    Ok(Some(url(alloc, text)?))
}

// Which links are meant, and how they are written.
fn links<'w>(alloc: Global, matches: &ArgMatches<'w>) -> Result<Links<'w>, UsageError<'w>> {
    let hosts = if matches.get_flag("internal") {
        Hosts::Own
    } else if matches.get_flag("external") {
        Hosts::Other
    } else {
        Hosts::Any
    };
    Ok(Links {
        keys: keys(alloc, matches)?,
        base: base(alloc, matches)?,
        hosts,
    })
}

// The selector that an option says, if it is there.
fn selector_at<'w>(
    alloc: Global,
    matches: &ArgMatches<'w>,
    option: &str,
) -> Result<Option<Selector>, UsageError<'w>> {
    match matches.get_str(option) {
        Some(text) => Ok(Some(selector(alloc, text)?)),
        None => Ok(None),
    }
}

// How texts are written.
fn text_form(matches: &ArgMatches<'_>) -> TextForm {
    if matches.get_flag("comments") {
        TextForm::Comments
    } else if matches.get_flag("whitespace") {
        TextForm::Readable
    } else {
        TextForm::Plain
    }
}

// Which texts are meant, and how they are written.
fn texts<'w>(alloc: Global, matches: &ArgMatches<'w>) -> Result<Texts, UsageError<'w>> {
    Ok(Texts {
        form: text_form(matches),
        inside: selector_at(alloc, matches, "in")?,
        left_out: selector_at(alloc, matches, "not")?,
    })
}

// How tables are written.
fn table_shape(matches: &ArgMatches<'_>) -> Shape {
    if matches.get_flag("json") {
        Shape::Json
    } else if matches.get_flag("jsonl") {
        Shape::JsonOfFile
    } else if matches.get_flag("tsv") {
        Shape::Sheet(Columns::Tabs)
    } else {
        Shape::Sheet(Columns::Commas)
    }
}

// Which tables are meant, and how they are written.
fn tables<'w>(alloc: Global, matches: &ArgMatches<'w>) -> Result<Tables, UsageError<'w>> {
    let spans = if matches.get_flag("as-written") {
        Spans::Once
    } else {
        Spans::Filled
    };
    Ok(Tables {
        inside: selector_at(alloc, matches, "in")?,
        number: table_number(matches)?,
        shape: table_shape(matches),
        spans,
    })
}

// Which table is meant, from 0; all where none is.
fn table_number<'w>(matches: &ArgMatches<'w>) -> Result<Option<usize>, UsageError<'w>> {
    if matches.get_flag("all") {
        return Ok(None);
    }
    let Some(word) = matches.get_str("number") else {
        return Ok(Some(0));
    };
    match word.parse::<u32>() {
        Ok(number) if number > 0 => Ok(Some(number as usize - 1)),
        _ => Err(UsageError::NoTable(word)),
    }
}

// The word that is a file where an option stands in its place: the value where an option makes it,
// and the selector where comments are meant.
fn first_file<'w>(verb: Verb, matches: &ArgMatches<'w>) -> Option<&'w str> {
    match verb {
        Verb::Set if edit_words::is_rewrite(matches) => matches.get_str("VALUE"),
        Verb::Element(ElementVerb::Remove) => {
            matches.get_str("comments")?;
            matches.get_str("SELECTOR")
        }
        _ => None,
    }
}

// The files that are said.
fn files<'w>(
    alloc: Global,
    verb: Verb,
    matches: &ArgMatches<'w>,
) -> Result<Vec<&'w str>, AllocError> {
    let mut files = Vec::new(alloc);
    if let Some(first) = first_file(verb, matches) {
        files.push(first)?;
    }
    if let Some(more) = matches.get_strs("FILE") {
        files.extend_from_slice(more)?;
    }
    Ok(files)
}

// The lists that count where none are said.
fn own_lists(matches: &ArgMatches<'_>) -> Lists<'static> {
    if matches.get_flag("comments") {
        Lists::COMMENTS
    } else if matches.get_flag("documents") {
        Lists::DOCUMENTS
    } else {
        Lists::BLOG
    }
}

// The lists that are said.
fn lists<'w>(matches: &ArgMatches<'w>) -> ListTexts<'w> {
    ListTexts {
        own: own_lists(matches),
        tags: matches.get_str("tags"),
        keys: matches.get_str("keys"),
        link_keys: matches.get_str("link-keys"),
        link_prefixes: matches.get_str("links"),
        relative_links: matches.get_flag("relative-links"),
        nofollow_links: matches.get_flag("nofollow-links"),
        classes: matches.get_str("classes"),
        id_prefix: matches.get_str("prefix"),
    }
}

// What is done with elements, or comments.
fn element_deed<'w>(
    alloc: Global,
    verb: ElementVerb,
    matches: &ArgMatches<'w>,
    text: Option<&'w str>,
) -> Result<Deed<'w>, UsageError<'w>> {
    if verb == ElementVerb::Remove {
        if let Some(deed) = edit_words::comments(alloc, matches)? {
            return Ok(deed);
        }
    }
    let edit = edit_words::element(alloc, verb, matches, text)?;
    deed(alloc, edit, matches)
}

// What a command makes of pages.
fn action_of<'w>(
    alloc: Global,
    verb: Verb,
    matches: &ArgMatches<'w>,
    files: &[&str],
    text: Option<&'w str>,
) -> Result<Action<'w>, UsageError<'w>> {
    let question = match verb {
        Verb::Select => return Ok(Action::Select(selected(alloc, matches)?)),
        Verb::Links => return Ok(Action::Links(links(alloc, matches)?)),
        Verb::Text => return Ok(Action::Text(texts(alloc, matches)?)),
        Verb::Table => return Ok(Action::Tables(tables(alloc, matches)?)),
        Verb::Print if matches.get_flag("pretty") => Question::PrettyPrint,
        Verb::Print => Question::Print,
        Verb::Outline => Question::Outline(matches.get_flag("number")),
        Verb::Set => {
            let edit = edit_words::set(alloc, matches)?;
            let deed = deed(alloc, edit, matches)?;
            return Ok(Action::Patch(patching(deed, matches, files)?));
        }
        Verb::Unset => {
            let edit = edit_words::unset(alloc, matches)?;
            let deed = deed(alloc, edit, matches)?;
            return Ok(Action::Patch(patching(deed, matches, files)?));
        }
        Verb::Element(own) => {
            let deed = element_deed(alloc, own, matches, text)?;
            return Ok(Action::Patch(patching(deed, matches, files)?));
        }
        Verb::Sanitize if matches.get_flag("policy") => return Ok(Action::Policy(lists(matches))),
        Verb::Sanitize if matches.get_flag("removed") => {
            return Ok(Action::Removed(lists(matches)));
        }
        Verb::Sanitize => return Ok(Action::Safe(lists(matches))),
    };
    Ok(Action::Task(Task::Ask(question)))
}

// What tells what pages are in.
fn told_encoding<'w>(matches: &ArgMatches<'w>) -> Result<Telling, UsageError<'w>> {
    let Some(label) = matches.get_str("encoding") else {
        return Ok(Telling::Pages);
    };
    if label == "auto" {
        return Ok(Telling::Bytes);
    }
    match Encoding::from_label(label.as_bytes()) {
        Some(encoding) => Ok(Telling::Label(encoding)),
        None => Err(UsageError::NoEncoding(label)),
    }
}

// Whether the names of files are written.
fn naming_of(matches: &ArgMatches<'_>) -> Naming {
    if matches.get_flag("no-name") {
        Naming::Never
    } else if matches.get_flag("with-name") {
        Naming::Always
    } else {
        Naming::OfSeveral
    }
}

// The pages of a command.
fn pages_of<'w>(
    matches: &ArgMatches<'w>,
    files: Vec<&'w str>,
    terminal: Terminal,
) -> Result<Pages<'w>, UsageError<'w>> {
    Ok(Pages {
        files,
        ends_with_zero: matches.get_flag("null"),
        naming: naming_of(matches),
        has_places: matches.get_flag("where"),
        writing: writing_of(matches),
        encoding: told_encoding(matches)?,
        is_strict: matches.get_flag("strict"),
        terminal,
    })
}

impl<'w> Args<'w> {
    /// The file that has the text that is put, where one is named.
    pub fn text_file(&self) -> Option<&'w str> {
        match &self.action {
            Action::Patch(patching) => patching.text_file,
            _ => None,
        }
    }
}

/// What words ask for, where a file that they name for what is put has this text; the first is the
/// name of the program.
pub fn read<'w>(
    alloc: Global,
    words: &'w [String],
    text: Option<&'w str>,
    terminal: Terminal,
) -> Result<Args<'w>, UsageError<'w>> {
    let matches = program(alloc, VERSION)?.try_get_matches_from(words)?;
    let Some((word, own)) = matches.subcommand() else {
        return Err(UsageError::NoCommand);
    };
    let Some(verb) = Verb::from_word(word) else {
        return Err(UsageError::NoCommand);
    };
    let files = files(alloc, verb, own)?;
    Ok(Args {
        action: action_of(alloc, verb, own, files.as_slice(), text)?,
        pages: pages_of(own, files, terminal)?,
    })
}
