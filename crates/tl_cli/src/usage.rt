//! What is said of words that ask for nothing.
use crate::args::UsageError;
use std::fmt;

impl fmt::Display for UsageError<'_> {
    fn fmt<W: fmt::Write>(&self, f: &mut fmt::Formatter<W>) -> fmt::Result {
        match self {
            UsageError::NoNumber(word) => write!(f, "invalid number for --max-count: {word}"),
            UsageError::NoTable(word) => {
                write!(f, "invalid number of a table: {word} (the first is 1)")
            }
            UsageError::NoKey(key) => write!(f, "invalid attribute name: {key}"),
            UsageError::NoName(name) => write!(f, "invalid element name: {name}"),
            UsageError::NoValue => {
                f.write_str("VALUE is missing: give it, or an option that makes it")
            }
            UsageError::NoWord(word) => write!(f, "not one word: '{word}'"),
            UsageError::NoLiteral => f.write_str("--replace: the text to replace is empty"),
            UsageError::NoRegex(error, text) => {
                write!(f, "invalid regular expression: {text}: {error}")
            }
            UsageError::NoNames(text) => {
                write!(f, "invalid pattern, which may have one * in it: '{text}'")
            }
            UsageError::NoUrl(error, text) => write!(f, "invalid URL: {text}: {error}"),
            UsageError::NoEncoding(label) => write!(f, "unknown encoding: {label}"),
            UsageError::NoColumn => f.write_str("no column: give -a NAME or -t"),
            UsageError::NoPlace => f.write_str("--where can't be used with several columns"),
            UsageError::NoJson => f.write_str("--tree needs --json or --jsonl"),
            UsageError::NoFile => {
                f.write_str("-i needs files: standard input can't be edited in place")
            }
            UsageError::NoSuffix => f.write_str("--backup: the suffix is empty"),
            UsageError::InputTwice => {
                f.write_str("standard input can't be both the page and what is put in")
            }
            // The others are said in words of their own.
            _ => f.write_str("invalid arguments"),
        }
    }
}
