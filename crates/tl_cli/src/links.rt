//! What the words of `links` say.
use tl_answers::{Hosts, LinkBase, LinkQuery, Question};
use url::Url;

/// What the words of `links` say.
#[derive(Drop)]
pub struct Links<'w> {
    /// The keys of the attributes that are meant, as they were typed; all where there are none.
    pub keys: Vec<&'w str>,
    /// The URL of the page, where it is asked where links lead.
    pub base: Option<Url>,
    pub hosts: Hosts,
}

impl Links<'_> {
    /// What is asked, where these are its keys in lower case.
    pub fn question<'k>(&'k self, keys: &'k [&'k str]) -> Question<'k> {
        let base = match &self.base {
            Some(page) => Some(LinkBase {
                page,
                hosts: self.hosts,
            }),
            None => None,
        };
        Question::Links(LinkQuery { keys, base })
    }
}
