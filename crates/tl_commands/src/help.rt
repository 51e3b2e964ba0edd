//! What help says beside the names of commands and options.

pub const ABOUT: &str = "Query, edit and sanitize HTML pages, however broken";

pub const PROGRAM: &str = "\
Examples:
  tl select -a href 'nav a' index.html    the links of the navigation
  tl text -w index.html                   the text, as a browser shows it
  tl table index.html                     the first table, as CSV
  tl set -i img loading lazy *.html       edit files in place
  tl sanitize comment.html                a version that is safe to show

Pages are parsed as browsers parse them: html, head, body and tbody are put in,
end tags may be left out, character references are decoded, misplaced content is
moved. Edits change the tags that stand in the page, and no other byte.

The encoding of a page is that of its byte-order mark, else that of --encoding,
else that of its <meta charset>, else UTF-8. Invalid bytes are read as U+FFFD;
with --strict such a page is refused. Output is UTF-8, but an edited page keeps
its encoding.

Exit status: 0: done; 1: nothing matched (select, links, table, text --in, and
edits); 2: invalid usage, selector or page, or an edit was refused; 3: out of
memory; 4: a read or write failed; 141: the output is read no more. A page that
can't be read is reported on standard error, and the other pages are done.

On a terminal file names are coloured, unless NO_COLOR is set. With many files,
or slow ones, standard error shows how far it is.";

pub const SELECTORS: &str = "\
Example:
  tl select -l 'img:not([alt])' *.html    files with images without alt text

SELECTOR is one of CSS (Level 4), and matches elements:
  NAME  *  #ID  .CLASS  [ATTRIBUTE]  [ATTRIBUTE=VALUE]  also ~= |= ^= $= *=
  [ATTRIBUTE=VALUE i] (in any case)  A, B (either)
  A B (B inside A)  A > B (child)  A + B (next sibling)  A ~ B (later sibling)
  :not(..) :is(..) :where(..) :has(..) :empty :root :first-child :last-child
  :only-child :nth-child(2n+1 of S) :nth-last-child(..), and -of-type
A value that is no name is quoted: 'img[src$=\".png\"]'. Behind a \\ any character
is part of a name: '[\\@click]'. docs/DIFFERENCES.md has what browsers do
otherwise.

Several -a, or -a and -t, give a line of values for each match, separated by
tabs, or as --csv has it: -a href -a class -t. There -t is the readable text on
one line, and a missing attribute gives an empty value.

With several files each line begins with the name of its file and a colon; with
--json each match is an object on a line, with its file, where one file alone
gives an array. With --tree objects have their children instead of the text.";

pub const LINKS: &str = "\
Example:
  tl links index.html | grep '^http:'     links that aren't encrypted
  tl links --base https://a.org/ --external -a href index.html

With --base each link is made absolute, by the page's first <base href> too.
What is no URL is printed as it is; --internal and --external leave it out.";

pub const TEXTS: &str = "\
Example:
  tl text -w --in article index.html      the text of an article, block by block";

pub const TABLES: &str = "\
Example:
  tl table --number 2 index.html          the second table of a page
  tl table --in '#prices' index.html      the first table in an element
  tl table --all --json index.html        each table on a line of JSON

A line for each row, with a value for each column: the words of the cell there.
A cell that spans several rows or columns is repeated in each, but with
--as-written. A table inside a cell is part of the cell's words.

With --json a table is an array of rows, each an array of strings; with --jsonl
an object with its file and these rows.";

pub const PRINTS: &str = "\
Example:
  tl print --pretty index.html            the page, an element on a line";

pub const OUTLINES: &str = "\
Example:
  tl outline index.html                   what a page is made of

Each level is indented by two spaces, up to 64; deeper ones are numbered. Of an
element its id, its class, and the attributes name, property, type, rel, for,
role, href, src and action are printed, as a selector that matches it:
a.next[href=\"/2\"]. Of a text or a comment the first line with words is printed.
Texts of white space are left out, but with -n.";

pub const SETTINGS: &str = "\
Example:
  tl set -i img loading lazy *.html       lazy-load images
  tl set -i a href --replace ^http: https: *.html
  tl set -i 'a[href^=\"/\"]' href --prefix https://a.org *.html
  tl set -i table class --add-word wide *.html
  tl set -i h2,h3 id --from-text *.html
  tl set -i a href --drop-query 'utm_*' *.html
  tl set img src --base https://a.org/b/ index.html

Nothing else in the page changes. A page that can't be edited this way is left
as it is, with an error that says why. A file that stays the same isn't
written. If nothing matches, or no value changes, the exit status is 1.";

pub const UNSETTINGS: &str = "\
Example:
  tl unset -i '[style]' style *.html      remove inline styles

Nothing else in the page changes. A page that can't be edited this way is left
as it is, with an error that says why. If nothing matches, no file is written
and the exit status is 1.";

pub const SAFE: &str = "\
Example:
  tl sanitize --comments comment.html     a comment, made safe to show

WORDS are separated by commas. A list that isn't given is that of the policy for
blog posts, or of --comments or --documents; --policy prints them.
Serve the result as UTF-8, in the content of an ordinary element. docs/SAFE.md
says what is proved of it.";
