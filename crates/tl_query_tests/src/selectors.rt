//! Texts that are selectors, with the steps that they are read as.
use std::alloc::{AllocError, Global};
use tl_css::parse;
use tl_css::selector::{Anchor, Case, Formula, Link, Op, Reach, Space, Step, Test, Way};

// A selector, and its steps. A test stands for itself; `&` puts one to what is there, `!` turns it,
// `+` puts two together, `|` joins two; `<` and `>` are links from here and to here, with `p`, `s`
// or `t` for a parent, a sibling or a twin, and `1` or `*` for how far; `#` counts along them.
#[rattlefmt::skip]
static READ: [(&str, &str); 105] = [
    // Simple selectors.
    ("*", "*"),
    ("p", "p"),
    ("P", "p"),
    ("#Id", "#Id"),
    (".Class", ".Class"),
    ("[key]", "[key]"),
    ("[ KEY ]", "[key]"),
    ("h1", "h1"),
    ("td.x#y[z]", "td &.x &#y &[z]"),
    ("*.x", "* &.x"),
    (".a.b", ".a &.b"),
    (" \t\r\n\x0cp ", "p"),
    ("/* a */p/* b */.x/* * / **/", "p &.x"),
    ("p/**//**/./**/x", "p &.x"),
    // What begins with a digit or is a dash is a name too.
    (".1", ".1"),
    ("#1", "#1"),
    ("1a", "1a"),
    ("-", "-"),
    ("--x_Y", "--x_y"),
    ("é", "é"),
    ("É", "É"),
    // Escapes.
    (".a\\:b", ".a:b"),
    ("\\70", "p"),
    ("\\50", "p"),
    ("\\000070x", "px"),
    ("\\0000700", "p0"),
    ("\\70 x", "px"),
    ("\\70\tx", "px"),
    ("\\70\r\nx", "px"),
    ("\\70  x", "p <p* &x"),
    (".\\e9", ".é"),
    (".\\1F600 x", ".😀x"),
    (".\\0", ".\u{FFFD}"),
    (".\\d800", ".\u{FFFD}"),
    (".\\110000", ".\u{FFFD}"),
    (".\\é", ".é"),
    // Attribute selectors.
    ("[k=v]", "[k=v]"),
    ("[k=\"v\"]", "[k=v]"),
    ("[k='v']", "[k=v]"),
    ("[k=1]", "[k=1]"),
    ("[k~=v]", "[k~v]"),
    ("[k|=v]", "[k-v]"),
    ("[k^=v]", "[k^v]"),
    ("[k$=v]", "[k$v]"),
    ("[k*=v]", "[k*v]"),
    ("[ k = v ]", "[k=v]"),
    ("[k=v i]", "[k=v i]"),
    ("[k=V I]", "[k=V i]"),
    ("[k=\"v\"i]", "[k=v i]"),
    ("[k=v s]", "[k=v s]"),
    ("[k=V S]", "[k=V s]"),
    ("[k='v's]", "[k=v s]"),
    ("[k=v/**/\\69]", "[k=v i]"),
    ("[k='']", "[k=]"),
    ("[k='a\\\nb']", "[k=ab]"),
    ("[k='a\\\r\nb']", "[k=ab]"),
    ("[k='\\'']", "[k=']"),
    ("[k='/*']", "[k=/*]"),
    ("[k=\"a]b\"]", "[k=a]b]"),
    // Namespaces: none, any, and those that no prefix says.
    ("*|p", "p"),
    ("*|*", "*"),
    ("*|P.x", "p &.x"),
    ("|p", "* !"),
    ("|*", "* !"),
    ("|/* */p.x", "* ! &.x"),
    ("a |p", "a <p* * ! +"),
    ("a > */**/|\\62 ", "a <p1 &b"),
    ("[|k]", "[k]"),
    ("[ |K = v ]", "[k=v]"),
    ("[|k|=v]", "[k-v]"),
    ("[*|k]", "[*|k]"),
    ("[*/**/|k=v i]", "[*|k=v i]"),
    // Combinators.
    ("a b", "a <p* &b"),
    ("a>b", "a <p1 &b"),
    ("a > b", "a <p1 &b"),
    ("a + b", "a <s1 &b"),
    ("a~b", "a <s* &b"),
    ("a /**/ b", "a <p* &b"),
    ("a b > c", "a <p* &b <p1 &c"),
    ("a.x b.y", "a &.x <p* &b &.y"),
    // Lists.
    ("a,b", "a b |"),
    ("a , b,c", "a b | c |"),
    ("a b, c", "a <p* &b c |"),
    // Pseudo-classes.
    (":first-child", "* <s1 !"),
    (":LAST-CHILD", "* >s1 !"),
    ("p:only-child", "p * <s1 ! * >s1 ! + +"),
    (":first-of-type", "* <t1 !"),
    (":last-of-type", "* >t1 !"),
    (":only-of-type", "* <t1 ! * >t1 ! +"),
    (":/**/root", "@r @r <p1 ! +"),
    (":scope > a", "@s @s <p1 ! + <p1 &a"),
    ("a/**/&", "a @s @s <p1 ! + +"),
    ("p:empty", "p &<>"),
    (":f\\69rst-child", "* <s1 !"),
    (":not(a)", "a !"),
    ("p:not( .x , .y )", "p .x .y | ! +"),
    (":is(a, b) c", "a b | <p* &c"),
    (":where(a)", "a"),
    (":not(:is(a))", "a !"),
    ("a:has(b)", "a b >p* +"),
    (":has(> b)", "b >p1"),
    (":has(> a b)", "a b >p* + >p1"),
    (":has(+ a > b, ~ c)", "a b >p1 + >s1 c >s* |"),
    (":has(:has(i))", "i >p* >p*"),
    ("b:not(a c)", "b a <p* &c ! +"),
];

// A formula, and its two numbers.
#[rattlefmt::skip]
static FORMULAS: [(&str, i64, i64); 25] = [
    ("even", 2, 0),
    ("ODD", 2, 1),
    ("0", 0, 0),
    ("3", 0, 3),
    ("+3", 0, 3),
    ("-3", 0, -3),
    ("n", 1, 0),
    ("N", 1, 0),
    ("-n", -1, 0),
    ("+n", 1, 0),
    ("2n", 2, 0),
    ("2n+1", 2, 1),
    ("2n + 1", 2, 1),
    ("2n +1", 2, 1),
    ("2n+ 1", 2, 1),
    ("2n-1", 2, -1),
    ("n-1", 1, -1),
    ("n- 1", 1, -1),
    ("-n+3", -1, 3),
    ("-0n+1", 0, 1),
    ("007", 0, 7),
    (" /**/ 2n /**/", 2, 0),
    ("2147483647n", 2147483647, 0),
    ("-2147483647", 0, -2147483647),
    ("n/**/+1", 1, 1),
];

fn add_link(out: &mut Vec<u8>, way: Way, link: Link) -> Result<(), AllocError> {
    out.extend_from_slice(match way {
        Way::From => b"<",
        Way::To => b">",
    })?;
    out.extend_from_slice(match link {
        Link::Parent => b"p",
        Link::Sibling => b"s",
        Link::Twin => b"t",
    })
}

fn op_text(op: Op) -> &'static [u8] {
    match op {
        Op::Equals => b"=",
        Op::Word => b"~",
        Op::Dashed => b"-",
        Op::Starts => b"^",
        Op::Ends => b"$",
        Op::Inside => b"*",
    }
}

fn case_text(case: Case) -> &'static [u8] {
    match case {
        Case::Unsaid => b"]",
        Case::Folded => b" i]",
        Case::Exact => b" s]",
    }
}

fn add_key(out: &mut Vec<u8>, space: Space, key: &[u8]) -> Result<(), AllocError> {
    out.extend_from_slice(match space {
        Space::Bare => b"[",
        Space::Every => b"[*|",
    })?;
    out.extend_from_slice(key)
}

fn add_value(out: &mut Vec<u8>, op: Op, value: &[u8], case: Case) -> Result<(), AllocError> {
    out.extend_from_slice(op_text(op))?;
    out.extend_from_slice(value)?;
    out.extend_from_slice(case_text(case))
}

fn add_marked(out: &mut Vec<u8>, mark: &[u8], name: &[u8], end: &[u8]) -> Result<(), AllocError> {
    out.extend_from_slice(mark)?;
    out.extend_from_slice(name)?;
    out.extend_from_slice(end)
}

fn add_test(out: &mut Vec<u8>, test: &Test) -> Result<(), AllocError> {
    match test {
        Test::Any => out.extend_from_slice(b"*"),
        Test::Name(name) => out.extend_from_slice(name.lower.as_slice()),
        Test::Id(id) => add_marked(out, b"#", id.as_slice(), b""),
        Test::Class(class) => add_marked(out, b".", class.as_slice(), b""),
        Test::Key(space, key) => {
            add_key(out, *space, key.lower.as_slice())?;
            out.extend_from_slice(b"]")
        }
        Test::Value(space, key, op, value, case) => {
            add_key(out, *space, key.lower.as_slice())?;
            add_value(out, *op, value.as_slice(), *case)
        }
        Test::Empty => out.extend_from_slice(b"<>"),
        Test::May(anchor) => out.extend_from_slice(match anchor {
            Anchor::Root => b"@r",
            Anchor::Scope => b"@s",
        }),
    }
}

fn add_step(out: &mut Vec<u8>, step: &Step) -> Result<(), AllocError> {
    match step {
        Step::Ask(test) => add_test(out, test),
        Step::Keep(test) => {
            out.extend_from_slice(b"&")?;
            add_test(out, test)
        }
        Step::Turn => out.extend_from_slice(b"!"),
        Step::Meet => out.extend_from_slice(b"+"),
        Step::Unite => out.extend_from_slice(b"|"),
        Step::Shift(way, link, reach) => {
            add_link(out, *way, *link)?;
            out.extend_from_slice(match reach {
                Reach::Once => b"1",
                Reach::Often => b"*",
            })
        }
        Step::Count(way, link, _) => {
            out.extend_from_slice(b"#")?;
            add_link(out, *way, *link)
        }
    }
}

fn add_steps(out: &mut Vec<u8>, steps: &[Step]) -> Result<(), AllocError> {
    for (at, step) in steps.iter().enumerate() {
        if at > 0 {
            out.extend_from_slice(b" ")?;
        }
        add_step(out, step)?;
    }
    Ok(())
}

// Whether a text is read as a selector of these steps.
fn is_read_as(alloc: Global, text: &str, wanted: &str) -> bool {
    let Ok(selector) = parse(alloc, text) else {
        return false;
    };
    let mut out = Vec::new(alloc);
    add_steps(&mut out, selector.steps()).is_ok() && out.as_slice() == wanted.as_bytes()
}

#[test]
fn texts_are_read(rt: HostRuntime) {
    for (at, (text, wanted)) in READ.iter().enumerate() {
        assert!(rt; is_read_as(rt.alloc(), text, wanted), "row {at}");
    }
}

// The steps of a text are those of `:nth-child` with these numbers.
fn is_counted(alloc: Global, text: &str, wanted: Formula) -> bool {
    let Ok(selector) = parse(alloc, text) else {
        return false;
    };
    match selector.steps() {
        [
            Step::Ask(Test::Any),
            Step::Count(Way::From, Link::Sibling, formula),
        ] => { *formula == wanted }
        _ => false,
    }
}

fn has_formula(alloc: Global, formula: &str, a: i64, b: i64) -> Result<bool, AllocError> {
    let text = format!(in alloc; ":nth-child({formula})")?;
    Ok(is_counted(alloc, text.as_str(), Formula { a, b }))
}

#[test]
fn formulas_are_read(rt: HostRuntime) {
    for (at, (formula, a, b)) in FORMULAS.iter().enumerate() {
        let read = has_formula(rt.alloc(), formula, *a, *b);
        assert!(rt; matches!(read, Ok(true)), "row {at}");
    }
}

#[rattlefmt::skip]
static COUNTED: [(&str, &str); 5] = [
    (":nth-child(2)", "* #<s"),
    (":nth-last-child(2)", "* #>s"),
    (":nth-of-type(2)", "* #<t"),
    (":nth-last-of-type(2)", "* #>t"),
    ("p:nth-last-child(2n of a, b c)", "p a b <p* &c | #>s +"),
];

#[test]
fn counts_are_read(rt: HostRuntime) {
    for (at, (text, wanted)) in COUNTED.iter().enumerate() {
        assert!(rt; is_read_as(rt.alloc(), text, wanted), "row {at}");
    }
}
