//! Texts that are hard on a formatter and linter.

use crate::results::Results;
use crate::text::Text;

/// How deep constructs nest.
const DEEP: usize = 90;

/// Runs `fmt --check`, `lint` and `fix` on `count` texts of each shape.
pub fn run(count: u32, results: &mut Results) {
    for _ in 0..count {
        for shape in 0..10 {
            let mut text = Text::new(results.alloc, results.chance);
            put_shape(shape, &mut text);
            results.chance = text.chance;
            results.check(&text.bytes);
            results.lint(&text.bytes);
            results.fix(text.bytes);
        }
    }
}

fn put_shape(shape: usize, text: &mut Text) {
    match shape {
        0 => put_nested(text),
        1 => put_interpolations(text),
        2 => put_around("\"${", "}\"", DEEP / 2, text),
        3 => put_around("lookup(", ", k)", DEEP, text),
        4 => put_operators(text),
        5 => put_chain(".", text),
        6 => put_chain(" == []", text),
        7 => put_issues(text),
        8 => put_wide(text),
        _ => put_silenced(text),
    }
}

/// Some thousand bytes of each construct inside itself.
fn put_nested(text: &mut Text) {
    for (open, close) in [
        ("(", ")"),
        ("[", "]"),
        ("[\n", "\n]"),
        ("{ a = ", " }"),
        ("f(", ")"),
        ("!", ""),
        ("a ? b : ", ""),
        ("[for v in w : ", "]"),
        ("a[", "]"),
    ] {
        for _ in 0..8 {
            text.name();
            text.put(" = ");
            text.repeat(open, DEEP);
            text.word();
            text.repeat(close, DEEP);
            text.put("\n");
        }
    }
}

/// Interpolations inside each other, many times.
fn put_interpolations(text: &mut Text) {
    for _ in 0..40 {
        text.name();
        text.put(" = ");
        text.repeat("\"${", DEEP / 2);
        text.word();
        text.repeat("}\"", DEEP / 2);
        text.put("\n");
    }
}

/// A call with a thousand arguments, nested `deep` times.
fn put_around(open: &str, close: &str, deep: usize, text: &mut Text) {
    text.name();
    text.put(" = ");
    text.repeat(open, deep);
    text.put("max(");
    for _ in 0..1000 {
        text.word();
        text.put(", ");
    }
    text.put("1)");
    text.repeat(close, deep);
    text.put("\n");
}

/// A chain of operators.
fn put_operators(text: &mut Text) {
    text.name();
    text.put(" = a");
    for _ in 0..4000 {
        text.choose(&[" + ", " * ", " - ", " && ", " < ", " || ", " == "]);
        text.word();
    }
    text.put("\n");
}

/// A name followed by a chain of tails, or of comparisons with an empty list.
fn put_chain(link: &str, text: &mut Text) {
    for _ in 0..4 {
        text.name();
        text.put(" = ");
        text.word();
        for _ in 0..500 {
            text.put(link);
            if link == "." {
                text.number(10);
            }
        }
        text.put("\n");
    }
}

/// A page with issues of each rule.
fn put_issues(text: &mut Text) {
    for _ in 0..120 {
        text.put("variable \"aB");
        text.number(10_000);
        text.put("\" {}\noutput \"");
        text.name();
        text.put("\" { value = lookup(");
        text.word();
        text.put(", \"${");
        text.word();
        text.put("}\") == [] } // ");
        text.word();
        text.put("\ndata \"d\" \"");
        text.name();
        text.put("\" { x = a.");
        text.number(10);
        text.put(".b }\n");
    }
}

/// Long lines of letters that are not ASCII, followed by issues.
fn put_wide(text: &mut Text) {
    for _ in 0..10 {
        text.put("größe_");
        text.number(10_000);
        text.put(" = [\"");
        for _ in 0..250 {
            text.choose(&["e\u{301}", "ä", "変数名", "👩‍👩‍👧 ", "ключ"]);
        }
        text.put("\", b");
        text.repeat(".0", 20);
        text.put(", \"${値}\"]\n");
    }
}

/// Comments that silence the line below them.
fn put_silenced(text: &mut Text) {
    for _ in 0..250 {
        text.put("# tflint-ignore: terraform_deprecated_index, ");
        text.word();
        text.put("\n");
        text.name();
        text.put(" = b.0\n");
    }
}
