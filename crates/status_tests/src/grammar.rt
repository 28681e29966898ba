//! The grammar of Prometheus' text form, version 0.0.4, as far as it has no time stamps and no escapes.

/// What is behind the first bytes that pass, if there is at least one.
fn after_some<F: Fn(u8) -> bool>(line: &[u8], passes: F) -> Option<&[u8]>
    requires { F.IsAlwaysCallable passes }
{
    let count = line.iter().take_while(|b| passes(**b)).count();
    if count == 0 {
        return None;
    }
    let (_, rest) = line.split_at(count.min(line.len()));
    Some(rest)
}

/// What is behind this text, if the line begins with it.
fn after<'a>(line: &'a [u8], text: &[u8]) -> Option<&'a [u8]> {
    line.strip_prefix(text)
}

fn is_name_byte(b: u8) -> bool {
    b.is_ascii_alphanumeric() || b == b'_' || b == b':'
}

/// What is behind a name.
fn after_name(line: &[u8]) -> Option<&[u8]> {
    match line.first() {
        Some(b) if b.is_ascii_digit() => None,
        _ => after_some(line, is_name_byte),
    }
}

/// What is behind a value in quotes.
fn after_value(line: &[u8]) -> Option<&[u8]> {
    let inner = after(line, b"\"")?;
    let rest = match inner.first() {
        Some(b'"') => inner,
        _ => after_some(inner, |b| b != b'"' && b != b'\\')?,
    };
    after(rest, b"\"")
}

/// What is behind one label.
fn after_label(line: &[u8]) -> Option<&[u8]> {
    after_value(after(after_name(line)?, b"=")?)
}

/// What is behind the labels, if there are some. There are two at most.
fn after_labels(line: &[u8]) -> Option<&[u8]> {
    let Some(first) = after(line, b"{") else {
        return Some(line);
    };
    let rest = after_label(first)?;
    match after(rest, b",") {
        Some(second) => after(after_label(second)?, b"}"),
        None => after(rest, b"}"),
    }
}

/// Whether the rest of the line is a number.
fn is_number(rest: &[u8]) -> bool {
    let Some(rest) = after_some(rest, |b| b.is_ascii_digit()) else {
        return false;
    };
    match after(rest, b".") {
        Some(decimals) => matches!(after_some(decimals, |b| b.is_ascii_digit()), Some([])),
        None => rest.is_empty(),
    }
}

/// Whether it is a line with a value.
fn is_sample(line: &[u8]) -> bool {
    let Some(rest) = after_name(line).and_then(after_labels) else {
        return false;
    };
    match after(rest, b" ") {
        Some(number) => is_number(number),
        None => false,
    }
}

/// Whether the rest of a TYPE line names a type.
fn is_type(rest: &[u8]) -> bool {
    matches!(rest, b" counter" | b" gauge" | b" histogram")
}

/// Whether it is a line of the form.
pub fn is_line(line: &[u8]) -> bool {
    if let Some(help) = after(line, b"# HELP ") {
        return matches!(after_name(help), Some([b' ', ..]));
    }
    if let Some(kind) = after(line, b"# TYPE ") {
        return match after_name(kind) {
            Some(rest) => is_type(rest),
            None => false,
        };
    }
    is_sample(line)
}
