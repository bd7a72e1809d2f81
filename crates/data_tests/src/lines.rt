//! Lines that are printed; the program prints none.

use query_words::{print_line, read_line};
use std::alloc::Global;
use store_layout::{LEAST, Layout, indexed_layout};

/// Lines over `t(a int8)` and `i on t(a minmax)`, and what is printed of them.
const FORMS: [(&str, &str); 14] = [
    ("  # s1 begin", ""),
    ("  s1   begin ", "s1 begin"),
    ("s1 commit", "s1 commit"),
    ("s1  rollback", "s1 rollback"),
    ("s1 insert t -005", "s1 insert t -5"),
    ("s1 select t", "s1 select t"),
    (
        "s1 delete t where a < 007 and a is not null",
        "s1 delete t where a < 7 and a is not null",
    ),
    (
        "s1 explain t where a is null",
        "s1 explain t where a is null",
    ),
    ("m summarize i", "m summarize i"),
    ("m start summarize i 007", "m start summarize i 7"),
    ("m desummarize i 4294967295", "m desummarize i 4294967295"),
    ("m start vacuum t", "m start vacuum t"),
    ("  m   start  work ", "m start work"),
    ("m step", "m step"),
];

/// Whether the line is read, and printed so.
fn is_printed_as(alloc: Global, layout: &Layout, line: &str, text: &str) -> bool {
    let Ok(line) = read_line(alloc, line.as_bytes(), layout) else {
        return false;
    };
    let mut out = Vec::new(alloc);
    print_line(&line, layout, &mut out).is_ok() && out.as_slice() == text.as_bytes()
}

fn first_wrong(alloc: Global) -> Option<&'static str> {
    let Some(layout) = indexed_layout(alloc, 1, LEAST) else {
        return Some("memory");
    };
    for (line, text) in &FORMS {
        if !is_printed_as(alloc, &layout, line, text) {
            return Some(line);
        }
    }
    None
}

#[test]
fn lines_are_printed_with_single_spaces(rt: HostRuntime) {
    assert_eq!(rt; first_wrong(rt.alloc()), None);
}
