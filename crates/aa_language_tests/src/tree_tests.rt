//! Names of files, and the includes of a text as they are found. (Cases tell where includes are looked for, and what folders stand for.)

use crate::comparing::{equal_in, holds};
use aa_files::{can_be_included, is_passed_over, leaves_a_warning};
use aa_words::{IncludeAt, includes_of};
use std::process::Abort;

#[test]
fn names_that_no_folder_has_are_passed_over_or_read(rt: HostRuntime) {
    for (name, is_passed) in [(b".".as_slice(), true), (b"", false), (b"a\xFF", false)] {
        let is_so = is_passed_over(name) == is_passed && !leaves_a_warning(name);
        holds(&rt, is_so);
    }
}

#[test]
fn a_path_with_a_quote_or_a_line_end_cannot_be_included(rt: HostRuntime) {
    for (path, may) in [
        ("/etc/apparmor.d/local/a b>c", true),
        ("", true),
        ("/x/\"y", false),
        ("/x/y\n", false),
        ("/x\0y", false),
    ] {
        equal_in(&rt, can_be_included(path.as_bytes()), may, path);
    }
}

/// An include's name, its first byte, and whether it may be missing.
fn told(rt: &(impl Abort + AllocGlobal), include: &IncludeAt<'_>) -> String {
    let name = str::from_utf8(include.name()).expect(rt, "UTF-8");
    let told = format!(in rt.alloc(); "{name} {} {};", include.byte, include.is_optional());
    told.expect(rt, "memory")
}

#[test]
fn the_includes_of_a_text_are_found_in_order(rt: HostRuntime) {
    const TEXT: &str =
        "#include <tunables/global>\nprofile x {\n  include if exists <local/x>\n  include \"/y\",\n}\n";
    for (text, wanted) in [
        (TEXT, "tunables/global 0 false;local/x 41 true;/y 71 false;"),
        // One in a comment or a quoted text is none.
        ("# include <a>\n/x { \"include <b>\" r, }", ""),
        ("", ""),
        // They are found up to where the words break off.
        ("include <a>\n\0 include <b>\n", "a 0 false;"),
        (
            "include \"/f/a>b\"\ninclude \"/f/c d\"\n",
            "/f/a>b 0 false;/f/c d 17 false;",
        ),
    ] {
        let mut found = String::new(rt.alloc());
        for include in includes_of(rt.alloc(), text.as_bytes())
            .expect(&rt, "memory")
            .as_slice()
        {
            found
                .push_str(told(&rt, include).as_str())
                .expect(&rt, "memory");
        }
        equal_in(&rt, found.as_str(), wanted, text);
    }
}
