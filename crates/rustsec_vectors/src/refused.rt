//! Texts that a reader refuses with `Parse`.

use crate::rows::{exact_field, field};
use rustsec_fixtures::kind_of;
use rustsec_lock::package::Name;
use rustsec_lock::platforms::{Arch, OS};
use rustsec_lock::{Cvss, Lockfile, SourceId};
use rustsec_texts::{Collection, Date, FunctionPath, Id, Parts};
use rustsec_values::ErrorKind;
use std::alloc::Global;
use std::process::Abort;

/// Examples with a reader and texts that it refuses, which have commas between them.
const LISTS: &str = "
ids | id | RUSTSEC-2018, RUSTSEC-, CVE-1999-1, TALOS-2017-1-2
ids_at_their_bounds | id | CVE-2101-1, CVE-2018-4294967296, CVE-2018-, CVE--1, CVE-2018--1, CVE-++2018-1, CVE-4294969314-1
ids_at_their_bounds | id | RUSTSEC-0000-0001, RUSTSEC-0000-0000-, CVE-0000-0000, CVE-٢018-1
dates | date | 2100-02-29, 1999-12-31, 02017-01-01, 20170101, 2017-01-01-01
small_text_vectors | date | derp, 2017-00-01, 2017-01-00, 2017-13-01, 2017-01-32, 2017-01-, 2017-02-29, 2017-02-30, 2017-04-31
dates_at_their_bounds | date | 2101-01-01, 2001-06-31, 2001-09-31, 2001-11-31, +017-01-01, 2017-1-01, 2017-01-1, 2017-+1-01
dates_at_their_bounds | date | 2017-01-01T00:00:00Z, 2017/01/01, -2017-01-01
small_text_vectors | path | minimum_two_components, no-hyphens::foobar, no_leading_digits::0rly
paths_out_of_form | path | ::, a::, ::a, a:::b, a::::b, a:b, a::b:c, a::b(), a::é, a::>, a::,b, a ::b
small_text_vectors | collection | foobar
collections | collection | Crates, std
source_ids_refused | source | git+#abc, git+?, registry+, registry, foo+https://a/, +https://a/, Git+https://a/
architectures_refused | architecture | X86, aarch-64, i686
systems_refused | system | beos, Windows, iOS, solid-asp3
cvss_vectors | vector | CVSS:3.0/I:L/C:L/S:C/UI:R/PR:N/AC:L/AV:N, CVSS:3.0/A:N/A:N/I:L/C:L/S:C/UI:R/PR:N/AC:L/AV:N
cvss_vectors | vector | CVSS:3.1/AV:L/AC:H/PR:H/UI:R/S:U/C:L/I:N, CVSS:3.1/AV:L/AC:H/PR:H/UI:R/S:U/C:L/I:N/A:N/A:N
cvss_refusals | vector | CVSS:3.1, CVSS:3.1/, CVSS:4.0, CVSS:2.0/AV:N/AC:L/PR:N/UI:N/S:U/C:H/I:H/A:H
cvss_refusals | vector | CVSS:3.1/av:n/AC:L/PR:N/UI:N/S:U/C:H/I:H/A:H, CVSS:3.1/AV:n/AC:L/PR:N/UI:N/S:U/C:H/I:H/A:H
cvss_refusals | vector | cvss:3.1/AV:N/AC:L/PR:N/UI:N/S:U/C:H/I:H/A:H, CVSS:3.1/AV:N/AC:L/PR:N/UI:N/S:U/C:H/I:H/A:H/
cvss_refusals | vector | CVSS:3.1/AV:N/AC:L/PR:N/UI:N/S:U/C:H/I:H/A:H/E:X, CVSS:3.1/AV:N/AC:L/PR:N/UI:N/S:U/C:H/I:H/I:H
cvss_refusals | vector | CVSS:3.1/AV:/AC:L/PR:N/UI:N/S:U/C:H/I:H/A:H, CVSS:3.1/AV:NN/AC:L/PR:N/UI:N/S:U/C:H/I:H/A:H
cvss_refusals | vector | CVSS:3.1/AV:N /AC:L/PR:N/UI:N/S:U/C:H/I:H/A:H, CVSS:3.1/AV:N/AC:M/PR:N/UI:N/S:U/C:H/I:H/A:H
";

/// Examples with a reader and one text that it refuses: empty ones, lines, and texts with white space at an end.
const TEXTS: &[&str] = &[
    "ids_at_their_bounds | id | CVE-2018-1 ",
    "dates_at_their_bounds | date | ",
    "dates_at_their_bounds | date |  2017-01-01",
    "paths_out_of_form | path | ",
    "collections | collection | ",
    "collections | collection | crates ",
    "source_ids_refused | source | ",
    "names | name | ",
    "architectures_refused | architecture | ",
    "architectures_refused | architecture | arm ",
    "systems_refused | system | ",
    "cvss_refusals | vector | ",
    "parts | parts | ```toml\na = '''\n```\n'''\n```\n# T\nD",
    "parts | parts | ```toml\na = 1\n```\n# T",
    "parts | parts | aaaaaaaaaaaaaaaaaaaé",
    "texts_without_parts | parts | ",
    "texts_without_parts | parts | ```tom",
    "texts_without_parts | parts | ``` toml\n```\n# T\n",
    "texts_without_parts | parts | \n```toml\n```\n# T\n",
    "texts_without_parts | parts | ```toml\n# T\nD",
    "texts_without_parts | parts | ```toml```\n# T\nD",
    "texts_without_parts | parts | ```toml\n```\n",
    "texts_without_parts | parts | ```toml\n```\n## T\nD",
    "texts_without_parts | parts | ```toml\n```\n#T\nD",
    "texts_without_parts | parts | ```toml\n````\n# T\n",
    "lockfile_texts | lockfile | package = 1\n",
    "lockfile_texts | lockfile | package = \"base\"\n",
    "lockfile_texts | lockfile | package = [1]\n",
    "lockfile_texts | lockfile | [package]\nname = \"base\"\nversion = \"1.0.0\"\n",
    "lockfile_texts | lockfile | [[package]]\nname = \"base\"\n",
    "lockfile_texts | lockfile | [[package]]\nversion = \"1.0.0\"\n",
    "lockfile_texts | lockfile | [[package]]\nname = \"base\"\nversion = \"1.0\"\n",
    "lockfile_texts | lockfile | [[package]]\nname = \"base\"\nversion = 1\n",
    "lockfile_texts | lockfile | [[package]]\nname = \"base\"\nversion = 2001-02-03\n",
    "lockfile_texts | lockfile | [[package]]\nname = \"\"\nversion = \"1.0.0\"\n",
    "lockfile_texts | lockfile | [[package]]\nname = \"base\"\nversion = \"1.0.0\"\nsource = \"registry\"\n",
    "lockfile_texts | lockfile | [[package]]\nname = \"base\"\nversion = \"1.0.0\"\nsource = 1\n",
    "lockfile_texts | lockfile | [[package]]\nname = \"base\"\nversion = \"1.0.0\"\nchecksum = 0\n",
    "lockfile_texts | lockfile | [[package]]\nname = \"base\"\nversion = \"1.0.0\"\n[[package]]\nname = \"local\"\nversion = \"x\"\n",
    "lockfile_texts | lockfile | package\n",
];

/// Returns the kind of a reader's error for a text; none if the text is read, or there is no such reader.
fn refusal(alloc: Global, reader: &str, text: &str) -> Option<ErrorKind> {
    match reader {
        "id" => kind_of(Id::from_str(alloc, text)),
        "date" => kind_of(Date::from_str(alloc, text)),
        "path" => kind_of(FunctionPath::from_str(alloc, text)),
        "collection" => kind_of(Collection::from_str(alloc, text)),
        "source" => kind_of(SourceId::from_url(alloc, text)),
        "name" => kind_of(Name::from_str(alloc, text)),
        "architecture" => kind_of(Arch::from_str(alloc, text)),
        "system" => kind_of(OS::from_str(alloc, text)),
        "vector" => kind_of(Cvss::from_str(alloc, text)),
        "parts" => kind_of(Parts::parse(alloc, text)),
        "lockfile" => kind_of(Lockfile::from_str(alloc, text)),
        _ => None,
    }
}

/// Checks that a reader refuses texts, which have commas between them.
fn expect_refused<T: AllocGlobal + Abort>(rt: &T, reader: &str, texts: &str) {
    for text in texts.split(", ") {
        let kind = refusal(rt.alloc(), reader, text);
        assert!(rt; kind == Some(ErrorKind::Parse), "{reader}: {text}");
    }
}

#[test]
fn refused_words(rt: HostRuntime) {
    for row in LISTS.trim().lines() {
        expect_refused(&rt, field(row, 1), field(row, 2));
    }
}

#[test]
fn refused_texts(rt: HostRuntime) {
    for row in TEXTS {
        let kind = refusal(rt.alloc(), exact_field(row, 1), exact_field(row, 2));
        assert!(rt; kind == Some(ErrorKind::Parse), "{row}");
    }
}
