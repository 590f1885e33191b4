//! Whole documents in the style of GitHub's database (GHSA) and of Go's, written by the OSV schema, and of the examples
//! of its page (ossf.github.io/osv-schema, "Examples"): each is read, or is refused as docs/OSV-READING.md says.

use crate::osv_schema::keeps;
use rustsec_osv::OsvAdvisory;
use rustsec_values::ErrorKind;
use serde_json::Value;
use std::alloc::Global;
use std::test::Fail;

/// Documents in GitHub's style, each with its ID if it is read, and with the message of its refusal if not.
const GITHUB: &str =
    r#"{"schema_version":"1.4.0","id":"GHSA-2222-3333-4444","modified":"2021-02-04T00:00:00Z","published":"2021-02-03T00:00:00Z",
"aliases":["CVE-2021-0001"],"summary":"Denial of service in tool","details":"Impact:\nA long text hangs the parser.",
"severity":[{"type":"CVSS_V3","score":"CVSS:3.1/AV:N/AC:L/PR:N/UI:N/S:U/C:N/I:N/A:H"}],
"affected":[{"package":{"ecosystem":"npm","name":"tool"},
"ranges":[{"type":"ECOSYSTEM","events":[{"introduced":"0"},{"fixed":"1.2.3"}]}],
"database_specific":{"last_known_affected_version_range":"<= 1.2.2"}}],
"references":[{"type":"ADVISORY","url":"https://nvd.nist.gov/vuln/detail/CVE-2021-0001"},
{"type":"PACKAGE","url":"https://github.com/example/tool"},{"type":"WEB","url":"https://example.com/tool"}],
"database_specific":{"cwe_ids":["CWE-400"],"severity":"HIGH","github_reviewed":true,"nvd_published_at":null}}
=> GHSA-2222-3333-4444

{"schema_version":"1.4.0","id":"GHSA-2222-3333-5555","modified":"2024-05-06T00:00:00Z","published":"2024-05-05T00:00:00Z",
"aliases":[],"summary":"Injection in tool","details":"Update it.",
"severity":[{"type":"CVSS_V4","score":"CVSS:4.0/AV:N/AC:L/AT:N/PR:N/UI:N/VC:H/VI:H/VA:H/SC:N/SI:N/SA:N"}],
"affected":[{"package":{"ecosystem":"crates.io","name":"tool"},"ecosystem_specific":{"affected_functions":["tool::run"]},
"ranges":[{"type":"ECOSYSTEM","events":[{"introduced":"0.1"},{"last_affected":"2.0.0"}]}],"versions":["1.9.9"],
"database_specific":{"source":"https://example.com"}}],
"references":[{"type":"WEB","url":"https://example.com/tool/security"}],"database_specific":{"cwe_ids":[]}}
=> GHSA-2222-3333-5555

{"schema_version":"1.4.0","id":"GHSA-2222-3333-6666","modified":"2021-02-04T00:00:00Z","published":"2021-02-03T00:00:00Z",
"aliases":["CVE-2021-0002"],"summary":"Denial of service in tool","details":"A long text hangs the parser.","severity":[],
"affected":[{"package":{"ecosystem":"npm","name":"tool"},
"ranges":[{"type":"ECOSYSTEM","events":[{"introduced":"0"},{"fixed":"1.2.3"}]}]}],
"references":[],"database_specific":{"cwe_ids":[],"severity":"LOW"}}
=> at `affected[0]`: key `database_specific` is missing

{"schema_version":"1.4.0","id":"GHSA-2222-3333-7777","modified":"2022-02-04T00:00:00Z","published":"2022-02-03T00:00:00Z",
"withdrawn":"2022-02-04T00:00:00Z","aliases":[],"details":"This advisory has been withdrawn.","severity":[],"affected":[],
"references":[],"database_specific":{"cwe_ids":[],"severity":"MODERATE"}}
=> key `summary` is missing

{"schema_version":"1.4.0","id":"GHSA-2222-3333-8888","modified":"2021-02-04T00:00:00Z","published":"2021-02-03T00:00:00Z",
"aliases":["CVE-2021-0003"],"summary":"Injection in org.example:tool","details":"Update it.","severity":[],
"affected":[{"package":{"ecosystem":"Maven","name":"org.example:tool"},
"ranges":[{"type":"ECOSYSTEM","events":[{"introduced":"0"},{"fixed":"2.0.0.RELEASE"}]}],"database_specific":{}}],
"references":[{"type":"WEB","url":"https://example.com/tool"}],"database_specific":{"severity":"HIGH"}}
=> at `affected[0].ranges[0].events[1].fixed`: malformed version `2.0.0.RELEASE`, expected one such as `1.2.3`

{"schema_version":"1.4.0","id":"GHSA-2222-4444-5555","modified":"2021-02-04T00:00:00Z","published":"2021-02-03T00:00:00Z",
"aliases":["CVE-2021-0004"],"summary":"Denial of service in tool","details":"A long text hangs the parser.",
"severity":[{"type":"CVSS_V3","score":"CVSS:3.1/AV:N/AC:L/PR:N/UI:N/S:U/C:N/I:N/A:H/E:P/RL:O/RC:C"}],
"affected":[{"package":{"ecosystem":"npm","name":"tool"},
"ranges":[{"type":"ECOSYSTEM","events":[{"introduced":"0"},{"fixed":"1.2.3"}]}],
"database_specific":{"last_known_affected_version_range":"<= 1.2.2"}}],
"references":[{"type":"WEB","url":"https://example.com/tool"}],"database_specific":{"cwe_ids":["CWE-400"],"severity":"HIGH"}}
=> at `severity[0].score`: malformed CVSS vector `AV:N/AC:L/PR:N/UI:N/S:U/C:N/I:N/A:H/E:P/RL:O/RC:C`, expected each of AV, AC, PR, UI, S, C, I and A once, with one of its letters

{"schema_version":"1.4.0","id":"GHSA-2222-4444-6666","modified":"2024-05-06T00:00:00Z","published":"2024-05-05T00:00:00Z",
"aliases":[],"summary":"Injection in tool","details":"Update it.","severity":[],
"affected":[{"package":{"ecosystem":"crates.io","name":"tool"},"ecosystem_specific":{"affected_functions":["run"]},
"ranges":[{"type":"SEMVER","events":[{"introduced":"0"},{"fixed":"1.2.3"}]}],"database_specific":{}}],
"references":[{"type":"WEB","url":"https://example.com/tool"}],"database_specific":{"cwe_ids":[]}}
=> at `affected[0].ecosystem_specific.affected_functions[0]`: malformed function path `run`, expected two or more identifiers joined by `::`"#;

/// Documents in Go's style, likewise.
const GO: &str =
    r#"{"schema_version":"1.3.1","id":"GO-2022-0001","modified":"2022-02-04T00:00:00Z","published":"2022-02-03T00:00:00Z",
"aliases":["CVE-2022-0001","GHSA-2222-3333-9999"],"summary":"Panic in example.com/tool","details":"A malformed header causes a panic.",
"affected":[{"package":{"name":"example.com/tool","ecosystem":"Go"},
"ranges":[{"type":"SEMVER","events":[{"introduced":"0"},{"fixed":"0.3.1"},{"introduced":"1.0.0-rc.1"},{"fixed":"1.0.2"}]}],
"ecosystem_specific":{"imports":[{"path":"example.com/tool/header","symbols":["Parse"]}]},
"database_specific":{"url":"https://pkg.go.dev/vuln/GO-2022-0001"}}],
"references":[{"type":"FIX","url":"https://go.dev/cl/1"},{"type":"REPORT","url":"https://go.dev/issue/1"}],
"credits":[{"name":"A. Person"}]}
=> GO-2022-0001

{"schema_version":"1.3.1","id":"GO-2022-0002","modified":"2022-02-04T00:00:00Z","published":"2022-02-03T00:00:00Z",
"aliases":["CVE-2022-0002"],"summary":"Panic in example.com/tool","details":"A malformed header causes a panic.",
"affected":[{"package":{"name":"example.com/tool","ecosystem":"Go"},
"ranges":[{"type":"SEMVER","events":[{"introduced":"0"},{"fixed":"0.3.1"}]}],
"ecosystem_specific":{"imports":[{"path":"example.com/tool/header","symbols":["Parse"]}]}}],
"references":[{"type":"FIX","url":"https://go.dev/cl/2"}],
"database_specific":{"url":"https://pkg.go.dev/vuln/GO-2022-0002","review_status":"REVIEWED"}}
=> at `affected[0]`: key `database_specific` is missing

{"schema_version":"1.3.1","id":"GO-2022-0003","modified":"2022-02-04T00:00:00Z","published":"2022-02-03T00:00:00Z",
"aliases":["CVE-2022-0003"],"details":"A malformed header causes a panic.","affected":[],
"references":[{"type":"WEB","url":"https://groups.google.com/g/golang-announce"}],
"database_specific":{"url":"https://pkg.go.dev/vuln/GO-2022-0003"}}
=> key `summary` is missing

{"schema_version":"1.3.1","id":"GO-2022-0004","modified":"2022-02-04T00:00:00Z","published":"2022-02-03T00:00:00Z",
"aliases":null,"summary":"Panic in example.com/tool","details":"A malformed header causes a panic.","affected":[],
"references":[{"type":"FIX","url":"https://go.dev/cl/4"}]}
=> at `aliases`: found `null`, expected a list

{"schema_version":"1.3.1","id":"GO-2022-0005","modified":"2022-02-04T00:00:00Z","published":"2022-02-03T00:00:00Z",
"aliases":["CVE-1999-0001"],"summary":"Panic in example.com/tool","details":"A malformed header causes a panic.","affected":[],
"references":[{"type":"FIX","url":"https://go.dev/cl/5"}]}
=> at `aliases[0]`: malformed advisory ID `CVE-1999-0001`, expected three parts at `-`: a prefix, a year from 2000 to 2100 and a number"#;

/// The examples of the page, likewise, with their IDs, packages, ranges and kinds of references, and shorter texts: in
/// the style of Go's, for a package that no one has; of GitHub's for npm; of OSS-Fuzz, with commits; of PyPA, with
/// commits, versions and a list; and of RustSec, of an older form than exports have. Each keeps the schema. Most are
/// not read.
const EXAMPLES: &str =
    r#"{"schema_version":"1.0.0","id":"GO-2021-99998","published":"2021-04-07T00:00:00Z","modified":"2021-04-08T00:00:00Z",
"aliases":["CVE-2021-99998"],"summary":"Panic in example.com/module","details":"A malformed input causes a panic.",
"affected":[{"package":{"ecosystem":"Go","name":"example.com/module"},
"ranges":[{"type":"SEMVER","events":[{"introduced":"1.0.0"},{"fixed":"1.14.14"},{"introduced":"1.15.0"},{"fixed":"1.15.17"}]}],
"ecosystem_specific":{"symbols":["F","(*T).M"],"goos":["linux"]},
"database_specific":{"url":"https://example.com/vuln/GO-2021-99998"}}],
"references":[{"type":"FIX","url":"https://example.com/cl/1"},{"type":"WEB","url":"https://example.com/issue/1"}]}
=> GO-2021-99998

{"schema_version":"1.2.0","id":"GHSA-r9p9-mrjm-926w","published":"2021-03-08T16:06:50Z","modified":"2021-03-08T16:02:43Z",
"aliases":["CVE-2020-28498"],"summary":"Use of a Broken or Risky Cryptographic Algorithm",
"details":"The npm package `elliptic` before version 6.5.4 is vulnerable via the secp256k1 implementation.",
"affected":[{"package":{"ecosystem":"npm","name":"elliptic"},
"ranges":[{"type":"SEMVER","events":[{"introduced":"0"},{"fixed":"6.5.4"}]}]}],
"references":[{"type":"WEB","url":"https://nvd.nist.gov/vuln/detail/CVE-2020-28498"},
{"type":"WEB","url":"https://www.npmjs.com/package/elliptic"}]}
=> at `affected[0]`: key `database_specific` is missing

{"schema_version":"1.3.0","id":"OSV-2020-584","published":"2020-07-01T00:00:18.401815Z","modified":"2021-03-09T04:49:05.965964Z",
"summary":"Heap-buffer-overflow in collator_compare_fuzzer.cpp","details":"Crash type: Heap-buffer-overflow WRITE 3\n",
"references":[{"type":"REPORT","url":"https://bugs.chromium.org/p/oss-fuzz/issues/detail?id=15499"}],
"affected":[{"package":{"name":"icu","ecosystem":"OSS-Fuzz"},
"ranges":[{"type":"GIT","repo":"https://github.com/unicode-org/icu.git",
"events":[{"introduced":"6e5755a2a833bc64852eae12967d0a54d7adf629"},{"fixed":"c43455749b914feef56b178b256f29b3016146eb"}]}],
"ecosystem_specific":{"severity":"HIGH"},"database_specific":{}}]}
=> at `affected[0].ranges[0].events[0].introduced`: malformed version `6e5755a2a833bc64852eae12967d0a54d7adf629`, expected one such as `1.2.3`

{"id":"PYSEC-2021-XXXX","published":"2021-04-01T20:15:00Z","modified":"2021-04-07T15:14:00Z","aliases":["CVE-2021-29421"],
"summary":"XXE in pikepdf","details":"models/metadata.py in the pikepdf package 2.8.0 through 2.9.2 allows XXE.",
"references":[{"type":"FIX","url":"https://github.com/pikepdf/pikepdf/commit/3f38f73218e5e782fe411ccbb3b44a793c0b343a"}],
"affected":[{"package":{"name":"pikepdf","ecosystem":"PyPI"},
"ranges":[{"type":"GIT","repo":"https://github.com/pikepdf/pikepdf",
"events":[{"introduced":"0"},{"fixed":"3f38f73218e5e782fe411ccbb3b44a793c0b343a"}]},
{"type":"ECOSYSTEM","events":[{"introduced":"2.8.0"},{"fixed":"2.10.0"}]}],
"versions":["2.8.0","2.8.0.post1","2.8.0.post2","2.9.0","2.9.1","2.9.2"],
"ecosystem_specific":{"severity":"HIGH"},"database_specific":{}}]}
=> at `affected[0].ranges[0].events[1].fixed`: malformed version `3f38f73218e5e782fe411ccbb3b44a793c0b343a`, expected one such as `1.2.3`

{"schema_version":"1.2.0","id":"RUSTSEC-2019-0033","published":"2019-11-16T00:00:00Z","modified":"2021-01-04T19:02:00Z",
"aliases":["CVE-2020-25574"],"summary":"Integer Overflow in HeaderMap::reserve() can cause Denial of Service",
"details":"HeaderMap::reserve() used usize::next_power_of_two() to calculate\nthe increased capacity.",
"references":[{"type":"REPORT","url":"https://github.com/hyperium/http/issues/352"},
{"type":"ADVISORY","url":"https://rustsec.org/advisories/RUSTSEC-2019-0033.html"}],
"affected":[{"package":{"name":"http","ecosystem":"crates.io"},
"ranges":[{"type":"SEMVER","events":[{"introduced":"0"},{"fixed":"0.1.20"}]}],
"ecosystem_specific":{"functions":["http::header::HeaderMap::reserve"],"keywords":["http","integer-overflow","DoS"],
"categories":["denial-of-service"],"severity":"HIGH"}}]}
=> at `affected[0]`: key `database_specific` is missing"#;

/// Returns whether an answer is a document with this ID, or a refusal with this message.
fn is_answer(answer: rustsec_values::Result<OsvAdvisory>, wanted: &str) -> bool {
    match answer {
        Ok(document) => document.id().as_str() == wanted,
        Err(e) => e.kind() == ErrorKind::Parse && e.message() == wanted,
    }
}

/// Returns the document of a row, and the ID or the message.
fn parts_of(row: &str) -> (&str, &str) {
    row.split_once("\n=> ").unwrap_or((row, ""))
}

/// Returns whether the document of a row is read and has its ID, or is refused with its message.
fn is_as_said(alloc: Global, row: &str) -> Result<bool, Fail> {
    let (text, wanted) = parts_of(row);
    let tree = Value::from_str(alloc, text)?;
    Ok(is_answer(OsvAdvisory::from_value(alloc, &tree), wanted))
}

#[test]
fn osv_reading(rt: HostRuntime) -> Result<(), Fail> {
    for row in GITHUB.split("\n\n").chain(GO.split("\n\n")) {
        assert!(rt; is_as_said(rt.alloc(), row)?, "{row}");
    }
    Ok(())
}

#[test]
fn osv_examples(rt: HostRuntime) -> Result<(), Fail> {
    for row in EXAMPLES.split("\n\n") {
        assert!(rt; keeps(rt.alloc(), parts_of(row).0)?, "{row}");
        assert!(rt; is_as_said(rt.alloc(), row)?, "{row}");
    }
    Ok(())
}
