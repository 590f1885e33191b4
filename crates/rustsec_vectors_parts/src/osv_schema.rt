//! Documents that keep or break each rule of the OSV schema, by `validation/schema.json`.

use rustsec_fixtures::{changed, field};
use rustsec_osv_rules::is_osv_schema;
use serde_json::Value;
use std::alloc::Global;
use std::process::Abort;
use std::test::Fail;

/// Tables. The first line of each names the rules, and has a document with the two required keys. The others have what
/// is in it at `@`, and whether the schema allows it.
const RULES: &str = r#"
Keys, texts and times (`properties`, `$defs.timestamp`) | {"id":"RUSTSEC-2021-0001","modified":"2021-02-03T04:05:06Z"@}
yes |
yes | ,"schema_version":"1.7.0"
no | ,"schema_version":1
no | ,"other":1
yes | ,"published":"2024-02-29T23:59:59.123Z"
no | ,"published":"2023-02-29T00:00:00Z"
no | ,"published":"2021-02-03T04:05:06"
no | ,"published":"2021-02-03T04:05:06+00:00"
no | ,"published":"2021-02-03T24:00:00Z"
no | ,"published":"2021-02-03T04:05:06.Z"
no | ,"published":null
yes | ,"withdrawn":"2016-12-31T23:59:60Z"
no | ,"withdrawn":"2016-12-30T23:59:60Z"
no | ,"withdrawn":"2021-13-01T00:00:00Z"

Lists, one line, and the object (`aliases`, `upstream`, `summary`, `details`, `database_specific`) | {"id":"RUSTSEC-2021-0001","modified":"2021-02-03T04:05:06Z"@}
yes | ,"aliases":["CVE-2021-1","x"]
yes | ,"aliases":null
no | ,"aliases":[1]
no | ,"aliases":"CVE-2021-1"
yes | ,"related":[],"upstream":["GHSA-x"]
no | ,"upstream":{}
yes | ,"summary":"one line"
no | ,"summary":"two\nlines"
no | ,"summary":"two\rlines"
yes | ,"details":"two\nlines"
no | ,"details":null
yes | ,"database_specific":{"a":[null]}
no | ,"database_specific":null

References and credits | {"id":"RUSTSEC-2021-0001","modified":"2021-02-03T04:05:06Z"@}
yes | ,"references":[{"type":"EVIDENCE","url":"https://a/"}]
no | ,"references":[{"type":"PAGE","url":"https://a/"}]
no | ,"references":[{"type":"WEB"}]
yes | ,"references":null
yes | ,"credits":[{"name":"A","contact":["https://a/"],"type":"FINDER"}]
yes | ,"credits":[{"name":"A"}]
no | ,"credits":[{"name":"A","type":"finder"}]
no | ,"credits":[{"type":"TOOL"}]
no | ,"credits":null
yes | ,"severity":null,"affected":null
yes | ,"severity":[],"affected":[{"severity":null}]
no | ,"severity":[],"affected":[{"severity":[]}]
yes | ,"affected":[{"severity":[]}]

Severities (`$defs.severity`) | {"id":"RUSTSEC-2021-0001","modified":"2021-02-03T04:05:06Z","severity":[@]}
yes | {"type":"CVSS_V3","score":"CVSS:3.1/AV:N/AC:H/PR:N/UI:N/S:C/C:H/I:N/A:N"}
yes | {"type":"CVSS_V3","score":"CVSS:3.0/A:H/E:X"}
no | {"type":"CVSS_V3","score":"CVSS:3.2/A:H"}
no | {"type":"CVSS_V3","score":"CVSS:3.1/"}
no | {"type":"CVSS_V3","score":"CVSS:3.1/A:H/"}
no | {"type":"CVSS_V3","score":"CVSS:3.1/A:X"}
yes | {"type":"CVSS_V2","score":"AV:N/AC:L/Au:N/C:N/I:N/A:C/E:POC"}
no | {"type":"CVSS_V2","score":"AV:P"}
yes | {"type":"Ubuntu","score":"medium"}
no | {"type":"Ubuntu","score":"Medium"}
no | {"type":"CVSS_V5","score":"x"}
no | {"score":"CVSS:3.1/A:H"}
no | {"type":"CVSS_V3"}

Vectors of CVSS 4 | {"id":"RUSTSEC-2021-0001","modified":"2021-02-03T04:05:06Z","severity":[{"type":"CVSS_V4","score":"@"}]}
yes | CVSS:4.0/AV:N/AC:L/AT:N/PR:N/UI:N/VC:H/VI:H/VA:H/SC:N/SI:N/SA:N
yes | CVSS:4.0/AV:N/AC:L/AT:N/PR:N/UI:N/VC:H/VI:H/VA:H/SC:N/SI:N/SA:N/E:A/MSI:S/U:Amber
no | CVSS:4.0/AV:N/AC:L/AT:N/PR:N/UI:N/VC:H/VI:H/VA:H/SC:N/SI:N/SA:N/U:Amber/E:A
no | CVSS:4.0/AC:L/AV:N/AT:N/PR:N/UI:N/VC:H/VI:H/VA:H/SC:N/SI:N/SA:N
no | CVSS:4.0/AV:N/AC:L/AT:N/PR:N/UI:N/VC:H/VI:H/VA:H/SC:N/SI:N
no | CVSS:4.0/AV:N/AC:L/AT:N/PR:N/UI:N/VC:H/VI:H/VA:H/SC:N/SI:N/SA:N/
no | CVSS:4.0/x

Members of `affected`, packages and versions | {"id":"RUSTSEC-2021-0001","modified":"2021-02-03T04:05:06Z","affected":[@]}
yes | {}
no | 1
yes | {"package":{"ecosystem":"crates.io","name":"base","purl":"pkg:cargo/base"}}
yes | {"package":{"ecosystem":"Debian:11","name":"base"}}
no | {"package":{"ecosystem":"Debian:","name":"base"}}
no | {"package":{"ecosystem":"cargo","name":"base"}}
no | {"package":{"ecosystem":"npm"}}
no | {"package":{"name":"base"}}
no | {"package":null}
yes | {"versions":["1.0.0","1"]}
no | {"versions":[1]}
yes | {"ecosystem_specific":{},"database_specific":{}}
no | {"database_specific":[]}

Ranges and their events | {"id":"RUSTSEC-2021-0001","modified":"2021-02-03T04:05:06Z","affected":[{"ranges":[@]}]}
yes | {"type":"SEMVER","events":[{"introduced":"0"}]}
yes | {"type":"ECOSYSTEM","events":[{"introduced":"0"},{"fixed":"1"},{"limit":"2"}]}
yes | {"type":"SEMVER","events":[{"introduced":"0"},{"last_affected":"1.0.0"}]}
no | {"type":"SEMVER","events":[{"introduced":"0"},{"fixed":"1.0.0"},{"last_affected":"2.0.0"}]}
no | {"type":"SEMVER","events":[{"fixed":"1.0.0"}]}
no | {"type":"SEMVER","events":[]}
no | {"type":"SEMVER","events":[{"introduced":"0","fixed":"1.0.0"}]}
no | {"type":"SEMVER","events":[{"introduced":0}]}
no | {"type":"SEMVER","events":[{"introduced":"0"},{}]}
no | {"type":"SEMVER"}
no | {"type":"semver","events":[{"introduced":"0"}]}
no | {"type":"GIT","events":[{"introduced":"0"}]}
yes | {"type":"GIT","repo":"https://a/","events":[{"introduced":"0"}]}
"#;

/// Whole documents.
const DOCUMENTS: &str = r#"
The required keys, and IDs | @
no | {"id":"CVE-2021-1"}
no | {"modified":"2021-02-03T04:05:06Z"}
yes | {"id":"CVE-","modified":"2021-02-03T04:05:06Z"}
yes | {"id":"SUSE-SU-2021:1","modified":"2021-02-03T04:05:06Z"}
no | {"id":"TALOS-2021-1","modified":"2021-02-03T04:05:06Z"}
no | {"id":"cve-2021-1","modified":"2021-02-03T04:05:06Z"}
no | {"id":"","modified":"2021-02-03T04:05:06Z"}
no | {"id":null,"modified":"2021-02-03T04:05:06Z"}
no | {"id":"CVE-2021-1","modified":"today"}
no | []
no | null
"#;

/// Returns whether the document of a text keeps the schema.
pub(crate) fn keeps(alloc: Global, text: &str) -> Result<bool, Fail> {
    Ok(is_osv_schema(&Value::from_str(alloc, text)?))
}

/// Returns whether a document with the text of a row is as the row says.
fn is_as_said(alloc: Global, document: &str, row: &str) -> Result<bool, Fail> {
    let text = changed(alloc, document, "@", field(row, 1))?;
    Ok(keeps(alloc, &text)? == (field(row, 0) == "yes"))
}

/// Checks each row of a table.
fn check<T: AllocGlobal + Abort>(rt: &T, table: &str) -> Result<(), Fail> {
    let (head, rows) = table.trim().split_once('\n').ok_or("no row")?;
    for row in rows.lines() {
        assert!(rt; is_as_said(rt.alloc(), field(head, 1), row)?, "{row}");
    }
    Ok(())
}

#[test]
fn osv_schema_rules(rt: HostRuntime) -> Result<(), Fail> {
    for table in RULES.split("\n\n") {
        check(&rt, table)?;
    }
    Ok(())
}

#[test]
fn osv_schema_documents(rt: HostRuntime) -> Result<(), Fail> {
    check(&rt, DOCUMENTS)
}
