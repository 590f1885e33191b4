//! The advisories of the example: each with the path that it would have in the database.

/// The path and the text of each advisory.
pub const ADVISORIES: &[(&str, &str)] = &[
    ("crates/lantern/RUSTSEC-2023-9101.md", LANTERN),
    ("crates/marrow/RUSTSEC-2024-9102.md", MARROW),
];

/// An advisory that is rated critical.
const LANTERN: &str = "```toml
[advisory]
id = \"RUSTSEC-2023-9101\"
package = \"lantern\"
date = \"2023-06-19\"
cvss = \"CVSS:3.1/AV:N/AC:L/PR:N/UI:N/S:U/C:H/I:H/A:H\"

[versions]
patched = [\">= 0.6.2\", \"^0.4.12\"]
unaffected = [\"< 0.4.0\"]
```

# A long header writes past a buffer

Upgrade.
";

/// An advisory that is rated low.
const MARROW: &str = "```toml
[advisory]
id = \"RUSTSEC-2024-9102\"
package = \"marrow\"
date = \"2024-07-01\"
cvss = \"CVSS:3.1/AV:L/AC:H/PR:L/UI:N/S:U/C:L/I:N/A:N\"

[versions]
patched = [\">= 2.8.0\"]
```

# A log line tells the length of a secret

Upgrade.
";
