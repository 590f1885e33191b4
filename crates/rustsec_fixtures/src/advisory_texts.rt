//! Advisory files that tests share.

use crate::values::kind_of;
use rustsec_advisory::Advisory;
use rustsec_values::ErrorKind;
use std::alloc::Global;
use std::test::Fail;

/// A valid advisory, without lint errors.
pub const VALID: &str = "```toml
[advisory]
id = \"RUSTSEC-2001-2101\"
package = \"base\"
date = \"2001-02-03\"
url = \"https://www.youtube.com/watch?v=jQE66WA2s-A\"
categories = [\"code-execution\", \"privilege-escalation\"]
keywords = [\"how\", \"are\", \"you\", \"gentlemen\"]
aliases = [\"CVE-2001-2101\"]
cvss = \"CVSS:3.1/AV:N/AC:L/PR:N/UI:N/S:C/C:H/I:H/A:H\"

[versions]
patched = [\">= 1.2.3\"]

[affected]
arch = [\"x86\"]
os = [\"windows\"]
functions = { \"base::belongs::All\" = [\"< 1.2.3\"] }
```

# All your base are belong to us

You have no chance to survive. Make your time.
";

/// An advisory with seven lint errors.
pub const INVALID: &str = "```toml
[advisory]
id = \"LULZSEC-2001-2101\"
package = \"base\"
collection = \"crates\"
date = \"2001-02-03\"
url = \"ftp://www.youtube.com/watch?v=jQE66WA2s-A\"
categories = [\"invalid-category\"]
keywords = [\"how\", \"are\", \"you\", \"gentlemen\"]
aliases = [\"CVE-2001-2101\"]
cvss = \"CVSS:3.1/AV:N/AC:L/PR:N/UI:N/S:C/C:H/I:H/A:H\"
invalid-advisory-key = \"invalid\"

[versions]
patched = [\">= 1.2.3\"]

[affected]
arch = [\"x86\"]
os = [\"windows\"]
functions = { \"notyourbase::belongs::All\" = [\"< 1.2.3\"] }

[invalid-section]
```

# All your base are belong to us

You have no chance to survive. Make your time.
";

/// Its lint errors, if its file is not a draft's.
pub const INVALID_ERRORS: &[&str] = &[
    "invalid value `invalid-category` for key `category` in [advisory]: unknown category",
    "malformed content in [advisory]: collection shouldn't be explicit; inferred by location",
    "invalid value `\"LULZSEC-2001-2101\"` for key `id` in [advisory]: unknown advisory ID type",
    "invalid key `invalid-advisory-key` in [advisory]",
    "invalid value `\"ftp://www.youtube.com/watch?v=jQE66WA2s-A\"` for key `url` in [advisory]: URL must start with https://",
    "invalid value `notyourbase::belongs::All` for key `functions` in [affected]: function path must start with crate name",
    "invalid key `invalid-section` in toplevel",
];

/// An advisory with no more than it must have.
pub const SHORT: &str = "```toml
[advisory]
id = \"RUSTSEC-2001-2101\"
package = \"base\"
date = \"2001-02-03\"

[versions]
patched = [\">= 1.2.3\"]
```

# T

D
";

/// The OSV document of `SHORT`, as changed on the first day of 2020.
pub const SHORT_DOCUMENT: &str =
    r#"{"affected":[{"database_specific":{"categories":[],"cvss":null,"informational":null},"ecosystem_specific":{"affected_functions":null,"affects":{"arch":[],"functions":[],"os":[]}},"package":{"ecosystem":"crates.io","name":"base","purl":"pkg:cargo/base"},"ranges":[{"events":[{"introduced":"0.0.0-0"},{"fixed":"1.2.3"}],"type":"SEMVER"}],"versions":[]}],"aliases":[],"database_specific":{"license":"CC0-1.0"},"details":"D","id":"RUSTSEC-2001-2101","modified":"2020-01-01T00:00:00Z","published":"2001-02-03T12:00:00Z","references":[{"type":"PACKAGE","url":"https://crates.io/crates/base"},{"type":"ADVISORY","url":"https://rustsec.org/advisories/RUSTSEC-2001-2101.html"}],"related":[],"severity":[],"summary":"T"}"#;

/// Returns a text with the first place of another text replaced.
pub fn changed(alloc: Global, text: &str, old: &str, new: &str) -> Result<String, Fail> {
    let (before, after) = text.split_once(old).ok_or("there is nothing to change")?;
    Ok(format!(in alloc; "{before}{new}{after}")?)
}

/// Returns whether a text is an advisory; none if it is refused for another reason than its form.
pub fn acceptance(alloc: Global, text: &str) -> Option<bool> {
    match kind_of(Advisory::from_str(alloc, text)) {
        None => Some(true),
        Some(ErrorKind::Parse) => Some(false),
        Some(_) => None,
    }
}

/// Returns whether the valid advisory is still one after a replacement of the first place of a text.
pub fn acceptance_with(alloc: Global, old: &str, new: &str) -> Result<Option<bool>, Fail> {
    let text = changed(alloc, VALID, old, new)?;
    Ok(acceptance(alloc, &text))
}
