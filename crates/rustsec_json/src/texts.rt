//! Types whose JSON tree is a string.

ghost use Rattle.serde_json.specs.Data.{string};
ghost use Rattle.rustsec_json.specs.Fields.{text};

use crate::make::ToTree;
use crate::read::{FromTree, read_text};
use crate::refusal::unexpected_error;
use rustsec_lock::package::Name;
use rustsec_lock::platforms::{Arch, OS};
use rustsec_lock::{Cvss, SourceId};
use rustsec_texts::{
    Address, Category, Collection, Date, FunctionPath, Id, Informational, Keyword, License,
};
use rustsec_values::{Result, Text};
use serde_json::Value;
use std::alloc::{AllocError, Global};

impl ToTree for Text {
    ghost use Rattle.serde_json.specs.Data.{string};

    ghost tree = { λ t. string t };

    fn to_tree(&self, alloc: Global) -> std::result::Result<Value, AllocError> {
        Value::try_from_str(alloc, self.as_str())
    }
}

impl FromTree for Text {
    ghost use Rattle.std.specs.Prelude.{Some};
    ghost use Rattle.rustsec_json.specs.Fields.{text};

    ghost reads = { text (λ text. Some text) };

    fn from_tree(alloc: Global, tree: &Value) -> Result<Text> {
        match tree.as_str() {
            Some(text) => Ok(Text::from_str(alloc, text)?),
            None => Err(unexpected_error(alloc, tree, "a string")),
        }
    }
}

impl ToTree for Id {
    ghost use Rattle.serde_json.specs.Data.{string};

    ghost tree = { λ t. string t.text };

    fn to_tree(&self, alloc: Global) -> std::result::Result<Value, AllocError> {
        Value::try_from_str(alloc, self.as_str())
    }
}

impl FromTree for Id {
    ghost use Rattle.rustsec_json.specs.Fields.{text};
    ghost use Rattle.rustsec_texts.specs.Ids.{id_of};

    ghost reads = { text (id_of) };

    fn from_tree(alloc: Global, tree: &Value) -> Result<Id> {
        read_text(alloc, tree)
    }
}

impl ToTree for Category {
    ghost use Rattle.serde_json.specs.Data.{string};
    ghost use Rattle.rustsec_texts.specs.Categories.{category_name};

    ghost tree = { λ t. string (category_name t) };

    fn to_tree(&self, alloc: Global) -> std::result::Result<Value, AllocError> {
        Value::try_from_str(alloc, self.name())
    }
}

impl FromTree for Category {
    ghost use Rattle.std.specs.Prelude.{Some};
    ghost use Rattle.rustsec_json.specs.Fields.{text};
    ghost use Rattle.rustsec_texts.specs.Categories.{category_of};

    ghost reads = { text (λ text. Some (category_of text)) };

    fn from_tree(alloc: Global, tree: &Value) -> Result<Category> {
        read_text(alloc, tree)
    }
}

impl ToTree for Informational {
    ghost use Rattle.serde_json.specs.Data.{string};
    ghost use Rattle.rustsec_texts.specs.Informational.{informational_name};

    ghost tree = { λ t. string (informational_name t) };

    fn to_tree(&self, alloc: Global) -> std::result::Result<Value, AllocError> {
        Value::try_from_str(alloc, self.as_str())
    }
}

impl FromTree for Informational {
    ghost use Rattle.std.specs.Prelude.{Some};
    ghost use Rattle.rustsec_json.specs.Fields.{text};
    ghost use Rattle.rustsec_texts.specs.Informational.{informational_of};

    ghost reads = { text (λ text. Some (informational_of text)) };

    fn from_tree(alloc: Global, tree: &Value) -> Result<Informational> {
        read_text(alloc, tree)
    }
}

impl ToTree for Arch {
    ghost use Rattle.serde_json.specs.Data.{string};
    ghost use Rattle.rustsec_lock.specs.Platforms.{arch_text};

    ghost tree = { λ t. string (arch_text t) };

    fn to_tree(&self, alloc: Global) -> std::result::Result<Value, AllocError> {
        Value::try_from_str(alloc, self.as_str())
    }
}

impl FromTree for Arch {
    ghost use Rattle.rustsec_json.specs.Fields.{text};
    ghost use Rattle.rustsec_lock.specs.Platforms.{arch_of};

    ghost reads = { text (arch_of) };

    fn from_tree(alloc: Global, tree: &Value) -> Result<Arch> {
        read_text(alloc, tree)
    }
}

impl ToTree for OS {
    ghost use Rattle.serde_json.specs.Data.{string};
    ghost use Rattle.rustsec_lock.specs.Platforms.{os_text};

    ghost tree = { λ t. string (os_text t) };

    fn to_tree(&self, alloc: Global) -> std::result::Result<Value, AllocError> {
        Value::try_from_str(alloc, self.as_str())
    }
}

impl FromTree for OS {
    ghost use Rattle.rustsec_json.specs.Fields.{text};
    ghost use Rattle.rustsec_lock.specs.Platforms.{os_of};

    ghost reads = { text (os_of) };

    fn from_tree(alloc: Global, tree: &Value) -> Result<OS> {
        read_text(alloc, tree)
    }
}

impl ToTree for Address {
    ghost use Rattle.serde_json.specs.Data.{string};

    ghost tree = { λ t. string t };

    fn to_tree(&self, alloc: Global) -> std::result::Result<Value, AllocError> {
        Value::try_from_str(alloc, self.as_str())
    }
}

impl FromTree for Address {
    ghost use Rattle.rustsec_json.specs.Fields.{text};
    ghost use Rattle.rustsec_texts.specs.Addresses.{address_of};

    ghost reads = { text (address_of) };

    fn from_tree(alloc: Global, tree: &Value) -> Result<Address> {
        read_text(alloc, tree)
    }
}

impl ToTree for Cvss {
    ghost use Rattle.serde_json.specs.Data.{string};
    ghost use Rattle.rustsec_lock.specs.Cvss.{cvss_text};

    ghost tree = { λ t. string (cvss_text t) };

    fn to_tree(&self, alloc: Global) -> std::result::Result<Value, AllocError> {
        let text = self.to_string(alloc)?;
        Ok(Value::from(text))
    }
}

impl FromTree for Cvss {
    ghost use Rattle.rustsec_json.specs.Fields.{text};
    ghost use Rattle.rustsec_lock.specs.Cvss.{cvss_of};

    ghost reads = { text (cvss_of) };

    fn from_tree(alloc: Global, tree: &Value) -> Result<Cvss> {
        read_text(alloc, tree)
    }
}

impl ToTree for FunctionPath {
    ghost use Rattle.serde_json.specs.Data.{string};
    ghost use Rattle.rustsec_texts.specs.Paths.{path_text};

    ghost tree = { λ t. string (path_text t) };

    fn to_tree(&self, alloc: Global) -> std::result::Result<Value, AllocError> {
        let text = self.to_string(alloc)?;
        Ok(Value::from(text))
    }
}

impl FromTree for FunctionPath {
    ghost use Rattle.rustsec_json.specs.Fields.{text};
    ghost use Rattle.rustsec_texts.specs.Paths.{path_of};

    ghost reads = { text (path_of) };

    fn from_tree(alloc: Global, tree: &Value) -> Result<FunctionPath> {
        read_text(alloc, tree)
    }
}

impl ToTree for Name {
    ghost use Rattle.serde_json.specs.Data.{string};

    ghost tree = { λ t. string t };

    fn to_tree(&self, alloc: Global) -> std::result::Result<Value, AllocError> {
        Value::try_from_str(alloc, self.as_str())
    }
}

impl ToTree for Date {
    ghost use Rattle.serde_json.specs.Data.{string};

    ghost tree = { λ t. string t };

    fn to_tree(&self, alloc: Global) -> std::result::Result<Value, AllocError> {
        Value::try_from_str(alloc, self.as_str())
    }
}

impl ToTree for Keyword {
    ghost use Rattle.serde_json.specs.Data.{string};

    ghost tree = { λ t. string t };

    fn to_tree(&self, alloc: Global) -> std::result::Result<Value, AllocError> {
        Value::try_from_str(alloc, self.as_str())
    }
}

impl ToTree for Collection {
    ghost use Rattle.serde_json.specs.Data.{string};
    ghost use Rattle.rustsec_texts.specs.Collections.{collection_name};

    ghost tree = { λ t. string (collection_name t) };

    fn to_tree(&self, alloc: Global) -> std::result::Result<Value, AllocError> {
        Value::try_from_str(alloc, self.as_str())
    }
}

impl ToTree for License {
    ghost use Rattle.serde_json.specs.Data.{string};
    ghost use Rattle.rustsec_texts.specs.Licenses.{license_name};

    ghost tree = { λ t. string (license_name t) };

    fn to_tree(&self, alloc: Global) -> std::result::Result<Value, AllocError> {
        Value::try_from_str(alloc, self.spdx())
    }
}

impl ToTree for SourceId {
    ghost use Rattle.serde_json.specs.Data.{string};
    ghost use Rattle.rustsec_lock.specs.Source.{source_text};

    ghost tree = { λ t. string (source_text t) };

    fn to_tree(&self, alloc: Global) -> std::result::Result<Value, AllocError> {
        let text = self.to_string(alloc)?;
        Ok(Value::from(text))
    }
}
