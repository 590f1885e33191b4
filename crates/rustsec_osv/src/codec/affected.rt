//! Builds and reads the trees of a document's members of `affected`.

ghost use Rattle.rustsec_osv.specs.DocumentCodec.{affected_codec, affects_codec, database_codec, ecosystem_codec, package_codec};

use crate::affected::{
    OsvAffected, OsvDatabaseSpecific, OsvEcosystemSpecific, OsvEcosystemSpecificAffected,
    OsvPackage,
};
use rustsec_json::{FromTree, ToTree, fields_of, list_at, optional_at, put_at, required_at};
use rustsec_values::Result;
use serde_json::{Map, Value};
use std::alloc::{AllocError, Global};

impl ToTree for OsvPackage {
    ghost tree = { package_codec.tree };

    fn to_tree(&self, alloc: Global) -> std::result::Result<Value, AllocError> {
        let mut fields = Map::new(alloc);
        put_at(alloc, &mut fields, "ecosystem", &self.ecosystem)?;
        put_at(alloc, &mut fields, "name", &self.name)?;
        put_at(alloc, &mut fields, "purl", &self.purl)?;
        Ok(Value::from(fields))
    }
}

impl FromTree for OsvPackage {
    ghost reads = { package_codec.read };

    fn from_tree(alloc: Global, tree: &Value) -> Result<OsvPackage> {
        let fields = fields_of(alloc, tree)?;
        Ok(OsvPackage {
            ecosystem: required_at(alloc, fields, "ecosystem")?,
            name: required_at(alloc, fields, "name")?,
            purl: optional_at(alloc, fields, "purl")?,
        })
    }
}

impl ToTree for OsvEcosystemSpecificAffected {
    ghost tree = { affects_codec.tree };

    fn to_tree(&self, alloc: Global) -> std::result::Result<Value, AllocError> {
        let mut fields = Map::new(alloc);
        put_at(alloc, &mut fields, "arch", &self.arch)?;
        put_at(alloc, &mut fields, "os", &self.os)?;
        put_at(alloc, &mut fields, "functions", &self.functions)?;
        Ok(Value::from(fields))
    }
}

impl FromTree for OsvEcosystemSpecificAffected {
    ghost reads = { affects_codec.read };

    fn from_tree(alloc: Global, tree: &Value) -> Result<OsvEcosystemSpecificAffected> {
        let fields = fields_of(alloc, tree)?;
        Ok(OsvEcosystemSpecificAffected {
            arch: required_at(alloc, fields, "arch")?,
            os: required_at(alloc, fields, "os")?,
            functions: required_at(alloc, fields, "functions")?,
        })
    }
}

impl ToTree for OsvEcosystemSpecific {
    ghost tree = { ecosystem_codec.tree };

    fn to_tree(&self, alloc: Global) -> std::result::Result<Value, AllocError> {
        let mut fields = Map::new(alloc);
        let functions = &self.affected_functions;
        put_at(alloc, &mut fields, "affects", &self.affects)?;
        put_at(alloc, &mut fields, "affected_functions", functions)?;
        Ok(Value::from(fields))
    }
}

impl FromTree for OsvEcosystemSpecific {
    ghost reads = { ecosystem_codec.read };

    fn from_tree(alloc: Global, tree: &Value) -> Result<OsvEcosystemSpecific> {
        let fields = fields_of(alloc, tree)?;
        Ok(OsvEcosystemSpecific {
            affects: optional_at(alloc, fields, "affects")?,
            affected_functions: optional_at(alloc, fields, "affected_functions")?,
        })
    }
}

impl ToTree for OsvDatabaseSpecific {
    ghost tree = { database_codec.tree };

    fn to_tree(&self, alloc: Global) -> std::result::Result<Value, AllocError> {
        let mut fields = Map::new(alloc);
        put_at(alloc, &mut fields, "categories", &self.categories)?;
        put_at(alloc, &mut fields, "cvss", &self.cvss)?;
        put_at(alloc, &mut fields, "informational", &self.informational)?;
        Ok(Value::from(fields))
    }
}

impl FromTree for OsvDatabaseSpecific {
    ghost reads = { database_codec.read };

    fn from_tree(alloc: Global, tree: &Value) -> Result<OsvDatabaseSpecific> {
        let fields = fields_of(alloc, tree)?;
        Ok(OsvDatabaseSpecific {
            categories: list_at(alloc, fields, "categories")?,
            cvss: optional_at(alloc, fields, "cvss")?,
            informational: optional_at(alloc, fields, "informational")?,
        })
    }
}

impl ToTree for OsvAffected {
    ghost tree = { affected_codec.tree };

    fn to_tree(&self, alloc: Global) -> std::result::Result<Value, AllocError> {
        let mut fields = Map::new(alloc);
        let ecosystem = &self.ecosystem_specific;
        let database = &self.database_specific;
        put_at(alloc, &mut fields, "package", &self.package)?;
        put_at(alloc, &mut fields, "ecosystem_specific", ecosystem)?;
        put_at(alloc, &mut fields, "database_specific", database)?;
        put_at(alloc, &mut fields, "ranges", &self.ranges)?;
        put_at(alloc, &mut fields, "versions", &self.versions)?;
        Ok(Value::from(fields))
    }
}

impl FromTree for OsvAffected {
    ghost reads = { affected_codec.read };

    fn from_tree(alloc: Global, tree: &Value) -> Result<OsvAffected> {
        let fields = fields_of(alloc, tree)?;
        let package = required_at(alloc, fields, "package")?;
        let ecosystem_specific = optional_at(alloc, fields, "ecosystem_specific")?;
        let database_specific = required_at(alloc, fields, "database_specific")?;
        let ranges = optional_at(alloc, fields, "ranges")?;
        let versions = optional_at(alloc, fields, "versions")?;
        Ok(OsvAffected {
            package,
            ecosystem_specific,
            database_specific,
            ranges,
            versions,
        })
    }
}
