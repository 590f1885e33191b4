//! The metadata of an advisory.

ghost use Rattle.std.specs.Prelude.{◌≡◌, IfErr, IfOk};
ghost use Rattle.rustsec_advisory.specs.FieldGroups.{kinds_of, origin_of, subject_of, terms_of};
ghost use Rattle.rustsec_values.specs.Failure.{IsMemory};

use rustsec_lock::package::Name;
use rustsec_lock::{Cvss, SourceId};
use rustsec_texts::{Address, Category, Collection, Date, Id, Informational, Keyword, License};
use rustsec_values::{ExactClone, ExactEq, Items, Result, Text};
use std::alloc::{AllocError, Global};

/// The metadata of an advisory: the table `advisory` of its document, and its title and description.
#[derive(Debug, PartialEq, Eq)]
pub struct Metadata {
    /// The ID.
    pub id: Id,
    /// The name of the package.
    pub package: Name,
    /// The title, which follows the front matter.
    pub title: Text,
    /// The description, which follows the title.
    pub description: Text,
    /// The day on which the vulnerability was disclosed.
    pub date: Date,
    /// IDs of the same vulnerability.
    pub aliases: Items<Id>,
    /// IDs of related vulnerabilities.
    pub related: Items<Id>,
    /// The collection of the package, if the file names it.
    pub collection: Option<Collection>,
    /// The categories of the vulnerability.
    pub categories: Items<Category>,
    /// Keywords to find the advisory by.
    pub keywords: Items<Keyword>,
    /// The CVSS vector, which gives the severity.
    pub cvss: Option<Cvss>,
    /// The concern, if the advisory is informational.
    pub informational: Option<Informational>,
    /// Addresses with more information.
    pub references: Items<Address>,
    /// The source of the package, if it is not the default registry.
    pub source: Option<SourceId>,
    /// The address of an announcement.
    pub url: Option<Address>,
    /// The day on which it was withdrawn, if it was.
    pub withdrawn: Option<Date>,
    /// The license of the text.
    pub license: License,
    /// Whether the package may be deleted from its registry.
    pub expect_deleted: bool,
}

/// The subject of an advisory: names, package and day.
#[derive(Drop)]
pub struct Subject {
    /// The ID.
    pub id: Id,
    /// The name of the package.
    pub name: Name,
    /// The day on which it was disclosed.
    pub date: Date,
    /// IDs of the same vulnerability.
    pub aliases: Items<Id>,
    /// IDs of related vulnerabilities.
    pub related: Items<Id>,
}

impl Subject {
    /// Returns a subject of these fields.
    fn new(id: Id, name: Name, date: Date, aliases: Items<Id>, related: Items<Id>) -> Subject
        ensures { result ≡ record { id = id; name = name; date = date; aliases = aliases; related = related } }
    {
        Subject {
            id,
            name,
            date,
            aliases,
            related,
        }
    }
}

/// The classification of the vulnerability.
#[derive(Drop)]
pub struct Kinds {
    /// The collection of the package, if the file names it.
    pub collection: Option<Collection>,
    /// The categories.
    pub categories: Items<Category>,
    /// Keywords to find the advisory by.
    pub keywords: Items<Keyword>,
    /// The CVSS vector, which gives the severity.
    pub cvss: Option<Cvss>,
    /// The concern, if the advisory is informational.
    pub informational: Option<Informational>,
}

impl Kinds {
    /// Returns a classification of these fields.
    fn new(
        collection: Option<Collection>,
        categories: Items<Category>,
        keywords: Items<Keyword>,
        cvss: Option<Cvss>,
        informational: Option<Informational>,
    ) -> Kinds
        ensures { result ≡ record {
          collection = collection;
          categories = categories;
          keywords = keywords;
          cvss = cvss;
          informational = informational;
        } }
    {
        Kinds {
            collection,
            categories,
            keywords,
            cvss,
            informational,
        }
    }
}

/// References of an advisory, the source of its package, and its address.
#[derive(Drop)]
pub struct Origin {
    /// Addresses with more information.
    pub references: Items<Address>,
    /// The source of the package, if it is not the default registry.
    pub source: Option<SourceId>,
    /// The address of an announcement.
    pub url: Option<Address>,
}

/// Withdrawal, license and expectation of deletion.
#[derive(Drop)]
pub struct Terms {
    /// The day on which it was withdrawn, if it was.
    pub withdrawn: Option<Date>,
    /// The license of the text.
    pub license: License,
    /// Whether the package may be deleted from its registry.
    pub expect_deleted: bool,
}

/// All fields of the metadata, in groups. Unlike `Metadata`, it can be taken apart field by field.
#[derive(Drop)]
pub struct MetadataParts {
    /// The title.
    pub title: Text,
    /// The description.
    pub description: Text,
    /// Names, package and day.
    pub subject: Subject,
    /// The classification.
    pub kinds: Kinds,
    /// References, source and address.
    pub origin: Origin,
    /// Withdrawal, license and expectation of deletion.
    pub terms: Terms,
}

/// Hand-written: a derived `Drop` is proved again, field by field, at every exit of every owner.
impl Drop for Metadata {
    fn drop(self) {
        let Metadata {
            id: _,
            package: _,
            title: _,
            description: _,
            date: _,
            aliases: _,
            related: _,
            collection: _,
            categories: _,
            keywords: _,
            cvss: _,
            informational: _,
            references: _,
            source: _,
            url: _,
            withdrawn: _,
            license: _,
            expect_deleted: _,
        } = self;
    }
}

impl Metadata {
    /// Returns the metadata with these parts. This takes no memory.
    pub(crate) fn from_parts(parts: MetadataParts) -> Metadata
        ensures { (subject_of result ≡ parts.subject) × ((kinds_of result ≡ parts.kinds) × ((origin_of result ≡ parts.origin)
            × ((terms_of result ≡ parts.terms) × ((result.title ≡ parts.title) × (result.description ≡ parts.description))))) }
    {
        let MetadataParts {
            title,
            description,
            subject,
            kinds,
            origin,
            terms,
        } = parts;
        Metadata {
            id: subject.id,
            package: subject.name,
            title,
            description,
            date: subject.date,
            aliases: subject.aliases,
            related: subject.related,
            collection: kinds.collection,
            categories: kinds.categories,
            keywords: kinds.keywords,
            cvss: kinds.cvss,
            informational: kinds.informational,
            references: origin.references,
            source: origin.source,
            url: origin.url,
            withdrawn: terms.withdrawn,
            license: terms.license,
            expect_deleted: terms.expect_deleted,
        }
    }

    /// Takes the metadata apart. This takes no memory.
    pub fn into_parts(self) -> MetadataParts
        ensures { result ≡ record {
          title = self.title;
          description = self.description;
          subject = subject_of self;
          kinds = kinds_of self;
          origin = origin_of self;
          terms = terms_of self;
        } }
    {
        let Metadata {
            id,
            package,
            title,
            description,
            date,
            aliases,
            related,
            collection,
            categories,
            keywords,
            cvss,
            informational,
            references,
            source,
            url,
            withdrawn,
            license,
            expect_deleted,
        } = self;
        MetadataParts {
            title,
            description,
            subject: Subject::new(id, package, date, aliases, related),
            kinds: Kinds::new(collection, categories, keywords, cvss, informational),
            origin: Origin {
                references,
                source,
                url,
            },
            terms: Terms {
                withdrawn,
                license,
                expect_deleted,
            },
        }
    }

    /// Returns a copy of the subject.
    fn subject(&self) -> std::result::Result<Subject, AllocError>
        ensures { IfOk result (λ s. s ≡ subject_of self.now) }
    {
        Ok(Subject {
            id: Clone::clone(&self.id)?,
            name: Clone::clone(&self.package)?,
            date: Clone::clone(&self.date)?,
            aliases: Clone::clone(&self.aliases)?,
            related: Clone::clone(&self.related)?,
        })
    }

    /// Returns a copy of the classification.
    fn kinds(&self) -> std::result::Result<Kinds, AllocError>
        ensures { IfOk result (λ k. k ≡ kinds_of self.now) }
    {
        Ok(Kinds {
            collection: self.collection,
            categories: Clone::clone(&self.categories)?,
            keywords: Clone::clone(&self.keywords)?,
            cvss: Clone::clone(&self.cvss)?,
            informational: Clone::clone(&self.informational)?,
        })
    }

    /// Returns a copy of references, source and address.
    fn origin(&self) -> std::result::Result<Origin, AllocError>
        ensures { IfOk result (λ o. o ≡ origin_of self.now) }
    {
        Ok(Origin {
            references: Clone::clone(&self.references)?,
            source: Clone::clone(&self.source)?,
            url: Clone::clone(&self.url)?,
        })
    }

    /// Returns a copy of withdrawal, license and expectation of deletion.
    fn terms(&self) -> std::result::Result<Terms, AllocError>
        ensures { IfOk result (λ t. t ≡ terms_of self.now) }
    {
        Ok(Terms {
            withdrawn: Clone::clone(&self.withdrawn)?,
            license: Clone::clone(&self.license)?,
            expect_deleted: self.expect_deleted,
        })
    }

    /// Returns an equal value.
    ///
    /// # Errors
    ///
    /// `OutOfMemory` alone.
    pub fn clone(&self, _alloc: Global) -> Result<Metadata>
        ensures ok { IfOk result (λ m. m ≡ self.now) }
        ensures err { IfErr result IsMemory }
    {
        let copy = Clone::clone(self)?;
        Ok(copy)
    }
}

impl Clone for Metadata {
    ghost is_clone = { λ a b. b ≡ a };

    fn clone(&self) -> std::result::Result<Metadata, AllocError> {
        let parts = MetadataParts {
            title: Clone::clone(&self.title)?,
            description: Clone::clone(&self.description)?,
            subject: self.subject()?,
            kinds: self.kinds()?,
            origin: self.origin()?,
            terms: self.terms()?,
        };
        Ok(Metadata::from_parts(parts))
    }
}

impl ExactClone for Metadata {
    ghost exact = { λ x y e. e };
}

impl ExactEq for Metadata {
    ghost use Rattle.rustsec_advisory.specs.EqualityLaws.{metadata_decides};

    ghost decides = { metadata_decides };
}
