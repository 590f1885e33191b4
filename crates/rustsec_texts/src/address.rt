//! Addresses (URL Standard), each kept as the text that it prints.

ghost use Rattle.std.specs.Prelude.{◌≡◌, IfErr, IfOk, IsAscii, None, Ok, Some, nat_eq};
ghost use Rattle.std.specs.Cmp.{partial_equiv_from_equiv};
ghost use Rattle.std.specs.Cmp.Lexicographic.{bytes_decides, nat_list_eq_equiv, pointwise};
ghost use Rattle.url.specs.Parser.{parse_url};
ghost use Rattle.url.specs.Parts.{serialize};
ghost use Rattle.rustsec_texts.specs.Addresses.{address_of, unless_no_room};
ghost use Rattle.rustsec_values.specs.Failure.{IsMemory, IsRefusal};

use rustsec_values::{
    Error, ErrorKind, ExactClone, ExactEq, FromText, Result, Text, text_error_with_cause,
};
use std::alloc::{AllocError, Global};
use std::convert::AsStr;
use std::fmt;
use std::marker::Model;
use url::{ParseError, ParseResult, Url};

/// An address (URL Standard), kept as the text that it prints. Parsing that text gives the same address.
#[derive(Clone, Debug, Drop)]
pub struct Address {
    text: Text,
}

impl Model for Address {
    ghost use Rattle.std.specs.Prelude.{ℕ, List};
    ghost use Rattle.rustsec_texts.specs.Addresses.{IsAddress};

    ghost Value = { List ℕ };

    ghost view = { λ a. a.text };

    ghost invariant = { λ a. IsAddress a.text };
}

/// Returns the parsed address, or none if the parser refuses the text. Only a lack of room is an error.
fn unless_no_room(parsed: ParseResult<Url>) -> std::result::Result<Option<Url>, AllocError>
    ensures { result ≡ unless_no_room parsed }
{
    match parsed {
        Ok(url) => Ok(Some(url)),
        Err(ParseError::OutOfMemory | ParseError::Overflow) => Err(AllocError),
        Err(_) => Ok(None),
    }
}

/// Returns the parser's reason to refuse a text.
fn reason(alloc: Global, parsed: &ParseResult<Url>) -> std::result::Result<String, AllocError> {
    match parsed {
        Ok(_) => Ok(String::new(alloc)),
        Err(why) => format!(in alloc; "{why}"),
    }
}

/// Returns the address for a text that the parser reads as this URL.
fn read_from(url: Url, text: &str) -> Address
    requires { parse_url None text.now ≡ Ok url }
    ensures { address_of text.now ≡ Some result }
{
    // The contract of `as_str` states that a `Url` is valid; this call brings that fact into the proof.
    let _text = url.as_str();
    Address {
        text: Text::from(String::from(url)),
    }
}

impl Address {
    /// Parses an address (URL Standard).
    ///
    /// # Errors
    ///
    /// `Parse` if the URL Standard's parser refuses the text; the cause is its reason. Else `OutOfMemory`. An address of 4 GB
    /// or more is `OutOfMemory` too, since a `Url` cannot hold it.
    pub fn from_str(alloc: Global, text: &str) -> Result<Address>
        ensures ok { IfOk result (λ a. address_of text.now ≡ Some a) }
        ensures err { IfErr result (IsRefusal ErrorKind.Parse (address_of text.now ≡ None)) }
    {
        let parsed = Url::parse(alloc, text);
        let reason = reason(alloc, &parsed)?;
        match unless_no_room(parsed)? {
            Some(url) => Ok(read_from(url, text)),
            None => Err(text_error_with_cause(
                alloc,
                "not an address",
                text,
                "an absolute URL",
                &reason,
            )),
        }
    }

    /// Returns the address as a `Url`.
    ///
    /// # Errors
    ///
    /// `OutOfMemory` alone. An address of 4 GB or more is `OutOfMemory` too, since a `Url` cannot hold it.
    pub fn to_url(&self, alloc: Global) -> Result<Url>
        ensures text { IfOk result (λ url. serialize url ≡ self.now) }
        ensures parsed { IfOk result (λ url. parse_url None self.now ≡ Ok url) }
        ensures err { IfErr result IsMemory }
    {
        match Url::parse(alloc, self.as_str()) {
            Ok(url) => Ok(url),
            // The text is an address, so the parser refuses it only for lack of room.
            Err(_) => Err(Error::from(AllocError)),
        }
    }

    /// Returns the text that it prints.
    pub fn as_str(&self) -> &str
        ensures value { result.now ≡ self.now }

        // Parsing the text gives the same address, whatever its scheme.
        ensures read_again { address_of self.now ≡ Some self.now }
        ensures ascii { IsAscii result.now }
    {
        self.text.as_str()
    }

    /// Returns an equal address.
    ///
    /// # Errors
    ///
    /// `OutOfMemory` alone.
    pub fn clone(&self, _alloc: Global) -> Result<Address>
        ensures ok { IfOk result (λ a. a ≡ self.now) }
        ensures err { IfErr result IsMemory }
    {
        let copy = Clone::clone(self)?;
        Ok(copy)
    }
}

impl ExactClone for Address {
    ghost use Rattle.std.proofs.Common.{rules};

    ghost exact = { λ x y e. Prim.search rules };
}

impl PartialEq for Address {
    ghost eq = { pointwise nat_eq };

    ghost laws = { partial_equiv_from_equiv nat_list_eq_equiv };

    fn eq(&self, other: &Address) -> bool {
        self.as_str() == other.as_str()
    }
}

impl Eq for Address {
    ghost laws = { nat_list_eq_equiv };
}

impl ExactEq for Address {
    ghost decides = { bytes_decides };
}

impl fmt::Display for Address {
    ghost output = { λ a. Some a };

    fn fmt<W: fmt::Write>(&self, f: &mut fmt::Formatter<W>) -> fmt::Result {
        f.write_str(self.as_str())
    }
}

impl AsStr for Address {
    ghost text = { λ a. a };

    fn as_str(&self) -> &str {
        Address::as_str(self)
    }
}

impl FromText for Address {
    ghost use Rattle.rustsec_texts.specs.Addresses.{address_of};

    ghost reads = { address_of };

    fn from_text(alloc: Global, text: &str) -> Result<Address> {
        Address::from_str(alloc, text)
    }
}
