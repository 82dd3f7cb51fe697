//! Licenses.

ghost use Rattle.cdx_models.specs.Trees.{expression, license};
ghost use Rattle.cdx_schema.specs.Kinds.{a_license_choice, a_license_identifier, a_list, licenses};
ghost use Rattle.std.specs.Prelude.{◌≡◌, refl, IfOk, None, ◌↔◌, IsTrue};
ghost use Rattle.cdx_license.specs.Records.{identifier_tree, identifier_there, license_tree, expression_tree, choice_tree, choice_there, licenses_tree};
ghost use Rattle.cdx_models.specs.Equal.{equal};
ghost use Rattle.cdx_models.specs.EqualLaws.{equal_laws};

use cdx_events::{List, Text};
use cdx_models::{AttachedText, HasTree, Properties, copy_row, equal_row};
use cdx_schema::{Kinded, Record};
use std::alloc::{AllocError, Global};

/// How a license is named.
#[derive(Debug, Drop)]
pub enum LicenseIdentifier {
    /// An identifier of the SPDX list of licenses, which isn't checked.
    SpdxId(Text),
    /// The name of any other license.
    Name(Text),
}

impl HasTree for LicenseIdentifier {
    ghost tree = { identifier_tree };

    ghost there = { identifier_there };

    fn copy(&self, alloc: Global) -> Result<LicenseIdentifier, AllocError> {
        match self {
            LicenseIdentifier::SpdxId(held) => Ok(LicenseIdentifier::SpdxId(held.copy(alloc)?)),
            LicenseIdentifier::Name(held) => Ok(LicenseIdentifier::Name(held.copy(alloc)?)),
        }
    }

    fn agrees(&self, other: &LicenseIdentifier) -> bool {
        match (self, other) {
            (LicenseIdentifier::SpdxId(one), LicenseIdentifier::SpdxId(other)) => one.agrees(other),
            (LicenseIdentifier::SpdxId(_), LicenseIdentifier::Name(_)) => false,
            (LicenseIdentifier::Name(_), LicenseIdentifier::SpdxId(_)) => false,
            (LicenseIdentifier::Name(one), LicenseIdentifier::Name(other)) => one.agrees(other),
        }
    }
}

impl Kinded for LicenseIdentifier {
    ghost kind = { a_license_identifier };
}

impl PartialEq for LicenseIdentifier {
    ghost eq = { λ a b. equal (identifier_tree a) (identifier_tree b) };

    ghost laws = { equal_laws identifier_tree };

    fn eq(&self, other: &LicenseIdentifier) -> bool
        ensures test { result ≡ equal (identifier_tree self.now) (identifier_tree other.now) }
        ensures equality { IsTrue result ↔ (identifier_tree self.now ≡ identifier_tree other.now) }
    {
        self.equals(other)
    }
}

/// A license.
#[derive(Debug)]
pub struct License {
    /// The name by which the rest of the bill refers to it. Known from 1.5 on.
    pub bom_ref: Option<Text>,
    /// Its SPDX id, or its name.
    pub license_identifier: LicenseIdentifier,
    /// The license's own text.
    pub text: Option<AttachedText>,
    /// Where the license's text can be found.
    pub url: Option<Text>,
    /// Known from 1.5 on.
    pub properties: Option<Properties>,
}

// By hand, so that one is freed by a call wherever it ends, and not field by field.
impl Drop for License {
    fn drop(self) {
        let License {
            bom_ref: _,
            license_identifier: _,
            text: _,
            url: _,
            properties: _,
        } = self;
    }
}

impl HasTree for License {
    ghost tree = { license_tree };

    ghost there = { λ x. refl };

    fn copy(&self, alloc: Global) -> Result<License, AllocError> {
        Ok(License {
            bom_ref: copy_row(alloc, &self.bom_ref)?,
            license_identifier: self.license_identifier.copy(alloc)?,
            text: copy_row(alloc, &self.text)?,
            url: copy_row(alloc, &self.url)?,
            properties: copy_row(alloc, &self.properties)?,
        })
    }

    fn agrees(&self, other: &License) -> bool {
        equal_row(&self.bom_ref, &other.bom_ref)
            && self.license_identifier.agrees(&other.license_identifier)
            && equal_row(&self.text, &other.text)
            && equal_row(&self.url, &other.url)
            && equal_row(&self.properties, &other.properties)
    }
}

impl Record for License {
    ghost name = { license };

    ghost is_record = { λ x. refl };

    ghost plain = { refl };
}

impl PartialEq for License {
    ghost eq = { λ a b. equal (license_tree a) (license_tree b) };

    ghost laws = { equal_laws license_tree };

    fn eq(&self, other: &License) -> bool
        ensures test { result ≡ equal (license_tree self.now) (license_tree other.now) }
        ensures equality { IsTrue result ↔ (license_tree self.now ≡ license_tree other.now) }
    {
        self.equals(other)
    }
}

/// An SPDX license expression.
#[derive(Debug, Drop)]
pub struct Expression {
    /// The name by which the rest of the bill refers to it.
    pub bom_ref: Option<Text>,
    /// The expression, as `MIT OR Apache-2.0`, which isn't checked.
    pub expression: Text,
}

impl Expression {
    /// This expression, without a reference.
    pub fn new(alloc: Global, expression: &str) -> Result<Expression, AllocError>
        ensures { IfOk result (λ r. r ≡ record { bom_ref = None; expression = expression.now }) }
    {
        Ok(Expression {
            bom_ref: None,
            expression: Text::new(alloc, expression)?,
        })
    }
}

impl HasTree for Expression {
    ghost tree = { expression_tree };

    ghost there = { λ x. refl };

    fn copy(&self, alloc: Global) -> Result<Expression, AllocError> {
        Ok(Expression {
            bom_ref: copy_row(alloc, &self.bom_ref)?,
            expression: self.expression.copy(alloc)?,
        })
    }

    fn agrees(&self, other: &Expression) -> bool {
        equal_row(&self.bom_ref, &other.bom_ref) && self.expression.agrees(&other.expression)
    }
}

impl Record for Expression {
    ghost name = { expression };

    ghost is_record = { λ x. refl };

    ghost plain = { refl };
}

impl PartialEq for Expression {
    ghost eq = { λ a b. equal (expression_tree a) (expression_tree b) };

    ghost laws = { equal_laws expression_tree };

    fn eq(&self, other: &Expression) -> bool
        ensures test { result ≡ equal (expression_tree self.now) (expression_tree other.now) }
        ensures equality { IsTrue result ↔ (expression_tree self.now ≡ expression_tree other.now) }
    {
        self.equals(other)
    }
}

/// A license or an expression.
#[derive(Debug, Drop)]
pub enum LicenseChoice {
    /// One license.
    License(License),
    /// An SPDX expression over licenses.
    Expression(Expression),
}

impl HasTree for LicenseChoice {
    ghost tree = { choice_tree };

    ghost there = { choice_there };

    fn copy(&self, alloc: Global) -> Result<LicenseChoice, AllocError> {
        match self {
            LicenseChoice::License(held) => Ok(LicenseChoice::License(held.copy(alloc)?)),
            LicenseChoice::Expression(held) => Ok(LicenseChoice::Expression(held.copy(alloc)?)),
        }
    }

    fn agrees(&self, other: &LicenseChoice) -> bool {
        match (self, other) {
            (LicenseChoice::License(one), LicenseChoice::License(other)) => one.agrees(other),
            (LicenseChoice::License(_), LicenseChoice::Expression(_)) => false,
            (LicenseChoice::Expression(_), LicenseChoice::License(_)) => false,
            (LicenseChoice::Expression(one), LicenseChoice::Expression(other)) => one.agrees(other),
        }
    }
}

impl Kinded for LicenseChoice {
    ghost kind = { a_license_choice };
}

impl PartialEq for LicenseChoice {
    ghost eq = { λ a b. equal (choice_tree a) (choice_tree b) };

    ghost laws = { equal_laws choice_tree };

    fn eq(&self, other: &LicenseChoice) -> bool
        ensures test { result ≡ equal (choice_tree self.now) (choice_tree other.now) }
        ensures equality { IsTrue result ↔ (choice_tree self.now ≡ choice_tree other.now) }
    {
        self.equals(other)
    }
}

/// Licenses and expressions, in order.
#[derive(Debug, Drop)]
pub struct Licenses(pub List<LicenseChoice>);

impl HasTree for Licenses {
    ghost tree = { licenses_tree };

    ghost there = { λ x. refl };

    fn copy(&self, alloc: Global) -> Result<Licenses, AllocError> {
        Ok(Licenses(self.0.copy(alloc)?))
    }

    fn agrees(&self, other: &Licenses) -> bool {
        self.0.agrees(&other.0)
    }
}

impl Kinded for Licenses {
    ghost kind = { a_list licenses };
}

impl PartialEq for Licenses {
    ghost eq = { λ a b. equal (licenses_tree a) (licenses_tree b) };

    ghost laws = { equal_laws licenses_tree };

    fn eq(&self, other: &Licenses) -> bool
        ensures test { result ≡ equal (licenses_tree self.now) (licenses_tree other.now) }
        ensures equality { IsTrue result ↔ (licenses_tree self.now ≡ licenses_tree other.now) }
    {
        self.equals(other)
    }
}
