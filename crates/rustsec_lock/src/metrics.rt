//! The base metrics of CVSS 3, and the letters of their values (CVSS 3.1, sections 2 and 6).

use rustsec_values::{ClosedEnum, ExactClone, ExactEq};

/// How close an attacker must be: CVSS 3.1, section 2.1.1.
#[derive(Clone, Copy, Debug, PartialEq, Eq)]
pub enum AttackVector {
    /// Over a network.
    Network,
    /// From an adjacent network.
    Adjacent,
    /// From the vulnerable system itself.
    Local,
    /// With physical access to the system.
    Physical,
}

impl ClosedEnum for AttackVector {
    ghost use Rattle.rustsec_lock.specs.Metrics.{attack_vector_letter, attack_vector_values};

    ghost name_of = { attack_vector_letter };

    ghost values = { attack_vector_values };

    fn all() -> &'static [AttackVector] {
        &[
            AttackVector::Network,
            AttackVector::Adjacent,
            AttackVector::Local,
            AttackVector::Physical,
        ]
    }

    /// Returns the letter of the value.
    fn name(&self) -> &'static str {
        match self {
            AttackVector::Network => "N",
            AttackVector::Adjacent => "A",
            AttackVector::Local => "L",
            AttackVector::Physical => "P",
        }
    }
}

impl ExactClone for AttackVector {
    ghost exact = { λ x y e. e };
}

impl ExactEq for AttackVector {
    ghost use denote.Enum.Bare.{same_true, true_same};
    ghost use Rattle.rustsec_lock.specs.contracts.metrics.AttackVector.{the_type};

    ghost decides = { λ x y. (same_true the_type tt x y, true_same the_type x y) };
}

/// Which conditions beyond the attacker's control must hold: CVSS 3.1, section 2.1.2.
#[derive(Clone, Copy, Debug, PartialEq, Eq)]
pub enum AttackComplexity {
    /// None.
    Low,
    /// Some that the attacker must wait for or prepare.
    High,
}

impl ClosedEnum for AttackComplexity {
    ghost use Rattle.rustsec_lock.specs.Metrics.{attack_complexity_letter, attack_complexity_values};

    ghost name_of = { attack_complexity_letter };

    ghost values = { attack_complexity_values };

    fn all() -> &'static [AttackComplexity] {
        &[AttackComplexity::Low, AttackComplexity::High]
    }

    /// Returns the letter of the value.
    fn name(&self) -> &'static str {
        match self {
            AttackComplexity::Low => "L",
            AttackComplexity::High => "H",
        }
    }
}

impl ExactClone for AttackComplexity {
    ghost exact = { λ x y e. e };
}

impl ExactEq for AttackComplexity {
    ghost use denote.Enum.Bare.{same_true, true_same};
    ghost use Rattle.rustsec_lock.specs.contracts.metrics.AttackComplexity.{the_type};

    ghost decides = { λ x y. (same_true the_type tt x y, true_same the_type x y) };
}

/// The privileges that an attacker needs before the attack: CVSS 3.1, section 2.1.3.
#[derive(Clone, Copy, Debug, PartialEq, Eq)]
pub enum PrivilegesRequired {
    /// No privileges.
    None,
    /// Those of a user.
    Low,
    /// Those of an administrator.
    High,
}

impl ClosedEnum for PrivilegesRequired {
    ghost use Rattle.rustsec_lock.specs.Metrics.{privileges_required_letter, privileges_required_values};

    ghost name_of = { privileges_required_letter };

    ghost values = { privileges_required_values };

    fn all() -> &'static [PrivilegesRequired] {
        &[
            PrivilegesRequired::None,
            PrivilegesRequired::Low,
            PrivilegesRequired::High,
        ]
    }

    /// Returns the letter of the value.
    fn name(&self) -> &'static str {
        match self {
            PrivilegesRequired::None => "N",
            PrivilegesRequired::Low => "L",
            PrivilegesRequired::High => "H",
        }
    }
}

impl ExactClone for PrivilegesRequired {
    ghost exact = { λ x y e. e };
}

impl ExactEq for PrivilegesRequired {
    ghost use denote.Enum.Bare.{same_true, true_same};
    ghost use Rattle.rustsec_lock.specs.contracts.metrics.PrivilegesRequired.{the_type};

    ghost decides = { λ x y. (same_true the_type tt x y, true_same the_type x y) };
}

/// Whether a user must take part: CVSS 3.1, section 2.1.4.
#[derive(Clone, Copy, Debug, PartialEq, Eq)]
pub enum UserInteraction {
    /// No user takes part.
    None,
    /// Some user takes part.
    Required,
}

impl ClosedEnum for UserInteraction {
    ghost use Rattle.rustsec_lock.specs.Metrics.{user_interaction_letter, user_interaction_values};

    ghost name_of = { user_interaction_letter };

    ghost values = { user_interaction_values };

    fn all() -> &'static [UserInteraction] {
        &[UserInteraction::None, UserInteraction::Required]
    }

    /// Returns the letter of the value.
    fn name(&self) -> &'static str {
        match self {
            UserInteraction::None => "N",
            UserInteraction::Required => "R",
        }
    }
}

impl ExactClone for UserInteraction {
    ghost exact = { λ x y e. e };
}

impl ExactEq for UserInteraction {
    ghost use denote.Enum.Bare.{same_true, true_same};
    ghost use Rattle.rustsec_lock.specs.contracts.metrics.UserInteraction.{the_type};

    ghost decides = { λ x y. (same_true the_type tt x y, true_same the_type x y) };
}

/// Whether the attack reaches beyond the vulnerable component: CVSS 3.1, section 2.2.
#[derive(Clone, Copy, Debug, PartialEq, Eq)]
pub enum Scope {
    /// It stays within the authority of that component.
    Unchanged,
    /// It reaches other components.
    Changed,
}

impl ClosedEnum for Scope {
    ghost use Rattle.rustsec_lock.specs.Metrics.{scope_letter, scope_values};

    ghost name_of = { scope_letter };

    ghost values = { scope_values };

    fn all() -> &'static [Scope] {
        &[Scope::Unchanged, Scope::Changed]
    }

    /// Returns the letter of the value.
    fn name(&self) -> &'static str {
        match self {
            Scope::Unchanged => "U",
            Scope::Changed => "C",
        }
    }
}

impl ExactClone for Scope {
    ghost exact = { λ x y e. e };
}

impl ExactEq for Scope {
    ghost use denote.Enum.Bare.{same_true, true_same};
    ghost use Rattle.rustsec_lock.specs.contracts.metrics.Scope.{the_type};

    ghost decides = { λ x y. (same_true the_type tt x y, true_same the_type x y) };
}

/// The loss of confidentiality: CVSS 3.1, section 2.3.1.
#[derive(Clone, Copy, Debug, PartialEq, Eq)]
pub enum Confidentiality {
    /// No loss.
    None,
    /// Partial loss.
    Low,
    /// Total loss.
    High,
}

impl ClosedEnum for Confidentiality {
    ghost use Rattle.rustsec_lock.specs.Metrics.{confidentiality_letter, confidentiality_values};

    ghost name_of = { confidentiality_letter };

    ghost values = { confidentiality_values };

    fn all() -> &'static [Confidentiality] {
        &[
            Confidentiality::None,
            Confidentiality::Low,
            Confidentiality::High,
        ]
    }

    /// Returns the letter of the value.
    fn name(&self) -> &'static str {
        match self {
            Confidentiality::None => "N",
            Confidentiality::Low => "L",
            Confidentiality::High => "H",
        }
    }
}

impl ExactClone for Confidentiality {
    ghost exact = { λ x y e. e };
}

impl ExactEq for Confidentiality {
    ghost use denote.Enum.Bare.{same_true, true_same};
    ghost use Rattle.rustsec_lock.specs.contracts.metrics.Confidentiality.{the_type};

    ghost decides = { λ x y. (same_true the_type tt x y, true_same the_type x y) };
}

/// The loss of integrity: CVSS 3.1, section 2.3.2.
#[derive(Clone, Copy, Debug, PartialEq, Eq)]
pub enum Integrity {
    /// No loss.
    None,
    /// Partial loss.
    Low,
    /// Total loss.
    High,
}

impl ClosedEnum for Integrity {
    ghost use Rattle.rustsec_lock.specs.Metrics.{integrity_letter, integrity_values};

    ghost name_of = { integrity_letter };

    ghost values = { integrity_values };

    fn all() -> &'static [Integrity] {
        &[Integrity::None, Integrity::Low, Integrity::High]
    }

    /// Returns the letter of the value.
    fn name(&self) -> &'static str {
        match self {
            Integrity::None => "N",
            Integrity::Low => "L",
            Integrity::High => "H",
        }
    }
}

impl ExactClone for Integrity {
    ghost exact = { λ x y e. e };
}

impl ExactEq for Integrity {
    ghost use denote.Enum.Bare.{same_true, true_same};
    ghost use Rattle.rustsec_lock.specs.contracts.metrics.Integrity.{the_type};

    ghost decides = { λ x y. (same_true the_type tt x y, true_same the_type x y) };
}

/// The loss of availability: CVSS 3.1, section 2.3.3.
#[derive(Clone, Copy, Debug, PartialEq, Eq)]
pub enum Availability {
    /// No loss.
    None,
    /// Partial loss.
    Low,
    /// Total loss.
    High,
}

impl ClosedEnum for Availability {
    ghost use Rattle.rustsec_lock.specs.Metrics.{availability_letter, availability_values};

    ghost name_of = { availability_letter };

    ghost values = { availability_values };

    fn all() -> &'static [Availability] {
        &[Availability::None, Availability::Low, Availability::High]
    }

    /// Returns the letter of the value.
    fn name(&self) -> &'static str {
        match self {
            Availability::None => "N",
            Availability::Low => "L",
            Availability::High => "H",
        }
    }
}

impl ExactClone for Availability {
    ghost exact = { λ x y e. e };
}

impl ExactEq for Availability {
    ghost use denote.Enum.Bare.{same_true, true_same};
    ghost use Rattle.rustsec_lock.specs.contracts.metrics.Availability.{the_type};

    ghost decides = { λ x y. (same_true the_type tt x y, true_same the_type x y) };
}

/// The base metrics of a CVSS 3 vector.
#[derive(Clone, Copy, Debug, PartialEq, Eq)]
pub struct Base {
    /// The number after `CVSS:3.`; the score does not depend on it.
    pub minor_version: usize,
    /// Attack vector.
    pub av: AttackVector,
    /// Attack complexity.
    pub ac: AttackComplexity,
    /// Privileges required.
    pub pr: PrivilegesRequired,
    /// User interaction.
    pub ui: UserInteraction,
    /// Scope.
    pub s: Scope,
    /// Confidentiality.
    pub c: Confidentiality,
    /// Integrity.
    pub i: Integrity,
    /// Availability.
    pub a: Availability,
}

impl ExactClone for Base {
    ghost exact = { λ x y e. e };
}

impl ExactEq for Base {
    ghost use Rattle.rustsec_lock.specs.CvssEquality.{base_decides};

    ghost decides = { base_decides };
}
