//! The score of base metrics, in exact whole units of 10^-12: CVSS 3.1, section 7.1.

ghost use Rattle.std.specs.Prelude.{◌≡◌, ◌+◌, ◌-◌, ◌^◌, ◌<◌, ◌≤◌, false};
ghost use Rattle.rustsec_lock.specs.Score.{attack_complexity_weight, attack_vector_weight, availability_weight, confidentiality_weight, exploitability_of, HasClosePower, HasExactProducts, impact_of, integrity_weight, is_harmless, iss_of, mul, one, power_of, privileges_required_weight, rounded_up, hundred_thousandths, at_most_ten, score_tenths_of, sum_of, thousandths, user_interaction_weight};
ghost use Rattle.rustsec_lock.specs.declared.metrics.Scope.TheVariants as scope;

use crate::metrics::{
    AttackComplexity, AttackVector, Availability, Base, Confidentiality, Integrity,
    PrivilegesRequired, Scope, UserInteraction,
};

/// One thousandth.
const THOUSANDTH: u64 = 1_000_000_000;

/// One.
const ONE: u64 = 1000 * THOUSANDTH;

/// Returns the product of two numbers, rounded down.
fn mul(x: u64, y: u64) -> u64
    requires x { x < 2 ^ 44 }
    requires y { y < 2 ^ 44 }
    ensures value { result ≡ mul x y }
    ensures bound { y ≤ one → result ≤ x }
{
    (x as u128 * y as u128 / ONE as u128) as u64
}

fn attack_vector_weight(value: AttackVector) -> u64
    ensures value { result ≡ attack_vector_weight value }
    ensures bound { result ≤ one }
{
    match value {
        AttackVector::Network => 850 * THOUSANDTH,
        AttackVector::Adjacent => 620 * THOUSANDTH,
        AttackVector::Local => 550 * THOUSANDTH,
        AttackVector::Physical => 200 * THOUSANDTH,
    }
}

fn attack_complexity_weight(value: AttackComplexity) -> u64
    ensures value { result ≡ attack_complexity_weight value }
    ensures bound { result ≤ one }
{
    match value {
        AttackComplexity::Low => 770 * THOUSANDTH,
        AttackComplexity::High => 440 * THOUSANDTH,
    }
}

fn privileges_required_weight(scope: Scope, value: PrivilegesRequired) -> u64
    ensures value { result ≡ privileges_required_weight scope value }
    ensures bound { result ≤ one }
{
    match (scope, value) {
        (_, PrivilegesRequired::None) => 850 * THOUSANDTH,
        (Scope::Unchanged, PrivilegesRequired::Low) => 620 * THOUSANDTH,
        (Scope::Changed, PrivilegesRequired::Low) => 680 * THOUSANDTH,
        (Scope::Unchanged, PrivilegesRequired::High) => 270 * THOUSANDTH,
        (Scope::Changed, PrivilegesRequired::High) => 500 * THOUSANDTH,
    }
}

fn user_interaction_weight(value: UserInteraction) -> u64
    ensures value { result ≡ user_interaction_weight value }
    ensures bound { result ≤ one }
{
    match value {
        UserInteraction::None => 850 * THOUSANDTH,
        UserInteraction::Required => 620 * THOUSANDTH,
    }
}

fn confidentiality_weight(value: Confidentiality) -> u64
    ensures value { result ≡ confidentiality_weight value }
    ensures bound { result ≤ one }
{
    match value {
        Confidentiality::None => 0,
        Confidentiality::Low => 220 * THOUSANDTH,
        Confidentiality::High => 560 * THOUSANDTH,
    }
}

fn integrity_weight(value: Integrity) -> u64
    ensures value { result ≡ integrity_weight value }
    ensures bound { result ≤ one }
{
    match value {
        Integrity::None => 0,
        Integrity::Low => 220 * THOUSANDTH,
        Integrity::High => 560 * THOUSANDTH,
    }
}

fn availability_weight(value: Availability) -> u64
    ensures value { result ≡ availability_weight value }
    ensures bound { result ≤ one }
{
    match value {
        Availability::None => 0,
        Availability::Low => 220 * THOUSANDTH,
        Availability::High => 560 * THOUSANDTH,
    }
}

/// Returns the impact sub-score (ISS), which is 0 if nothing is lost.
fn sub_score(base: &Base) -> u64
    ensures value { result ≡ iss_of base.now.c base.now.i base.now.a }
    ensures bound { result ≤ one }
{
    let kept = mul(
        ONE - confidentiality_weight(base.c),
        ONE - integrity_weight(base.i),
    );
    ONE - mul(kept, ONE - availability_weight(base.a))
}

/// Returns the fifteenth power of a sub-score less 0.02.
fn power(iss: u64) -> u64
    requires low { thousandths 20 ≤ iss }
    requires high { iss ≤ one }
    ensures value { result ≡ power_of iss }
    ensures bound { result ≤ one }
{
    let x = iss - 20 * THOUSANDTH;
    let mut power = x;
    for _step in 0..14_usize {
        power = mul(power, x);
    }
    power
}

/// Returns the impact for a sub-score that is not 0.
fn impact(scope: Scope, iss: u64) -> u64
    requires low { thousandths 29 ≤ iss }
    requires high { iss ≤ one }
    requires positive { mul (thousandths 3250) (power_of iss) ≤ mul (thousandths 7520) (iss - thousandths 29) }
    ensures value { result ≡ impact_of scope iss }
    ensures bound { result ≤ thousandths 7520 }
{
    match scope {
        Scope::Unchanged => mul(6420 * THOUSANDTH, iss),
        Scope::Changed => {
            let gain = mul(7520 * THOUSANDTH, iss - 29 * THOUSANDTH);
            gain - mul(3250 * THOUSANDTH, power(iss))
        }
    }
}

/// Returns the exploitability sub-score.
fn exploitability(base: &Base) -> u64
    ensures value { result ≡ exploitability_of base.now }
    ensures bound { result ≤ thousandths 8220 }
{
    let by_vector = mul(8220 * THOUSANDTH, attack_vector_weight(base.av));
    let by_complexity = mul(by_vector, attack_complexity_weight(base.ac));
    let by_privileges = mul(by_complexity, privileges_required_weight(base.s, base.pr));
    mul(by_privileges, user_interaction_weight(base.ui))
}

/// Returns the sum of impact and exploitability, weighted by the scope.
fn weighted(scope: Scope, sum: u64) -> u64
    requires { sum < 2 ^ 44 }
    ensures { result ≡ sum_of scope sum }
{
    match scope {
        Scope::Unchanged => sum,
        Scope::Changed => mul(1080 * THOUSANDTH, sum),
    }
}

/// Returns the lesser of a sum and ten.
fn at_most_ten(sum: u64) -> u64
    ensures { result ≡ at_most_ten sum }
{
    sum.min(10 * ONE)
}

/// Returns a sum in tenths: rounded to hundred-thousandths first, and then up.
fn tenths(sum: u64) -> u8
    ensures { result ≡ rounded_up (hundred_thousandths (at_most_ten sum)) }
{
    let nearest = (at_most_ten(sum) + 5_000_000) / 10_000_000;
    ((nearest + 9999) / 10_000) as u8
}

impl Base {
    /// Returns the score in tenths, from 0 to 100, by the equations of CVSS 3.1, section 7.1, in exact whole numbers.
    pub fn score_tenths(&self) -> u8
        ensures score { result ≡ score_tenths_of self.now }
        ensures exact { is_harmless self.now.c self.now.i self.now.a ≡ false → HasExactProducts self.now }
        ensures close { is_harmless self.now.c self.now.i self.now.a ≡ false → self.now.s ≡ scope.Changed
            → HasClosePower (iss_of self.now.c self.now.i self.now.a) }
    {
        let iss = sub_score(self);
        if iss == 0 {
            return 0;
        }
        let sum = impact(self.s, iss) + exploitability(self);
        tenths(weighted(self.s, sum))
    }
}
