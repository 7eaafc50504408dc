// Choices: for each of the first options, whether it is on.
ghost use Rattle.std.specs.Prelude.{◌≡◌, ◌≢◌, ◌<◌, ◌≤◌, ◌^◌, List, Bool, ℕ, length, ◌==◌};
ghost use Rattle.std.specs.Int.{bit_at};
ghost use Rattle.cov_base.specs.Choices.{bits_of, number_of, is_on, with_option};
ghost use Rattle.cov_base.specs.declared.limits.TheConstants.{CHOICE_WIDTH};

use crate::OptionId;
use std::marker::Model;

/// The values of the options 0 to `count - 1`, at most `CHOICE_WIDTH` of them. Contracts see it as the list of these values.
#[derive(Clone, Copy, Debug)]
pub struct Choice {
    bits: u128,
    count: u8,
}

impl Model for Choice {
    ghost use Rattle.std.specs.Prelude.{List, Bool, length, ◌≤◌, ◌<◌, ◌^◌};
    ghost use Rattle.cov_base.specs.declared.limits.TheConstants.{CHOICE_WIDTH};
    ghost use Rattle.cov_base.specs.Choices.{bits_of, number_of};
    ghost use Rattle.cov_base.specs.Bits.{same_inside};

    ghost Value = { List Bool };

    ghost view = { λ c. bits_of c.count c.bits };

    ghost invariant = { λ c. (c.count ≤ CHOICE_WIDTH) × (c.bits < 2 ^ c.count) };

    ghost inverse = { λ v. record { bits = number_of v; count = length v } };

    ghost inverse_ok = { λ c h. same_inside c h };
}

impl Choice {
    /// The choice of `count` options in which option i is on where bit i is 1.
    pub fn new(bits: u128, count: u8) -> Choice
        requires count { count ≤ CHOICE_WIDTH }
        requires bits { bits < 2 ^ count }
        ensures { result ≡ bits_of count bits }
    {
        Choice { bits, count }
    }

    /// How many options it binds.
    pub fn count(self) -> u8
        ensures count { result ≡ length self }
        ensures most { result ≤ CHOICE_WIDTH }
    {
        self.count
    }

    /// Whether an option is on.
    pub fn get(&self, option: OptionId) -> bool
        requires { option < length self.now }
        ensures { result ≡ is_on self.now option }
    {
        self.bits >> option.number() & 1 == 1
    }

    /// The choice with one option set.
    pub fn with(&self, option: OptionId, on: bool) -> Choice
        requires { option < length self.now }
        ensures { result ≡ with_option self.now option on }
    {
        Choice {
            bits: with_bit(self.bits, option.number(), on),
            count: self.count,
        }
    }
}

// The number with one of its bits as wanted.
fn with_bit(bits: u128, at: u8, on: bool) -> u128
    requires { at < CHOICE_WIDTH }
    ensures set { (bit_at result at == 1) ≡ on }
    ensures others { (i : ℕ) → i < CHOICE_WIDTH → i ≢ at → bit_at result i ≡ bit_at bits i }
{
    match on {
        true => set_bit(bits, at),
        false => clear_bit(bits, at),
    }
}

fn set_bit(bits: u128, at: u8) -> u128
    requires { at < CHOICE_WIDTH }
    ensures set { bit_at result at ≡ 1 }
    ensures others { (i : ℕ) → i ≢ at → bit_at result i ≡ bit_at bits i }
{
    bits | 1 << at
}

fn clear_bit(bits: u128, at: u8) -> u128
    requires { at < CHOICE_WIDTH }
    ensures set { bit_at result at ≡ 0 }
    ensures others { (i : ℕ) → i < CHOICE_WIDTH → i ≢ at → bit_at result i ≡ bit_at bits i }
{
    bits & !(1 << at)
}
