//! Addresses with a prefix.

ghost use Rattle.std.specs.Prelude.{◌≡◌, ◌<◌, ◌≤◌, MatchOption, None};
ghost use Rattle.block_model.specs.Networks.{Network, IsNetwork, network_v4, leading_bits};
ghost use Rattle.block_model.specs.Matches.{is_within};

use std::marker::Model;

/// A network address and the length of its network's prefix ("Network Address Types"). Seen as family, prefix and
/// address, the address as a number.
#[derive(Clone, Copy, Debug, PartialEq, Eq)]
pub struct Net {
    family: u8,
    prefix: u8,
    high: u64,
    low: u64,
}

impl Model for Net {
    ghost use Rattle.block_model.specs.Networks.{Network};
    ghost use Rattle.block_model.specs.Nets.{network_of, HasNetworkForm, net_of, net_of_network};

    ghost Value = { Network };

    ghost invariant = { HasNetworkForm };

    ghost view = { network_of };

    ghost inverse = { net_of };

    ghost inverse_ok = { net_of_network };
}

impl Net {
    /// An address of 32 bits with a prefix of up to 32 bits; None exactly where the prefix is longer.
    pub fn v4(address: u32, prefix: u8) -> Option<Net>
        ensures { MatchOption result (32 < prefix) (λ net. (prefix ≤ 32) × (net ≡ network_v4 address prefix)) }
    {
        if prefix > 32 {
            return None;
        }
        Some(Net {
            family: 4,
            prefix,
            high: 0,
            low: u64::from(address),
        })
    }

    /// Every address is one of 32 bits with a prefix of up to 32 bits. Does nothing.
    pub fn known(&self)
        ensures { IsNetwork self.now }
    {
        let _ = &self.family;
    }

    /// Its family: 4.
    pub fn family(&self) -> u8
        ensures { result ≡ self.now.family }
    {
        self.family
    }

    /// The length of its prefix in bits.
    pub fn prefix(&self) -> u8
        ensures { result ≡ self.now.prefix }
    {
        self.prefix
    }

    /// The address as a number of 128 bits, with zeros before one of fewer bits.
    pub fn address(&self) -> u128
        ensures { result ≡ self.now.address }
    {
        (u128::from(self.high) << 64) + u128::from(self.low)
    }

    /// Whether it is a network or an address of the other: the same family, at least as long a prefix, and the bits of
    /// the other's prefix agree.
    pub fn is_within(&self, other: &Net) -> bool
        ensures { result ≡ is_within self.now other.now }
    {
        self.family == other.family
            && other.prefix <= self.prefix
            && self.leading_bits(other.prefix) == other.leading_bits(other.prefix)
    }

    fn leading_bits(&self, bits: u8) -> u64
        requires { bits ≤ 32 }
        ensures { result ≡ leading_bits self.now bits }
    {
        self.low >> (32 - bits)
    }
}
