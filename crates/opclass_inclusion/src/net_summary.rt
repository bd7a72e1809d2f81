//! The summary of networks, and the smallest network that two are in.

ghost use Rattle.std.specs.Prelude.{◌≡◌, ◌≢◌, ◌≤◌, ◌==◌, true, false, MatchOption};
ghost use Rattle.block_model.specs.Networks.{IsNetwork, leading_bits};
ghost use Rattle.opclass_inclusion.specs.NetHulls.{IsCommonPrefix, IsHull, IsSummary, IsWider, common_prefix, joined, network_with, of_network, united};

use block_model::Net;

/// How many bits an address of the fourth family has.
pub(crate) const V4_BITS: u8 = 32;

/// Nothing yet, the smallest network that all values are in, or that they are of different families and so in no network.
/// The bits of the network past its prefix are zero.
#[derive(Clone, Copy, Debug, PartialEq, Eq)]
pub enum NetSummary {
    NothingYet,
    Unmergeable,
    Hull(Net),
}

impl NetSummary {
    /// The summary of no value. Takes no memory.
    pub fn new() -> NetSummary
        ensures { result ≡ NetSummary.NothingYet }
    {
        NetSummary::NothingYet
    }

    /// The summary of one address.
    pub(crate) fn of(net: &Net) -> NetSummary
        ensures summary { result ≡ of_network net.now }
        ensures of_class { IsSummary result }
    {
        NetSummary::Hull(network_with(net, net.prefix()))
    }

    /// Widens the summary to what another is of; answers whether it changed.
    pub(crate) fn unite(&mut self, other: &NetSummary) -> bool
        requires of_class { IsSummary self.old }
        requires other_of_class { IsSummary other.now }
        ensures united { self.new ≡ united self.old other.now }
        ensures stays_of_class { IsSummary self.new }
        ensures same { result ≡ false → self.new ≡ self.old }
        ensures changed { result ≡ true → self.new ≢ self.old }
    {
        match other {
            NetSummary::NothingYet => false,
            NetSummary::Unmergeable => self.give_up(),
            NetSummary::Hull(network) => self.widen(network),
        }
    }

    fn give_up(&mut self) -> bool
        ensures united { self.new ≡ NetSummary.Unmergeable }
        ensures same { result ≡ false → self.new ≡ self.old }
        ensures changed { result ≡ true → self.new ≢ self.old }
    {
        match self {
            NetSummary::Unmergeable => false,
            NetSummary::NothingYet | NetSummary::Hull(_) => {
                *self = NetSummary::Unmergeable;
                true
            }
        }
    }

    fn widen(&mut self, network: &Net) -> bool
        requires of_class { IsSummary self.old }
        requires is_hull { IsHull network.now }
        ensures united { self.new ≡ united self.old (NetSummary.Hull network.now) }
        ensures stays_of_class { IsSummary self.new }
        ensures same { result ≡ false → self.new ≡ self.old }
        ensures changed { result ≡ true → self.new ≢ self.old }
    {
        let wider = match self {
            NetSummary::NothingYet => Some(NetSummary::Hull(*network)),
            NetSummary::Unmergeable => None,
            NetSummary::Hull(hull) => wider(hull, network),
        };
        match wider {
            None => false,
            Some(wider) => {
                *self = wider;
                true
            }
        }
    }
}

/// What two networks are joined to: a network that both are in, or no network where their families differ. None where the
/// second is in the first.
fn wider(hull: &Net, network: &Net) -> Option<NetSummary>
    requires is_hull { IsHull hull.now }
    ensures { MatchOption result (joined hull.now network.now ≡ NetSummary.Hull hull.now) (IsWider hull.now network.now) }
{
    if hull.family() != network.family() {
        return Some(NetSummary::Unmergeable);
    }
    let prefix = common_prefix(hull, network);
    if prefix == hull.prefix() {
        return None;
    }
    Some(NetSummary::Hull(network_with(hull, prefix)))
}

/// How many first bits of both agree, within both prefixes.
fn common_prefix(a: &Net, b: &Net) -> u8
    ensures prefix { result ≡ common_prefix a.now b.now }
    ensures longest { IsCommonPrefix a.now b.now result }
{
    a.known();
    b.known();
    let mut prefix = a.prefix().min(b.prefix());
    'shorter: while prefix > 0 {
        if agree(a, b, prefix) {
            return prefix;
        }
        prefix -= 1;
    }
    0
}

fn agree(a: &Net, b: &Net, bits: u8) -> bool
    requires { bits ≤ 32 }
    ensures { result ≡ (leading_bits a.now bits == leading_bits b.now bits) }
{
    leading_bits(a, bits) == leading_bits(b, bits)
}

/// The network of an address with a prefix that isn't longer than its own. Its bits past the prefix are zero.
fn network_with(net: &Net, prefix: u8) -> Net
    requires { prefix ≤ net.now.prefix }
    ensures network { result ≡ network_with net.now prefix }
    ensures hull { IsHull result }
{
    net.known();
    let address = leading_bits(net, prefix) << (V4_BITS - prefix);
    let Some(network) = Net::v4(address as u32, prefix) else {
        unreachable!()
    };
    network
}

fn leading_bits(net: &Net, bits: u8) -> u64
    requires { bits ≤ 32 }
    ensures bits { result ≡ leading_bits net.now bits }
{
    u64::from(v4_address(net)) >> (V4_BITS - bits)
}

/// The address as a number of 32 bits.
pub(crate) fn v4_address(net: &Net) -> u32
    ensures address { result ≡ net.now.address }
    ensures network { IsNetwork net.now }
{
    net.known();
    net.address() as u32
}
