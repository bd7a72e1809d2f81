//! The texts of inet.

ghost use Rattle.std.specs.Prelude.{◌≡◌, ◌+◌, ◌*◌};
ghost use Rattle.value_text.specs.NetTexts.{IsNet, network_of};
ghost use Rattle.value_text.specs.Parts.{net_text};
ghost use Rattle.value_text.specs.TextReading.{Gives};
ghost use Rattle.value_text.specs.Reading.{grown, decimal_at, pointed_at, prefix_at, ending_at, front_at, net_at};

use crate::{Reading, byte};
use block_model::Net;

/// An address as it is written.
#[derive(Clone, Copy)]
pub struct Address {
    pub first: u8,
    pub second: u8,
    pub third: u8,
    pub fourth: u8,
    pub prefix: Option<u8>,
}

/// Four numbers joined by points, and optionally a prefix.
#[tactic(auto, unfolding(crate::specs::Reading::net_at))]
pub fn read_address(text: &[u8]) -> Reading<'_, Address>
    ensures { Gives (λ x. (net_text x.0, x.1.now)) result (net_at text.now) }
{
    let ((first, second, third), rest) = front(text)?;
    let ((fourth, prefix), rest) = ending(rest)?;
    let address = Address {
        first,
        second,
        third,
        fourth,
        prefix,
    };
    Ok((address, rest))
}

#[tactic(auto, unfolding(crate::specs::Reading::front_at))]
fn front(text: &[u8]) -> Reading<'_, (u8, u8, u8)>
    ensures { Gives (λ x. ((x.0.0, (x.0.1, x.0.2)), x.1.now)) result (front_at text.now) }
{
    let (first, rest) = pointed(text)?;
    let (second, rest) = pointed(rest)?;
    let (third, rest) = pointed(rest)?;
    Ok(((first, second, third), rest))
}

#[tactic(auto, unfolding(crate::specs::Reading::ending_at))]
fn ending(text: &[u8]) -> Reading<'_, (u8, Option<u8>)>
    ensures { Gives (λ x. ((x.0.0, x.0.1), x.1.now)) result (ending_at text.now) }
{
    let (last, rest) = decimal(text, 255)?;
    let (prefix, rest) = prefix(rest)?;
    Ok(((last, prefix), rest))
}

#[tactic(auto, unfolding(crate::specs::Reading::pointed_at))]
fn pointed(text: &[u8]) -> Reading<'_, u8>
    ensures { Gives (λ x. (x.0, x.1.now)) result (pointed_at text.now) }
{
    let (n, rest) = decimal(text, 255)?;
    let rest = byte(rest, b'.')?;
    Ok((n, rest))
}

#[tactic(auto, unfolding(crate::specs::Reading::prefix_at))]
fn prefix(text: &[u8]) -> Reading<'_, Option<u8>>
    ensures { Gives (λ x. (x.0, x.1.now)) result (prefix_at text.now) }
{
    match text {
        [b'/', rest @ ..] => {
            let (bits, rest) = decimal(rest, 32)?;
            Ok((Some(bits), rest))
        }
        _ => Ok((None, text)),
    }
}

/// A number without leading zeros, as far as it stays within the limit.
#[tactic(auto, unfolding(crate::specs::Reading::decimal_at))]
fn decimal(text: &[u8], limit: u8) -> Reading<'_, u8>
    ensures { Gives (λ x. (x.0, x.1.now)) result (decimal_at limit text.now) }
{
    match text {
        [b'0', rest @ ..] => Ok((0, rest)),
        [c @ b'1'..=b'9', rest @ ..] => Ok(grown(*c - b'0', rest, limit)),
        _ => Err(text),
    }
}

/// The number with the digits behind it, as far as it stays within the limit.
fn grown(first: u8, text: &[u8], limit: u8) -> (u8, &[u8])
    ensures { (result.0, result.1.now) ≡ grown limit first text.now }
{
    let mut n = first;
    let mut rest = text;
    'digits: while let [c @ b'0'..=b'9', more @ ..] = rest {
        let next = 10 * u16::from(n) + u16::from(*c - b'0');
        if next > u16::from(limit) {
            break;
        }
        n = next as u8;
        rest = more;
    }
    (n, rest)
}

impl Address {
    /// The network that it denotes: by itself where no prefix is written.
    pub fn network(&self) -> Net
        requires { IsNet (net_text self.now) }
        ensures { result ≡ network_of (net_text self.now) }
    {
        let high = (u32::from(self.first) << 24) + (u32::from(self.second) << 16);
        let low = (u32::from(self.third) << 8) + u32::from(self.fourth);
        let Some(net) = Net::v4(high + low, self.prefix.unwrap_or(32)) else {
            unreachable!()
        };
        net
    }
}
