//! Summaries of networks as bytes.

ghost use Rattle.std.specs.Prelude.{◌≡◌, ◌<◌, ◌≤◌, ◌-◌, ◌%◌, ◌^◌, ◌==◌, ◌++◌, if◌then◌else◌, nat_lt, not, Ok, Err, IfErr, IfOk, MatchResult, length, drop};
ghost use Rattle.byte_fields.specs.Fields.{field_at, number_of, put_at};
ghost use Rattle.opclass_inclusion.specs.NetEncoding.{bytes_of, field_bytes, fields_of};
ghost use Rattle.opclass_inclusion.specs.Faults.{IsFirstFault};
ghost use Rattle.opclass_inclusion.specs.NetFaults.{field_end, field_fault, fields_in};
ghost use Rattle.opclass_inclusion.specs.NetHulls.{IsSummary};
ghost use Rattle.opclass_inclusion.specs.NetReading.{read_of};

use crate::fields::{Field, byte_at, refuse_unless, whole};
use crate::net_summary::{NetSummary, V4_BITS, v4_address};
use block_model::Net;
use byte_fields::{get_u32, put_u32};
use opclass_api::Malformed;

/// How many bytes a summary has: one of flags, and the network's family, prefix and address.
pub(crate) const SIZE: usize = 7;

const NOTHING_YET: u8 = 0;

const UNMERGEABLE: u8 = 1;

const HAS_NETWORK: u8 = 2;

const V4: u8 = 4;

const FLAGS: Field = Field { at: 0, end: 1 };

const FAMILY: Field = Field { at: 1, end: 2 };

const PREFIX: Field = Field { at: 2, end: 3 };

const ADDRESS: Field = Field { at: 3, end: SIZE };

/// The fields of the bytes. Those of the network are 0 where there is none.
#[derive(Clone, Copy, Debug, PartialEq, Eq)]
pub(crate) struct NetFields {
    pub(crate) flags: u8,
    pub(crate) family: u8,
    pub(crate) prefix: u8,
    pub(crate) address: u32,
}

/// Writes the bytes of a summary to the front of `out`.
pub(crate) fn write(s: &NetSummary, out: &mut [u8])
    requires room { 7 ≤ length out.old }
    ensures size { length (bytes_of s.now) ≡ 7 }
    ensures written { out.new ≡ bytes_of s.now ++ drop 7 out.old }
{
    let fields = fields_of(s);
    out[FLAGS.at] = fields.flags;
    out[FAMILY.at] = fields.family;
    out[PREFIX.at] = fields.prefix;
    put_u32(out, ADDRESS.at, fields.address);
}

fn fields_of(s: &NetSummary) -> NetFields
    ensures { result ≡ fields_of s.now }
{
    match s {
        NetSummary::NothingYet => without_network(NOTHING_YET),
        NetSummary::Unmergeable => without_network(UNMERGEABLE),
        NetSummary::Hull(network) => NetFields {
            flags: HAS_NETWORK,
            family: network.family(),
            prefix: network.prefix(),
            address: v4_address(network),
        },
    }
}

fn without_network(flags: u8) -> NetFields
    ensures { let f : NetFields = record { flags = flags; family = 0; prefix = 0; address = 0 } in result ≡ f }
{
    NetFields {
        flags,
        family: 0,
        prefix: 0,
        address: 0,
    }
}

/// The summary that the bytes encode. `Err` exactly where they encode none.
pub(crate) fn read(bytes: &[u8]) -> Result<NetSummary, Malformed>
    ensures found { IfOk result (λ s. IsSummary s × (bytes.now ≡ bytes_of s)) }
    ensures read { MatchResult result (λ s. read_of bytes.now ≡ Ok s) (λ e. read_of bytes.now ≡ Err e.at) }
    ensures within { IfErr result (λ e. e.at ≤ length bytes.now) }
{
    whole(summary_in(&fields_in(bytes)), bytes.len(), SIZE)
}

/// The fields; one that isn't whole counts as 0.
fn fields_in(bytes: &[u8]) -> NetFields
    ensures fields { result ≡ fields_in bytes.now }
    ensures whole { length bytes.now ≡ 7 → bytes.now ≡ field_bytes result }
{
    NetFields {
        flags: byte_at(bytes, FLAGS.at),
        family: byte_at(bytes, FAMILY.at),
        prefix: byte_at(bytes, PREFIX.at),
        address: address_in(bytes),
    }
}

fn address_in(bytes: &[u8]) -> u32
    ensures address { result ≡ (if nat_lt (length bytes.now) 7 then 0 else number_of (field_at bytes.now 3 4)) }
    ensures again { 7 ≤ length bytes.now → put_at bytes.now 3 4 result ≡ bytes.now }
{
    if bytes.len() < SIZE {
        0
    } else {
        get_u32(bytes, ADDRESS.at)
    }
}

fn summary_in(fields: &NetFields) -> Result<NetSummary, Field>
    ensures found { IfOk result (λ s. IsSummary s × (fields_of s ≡ fields.now)) }
    ensures fault { IsFirstFault (field_fault fields.now) field_end result }
{
    match fields.flags {
        NOTHING_YET => {
            refuse_network(fields)?;
            Ok(NetSummary::NothingYet)
        }
        UNMERGEABLE => {
            refuse_network(fields)?;
            Ok(NetSummary::Unmergeable)
        }
        HAS_NETWORK => network_in(fields),
        _ => Err(FLAGS),
    }
}

fn refuse_network(fields: &NetFields) -> Result<(), Field>
    requires { fields.now.flags ≤ 1 }
    ensures family { IfOk result (λ ok. fields.now.family ≡ 0) }
    ensures prefix { IfOk result (λ ok. fields.now.prefix ≡ 0) }
    ensures address { IfOk result (λ ok. fields.now.address ≡ 0) }
    ensures fault { IsFirstFault (field_fault fields.now) field_end result }
{
    refuse_unless(fields.family == 0, FAMILY)?;
    refuse_unless(fields.prefix == 0, PREFIX)?;
    refuse_unless(fields.address == 0, ADDRESS)?;
    Ok(())
}

fn network_in(fields: &NetFields) -> Result<NetSummary, Field>
    requires { fields.now.flags ≡ 2 }
    ensures found { IfOk result (λ s. IsSummary s × (fields_of s ≡ fields.now)) }
    ensures fault { IsFirstFault (field_fault fields.now) field_end result }
{
    refuse_unless(fields.family == V4, FAMILY)?;
    let Some(network) = Net::v4(fields.address, fields.prefix) else {
        return Err(PREFIX);
    };
    refuse_unless(!has_host(fields.address, fields.prefix), ADDRESS)?;
    network.known();
    Ok(NetSummary::Hull(network))
}

/// Whether an address has bits past a prefix.
fn has_host(address: u32, prefix: u8) -> bool
    requires { prefix ≤ 32 }
    ensures { result ≡ not (address % 2 ^ (32 - prefix) == 0) }
{
    u64::from(address) % (1 << (V4_BITS - prefix)) != 0
}
