//! The data of records as octets (RFC 1035, sections 3.3 and 3.4.1; RFC 3596, section 2.2; RFC 2782).
ghost use Rattle.std.specs.Prelude.{◌≡◌, ◌++◌, [], ◌+◌, ◌≤◌, None, length, OnOk};
ghost use Rattle.std.specs.List.{flat_map};
ghost use Rattle.std.specs.Net.Addr.{ipv4_octets, ipv6_segments};
ghost use Rattle.hickory_proto_names.specs.Name.{label_bytes};
ghost use Rattle.hickory_proto_core.specs.Records.{data_of, mx_data, srv_data, soa_data};
ghost use Rattle.hickory_proto_wire.specs.Writing.{run_of, u16_octets};
ghost use Rattle.hickory_proto_wire.specs.Written.{name_octets, data_octets, u32_octets};
ghost use Rattle.hickory_proto_wire.specs.Refused.{first_fault, string_fault, data_fault};
ghost use Rattle.hickory_proto_wire.specs.Made.{name_flaw, data_flaw};

use crate::name_writer::{Place, put_name};
use crate::octet_writer::{put_string, put_u16, put_u32};
use crate::wire_record_data::Times;
use hickory_proto_core::{Name, RData};
use std::alloc::AllocError;
use std::net::{Ipv4Addr, Ipv6Addr};

fn put_a(out: &mut Vec<u8>, address: Ipv4Addr) -> Result<(), AllocError>
    ensures octets { OnOk result (out.new.items ≡ out.old.items ++ ipv4_octets address) }
    ensures small { OnOk result (length out.new.items ≤ length out.old.items + 4) }
    ensures four { length (ipv4_octets address) ≡ 4 }
{
    let octets = address.octets();
    out.extend_from_slice(&octets)?;
    Ok(())
}

fn put_aaaa(out: &mut Vec<u8>, address: Ipv6Addr) -> Result<(), AllocError>
    ensures octets { OnOk result (out.new.items ≡ out.old.items ++ flat_map u16_octets (ipv6_segments address)) }
    ensures small { OnOk result (length out.new.items ≤ length out.old.items + 16) }
    ensures eight { length (ipv6_segments address) ≡ 8 }
{
    let segments = address.segments();
    put_u16(out, segments[0])?;
    put_u16(out, segments[1])?;
    put_u16(out, segments[2])?;
    put_u16(out, segments[3])?;
    put_u16(out, segments[4])?;
    put_u16(out, segments[5])?;
    put_u16(out, segments[6])?;
    put_u16(out, segments[7])?;
    Ok(())
}

fn put_mx(
    places: &[Place<'_>],
    out: &mut Vec<u8>,
    preference: u16,
    exchange: &Name,
) -> Result<(), AllocError>
    ensures octets { OnOk result (out.new.items
        ≡ out.old.items ++ data_octets places.now (mx_data preference exchange.now)) }
    ensures valid { OnOk result (data_flaw (mx_data preference exchange.now) ≡ None) }
    ensures small { OnOk result (length out.new.items ≤ length out.old.items + 257) }
{
    put_u16(out, preference)?;
    put_name(places, out, exchange)?;
    Ok(())
}

// The target is written whole (RFC 2782).
fn put_srv(
    out: &mut Vec<u8>,
    priority: u16,
    weight: u16,
    port: u16,
    target: &Name,
) -> Result<(), AllocError>
    ensures octets { OnOk result (out.new.items
        ≡ out.old.items ++ data_octets [] (srv_data priority weight port target.now)) }
    ensures valid { OnOk result (data_flaw (srv_data priority weight port target.now) ≡ None) }
    ensures small { OnOk result (length out.new.items ≤ length out.old.items + 261) }
{
    put_u16(out, priority)?;
    put_u16(out, weight)?;
    put_u16(out, port)?;
    put_name(&[], out, target)?;
    Ok(())
}

// The numbers of SOA data.
fn put_times(out: &mut Vec<u8>, times: Times) -> Result<(), AllocError>
    ensures octets { OnOk result (out.new.items ≡ out.old.items ++ (u32_octets times.serial
        ++ (u32_octets times.refresh ++ (u32_octets times.retry ++ (u32_octets times.expire
        ++ u32_octets times.minimum))))) }
    ensures small { OnOk result (length out.new.items ≡ length out.old.items + 20) }
{
    put_u32(out, times.serial)?;
    put_u32(out, times.refresh)?;
    put_u32(out, times.retry)?;
    put_u32(out, times.expire)?;
    put_u32(out, times.minimum)?;
    Ok(())
}

fn put_soa(
    places: &[Place<'_>],
    out: &mut Vec<u8>,
    mname: &Name,
    rname: &Name,
    times: Times,
) -> Result<(), AllocError>
    ensures octets { OnOk result (out.new.items ≡ out.old.items ++ data_octets places.now
        (soa_data mname.now rname.now times.serial times.refresh times.retry times.expire times.minimum)) }
    ensures valid { OnOk result (data_flaw
        (soa_data mname.now rname.now times.serial times.refresh times.retry times.expire times.minimum) ≡ None) }
    ensures small { OnOk result (length out.new.items ≤ length out.old.items + 530) }
{
    put_name(places, out, mname)?;
    put_name(places, out, rname)?;
    put_times(out, times)?;
    Ok(())
}

// Strings, each behind its length.
fn put_strings(out: &mut Vec<u8>, strings: &[Vec<u8>]) -> Result<(), AllocError>
    requires { first_fault string_fault (label_bytes strings.now) ≡ None }
    ensures { OnOk result (out.new.items ≡ out.old.items ++ run_of (label_bytes strings.now)) }
{
    for i in 0..strings.len() {
        put_string(out, &strings[i])?;
    }
    Ok(())
}

// The data of a record. Names in them are compressed where RFC 1035 has the type.
pub(crate) fn put_data(
    places: &[Place<'_>],
    out: &mut Vec<u8>,
    rdata: &RData,
) -> Result<(), AllocError>
    requires { data_fault (data_of rdata.now) ≡ None }
    ensures octets { OnOk result (out.new.items ≡ out.old.items ++ data_octets places.now (data_of rdata.now)) }
    ensures valid { OnOk result (data_flaw (data_of rdata.now) ≡ None) }
    ensures small { OnOk result (length out.new.items ≤ length out.old.items + 65535) }
{
    match rdata {
        RData::A(address) => put_a(out, *address),
        RData::AAAA(address) => put_aaaa(out, *address),
        RData::CNAME(target) => put_target(places, out, target),
        RData::NS(target) => put_target(places, out, target),
        RData::PTR(target) => put_target(places, out, target),
        RData::SOA {
            mname,
            rname,
            serial,
            refresh,
            retry,
            expire,
            minimum,
        } => {
            let times = Times {
                serial: *serial,
                refresh: *refresh,
                retry: *retry,
                expire: *expire,
                minimum: *minimum,
            };
            put_soa(places, out, mname, rname, times)
        }
        RData::SRV {
            priority,
            weight,
            port,
            target,
        } => put_srv(out, *priority, *weight, *port, target),
        RData::MX {
            preference,
            exchange,
        } => put_mx(places, out, *preference, exchange),
        RData::TXT(strings) => put_strings(out, strings),
        RData::Unknown { code: _, bytes } => Ok(out.extend_from_slice(bytes)?),
    }
}

// A name alone.
fn put_target(places: &[Place<'_>], out: &mut Vec<u8>, target: &Name) -> Result<(), AllocError>
    ensures octets { OnOk result (out.new.items ≡ out.old.items ++ name_octets places.now target.now.labels) }
    ensures valid { name_flaw target.now ≡ None }
    ensures small { OnOk result (length out.new.items ≤ length out.old.items + 255) }
{
    put_name(places, out, target)?;
    Ok(())
}
