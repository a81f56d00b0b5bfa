//! Zones that are served here unless a program says otherwise.
ghost use Rattle.std.specs.Prelude.{◌≡◌, map, OnOk, OnErr};
ghost use Rattle.local_answers.specs.Zones.{FirstServed, locally_served_zones, with_served};

use crate::rules::DomainRule;
use domain_table::DomainTable;
use std::alloc::AllocError;
use std::hash::BuildHasher;

static ZONES: [&[u8]; 101] = [
    // The names of private addresses (RFC 6303, section 4.1).
    b"\x0210\x07in-addr\x04arpa\x00",
    b"\x0216\x03172\x07in-addr\x04arpa\x00",
    b"\x0217\x03172\x07in-addr\x04arpa\x00",
    b"\x0218\x03172\x07in-addr\x04arpa\x00",
    b"\x0219\x03172\x07in-addr\x04arpa\x00",
    b"\x0220\x03172\x07in-addr\x04arpa\x00",
    b"\x0221\x03172\x07in-addr\x04arpa\x00",
    b"\x0222\x03172\x07in-addr\x04arpa\x00",
    b"\x0223\x03172\x07in-addr\x04arpa\x00",
    b"\x0224\x03172\x07in-addr\x04arpa\x00",
    b"\x0225\x03172\x07in-addr\x04arpa\x00",
    b"\x0226\x03172\x07in-addr\x04arpa\x00",
    b"\x0227\x03172\x07in-addr\x04arpa\x00",
    b"\x0228\x03172\x07in-addr\x04arpa\x00",
    b"\x0229\x03172\x07in-addr\x04arpa\x00",
    b"\x0230\x03172\x07in-addr\x04arpa\x00",
    b"\x0231\x03172\x07in-addr\x04arpa\x00",
    b"\x03168\x03192\x07in-addr\x04arpa\x00",
    // The names of further addresses of IPv4 that nobody has (RFC 6303, section 4.2).
    b"\x010\x07in-addr\x04arpa\x00",
    b"\x03127\x07in-addr\x04arpa\x00",
    b"\x03254\x03169\x07in-addr\x04arpa\x00",
    b"\x012\x010\x03192\x07in-addr\x04arpa\x00",
    b"\x03100\x0251\x03198\x07in-addr\x04arpa\x00",
    b"\x03113\x010\x03203\x07in-addr\x04arpa\x00",
    b"\x03255\x03255\x03255\x03255\x07in-addr\x04arpa\x00",
    // The names of the addresses that providers share (RFC 7793, section 2.1).
    b"\x0264\x03100\x07in-addr\x04arpa\x00",
    b"\x0265\x03100\x07in-addr\x04arpa\x00",
    b"\x0266\x03100\x07in-addr\x04arpa\x00",
    b"\x0267\x03100\x07in-addr\x04arpa\x00",
    b"\x0268\x03100\x07in-addr\x04arpa\x00",
    b"\x0269\x03100\x07in-addr\x04arpa\x00",
    b"\x0270\x03100\x07in-addr\x04arpa\x00",
    b"\x0271\x03100\x07in-addr\x04arpa\x00",
    b"\x0272\x03100\x07in-addr\x04arpa\x00",
    b"\x0273\x03100\x07in-addr\x04arpa\x00",
    b"\x0274\x03100\x07in-addr\x04arpa\x00",
    b"\x0275\x03100\x07in-addr\x04arpa\x00",
    b"\x0276\x03100\x07in-addr\x04arpa\x00",
    b"\x0277\x03100\x07in-addr\x04arpa\x00",
    b"\x0278\x03100\x07in-addr\x04arpa\x00",
    b"\x0279\x03100\x07in-addr\x04arpa\x00",
    b"\x0280\x03100\x07in-addr\x04arpa\x00",
    b"\x0281\x03100\x07in-addr\x04arpa\x00",
    b"\x0282\x03100\x07in-addr\x04arpa\x00",
    b"\x0283\x03100\x07in-addr\x04arpa\x00",
    b"\x0284\x03100\x07in-addr\x04arpa\x00",
    b"\x0285\x03100\x07in-addr\x04arpa\x00",
    b"\x0286\x03100\x07in-addr\x04arpa\x00",
    b"\x0287\x03100\x07in-addr\x04arpa\x00",
    b"\x0288\x03100\x07in-addr\x04arpa\x00",
    b"\x0289\x03100\x07in-addr\x04arpa\x00",
    b"\x0290\x03100\x07in-addr\x04arpa\x00",
    b"\x0291\x03100\x07in-addr\x04arpa\x00",
    b"\x0292\x03100\x07in-addr\x04arpa\x00",
    b"\x0293\x03100\x07in-addr\x04arpa\x00",
    b"\x0294\x03100\x07in-addr\x04arpa\x00",
    b"\x0295\x03100\x07in-addr\x04arpa\x00",
    b"\x0296\x03100\x07in-addr\x04arpa\x00",
    b"\x0297\x03100\x07in-addr\x04arpa\x00",
    b"\x0298\x03100\x07in-addr\x04arpa\x00",
    b"\x0299\x03100\x07in-addr\x04arpa\x00",
    b"\x03100\x03100\x07in-addr\x04arpa\x00",
    b"\x03101\x03100\x07in-addr\x04arpa\x00",
    b"\x03102\x03100\x07in-addr\x04arpa\x00",
    b"\x03103\x03100\x07in-addr\x04arpa\x00",
    b"\x03104\x03100\x07in-addr\x04arpa\x00",
    b"\x03105\x03100\x07in-addr\x04arpa\x00",
    b"\x03106\x03100\x07in-addr\x04arpa\x00",
    b"\x03107\x03100\x07in-addr\x04arpa\x00",
    b"\x03108\x03100\x07in-addr\x04arpa\x00",
    b"\x03109\x03100\x07in-addr\x04arpa\x00",
    b"\x03110\x03100\x07in-addr\x04arpa\x00",
    b"\x03111\x03100\x07in-addr\x04arpa\x00",
    b"\x03112\x03100\x07in-addr\x04arpa\x00",
    b"\x03113\x03100\x07in-addr\x04arpa\x00",
    b"\x03114\x03100\x07in-addr\x04arpa\x00",
    b"\x03115\x03100\x07in-addr\x04arpa\x00",
    b"\x03116\x03100\x07in-addr\x04arpa\x00",
    b"\x03117\x03100\x07in-addr\x04arpa\x00",
    b"\x03118\x03100\x07in-addr\x04arpa\x00",
    b"\x03119\x03100\x07in-addr\x04arpa\x00",
    b"\x03120\x03100\x07in-addr\x04arpa\x00",
    b"\x03121\x03100\x07in-addr\x04arpa\x00",
    b"\x03122\x03100\x07in-addr\x04arpa\x00",
    b"\x03123\x03100\x07in-addr\x04arpa\x00",
    b"\x03124\x03100\x07in-addr\x04arpa\x00",
    b"\x03125\x03100\x07in-addr\x04arpa\x00",
    b"\x03126\x03100\x07in-addr\x04arpa\x00",
    b"\x03127\x03100\x07in-addr\x04arpa\x00",
    // The names of addresses of IPv6 that nobody has (RFC 6303, sections 4.3 to 4.6).
    b"\x010\x010\x010\x010\x010\x010\x010\x010\x010\x010\x010\x010\x010\x010\x010\x010\
      \x010\x010\x010\x010\x010\x010\x010\x010\x010\x010\x010\x010\x010\x010\x010\x010\x03ip6\x04arpa\x00",
    b"\x011\x010\x010\x010\x010\x010\x010\x010\x010\x010\x010\x010\x010\x010\x010\x010\
      \x010\x010\x010\x010\x010\x010\x010\x010\x010\x010\x010\x010\x010\x010\x010\x010\x03ip6\x04arpa\x00",
    b"\x01d\x01f\x03ip6\x04arpa\x00",
    b"\x018\x01e\x01f\x03ip6\x04arpa\x00",
    b"\x019\x01e\x01f\x03ip6\x04arpa\x00",
    b"\x01a\x01e\x01f\x03ip6\x04arpa\x00",
    b"\x01b\x01e\x01f\x03ip6\x04arpa\x00",
    b"\x018\x01b\x01d\x010\x011\x010\x010\x012\x03ip6\x04arpa\x00",
    // Domains that no server of the root knows (RFC 6762, section 22.1; RFC 8375, section 4; RFC 9462, section 8.1;
    // RFC 9476, section 2).
    b"\x05local\x00",
    b"\x04home\x04arpa\x00",
    b"\x08resolver\x04arpa\x00",
    b"\x03alt\x00",
];

/// The zones that are served here unless a program says otherwise (RFC 6303, section 4; RFC 7793; RFC 6762; RFC 8375;
/// RFC 9462; RFC 9476), each as the octets of its name.
pub fn locally_served_zones() -> &'static [&'static [u8]]
    ensures { map (λ zone. zone.now) result.now ≡ locally_served_zones }
{
    &ZONES
}

/// Serves empty zones: those that have another rule get this one. A refused call is out of memory; the zones before the
/// one that was refused are then served.
pub fn serve_all<S: BuildHasher>(
    rules: &mut DomainTable<DomainRule, S>,
    zones: &[&[u8]],
) -> Result<(), AllocError>
    ensures ok { OnOk result (rules.new ≡ with_served (map (λ zone. zone.now) zones.now) rules.old) }
    ensures err { OnErr result (FirstServed (map (λ zone. zone.now) zones.now) rules.old rules.new) }
{
    for zone in zones {
        rules.insert(zone, DomainRule::Serve)?;
    }
    Ok(())
}
