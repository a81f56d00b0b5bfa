//! What a file says, as lines of a script.
ghost use Rattle.std.specs.Prelude.{◌≡◌, ◌++◌, IfOk, OnOk, map, string_bytes};
ghost use Rattle.resolv_conf.specs.Script.{ndots_line, script_lines, search_line, strategy_lines};

use crate::configuration::ResolvConf;
use hickory_proto_core::Name;
use hickory_resolver_config::LookupIpStrategy;
use std::alloc::{AllocError, Global};

/// Lines of a script that set what the file says: `option ndots`, with `no-aaaa` `option ip_strategy`, and `search` for
/// each domain of the search list. A script can say nothing of servers, of how often and how long they are asked, and
/// of EDNS.
pub fn script_lines(alloc: Global, conf: &ResolvConf) -> Result<Vec<String>, AllocError>
    ensures { IfOk result (λ lines. map string_bytes lines.items ≡ script_lines conf.now) }
{
    let mut lines = Vec::new(alloc);
    lines.push(ndots_line(alloc, conf.options.ndots)?)?;
    push_strategy(alloc, &mut lines, conf.options.ip_strategy)?;
    push_search(alloc, &mut lines, conf.config.search())?;
    Ok(lines)
}

fn ndots_line(alloc: Global, ndots: usize) -> Result<String, AllocError>
    ensures { IfOk result (λ line. string_bytes line ≡ ndots_line ndots) }
{
    format!(in alloc; "option ndots {ndots}")
}

// The families, where the file says them.
fn push_strategy(
    alloc: Global,
    lines: &mut Vec<String>,
    strategy: LookupIpStrategy,
) -> Result<(), AllocError>
    ensures { OnOk result (map string_bytes lines.new.items
        ≡ map string_bytes lines.old.items ++ strategy_lines strategy) }
{
    if strategy == LookupIpStrategy::Ipv4Only {
        lines.push(String::from_str(alloc, "option ip_strategy Ipv4Only")?)?;
    }
    Ok(())
}

fn push_search(alloc: Global, lines: &mut Vec<String>, domains: &[Name]) -> Result<(), AllocError>
    ensures { OnOk result (map string_bytes lines.new.items
        ≡ map string_bytes lines.old.items ++ map search_line domains.now) }
{
    for domain in domains {
        lines.push(search_line(alloc, domain)?)?;
    }
    Ok(())
}

fn search_line(alloc: Global, domain: &Name) -> Result<String, AllocError>
    ensures { IfOk result (λ line. string_bytes line ≡ search_line domain.now) }
{
    format!(in alloc; "search {domain}")
}
