//! What is done with which domain.
ghost use Rattle.std.specs.Prelude.{◌≡◌, [], IfOk, OnOk};
ghost use Rattle.forwarder_settings.specs.LocalRules.{local_rules, served_rules, with_rules};

use crate::blocked::read_blocked;
use crate::domains::RuleLine;
use crate::reading::ForwarderSettings;
use domain_table::DomainTable;
use hickory_resolver_hosts::Hosts;
use local_answers::{DomainRule, LocalData};
use std::alloc::{AllocError, Global};
use std::hash::BuildHasher;

impl ForwarderSettings {
    /// What a forwarder answers by itself: these hosts; the zones that are served locally, where they are; the names
    /// that a file of blocked names has (`read_blocked`); and what lines say of domains. A line counts before the file,
    /// and the file before the zones. The hasher is for names, which come from strangers. The only error is to be out
    /// of memory.
    pub fn local_data<S: BuildHasher + Drop>(
        &self,
        alloc: Global,
        hosts: Hosts<S>,
        blocked: &[u8],
        hasher: S,
    ) -> Result<LocalData<S>, AllocError>
        ensures { IfOk result (λ local. (local.hosts ≡ hosts) × (local.rules ≡ local_rules self.now blocked.now)) }
    {
        let mut local = LocalData {
            hosts,
            rules: DomainTable::with_hasher(alloc, hasher),
        };
        match self.fill(alloc, blocked, &mut local) {
            Ok(()) => Ok(local),
            Err(error) => Err(error),
        }
    }

    // Puts all rules into a table that has none.
    fn fill<S: BuildHasher>(
        &self,
        alloc: Global,
        blocked: &[u8],
        local: &mut LocalData<S>,
    ) -> Result<(), AllocError>
        requires { local.old.rules ≡ [] }
        ensures hosts { local.new.hosts ≡ local.old.hosts }
        ensures ok { OnOk result (local.new.rules ≡ local_rules self.now blocked.now) }
    {
        self.serve_zones(local)?;
        read_blocked(alloc, blocked, &mut local.rules)?;
        put_rules(&self.rules, &mut local.rules)
    }

    // The zones that are served, where they are.
    fn serve_zones<S: BuildHasher>(&self, local: &mut LocalData<S>) -> Result<(), AllocError>
        requires { local.old.rules ≡ [] }
        ensures hosts { local.new.hosts ≡ local.old.hosts }
        ensures ok { OnOk result (local.new.rules ≡ served_rules self.now) }
    {
        if self.serves_locally {
            local.serve_locally()
        } else {
            Ok(())
        }
    }
}

// Puts what lines say in place of what the table has.
fn put_rules<S: BuildHasher>(
    lines: &[RuleLine],
    rules: &mut DomainTable<DomainRule, S>,
) -> Result<(), AllocError>
    ensures { OnOk result (rules.new ≡ with_rules lines.now rules.old) }
{
    for line in lines {
        rules.insert(&line.domain, line.rule)?;
    }
    Ok(())
}
