//! A case: servers, and a transaction over them.
use crate::transactions::shown::{show, show_try};
use crate::transactions::words::{id, made_of, outcome_of, server_of, settings_of};
use crate::words::{number, numbers_of, places_of};
use hickory_resolver_servers::Servers;
use hickory_resolver_transactions::{Settings, Transaction};
use std::alloc::{AllocError, Global};

/// Servers, and a transaction over them.
#[derive(Drop)]
pub struct Case {
    settings: Settings,
    servers: Servers,
    transaction: Transaction,
}

impl Case {
    /// No servers.
    pub fn new(alloc: Global) -> Result<Case, AllocError> {
        let settings = settings_of("");
        let servers = Servers::new(alloc);
        let transaction = Transaction::new(alloc, settings, servers.as_slice())?;
        Ok(Case {
            settings,
            servers,
            transaction,
        })
    }

    /// Does what a line says, which is printed.
    pub fn take(&mut self, rt: &impl Print, alloc: Global, line: &str) -> Result<(), AllocError> {
        let _ = rt.println(line);
        if line.starts_with("options") {
            self.settings = settings_of(line);
            self.servers = Servers::new(alloc);
            return Ok(());
        }
        if line.starts_with("server") {
            return self.servers.push(server_of(alloc, line)?);
        }
        let numbers = numbers_of(alloc, line)?;
        if line.starts_with("try ") {
            let channel = number(&numbers, 0);
            show_try(rt, self.transaction.try_at(channel, id(&numbers, 1)));
            return Ok(());
        }
        if self.take_event(alloc, line, &numbers)? {
            show(rt, alloc, &self.transaction)?;
        }
        Ok(())
    }

    // Whether the line says an event.
    fn take_event(
        &mut self,
        alloc: Global,
        line: &str,
        numbers: &[u64],
    ) -> Result<bool, AllocError> {
        let (word, _) = line.split_once(' ').unwrap_or((line, ""));
        let channel = number(numbers, 0);
        match word {
            "begin" => self.begin(alloc)?,
            "round" => self.transaction.begin_round(places_of(alloc, numbers)?),
            "came" => self.reply(line, numbers)?,
            "refused" => self.transaction.opt_was_refused(channel, id(numbers, 1))?,
            "letters" => {
                self.transaction
                    .other_letters_came(channel, id(numbers, 1))?;
            }
            "failed" => self.transaction.failed(channel)?,
            "expired" => self.transaction.expired(channel)?,
            _ => return Ok(self.take_small(word, numbers)),
        }
        Ok(true)
    }

    // The same of those that take no memory.
    fn take_small(&mut self, word: &str, numbers: &[u64]) -> bool {
        let channel = number(numbers, 0);
        match word {
            "freed" => self.transaction.freed(),
            "given" => self.transaction.give_up_oldest(),
            "sent" => self.transaction.sent(&made_of(numbers)),
            "blocked" => self.transaction.blocked(channel),
            "full" => self.transaction.unsent(channel),
            _ => return false,
        }
        true
    }

    fn begin(&mut self, alloc: Global) -> Result<(), AllocError> {
        let servers = self.servers.as_slice();
        self.transaction = Transaction::new(alloc, self.settings, servers)?;
        Ok(())
    }

    fn reply(&mut self, line: &str, numbers: &[u64]) -> Result<(), AllocError> {
        let (channel, reply) = (number(numbers, 0), number(numbers, 2));
        self.transaction
            .came(channel, id(numbers, 1), outcome_of(line), reply)
    }
}
