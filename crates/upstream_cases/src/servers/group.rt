//! A group of servers, and what lines do with it.
use crate::servers::words::{config_of, strategy_of};
use crate::words::{number, numbers_of, places_of};
use hickory_resolver_servers::{RoundStart, Server, Servers};
use std::alloc::{AllocError, Global};

/// A group of servers.
#[derive(Drop)]
pub struct Group {
    servers: Servers,
}

impl Group {
    /// No servers.
    pub fn new(alloc: Global) -> Group {
        Group {
            servers: Servers::new(alloc),
        }
    }

    /// Does what a line says, or prints it.
    pub fn take(&mut self, rt: &impl Print, alloc: Global, line: &str) -> Result<(), AllocError> {
        let (word, text) = line.split_once(' ').unwrap_or((line, ""));
        match word {
            "group" if line == "group" => {
                self.servers = Servers::new(alloc);
                Ok(())
            }
            "server" => self.add(rt, alloc, text),
            "order" => self.show_order(rt, alloc, text),
            "known" | "answered" | "failed" | "timeout" | "release" => {
                let numbers = numbers_of(alloc, text)?;
                self.take_numbers(rt, word, &numbers);
                Ok(())
            }
            _ => {
                let _ = rt.println(line);
                Ok(())
            }
        }
    }

    // Adds a server.
    fn add(&mut self, rt: &impl Print, alloc: Global, text: &str) -> Result<(), AllocError> {
        let number = self.servers.as_slice().len().min(255) as u8;
        let config = config_of(alloc, number, text)?;
        let server = Server::new(&config, Vec::new(alloc));
        show_server(rt, &server);
        self.servers.push(server)
    }

    // What is known of each at a moment, or something came of a try.
    fn take_numbers(&mut self, rt: &impl Print, word: &str, numbers: &[u64]) {
        match (word, numbers) {
            ("known", [now]) => show_known(rt, self.servers.as_slice(), *now),
            ("release", [transaction]) => self.servers.release(*transaction),
            ("answered", [server, sent_at, now]) => {
                self.servers.answered(*server as usize, *sent_at, *now);
            }
            ("failed", [server, timeout, sent_at, now]) => {
                self.servers
                    .failed(*server as usize, *timeout, *sent_at, *now);
            }
            ("timeout", [server, timeout, sent_at, due, now]) => {
                self.servers
                    .timed_out(*server as usize, *timeout, *sent_at, *due, *now);
            }
            _ => {}
        }
    }

    // The order of a round: its transaction, its place, the moment, and the servers that are left.
    fn show_order(&mut self, rt: &impl Print, alloc: Global, text: &str) -> Result<(), AllocError> {
        let (strategy, rest) = strategy_of(text);
        let numbers = numbers_of(alloc, rest)?;
        let round = RoundStart {
            transaction: number(&numbers, 0),
            place: number(&numbers, 1) as usize,
            moment: number(&numbers, 2),
        };
        let left = places_of(alloc, numbers.get(3..).unwrap_or(&[]))?;
        let order = self.servers.order(alloc, strategy, &round, &left)?;
        show_places(rt, &order);
        Ok(())
    }
}

fn show_port(rt: &impl Print, protocol: &str, port: Option<u16>) {
    let _ = match port {
        Some(port) => print!(rt; " {protocol} {port}"),
        None => print!(rt; " {protocol} none"),
    };
}

fn show_server(rt: &impl Print, server: &Server) {
    let _ = rt.print("server");
    show_port(rt, "udp", server.udp_port);
    show_port(rt, "tcp", server.tcp_port);
    let trusted = server.trust_negative_responses;
    let _ = println!(rt; " trusted {trusted}");
}

fn show_places(rt: &impl Print, order: &[usize]) {
    let _ = rt.print("order");
    for place in order {
        let _ = print!(rt; " {place}");
    }
    let _ = rt.println("");
}

fn show_known(rt: &impl Print, servers: &[Server], now: u64) {
    let _ = rt.print("known");
    for server in servers {
        show_round_trip(rt, server.known(now));
    }
    let _ = rt.println("");
}

fn show_round_trip(rt: &impl Print, known: Option<u32>) {
    let _ = match known {
        Some(round_trip) => print!(rt; " {round_trip}"),
        None => print!(rt; " -"),
    };
}
