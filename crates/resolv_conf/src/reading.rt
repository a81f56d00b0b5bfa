//! What the lines say, one after another.
ghost use Rattle.std.specs.Prelude.{◌≡◌, ◌≢◌, IfOk, MatchOption, OnOk, true, false};
ghost use Rattle.std.specs.Char.{is_ascii};
ghost use Rattle.std.specs.List.{list_all};
ghost use Rattle.resolv_conf.specs.Names.{counts, name_of};
ghost use Rattle.resolv_conf.specs.Said.{domain_named, domain_said, line_said, lines_said, name_said, names_said, option_said, options_said, options_line_said, passes, reading_begun, search_said, server_said, servers_said, with_said};
ghost use Rattle.resolv_conf.specs.OptionWord.{option_of};
ghost use Rattle.resolv_conf.specs.Text.{lines_of, words};

use crate::keyword::{Keyword, keyword_of};
use crate::option_word::{OptionWord, option_of};
use crate::passed_over::{PassedOver, Reason};
use crate::server::{Scope, Server, read_server};
use crate::settings::Settings;
use crate::text::{Lines, Words, has_word, split_word};
use hickory_proto_core::{Name, NameError};
use std::alloc::{AllocError, Global};
use std::marker::Model;
use std::net::IpAddr;
use std::str;

/// What the lines said so far.
#[derive(Drop)]
pub struct Reading {
    /// The addresses of the servers.
    pub addresses: Vec<IpAddr>,
    /// The scope of each.
    pub scopes: Vec<Option<Scope>>,
    /// The search list.
    pub search: Vec<Name>,
    /// The options.
    pub settings: Settings,
    /// What was passed over.
    pub passed_over: Vec<PassedOver>,
}

impl Model for Reading {
    ghost use Rattle.resolv_conf.specs.Said.{ReadingValue};

    ghost Value = { ReadingValue };

    ghost view = { λ r. record {
      addresses = r.addresses.items;
      scopes = r.scopes.items;
      search = r.search.items;
      settings = r.settings;
      passed_over = r.passed_over.items;
    } };
}

impl Reading {
    /// Nothing is read. Takes no memory.
    pub fn new(alloc: Global) -> Reading
        ensures { result ≡ reading_begun }
    {
        Reading {
            addresses: Vec::new(alloc),
            scopes: Vec::new(alloc),
            search: Vec::new(alloc),
            settings: Settings::default(),
            passed_over: Vec::new(alloc),
        }
    }

    /// Reads all lines. Of those that name domains the last one counts, whose number is given.
    pub fn read(&mut self, octets: &[u8], last: Option<usize>) -> Result<(), AllocError>
        ensures { OnOk result (self.new ≡ with_said self.old (lines_said last 1 (lines_of octets.now))) }
    {
        let mut number = 0;
        for line in Lines::new(octets) {
            number += 1;
            self.read_line(number, line, last)?;
        }
        Ok(())
    }

    fn read_line(
        &mut self,
        number: usize,
        line: &[u8],
        last: Option<usize>,
    ) -> Result<(), AllocError>
        ensures { OnOk result (self.new ≡ with_said self.old (line_said last number line.now)) }
    {
        let (_, values) = split_word(line);
        match keyword_of(line) {
            Keyword::NameServer => self.read_server(number, values),
            Keyword::Domain => self.read_domain(number, values, last),
            Keyword::Search => self.read_search(number, values, last),
            Keyword::Options => self.read_options(number, values),
            Keyword::Other => self.pass_over(number, Reason::UnknownKeyword),
            Keyword::Nothing => Ok(()),
        }
    }

    fn read_server(&mut self, number: usize, values: &[u8]) -> Result<(), AllocError>
        ensures { OnOk result (self.new ≡ with_said self.old (servers_said number (words values.now))) }
    {
        let Some(word) = Words::new(values).next() else {
            return self.pass_over(number, Reason::NoValue);
        };
        match read_server(*self.addresses.allocator(), word)? {
            Some(server) => self.add_server(server),
            None => self.pass_over(number, Reason::NotAnAddress),
        }
    }

    fn read_domain(
        &mut self,
        number: usize,
        values: &[u8],
        last: Option<usize>,
    ) -> Result<(), AllocError>
        ensures { OnOk result (self.new ≡ with_said self.old (domain_said last number (words values.now))) }
    {
        let Some(word) = Words::new(values).next() else {
            return self.pass_over(number, Reason::NoValue);
        };
        if !counts(last, number) {
            return self.pass_over(number, Reason::Replaced);
        }
        self.read_name(number, word)
    }

    fn read_search(
        &mut self,
        number: usize,
        values: &[u8],
        last: Option<usize>,
    ) -> Result<(), AllocError>
        ensures { OnOk result (self.new ≡ with_said self.old (search_said last number (words values.now))) }
    {
        if !has_word(values) {
            return self.pass_over(number, Reason::NoValue);
        }
        if !counts(last, number) {
            return self.pass_over(number, Reason::Replaced);
        }
        self.read_names(number, values)
    }

    fn read_names(&mut self, number: usize, values: &[u8]) -> Result<(), AllocError>
        ensures { OnOk result (self.new ≡ with_said self.old (names_said number (words values.now))) }
    {
        for word in Words::new(values) {
            self.read_name(number, word)?;
        }
        Ok(())
    }

    fn read_name(&mut self, number: usize, word: &[u8]) -> Result<(), AllocError>
        ensures { OnOk result (self.new ≡ with_said self.old (name_said number word.now)) }
    {
        match read_name(*self.search.allocator(), word)? {
            Some(name) => self.add_name(name),
            None => self.pass_over(number, Reason::NotAName),
        }
    }

    fn read_options(&mut self, number: usize, values: &[u8]) -> Result<(), AllocError>
        ensures { OnOk result (self.new ≡ with_said self.old (options_line_said number (words values.now))) }
    {
        if !has_word(values) {
            return self.pass_over(number, Reason::NoValue);
        }
        self.read_each_option(number, values)
    }

    fn read_each_option(&mut self, number: usize, values: &[u8]) -> Result<(), AllocError>
        ensures { OnOk result (self.new ≡ with_said self.old (options_said number (words values.now))) }
    {
        for word in Words::new(values) {
            self.read_option(number, word)?;
        }
        Ok(())
    }

    fn read_option(&mut self, number: usize, word: &[u8]) -> Result<(), AllocError>
        ensures { OnOk result (self.new ≡ with_said self.old (option_said number (option_of word.now))) }
    {
        let option = option_of(word);
        match option {
            OptionWord::PassedOver(reason) => self.pass_over(number, reason),
            _ => {
                self.settings.set(option);
                Ok(())
            }
        }
    }

    /// Adds a server behind the others.
    pub fn add_server(&mut self, server: Server) -> Result<(), AllocError>
        ensures { OnOk result (self.new ≡ with_said self.old (server_said server)) }
    {
        let Server { address, scope } = server;
        self.addresses.push(address)?;
        self.scopes.push(scope)?;
        Ok(())
    }

    /// Adds a domain at the end of the search list.
    pub fn add_name(&mut self, name: Name) -> Result<(), AllocError>
        ensures { OnOk result (self.new ≡ with_said self.old (domain_named name)) }
    {
        self.search.push(name)?;
        Ok(())
    }

    fn pass_over(&mut self, line: usize, reason: Reason) -> Result<(), AllocError>
        ensures { OnOk result (self.new ≡ with_said self.old (passes line reason)) }
    {
        self.passed_over.push(PassedOver { line, reason })?;
        Ok(())
    }
}

// Whether this is the line that counts.
fn counts(last: Option<usize>, number: usize) -> bool
    ensures { result ≡ counts last number }
{
    match last {
        Some(line) => line == number,
        None => false,
    }
}

/// The domain name that a word is, if it is one.
pub fn read_name(alloc: Global, word: &[u8]) -> Result<Option<Name>, AllocError>
    ensures { IfOk result (λ name. name ≡ name_of word.now) }
{
    let Some(text) = ascii_text(word) else {
        return Ok(None);
    };
    match Name::from_ascii(alloc, text) {
        Ok(name) => Ok(Some(name)),
        Err(error) => {
            check_memory(error)?;
            Ok(None)
        }
    }
}

// Whether an error is other than out of memory.
fn check_memory(error: NameError) -> Result<(), AllocError>
    ensures { OnOk result (error ≢ NameError.OutOfMemory) }
{
    match error {
        NameError::OutOfMemory => Err(AllocError),
        _ => Ok(()),
    }
}

// A word of ASCII as a text.
fn ascii_text(word: &[u8]) -> Option<&str>
    ensures { MatchOption result (list_all is_ascii word.now ≡ false)
        (λ text. (list_all is_ascii word.now ≡ true) × (text.now ≡ word.now)) }
{
    if !is_ascii_word(word) {
        return None;
    }
    match str::from_utf8(word) {
        Ok(text) => Some(text),
        Err(_) => None,
    }
}

fn is_ascii_word(word: &[u8]) -> bool
    ensures { result ≡ list_all is_ascii word.now }
{
    word.iter().all(|b| b.is_ascii())
}
