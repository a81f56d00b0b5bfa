//! Files that are said line by line before the first request.
ghost use Rattle.std.specs.Prelude.{◌≡◌, [], OnErr, OnOk};
ghost use Rattle.conversation.specs.Files.{with_text};

use std::alloc::AllocError;
use std::marker::Model;

/// A file whose lines a conversation takes.
#[derive(Clone, Copy, Debug, PartialEq, Eq)]
pub enum FileKind {
    /// The file of hosts.
    Hosts,
    /// The file resolv.conf.
    ResolvConf,
}

/// What was said of the files.
#[derive(Drop)]
pub struct Files {
    hosts: Vec<u8>,
    resolv: Vec<u8>,
}

impl Model for Files {
    ghost use Rattle.conversation.specs.Files.{FilesValue};

    ghost Value = { FilesValue };

    ghost view = { λ f. record { hosts = f.hosts.items; resolv = f.resolv.items } };
}

impl Files {
    /// A file of hosts, and no line of a resolv.conf. Takes no memory.
    pub fn new(hosts: Vec<u8>) -> Files
        ensures { result ≡ record { hosts = hosts.items; resolv = [] } }
    {
        let resolv = Vec::new(*hosts.allocator());
        Files { hosts, resolv }
    }

    /// The file of hosts.
    pub fn hosts(&self) -> &[u8]
        ensures { result.now ≡ self.now.hosts }
    {
        &self.hosts
    }

    /// The file resolv.conf.
    pub fn resolv(&self) -> &[u8]
        ensures { result.now ≡ self.now.resolv }
    {
        &self.resolv
    }

    /// Adds text at the end of a file. Out of memory changes nothing.
    pub fn add(&mut self, kind: FileKind, text: &[u8]) -> Result<(), AllocError>
        ensures ok { OnOk result (self.new ≡ with_text kind text.now self.old) }
        ensures unchanged { OnErr result (self.new ≡ self.old) }
    {
        match kind {
            FileKind::Hosts => self.hosts.extend_from_slice(text),
            FileKind::ResolvConf => self.resolv.extend_from_slice(text),
        }
    }
}
